//! Which texts a cave has.

ghost use Rattle.std.specs.Prelude.{◌≡◌};
ghost use Rattle.play_cover.specs.Texts.{has_text, is_class_reached};

use cave_data::Cave;
use check_tables::text_kinds::{PROPS_PER_OBJECT, TextKind};
use data_rows::role::ROLE_NAMES;
use std::marker::Model;
use turn_ends::max_score;

/// A cave, with its greatest score, on which its classes depend.
#[derive(Drop)]
pub struct CaveTexts<'a> {
    cave: &'a Cave,
    max_score: u32,
}

impl<'a> Model for CaveTexts<'a> {
    ghost use Rattle.std.specs.Prelude.{◌≡◌};
    ghost use Rattle.cave_data.specs.CaveView.{CaveView, cave_code};
    ghost use Rattle.turn_ends.specs.Score.{max_score_of};

    ghost Value = { CaveView };

    ghost coded = { cave_code };

    ghost view = { λ texts. texts.cave.now };

    ghost invariant = { λ texts. texts.max_score ≡ max_score_of texts.cave.now };
}

impl<'a> CaveTexts<'a> {
    /// The texts of a cave.
    pub fn of(cave: &'a Cave) -> CaveTexts<'a>
        ensures { result ≡ cave.now }
    {
        CaveTexts {
            cave,
            max_score: max_score(cave),
        }
    }

    /// The cave.
    pub fn cave(&self) -> &'a Cave
        ensures { result.now ≡ self.now }
    {
        self.cave
    }

    /// Whether some score of the cave belongs to the class with that bound.
    #[tactic(auto, using(crate::proofs::Reaching::reaching))]
    fn is_class_reached(&self, bound: u16) -> bool
        ensures { result ≡ is_class_reached self.now bound }
    {
        // If any score belongs to a class, the greatest one up to its bound does.
        let score = u32::from(bound).min(self.max_score);
        match self.cave.class_of(score) {
            Some(rating) => rating.bound == bound,
            None => false,
        }
    }

    /// Whether the cave has the text of a kind and a number.
    pub fn has(&self, kind: TextKind, number: u16) -> bool
        ensures { result ≡ has_text self.now kind number }
    {
        let cave = self.cave;
        match kind {
            TextKind::Long => cave.long(number).is_some(),
            TextKind::Short => cave.short(number).is_some(),
            TextKind::Look => cave
                .look(number / PROPS_PER_OBJECT, number % PROPS_PER_OBJECT)
                .is_some(),
            TextKind::Name => cave.name(number).is_some(),
            TextKind::Message => cave.message(number).is_some(),
            TextKind::Role => (number as usize) < ROLE_NAMES.len(),
            TextKind::Class => self.is_class_reached(number),
        }
    }
}
