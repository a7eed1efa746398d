//! Which texts plays say.

use crate::cave_texts::CaveTexts;
use crate::parts::note_parts;
use crate::text_report::{TextsAsked, put_text_report};
use base_text::Text;
use cave_data::Cave;
use cave_play::logs::PlayNotes;
use cave_world::{State, Unnoted};
use check_tables::marks::MarkSet;
use data_lines::way_lines;
use play_machine::{Begun, SeenLine, Watch};
use std::alloc::{AllocError, Global};

/// The texts that plays say.
#[derive(Drop)]
pub struct SaidTexts {
    marks: MarkSet,
}

impl Watch for SaidTexts {
    ghost use Rattle.check_tables.specs.Marks.{AreMarksOf};
    ghost use Rattle.play_cover.specs.Plays.{said_at, said_at_start};
    ghost use Rattle.check_tables.specs.declared.marks.Mark.{Mark};

    type Before = ();

    type Rows = Unnoted;

    ghost Fact = { Mark };

    ghost kept = { λ _. tt };

    ghost first_facts = { said_at_start };

    ghost facts = { said_at };

    ghost HasNoted = { λ marks said. AreMarksOf marks said.marks };

    fn before(_: &State) {}

    #[tactic(auto, using(check_tables::proofs::Noting::more_marked))]
    fn start(&mut self, alloc: Global, begun: &Begun<'_>) -> Result<(), AllocError> {
        note_parts(alloc, &mut self.marks, begun.rules.cave, begun.parts)
    }

    #[tactic(auto, using(check_tables::proofs::Noting::more_marked))]
    fn see(
        &mut self,
        alloc: Global,
        seen: &SeenLine<'_, ()>,
        _: &Unnoted,
    ) -> Result<(), AllocError> {
        note_parts(alloc, &mut self.marks, seen.rules.cave, seen.parts)
    }
}

impl PlayNotes for SaidTexts {
    ghost use Rattle.play_command.specs.declared.views.CoverView.TheVariants.{Said};
    ghost use Rattle.play_cover.specs.Plays.{left_in_games, report_on_games};

    type View = TextsAsked;

    type Found = usize;

    ghost report_on = { λ database cave asked games.
        report_on_games (Said asked.view) asked.known database cave games };

    ghost found_on = { λ database cave asked games.
        left_in_games (Said asked.view) asked.known database cave games };

    #[tactic(auto, using(check_tables::proofs::Noting::none_marked))]
    fn none(alloc: Global) -> Result<SaidTexts, AllocError> {
        Ok(SaidTexts {
            marks: MarkSet::new(alloc),
        })
    }

    fn push_report(
        &self,
        alloc: Global,
        database: &[u8],
        cave: &Cave,
        asked: &TextsAsked,
        logs: usize,
        text: &mut Vec<u8>,
    ) -> Result<usize, AllocError> {
        let ways = way_lines(alloc, database)?;
        let texts = CaveTexts::of(cave);
        let mut told = Text::after(alloc, text);
        let left = put_text_report(&mut told, &texts, &ways, &self.marks, asked, logs)?;
        told.give_to(text)?;
        Ok(left)
    }
}
