ghost use Rattle.std.specs.Prelude.{◌≡◌, ◌<◌};
ghost use Rattle.data_rows.specs.Rows.{WORDS_PER_CLASS};
ghost use Rattle.turn_scene.specs.Scene.{cave_of};
ghost use Rattle.turn_scene.specs.SpecialWords.{number_or_none, special};

use crate::rules::Rules;
use cave_words::{Class, Meaning, Word};

fn number_or_none(meaning: Option<Meaning>) -> u16
    ensures { result ≡ number_or_none meaning }
{
    match meaning {
        Some(meaning) => meaning.number,
        None => 0,
    }
}

/// The number of a word among the special words; 0 if it isn't one of them.
#[tactic(auto, using(crate::proofs::Meanings::specials), unfolding(crate::specs::SpecialWords::special))]
pub fn special(rules: &Rules<'_>, word: Word) -> u16
    ensures value { result ≡ special (cave_of rules.now) word }
    ensures within { result < WORDS_PER_CLASS }
{
    number_or_none(rules.lexicon.find_in(word, Class::Special))
}
