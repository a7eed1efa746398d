ghost use Rattle.std.specs.Prelude.{◌≡◌, ◌≤◌, option_map};
ghost use Rattle.cave_words.specs.Words.{word_of, MAX_LETTERS, NAME_LETTERS, first_word_of};
ghost use Rattle.cave_words.specs.Words.{after_first_run, words_of};

use crate::word::Word;
use base_lines::bytes::{skip_blanks, split_word};

/// The words of a line: at most two, as the rest is ignored.
#[derive(Clone, Copy, Debug, PartialEq, Eq)]
pub struct Words {
    pub first: Option<Word>,
    pub second: Option<Word>,
}

impl Words {
    /// The words of a line, if `letters` letters of each count.
    #[tactic(auto, unfolding(crate::specs::Words::words_of))]
    pub fn of(line: &[u8], letters: u8) -> Words
        requires fewest { NAME_LETTERS ≤ letters }
        requires most { letters ≤ MAX_LETTERS }
        ensures { result ≡ words_of letters line.now }
    {
        let (first, rest) = next_word(line, letters);
        let (second, _) = next_word(rest, letters);
        Words { first, second }
    }
}

/// The first word of a line, and what follows it.
#[tactic(auto, unfolding(crate::specs::Words::first_word_of, crate::specs::Words::after_first_run))]
fn next_word(line: &[u8], letters: u8) -> (Option<Word>, &[u8])
    requires { letters ≤ MAX_LETTERS }
    ensures word { result.0 ≡ option_map (word_of letters) (first_word_of line.now) }
    ensures rest { result.1.now ≡ after_first_run line.now }
{
    let (run, rest) = split_word(skip_blanks(line));
    if run.is_empty() {
        return (None, rest);
    }
    (Some(Word::of(run, letters)), rest)
}
