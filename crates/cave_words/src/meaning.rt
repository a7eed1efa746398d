//! What a word means: a number in one of four classes.
ghost use Rattle.std.specs.Prelude.{◌≡◌};

use data_rows::WORDS_PER_CLASS;

/// The kinds of things that a word can mean.
#[derive(Clone, Copy, Debug, PartialEq, Eq)]
pub enum Class {
    Motion,
    Object,
    Action,
    Special,
}

/// What a word means.
#[derive(Clone, Copy, Debug, PartialEq, Eq)]
pub struct Meaning {
    pub class: Class,
    /// The number within the class.
    pub number: u16,
}

impl Meaning {
    ghost use Rattle.cave_words.specs.Meanings.{meaning_of};

    /// What the number of a row of words says: its thousands are the class, and the rest is the
    /// number within the class.
    pub fn of(number: u16) -> Meaning
        ensures { result ≡ meaning_of number }
    {
        let class = match number / WORDS_PER_CLASS {
            0 => Class::Motion,
            1 => Class::Object,
            2 => Class::Action,
            _ => Class::Special,
        };
        Meaning {
            class,
            number: number % WORDS_PER_CLASS,
        }
    }
}
