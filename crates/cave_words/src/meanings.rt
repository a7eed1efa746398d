//! The meanings of one word that lookups can ask for.
ghost use Rattle.std.specs.Prelude.{◌≡◌};

use crate::meaning::{Class, Meaning};

/// The first meaning of a word, and its first meaning in each class.
#[derive(Clone, Copy, Debug, PartialEq, Eq)]
pub struct Meanings {
    pub first: Meaning,
    pub motion: Option<Meaning>,
    pub object: Option<Meaning>,
    pub action: Option<Meaning>,
    pub special: Option<Meaning>,
}

impl Meanings {
    ghost use Rattle.cave_words.specs.Meanings.{meaning_in_class, with_meaning};

    /// The first meaning in a class.
    pub fn in_class(&self, class: Class) -> Option<Meaning>
        ensures { result ≡ meaning_in_class class self.now }
    {
        match class {
            Class::Motion => self.motion,
            Class::Object => self.object,
            Class::Action => self.action,
            Class::Special => self.special,
        }
    }

    /// The meanings of a word after one more row. Only what is new in the row's meaning counts.
    #[tactic(auto, unfolding(crate::specs::Meanings::with_meaning))]
    pub fn with(known: Option<Meanings>, meaning: Meaning) -> Meanings
        ensures { result ≡ with_meaning known meaning }
    {
        let meanings = known.unwrap_or(Meanings {
            first: meaning,
            motion: None,
            object: None,
            action: None,
            special: None,
        });
        match meaning.class {
            Class::Motion => Meanings {
                motion: meanings.motion.or(Some(meaning)),
                ..meanings
            },
            Class::Object => Meanings {
                object: meanings.object.or(Some(meaning)),
                ..meanings
            },
            Class::Action => Meanings {
                action: meanings.action.or(Some(meaning)),
                ..meanings
            },
            Class::Special => Meanings {
                special: meanings.special.or(Some(meaning)),
                ..meanings
            },
        }
    }
}
