ghost use Rattle.std.specs.Prelude.{◌≡◌, ◌==◌, Some};
ghost use Rattle.cave_world.specs.Motions.{motion_number};
ghost use Rattle.cave_world.specs.Called.{or_no_object};
ghost use Rattle.cave_verbs.specs.Verbs.{verb_number};
ghost use Rattle.cave_turn.specs.Request.{is_of, number_of};

use crate::object_words::NamedObject;
use cave_verbs::Verb;
use cave_words::{Class, Meaning, Word};
use cave_world::{Motion, or_no_object};

/// A word, and what it means.
#[derive(Clone, Copy, Debug, PartialEq, Eq)]
pub struct SaidWord {
    pub word: Word,
    pub meaning: Option<Meaning>,
}

impl SaidWord {
    /// Whether the word is of a class.
    pub(crate) fn means(&self, class: Class) -> bool
        ensures { result ≡ is_of class self.now }
    {
        match self.meaning {
            Some(meaning) => meaning.class == class,
            None => false,
        }
    }

    /// The number of the word in its class.
    pub(crate) fn number(&self) -> u16
        ensures { result ≡ number_of self.now }
    {
        match self.meaning {
            Some(meaning) => meaning.number,
            None => 0,
        }
    }

    pub(crate) fn of_motion(&self, motion: Motion) -> bool
        ensures { result ≡ (number_of self.now == motion_number motion) }
    {
        self.number() == motion.number()
    }

    pub(crate) fn of_action(&self, verb: Verb) -> bool
        ensures { result ≡ (number_of self.now == verb_number verb) }
    {
        self.number() == verb.number()
    }

    /// The object that the word names, with the verb that was said before.
    pub(crate) fn object_named(&self, verb: Option<u16>, is_alone: bool) -> NamedObject
        ensures { result ≡ record {
          object = or_no_object (Some (number_of self.now));
          verb = verb;
          is_alone = is_alone;
        } }
    {
        NamedObject {
            object: or_no_object(Some(self.number())),
            verb,
            is_alone,
        }
    }
}
