//! Rows of a database.
ghost use Rattle.std.specs.Prelude.{◌≡◌};
ghost use Rattle.data_rows.specs.Targets.{condition_of, destination_of};
ghost use Rattle.data_rows.specs.Targets.{IsConditionWithin, EndsWithin};

use crate::targets::{Condition, Destination, condition_of, destination_of};
use arrayvec::ArrayVec;

/// The most numbers in the list of a row: the motions of a way, or the places that have a bit.
pub const MAX_LIST: usize = 40;

/// How many numbers a class of words has. The numbers of motions come first, then those of objects,
/// of actions and of special words.
pub const WORDS_PER_CLASS: u16 = 1000;

/// A way out of a place: where to, and the motions that take it.
#[derive(Debug, Drop)]
pub struct Row {
    pub place: u16,
    /// The condition and the destination, as one number.
    pub target: u32,
    pub motions: ArrayVec<u16, MAX_LIST>,
    condition: Condition,
    destination: Destination,
    ghost condition_is: { condition ≡ condition_of target },
    ghost destination_is: { destination ≡ destination_of target },
}

impl Row {
    /// The row of a way.
    pub fn new(place: u16, target: u32, motions: ArrayVec<u16, MAX_LIST>) -> Row
        ensures place { result.place ≡ place }
        ensures target { result.target ≡ target }
        ensures motions { result.motions ≡ motions }
    {
        Row {
            place,
            target,
            motions,
            condition: condition_of(target),
            destination: destination_of(target),
        }
    }

    /// The condition under which the way is taken.
    pub fn condition(&self) -> Condition
        ensures value { result ≡ condition_of self.now.target }
        ensures within { IsConditionWithin result }
    {
        self.condition
    }

    /// Where the way leads.
    pub fn destination(&self) -> Destination
        ensures value { result ≡ destination_of self.now.target }
        ensures within { EndsWithin result }
    {
        self.destination
    }
}

/// A word with its number, as written.
#[derive(Clone, Copy, Debug)]
pub struct WordRow<'a> {
    pub number: u16,
    pub word: &'a [u8],
}

/// Where an object is as a play begins: its first place, or 0, and its second place, which is 0 if
/// there is none and -1 if it can't be moved.
#[derive(Clone, Copy, Debug, PartialEq, Eq)]
pub struct Placement {
    pub first: u16,
    pub second: i16,
}

/// A hint: how many turns it waits, its cost, and the messages that offer and give it.
#[derive(Clone, Copy, Debug, PartialEq, Eq)]
pub struct Hint {
    pub turns: u16,
    pub points: u16,
    pub question: u16,
    pub text: u16,
}
