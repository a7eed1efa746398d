ghost use Rattle.std.specs.Prelude.{◌≡◌};

use arrayvec::ArrayVec;
use cave_words::Word;
use data_rows::Role;
use world_objects::Object;

/// A line of the game's own, with a number.
#[derive(Clone, Copy, Debug, PartialEq, Eq)]
pub enum NumberLine {
    DwarvesHere,
    KnivesThrown,
    KnivesHit,
    HintCosts,
    ScoreNow,
    PointsWanted,
}

/// A line of the game's own that repeats a word.
#[derive(Clone, Copy, Debug, PartialEq, Eq)]
pub enum WordLine {
    NotSeen,
    WhatToDo,
    Okay,
    What,
}

/// One thing that a turn prints.
#[derive(Clone, Copy, Debug, PartialEq, Eq)]
pub enum Part {
    /// The message with a number.
    Message(u16),
    /// The long text of a place.
    Long(u16),
    /// The short text of a place.
    Short(u16),
    /// The message of a role.
    Role(Role),
    /// The text of an object for a number, such as its prop.
    Object(Object, i8),
    /// The inventory text of an object.
    Name(Object),
    /// A line with one number or two.
    Number(NumberLine, u32, u32),
    /// A line with a word.
    Word(WordLine, Word),
    /// The text of the class that a score belongs to.
    Class(u32),
    /// The line of a score, the greatest score, and the turns.
    Turns(u32, u32),
}

impl Default for Part {
    ghost use Rattle.cave_world.specs.Part.{no_part};

    ghost is_default = { λ p. p ≡ no_part };

    fn default() -> Part {
        Part::Message(0)
    }
}

/// The most parts that a turn prints.
const MAX_PARTS: usize = 512;

/// What a turn prints, in order.
pub type Out = ArrayVec<Part, MAX_PARTS>;
