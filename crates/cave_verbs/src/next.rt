use crate::verb::Verb;
use cave_world::{Ending, Question};
use world_objects::{Object, Place};

/// What follows what a verb did.
#[derive(Clone, Copy, Debug, PartialEq, Eq)]
pub enum Next {
    /// Nothing more.
    Stay,
    /// The next line may say what is missing: the command's verb is kept.
    Keep,
    /// The player's place is described.
    Describe,
    /// The player arrives at a place.
    Arrive(Place),
    /// A question is asked.
    Ask(Question),
    /// The game ends.
    End(Ending),
}

/// What a row of a verb ends with.
#[derive(Clone, Copy, Debug, PartialEq, Eq)]
pub enum VerbStep {
    /// The verb is done.
    Done(Next),
    /// It goes on with another verb, or on another object; object 0 is none.
    GoOn(Verb, Object),
}
