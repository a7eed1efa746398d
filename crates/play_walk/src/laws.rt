//! Laws about lines as JSON and in a table. Each is the contract of a function that does nothing.

ghost use Rattle.play_walk.specs.Json.{StringsReadBack};
ghost use Rattle.play_walk.specs.Step.{ColumnsHaveTheKeys};

/// What is between the quotes of a string reads back as its text, before any text that follows.
pub fn strings_read_back()
    ensures { StringsReadBack }
{}

/// The names of the columns of the table of lines are the keys of the figures.
#[tactic(auto, using(crate::proofs::WalkLemmas::columns_have_the_keys))]
pub fn columns_have_the_keys()
    ensures { ColumnsHaveTheKeys }
{}
