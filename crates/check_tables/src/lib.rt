//! Tables of the bindings, names, messages and words of a cave, what its texts are called, which of
//! its ways motions can reach and what is said about them, what is known of a fault beyond its
//! cause, and lists of what is known.
#![tactic(auto)]

pub mod bindings;
pub mod clue;
pub mod known;
pub mod marks;
pub mod names;
mod near_key;
pub mod reach;
pub mod text_kinds;
pub mod travel_words;
pub mod unused;
pub mod way_words;
pub mod ways_by_place;
pub mod words;

pub use bindings::push_bindings;
pub use clue::{Clue, clue_of};
pub use names::push_names;
pub use unused::{is_number, push_unused};
pub use words::push_words;
