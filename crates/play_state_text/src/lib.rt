//! The state of a game as a text, one fact a line, and the law that no other state has that text.
#![tactic(auto)]

pub mod dwarves;
pub mod hints;
pub mod kind;
pub mod laws;
pub mod objects;
pub mod places;
pub mod state_text;
pub mod value;
pub mod visits;
pub mod words;

pub use state_text::{Counts, push_state};
