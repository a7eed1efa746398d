//! What a maintainer would want to know about an accepted cave.
#![tactic(auto)]

pub mod bound;
pub mod cave_doubts;
mod classes;
pub mod flaw;
mod hints;
pub mod known;
pub mod listing;
mod messages;
pub mod needs;
mod places;
mod row_flaws;
mod treasures;
mod ways;
mod words;
mod written;

pub use cave_doubts::doubts;
pub use flaw::{Doubt, Source};
pub use known::DoubtEntries;
pub use listing::{DoubtFiles, put_doubts};
