//! How a game begins and ends, its score, what questions ask, and what a death leads to.
#![tactic(auto)]

pub mod begin;
pub mod deaths;
pub mod endings;
pub mod questions;
pub mod scorer;
pub mod scores;
pub mod treasures;
pub mod worths;

pub use begin::begun_state;
pub use deaths::{count_death, die};
pub use endings::end_as;
pub use questions::{ask, pose, question_row};
pub use scorer::Scorer;
pub use scores::{max_score, max_score_by, score, score_by};
