//! The items of a script, applied to a play of a cave: what each leads to, why one is refused, what
//! takes it back, what is written of it, and how the lines of the edited log end.
#![tactic(auto)]

pub mod ends;
mod guards;
mod item_watch;
pub mod items;
pub mod laws;
pub mod outcome;
pub mod refusal;
pub mod reports;
mod undo;

pub use ends::LogEnds;
pub use items::{EditRun, MadeEdit, apply_items};
pub use refusal::{ExpectedLine, LineCopy, Refusal};
