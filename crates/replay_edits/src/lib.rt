//! Edits of a log of lines and of its seed: what they do to a game, what takes them back, and why
//! they are refused.
#![tactic(auto)]

mod chunks;
pub mod draft;
pub mod edit;
pub mod fault;
pub mod line_text;
pub mod margins;
pub mod new_line;
mod numbers;
pub mod outcome;
pub mod plan;
mod stock;

pub use draft::Draft;
pub use edit::Edit;
pub use fault::{EditFault, GroupFault};
pub use line_text::LineText;
pub use new_line::NewLine;
