//! What each line of a play did, as the row of a table or as an object of JSON: its place, the line,
//! and its figures; the object also has what was said, and which objects have moved.
#![tactic(auto)]

pub mod figures;
pub mod json;
pub mod laws;
pub mod line;
pub mod objects;
pub mod step;

pub use figures::StepRow;
pub use line::{push_walk_line, push_walk_opening};
pub use step::{push_step_head_row, push_step_row};
