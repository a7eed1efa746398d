//! On which lines of a database its rows are, and what each row is about; and laws of what is wrong
//! with lines of bindings.
#![tactic(auto)]

pub mod by_line;
pub mod laws;
pub mod mark;
pub mod rows;

pub use by_line::{WayLine, way_index, way_lines};
pub use mark::{MarkedRow, RowMark};
pub use rows::marked_rows;
