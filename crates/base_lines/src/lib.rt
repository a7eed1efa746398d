//! What users hand in, before anyone asks what it means: limits, the numbers of things, the lines
//! and words of any text, names that are one slip from others, and byte order marks.
#![tactic(auto)]

pub mod bytes;
pub mod limits;
pub mod line;
pub mod lines;
pub mod log_line;
pub mod mark;
pub mod meter;
pub mod near;
pub mod nearest;
pub mod numbers;

pub use line::{LineFault, check_line};
pub use lines::{first_line, split_line, split_log_line};
pub use log_line::{LogLine, is_skipped};
pub use mark::has_byte_order_mark;
pub use meter::{Meter, Steps};
pub use near::is_near;
pub use nearest::near_name;
