//! The text that a turn prints.
#![tactic(auto)]

pub mod own_lines;
pub mod text;

pub use text::render;
