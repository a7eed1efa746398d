//! A text that remembers: its writers answer nothing, as it keeps that memory ran out, and is asked
//! once, at its end.
#![tactic(auto)]

pub mod text;

pub use text::Text;
