//! Runs that draw a map of a cave with what logs saw of it.
#![tactic(auto)]

pub mod laws;
mod part;
pub mod plays;
pub mod run;
