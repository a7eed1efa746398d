//! What goes on by itself: the clocks, the lamp, and hints.
#![tactic(auto)]

pub mod clocks;
pub mod first_clock;
pub mod hints;
pub mod lamp;
pub mod repository;

pub use clocks::{Clocks, run_clocks};
pub use hints::{consider_all, give_hint, price};
