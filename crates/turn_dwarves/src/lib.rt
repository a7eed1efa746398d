//! The dwarves and the pirate: how they wake, where they go, and what they do to the player.
#![tactic(auto)]

mod ahead;
mod band;
mod booty;
pub mod dwarves;
mod haunt;
mod knives;
mod lines;
mod moving;
mod pirate;
mod waking;

pub use dwarves::encounter_dwarves;
