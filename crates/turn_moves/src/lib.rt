//! Moves: where a motion leads, the bridge, arrival among dwarves, and how a place is described.
#![tactic(auto)]

pub mod arrival;
pub mod back;
pub mod bridge;
pub mod description;
pub mod dying;
pub mod journeys;
pub mod objects;
pub mod squeeze;
pub mod ways;

pub use arrival::{arrive, describe_here};
pub use journeys::journey_by_request;
