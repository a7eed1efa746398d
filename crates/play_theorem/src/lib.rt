//! The theorem on edited logs: what an edit prints is what playing the edited log prints.
#![tactic(auto)]

pub mod laws;
pub mod theorem;
