//! The edits that turn one log into another: few if possible, and proved to do so.
#![tactic(auto)]

mod anchors;
pub mod difference;
mod meeting;
mod same;
pub mod script;
mod walk;
