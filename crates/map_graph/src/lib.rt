//! The map of a cave as a graph in Graphviz's language, with what plays saw of it.
#![tactic(auto)]

mod captions;
pub mod edges;
pub mod laws;
pub mod map;
pub mod nodes;
pub mod parts;
pub mod sights;
pub mod stops;
