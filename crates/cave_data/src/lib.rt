//! Caves: databases with their bindings, as tables in which a game looks things up.
#![tactic(auto)]

mod bindings;
pub mod cave;
mod classes;
mod database;
mod reader;
mod slots;
mod span;
mod store;
mod tables;
mod texts;
mod ways;
mod words;

pub use cave::Cave;
pub use classes::Rating;
pub use data_rows::{
    BindingFlaw, Cause, CaveError, Condition, Destination, FaultSite, Hint, PlaceRole, Role, Row,
    Section, Special, WordRow,
};
pub use words::WordTable;
