//! Lines of a database and of its bindings, read into rows.
#![tactic(auto)]

pub mod binding;
pub mod error;
mod explain;
pub mod field_rows;
mod number;
pub mod place_role;
pub mod position;
pub mod role;
pub mod rows;
pub mod targets;

pub use error::{BindingFlaw, Cause, CaveError, FaultSite, Section};
pub use explain::Expected;
pub use place_role::PlaceRole;
pub use position::Position;
pub use role::Role;
pub use rows::{Hint, Row, WORDS_PER_CLASS, WordRow};
pub use targets::{Condition, Destination, Special};
