//! Where objects are: the prop of each and what holds it, and for each place the list of those
//! there.
#![tactic(auto)]

pub mod lists;
pub mod object;
pub mod objects;
pub mod packed;
pub mod place;
pub mod prop;
pub mod site;
pub mod spot;

pub use object::{Half, Object};
pub use objects::Objects;
pub use place::Place;
pub use prop::Prop;
pub use spot::{Anchor, Spot};
