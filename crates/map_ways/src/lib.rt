//! The ways between the places of a cave: which places and edges a map has, their titles and texts,
//! and their labels.
#![tactic(auto)]

pub mod label_laws;
pub mod labels;
pub mod laws;
pub mod regions;
pub mod titles;
pub mod way_texts;
pub mod ways;

pub use labels::put_label;
pub use regions::{Region, count_ends_among, is_one_of, places_around};
pub use ways::{
    are_joined, count_nowhere, ends_of_edges, is_mapped, is_way, leads_by, mapped_places,
};
