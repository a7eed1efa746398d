//! What plays saw of a cave, and which part of it is drawn.

use crate::stops::Stops;

/// What plays of logs saw, and the places that are drawn.
#[derive(Clone, Copy)]
pub struct Sights<'a> {
    pub stops: &'a Stops,
    /// How many logs were played.
    pub logs: usize,
    /// Whether only what plays saw is drawn.
    pub is_seen_only: bool,
    /// The places that are drawn.
    pub places: &'a [u16],
}
