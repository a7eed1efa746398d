//! Which part of a cave a map draws.

ghost use Rattle.std.specs.Prelude.{◌≡◌, IfOk};
ghost use Rattle.map_graph.specs.Parts.{drawn_places};
ghost use Rattle.map_graph.specs.Stops.{stops_of};

use crate::stops::{Stops, is_visited};
use cave_data::Cave;
use map_ways::{Region, places_around};
use std::alloc::{AllocError, Global};

/// Which part of a cave a map draws.
#[derive(Clone, Copy, Debug, PartialEq, Eq)]
pub struct DrawnPart {
    /// Whether it draws only what plays saw.
    pub seen: bool,
    /// The places that it draws, if it doesn't draw all.
    pub around: Option<Region>,
}

/// The places of a map that are drawn.
#[tactic(auto, unfolding(crate::specs::Parts::drawn_places))]
pub fn drawn_places(
    alloc: Global,
    cave: &Cave,
    stops: &Stops,
    part: DrawnPart,
    mapped: &[u16],
) -> Result<Vec<u16>, AllocError>
    ensures { IfOk result
        (λ places. places.items ≡ drawn_places cave.now (stops_of stops.now) part mapped.now) }
{
    places_around(alloc, cave, mapped, part.around)?
        .iter()
        .copied()
        .filter(|place| !part.seen || is_visited(cave, stops, *place))
        .collect(alloc)
}
