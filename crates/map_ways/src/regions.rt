//! The places within some ways of one.

ghost use Rattle.std.specs.Prelude.{◌≡◌, ◌≤◌, ◌==◌, IfOk, length};
ghost use Rattle.std.specs.List.{filter};
ghost use Rattle.base_lines.specs.Numbers as defined;
ghost use Rattle.map_ways.specs.Regions.{ends_among, is_led_to, is_one_of, is_way_on, places_around};
ghost use Rattle.map_ways.specs.Regions.{places_within};

use crate::ways::is_way;
use base_lines::numbers::LAST_PLACE;
use cave_data::Cave;
use std::alloc::{AllocError, Global};

/// The places around one.
#[derive(Clone, Copy, Debug, PartialEq, Eq)]
pub struct Region {
    /// The one in the middle, by its number.
    pub place: u16,
    /// The most ways from it.
    pub ways: u16,
}

/// Whether a place is one of some.
pub fn is_one_of(places: &[u16], place: u16) -> bool
    ensures { result ≡ is_one_of places.now place }
{
    places.iter().any(|other| *other == place)
}

/// Whether a way leads to a place from one of some.
fn is_led_to(cave: &Cave, places: &[u16], to: u16) -> bool
    ensures { result ≡ is_led_to cave.now places.now to }
{
    places.iter().any(|from| is_way(cave, *from, to))
}

/// Whether a place is one of some, or a way leads to it from one of them.
fn is_way_on(cave: &Cave, places: &[u16], to: u16) -> bool
    ensures { result ≡ is_way_on cave.now places.now to }
{
    is_one_of(places, to) || is_led_to(cave, places, to)
}

fn only_place(alloc: Global, mapped: &[u16], from: u16) -> Result<Vec<u16>, AllocError>
    ensures { IfOk result (λ places. places.items ≡ filter (λ place. place == from) mapped.now) }
{
    mapped
        .iter()
        .copied()
        .filter(|place| *place == from)
        .collect(alloc)
}

/// These places, and those to which a way leads from one of them.
fn one_way_on(
    alloc: Global,
    cave: &Cave,
    mapped: &[u16],
    places: &[u16],
) -> Result<Vec<u16>, AllocError>
    ensures { IfOk result (λ on. on.items ≡ filter (is_way_on cave.now places.now) mapped.now) }
{
    mapped
        .iter()
        .copied()
        .filter(|to| is_way_on(cave, places, *to))
        .collect(alloc)
}

/// The places of a map to which at most this many ways lead from a place, one after another.
fn places_within(
    alloc: Global,
    cave: &Cave,
    mapped: &[u16],
    from: u16,
    ways: u16,
) -> Result<Vec<u16>, AllocError>
    ensures { IfOk result
        (λ places. places.items ≡ places_within cave.now mapped.now from ways) }
{
    let mut places = only_place(alloc, mapped, from)?;
    for _ in 0..ways {
        places = one_way_on(alloc, cave, mapped, &places)?;
    }
    Ok(places)
}

/// The places of a map that are around one, or all of them.
pub fn places_around(
    alloc: Global,
    cave: &Cave,
    mapped: &[u16],
    around: Option<Region>,
) -> Result<Vec<u16>, AllocError>
    ensures { IfOk result
        (λ places. places.items ≡ places_around cave.now mapped.now around) }
{
    match around {
        None => Vec::from_slice(alloc, mapped),
        Some(Region { place, ways }) => places_within(alloc, cave, mapped, place, ways),
    }
}

/// To how many of these places ways lead from one.
#[tactic(auto, unfolding(crate::specs::Regions::ends_among, crate::specs::Ways::ends_of_ways, crate::specs::Ways::place_numbers))]
pub fn count_ends_among(cave: &Cave, places: &[u16], from: u16) -> usize
    ensures value { result ≡ length (ends_among cave.now places.now from) }
    ensures within { result ≤ defined.LAST_PLACE }
{
    (1..LAST_PLACE + 1)
        .filter(|to| is_way(cave, from, *to))
        .filter(|to| is_one_of(places, *to))
        .count()
}
