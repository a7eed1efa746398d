//! Places of a cave, and the ways between them.

ghost use Rattle.std.specs.Prelude.{◌≡◌, ◌≤◌, All, IfOk, [], length, map, option_map};
ghost use Rattle.std.specs.List.{filter};
ghost use Rattle.base_lines.specs.Numbers as defined;
ghost use Rattle.data_rows.specs.RowViews.{going};
ghost use Rattle.map_ways.specs.Ways.{are_joined, begins_edge, count_nowhere, ends_at};
ghost use Rattle.map_ways.specs.Ways.{ends_of_edges, has_way, is_mapped, is_row_to};
ghost use Rattle.map_ways.specs.Ways.{is_way, lead_to, leads_by, leads_nowhere, mapped_places};

use base_lines::numbers::LAST_PLACE;
use cave_data::Cave;
use check_tables::reach::may_be_taken;
use data_rows::{Destination, Row};
use std::alloc::{AllocError, Global};

/// Whether a row leads to a place.
pub fn ends_at(row: &Row, place: u16) -> bool
    ensures { result ≡ ends_at place (going row.now) }
{
    row.destination().leads_to_place(place)
}

/// Whether a way leads from one place to the other.
pub fn is_way(cave: &Cave, from: u16, to: u16) -> bool
    ensures { result ≡ is_way cave.now from to }
{
    lead_to(cave.travel(from), to)
}

/// Whether one of these rows leads to a place, and may be taken.
fn lead_to(rows: &[Row], place: u16) -> bool
    ensures { result ≡ lead_to place [] (map going rows.now) }
{
    for (count, row) in rows.iter().enumerate() {
        if ends_at(row, place) && may_be_taken(&rows[..count], row) {
            return true;
        }
    }
    false
}

fn is_row_to(row: Option<&Row>, place: u16) -> bool
    ensures { result ≡ is_row_to place (option_map (λ row. going row.now) row.entry) }
{
    match row {
        Some(row) => ends_at(row, place),
        None => false,
    }
}

/// Whether that row of a place which has an index leads to another place.
pub fn leads_by(cave: &Cave, from: u16, index: usize, to: u16) -> bool
    ensures { result ≡ leads_by cave.now from index to }
{
    is_row_to(cave.travel(from).get(index), to)
}

/// Whether a way leads from one of two places to the other.
pub fn are_joined(cave: &Cave, from: u16, to: u16) -> bool
    ensures { result ≡ are_joined cave.now from to }
{
    is_way(cave, from, to) || is_way(cave, to, from)
}

/// Whether a way begins or ends at a place.
#[tactic(auto, unfolding(crate::specs::Ways::place_numbers))]
fn has_way(cave: &Cave, place: u16) -> bool
    ensures { result ≡ has_way cave.now place }
{
    (1..LAST_PLACE + 1).any(|other| are_joined(cave, place, other))
}

/// Whether a place is on the map: it has a text, or a way.
pub fn is_mapped(cave: &Cave, place: u16) -> bool
    ensures { result ≡ is_mapped cave.now place }
{
    cave.long(place).is_some() || cave.short(place).is_some() || has_way(cave, place)
}

/// The places that are on the map.
#[tactic(auto, unfolding(crate::specs::Ways::mapped_places, crate::specs::Ways::place_numbers))]
pub fn mapped_places(alloc: Global, cave: &Cave) -> Result<Vec<u16>, AllocError>
    ensures { IfOk result (λ places. places.items ≡ mapped_places cave.now) }
{
    (1..LAST_PLACE + 1)
        .filter(|place| is_mapped(cave, *place))
        .collect(alloc)
}

fn leads_nowhere(row: &Row) -> bool
    ensures { result ≡ leads_nowhere (going row.now) }
{
    match row.destination() {
        Destination::Place(place) => place == 0,
        _ => true,
    }
}

/// How many rows of a place lead to no place.
pub fn count_nowhere(cave: &Cave, place: u16) -> usize
    ensures { result ≡ count_nowhere cave.now place }
{
    count_leading_nowhere(cave.travel(place))
}

#[tactic(auto, using(crate::proofs::Rows::rows))]
fn count_leading_nowhere(rows: &[Row]) -> usize
    ensures { result ≡ length (filter leads_nowhere (map going rows.now)) }
{
    rows.iter().filter(|row| leads_nowhere(*row)).count()
}

/// Whether a way begins the edge of two places between which ways lead.
fn begins_edge(cave: &Cave, from: u16, to: u16) -> bool
    ensures { result ≡ begins_edge cave.now from to }
{
    from <= to && are_joined(cave, from, to)
}

/// The other ends of the edges of a place.
#[tactic(auto, using(crate::proofs::Rows::in_range), unfolding(crate::specs::Ways::ends_of_edges, crate::specs::Ways::place_numbers))]
pub fn ends_of_edges(alloc: Global, cave: &Cave, from: u16) -> Result<Vec<u16>, AllocError>
    ensures value { IfOk result (λ ends. ends.items ≡ ends_of_edges cave.now from) }
    ensures within { IfOk result (λ ends. All (λ to. to ≤ defined.LAST_PLACE) ends.items) }
{
    (1..LAST_PLACE + 1)
        .filter(|to| begins_edge(cave, from, *to))
        .collect(alloc)
}
