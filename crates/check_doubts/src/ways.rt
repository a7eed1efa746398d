//! Ways that no player can take, and ways that lead to nothing.

ghost use Rattle.std.specs.Prelude.{◌≡◌, map, option_map};
ghost use Rattle.data_rows.specs.RowViews.{going};
ghost use Rattle.check_doubts.specs.Ways.{end_flaw, is_never_taken, is_never_taken_at};
ghost use Rattle.check_doubts.specs.Ways.{is_textless_end, way_flaw, way_of_row};

use crate::flaw::{CaveFlaw, Subject};
use crate::messages::{lacks_text, place_has_text};
use cave_data::Cave;
use check_tables::reach::may_be_taken;
use data_lines::{MarkedRow, way_index};
use data_rows::{Destination, Row};

/// Which way of its place a row is, by the rows before it.
pub(crate) fn way_of_row<'a>(cave: &'a Cave, place: u16, before: &[MarkedRow]) -> Option<&'a Row>
    ensures { option_map (λ row. going row.now) result ≡ way_of_row cave.now place before.now }
{
    cave.travel(place).get(way_index(place, before))
}

/// Whether no player can take the way at an index.
fn is_never_taken_at(rows: &[Row], index: usize) -> bool
    ensures { result ≡ is_never_taken_at index (map going rows.now) }
{
    if index < rows.len() {
        !may_be_taken(&rows[..index], &rows[index])
    } else {
        false
    }
}

/// Whether a row is a way that no player can take.
pub(crate) fn is_never_taken(cave: &Cave, place: u16, before: &[MarkedRow]) -> bool
    ensures { result ≡ is_never_taken cave.now place before.now }
{
    is_never_taken_at(cave.travel(place), way_index(place, before))
}

/// Whether the number is that of a place, and this has no text.
pub(crate) fn is_textless_end(cave: &Cave, place: u16) -> bool
    ensures { result ≡ is_textless_end cave.now place }
{
    0 < place && !place_has_text(cave, place)
}

/// What is doubtful about where a target leads.
fn end_flaw(cave: &Cave, target: u32, destination: Destination) -> Option<CaveFlaw>
    ensures { result ≡ end_flaw cave.now target destination }
{
    match destination {
        Destination::Place(place) if is_textless_end(cave, place) => {
            Some(CaveFlaw::Textless(Subject::WayTo, place))
        }
        Destination::Message(message) if lacks_text(cave, message) => {
            Some(CaveFlaw::Textless(Subject::WaySays, message))
        }
        Destination::NoWay => Some(CaveFlaw::HasNoRule((target % 1000) as u16)),
        _ => None,
    }
}

/// What is doubtful about where a way leads.
pub(crate) fn way_flaw(cave: &Cave, found: Option<&Row>) -> Option<CaveFlaw>
    ensures { result ≡ way_flaw cave.now (option_map (λ row. going row.now) found.entry) }
{
    match found {
        Some(row) => end_flaw(cave, row.target, row.destination()),
        None => None,
    }
}
