//! The lines of a database that are ways out of places.

ghost use Rattle.std.specs.Prelude.{◌≡◌, ℕ, ◌+◌, ◌^◌, ◌<◌, List, [], ◌∷◌, ◌++◌, IfOk, OnOk};
ghost use Rattle.data_lines.specs.WayLines.{AreCounts, CountsOne, count_of, way_index};
ghost use Rattle.data_lines.specs.WayLines.{way_lines, way_lines_at, way_lines_from};

use crate::mark::{MarkedRow, RowMark};
use crate::rows::marked_rows;
use std::alloc::{AllocError, Global};

/// A way out of a place: the number of its line, and which of the ways of its place it is, counted
/// from 0.
#[derive(Clone, Copy, Debug, PartialEq, Eq)]
pub struct WayLine {
    pub line: usize,
    pub place: u16,
    pub index: usize,
}

/// Which of a place's ways a row is, by the rows before it.
pub fn way_index(place: u16, before: &[MarkedRow]) -> usize
    ensures { result ≡ way_index place before.now }
{
    before.iter().filter(|row| row.is_way_from(place)).count()
}

/// Counts one more way of a place, and returns how many there were before.
fn count_way(counts: &mut Vec<usize>, place: u16) -> Result<usize, AllocError>
    requires { count_of counts.old.items place + 1 < 2 ^ 64 }
    ensures before { IfOk result (λ count. count ≡ count_of counts.old.items place) }
    ensures counts { OnOk result (CountsOne place counts.old.items counts.new.items) }
{
    let place = usize::from(place);
    if counts.len() <= place {
        counts.resize(place + 1, 0)?;
    }
    let count = counts[place];
    counts[place] = count + 1;
    Ok(count)
}

/// Adds a row, if it is a way, after the rows whose ways have been counted, and counts it.
fn push_way(
    row: &MarkedRow,
    counts: &mut Vec<usize>,
    ways: &mut Vec<WayLine>,
) -> Result<(), AllocError>
    requires { (place : ℕ) → count_of counts.old.items place + 1 < 2 ^ 64 }
    ensures ways { OnOk result ((before : List MarkedRow) → AreCounts before counts.old.items
        → ways.new.items ≡ ways.old.items ++ way_lines_at before row.now) }
    ensures counts { OnOk result ((before : List MarkedRow) → AreCounts before counts.old.items
        → AreCounts (before ++ row.now ∷ []) counts.new.items) }
{
    match row.mark {
        RowMark::Way(place) => {
            let index = count_way(counts, place)?;
            let line = row.line;
            ways.push(WayLine { line, place, index })?;
            Ok(())
        }
        _ => Ok(()),
    }
}

/// Adds the ways of the first rows of a database.
fn push_ways(alloc: Global, rows: &[MarkedRow], ways: &mut Vec<WayLine>) -> Result<(), AllocError>
    ensures { OnOk result (ways.new.items ≡ ways.old.items ++ way_lines_from [] rows.now) }
{
    let mut counts = Vec::new(alloc);
    for row in rows {
        push_way(row, &mut counts, ways)?;
    }
    Ok(())
}

/// The ways of a database, in the order of its lines.
#[tactic(auto, unfolding(crate::specs::WayLines::way_lines))]
pub fn way_lines(alloc: Global, database: &[u8]) -> Result<Vec<WayLine>, AllocError>
    ensures { IfOk result (λ ways. ways.items ≡ way_lines database.now) }
{
    let rows = marked_rows(alloc, database)?;
    let mut ways = Vec::new(alloc);
    push_ways(alloc, &rows, &mut ways)?;
    Ok(ways)
}
