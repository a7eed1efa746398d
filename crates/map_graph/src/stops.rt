//! Where players are in the states of plays, and by which ways they go on a line.

ghost use Rattle.std.specs.Prelude.{◌≡◌, ◌==◌, ◌+◌, ◌∷◌, [], ℕ, OnOk, if◌then◌else◌, length};
ghost use Rattle.std.specs.Prelude.{slice_index_or};
ghost use Rattle.map_graph.specs.Stops.{is_blocked, is_visited, is_way_taken, no_stops};
ghost use Rattle.map_graph.specs.Stops.{stops_of, way_by_row, ways_by_rows, with_stops};
ghost use Rattle.cave_data.specs.CaveView.{ways_from};
ghost use Rattle.map_graph.specs.Stops.{is_passed, is_way_taken_between};

use base_lines::numbers::LAST_PLACE;
use cave_data::Cave;
use cave_world::{RuleRow, Table};
use check_tables::marks::{Mark, MarkSet};
use map_ways::leads_by;
use std::alloc::{AllocError, Global};
use std::marker::Model;
use world_objects::Place;

/// A stop of a play.
#[derive(Clone, Copy, Debug, PartialEq, Eq)]
pub enum Stop {
    /// In a state: where the player was in the state before, which is 0 at the beginning of a play,
    /// and where the player is.
    InState(Place, Place),
    /// On the way: a place, and which of its rows, counted from 0, takes the player on from there.
    OnWay(u16, usize),
}

/// What the stops of plays say together: the places where players were, the rows that took them on,
/// and the visits of each place.
#[derive(Drop)]
pub struct Stops {
    places: MarkSet,
    ways: MarkSet,
    visits: Vec<usize>,
}

impl Model for Stops {
    ghost use Rattle.map_graph.specs.Stops.{StopMarks};

    ghost Value = { StopMarks };

    ghost view = { λ s. record { places = s.places; ways = s.ways; visits = s.visits.items } };
}

/// Counts one more of a number. A count that can't grow any more is answered like a lack of memory:
/// no play is so long.
fn count_one(counts: &mut Vec<usize>, number: usize) -> Result<(), AllocError>
    ensures { OnOk result ((other : ℕ) → slice_index_or counts.new.items other 0
        ≡ slice_index_or counts.old.items other 0 + (if other == number then 1 else 0)) }
{
    while counts.len() <= number {
        counts.push(0)?;
    }
    match counts[number].checked_add(1) {
        Some(more) => {
            counts[number] = more;
            Ok(())
        }
        None => Err(AllocError),
    }
}

/// Whether the way is blocked before these rows are noted.
fn is_blocked(later: &[RuleRow]) -> bool
    ensures { result ≡ is_blocked later.now }
{
    matches!(later, [RuleRow::OfTable(Table::Blocking, _), ..])
}

impl Stops {
    /// The stops of no play.
    pub fn new(alloc: Global) -> Stops
        ensures { stops_of result ≡ no_stops }
    {
        Stops {
            places: MarkSet::new(alloc),
            ways: MarkSet::new(alloc),
            visits: Vec::new(alloc),
        }
    }

    /// Notes a stop.
    pub fn note(&mut self, alloc: Global, stop: Stop) -> Result<(), AllocError>
        ensures { OnOk result (stops_of self.new ≡ with_stops (stops_of self.old) (stop ∷ [])) }
    {
        match stop {
            Stop::InState(before, here) => {
                let number = here.number() as usize;
                self.places.note(alloc, Mark { group: 0, number })?;
                if before == here {
                    Ok(())
                } else {
                    count_one(&mut self.visits, number)
                }
            }
            Stop::OnWay(place, number) => {
                let group = place as usize;
                self.ways.note(alloc, Mark { group, number })
            }
        }
    }

    /// Notes the way of a row that is noted before others.
    #[tactic(auto, using(crate::proofs::StopLemmas::without_more))]
    fn note_way_by_row(
        &mut self,
        alloc: Global,
        row: RuleRow,
        later: &[RuleRow],
    ) -> Result<(), AllocError>
        ensures { OnOk result
            (stops_of self.new ≡ with_stops (stops_of self.old) (way_by_row row later.now)) }
    {
        match row {
            RuleRow::OfPlace(place, index, true) if !is_blocked(later) => {
                self.note(alloc, Stop::OnWay(place, index))
            }
            _ => Ok(()),
        }
    }

    /// Notes the ways of a line, at which these rows are noted.
    pub fn note_ways_by_rows(&mut self, alloc: Global, rows: &[RuleRow]) -> Result<(), AllocError>
        ensures { OnOk result
            (stops_of self.new ≡ with_stops (stops_of self.old) (ways_by_rows rows.now)) }
    {
        let mut rest = rows;
        while let Some((row, later)) = rest.split_first() {
            self.note_way_by_row(alloc, *row, later)?;
            rest = later;
        }
        Ok(())
    }

    fn was_at(&self, place: u16) -> bool
        ensures { result ≡ (stops_of self.now).was_at place }
    {
        self.places.has(Mark {
            group: 0,
            number: place as usize,
        })
    }

    fn went_by(&self, place: u16, row: usize) -> bool
        ensures { result ≡ (stops_of self.now).went_by place row }
    {
        self.ways.has(Mark {
            group: place as usize,
            number: row,
        })
    }

    /// How often plays reached a place by a line that began elsewhere, or began there.
    pub fn visits(&self, place: u16) -> usize
        ensures { result ≡ (stops_of self.now).visits place }
    {
        self.visits.get(place as usize).copied().unwrap_or(0)
    }
}

fn count_rows(cave: &Cave, place: u16) -> usize
    ensures { result ≡ length (ways_from cave.now place) }
{
    cave.travel(place).len()
}

/// Whether a play took a way from one place to the other.
pub fn is_way_taken(cave: &Cave, stops: &Stops, from: u16, to: u16) -> bool
    ensures { result ≡ is_way_taken cave.now (stops_of stops.now) from to }
{
    (0..count_rows(cave, from)).any(|row| stops.went_by(from, row) && leads_by(cave, from, row, to))
}

fn is_way_taken_between(cave: &Cave, stops: &Stops, place: u16, other: u16) -> bool
    ensures { result ≡ is_way_taken_between cave.now (stops_of stops.now) place other }
{
    is_way_taken(cave, stops, place, other) || is_way_taken(cave, stops, other, place)
}

/// Whether plays took a way that begins or ends at a place.
#[tactic(auto, unfolding(map_ways::specs::Ways::place_numbers))]
fn is_passed(cave: &Cave, stops: &Stops, place: u16) -> bool
    ensures { result ≡ is_passed cave.now (stops_of stops.now) place }
{
    (1..LAST_PLACE + 1).any(|other| is_way_taken_between(cave, stops, place, other))
}

/// Whether a play was at a place.
pub fn is_visited(cave: &Cave, stops: &Stops, place: u16) -> bool
    ensures { result ≡ is_visited cave.now (stops_of stops.now) place }
{
    stops.was_at(place) || is_passed(cave, stops, place)
}
