ghost use Rattle.std.specs.Prelude.{◌≡◌, take};
ghost use Rattle.data_rows.specs.RowViews.{going};
ghost use Rattle.turn_scene.specs.Scene.{cave_of};
ghost use Rattle.data_rows.specs.Targets.{EndsWithin};
ghost use Rattle.turn_dwarves.specs.Ahead.{is_haunt, haunt_ahead, place_ahead, places_ahead};

use crate::haunt::Haunt;
use arrayvec::ArrayVec;
use cave_world::{Dwarf, forced};
use data_rows::{Condition, Destination, Row};
use turn_scene::{PlaceCondition, Rules, has_condition_of};
use world_objects::Place;

/// The most places among which a dwarf chooses.
pub const MAX_CANDIDATES: usize = 19;

/// How many places are looked for. One more than a dwarf chooses from shows that some are left out.
pub const MAX_SOUGHT: usize = MAX_CANDIDATES + 1;

/// The first of the places where dwarves go.
const FIRST_HAUNT: u16 = 15;

/// Whether a dwarf goes to a place; the pirate keeps away from more of them.
#[tactic(auto, unfolding(crate::specs::Ahead::is_haunt))]
fn is_haunt(rules: &Rules<'_>, is_pirate: bool, place: Place) -> bool
    ensures { result ≡ is_haunt (cave_of rules.now) is_pirate place }
{
    FIRST_HAUNT <= place.number()
        && !forced(rules.cave, place)
        && !(is_pirate && has_condition_of(rules, place, PlaceCondition::NoPirate))
}

#[tactic(auto, unfolding(crate::specs::Ahead::is_haunt))]
fn haunt_ahead(
    rules: &Rules<'_>,
    is_pirate: bool,
    dwarf: &Dwarf,
    destination: Destination,
) -> Option<Place>
    requires { EndsWithin destination }
    ensures { result ≡ haunt_ahead (cave_of rules.now) is_pirate dwarf.now destination }
{
    let Destination::Place(number) = destination else {
        return None;
    };
    let place = Place::new(number);
    if place == dwarf.last || place == dwarf.place || !is_haunt(rules, is_pirate, place) {
        return None;
    }
    Some(place)
}

#[tactic(auto, unfolding(crate::specs::Ahead::place_ahead))]
fn place_ahead(rules: &Rules<'_>, is_pirate: bool, dwarf: &Dwarf, row: &Row) -> Option<Place>
    ensures { result ≡ place_ahead (cave_of rules.now) is_pirate dwarf.now (going row.now) }
{
    match row.condition() {
        Condition::NotForDwarves => None,
        _ => haunt_ahead(rules, is_pirate, dwarf, row.destination()),
    }
}

/// The first of the places to which the rows of a dwarf's place lead it, in the order of the rows.
#[tactic(auto, unfolding(crate::specs::Ahead::places_ahead))]
pub fn places_ahead(
    rules: &Rules<'_>,
    is_pirate: bool,
    dwarf: &Dwarf,
) -> ArrayVec<Haunt, MAX_SOUGHT>
    ensures { result.items
        ≡ take MAX_SOUGHT (places_ahead (cave_of rules.now) is_pirate dwarf.now) }
{
    let mut found = ArrayVec::new();
    let mut last = None;
    for row in rules.cave.travel(dwarf.place.number()) {
        if found.len() == MAX_SOUGHT {
            return found;
        }
        let Some(place) = place_ahead(rules, is_pirate, dwarf, row) else {
            continue;
        };
        if last == Some(place) {
            continue;
        }
        found.push(Haunt::at(place));
        last = Some(place);
    }
    found
}
