ghost use Rattle.world_objects.specs.Objects.{is_place};
ghost use Rattle.std.specs.Prelude.{◌≡◌, is_some, nat_le};
ghost use Rattle.turn_scene.specs.Scene.{cave_of};
ghost use Rattle.turn_scene.specs.Places.{place_named, start_place, outside_place, deep_place};
ghost use Rattle.turn_scene.specs.Places.{building_place};

use crate::rules::Rules;
use cave_data::Cave;
use cave_data::cave::{DEFAULT_BUILDING, DEFAULT_DEEP, DEFAULT_OUTSIDE, DEFAULT_START};
use cave_world::State;
use data_rows::PlaceRole;
use world_objects::Place;

/// The place that has a role.
#[tactic(auto, unfolding(crate::specs::Places::place_named))]
pub fn place_named(cave: &Cave, role: PlaceRole) -> Option<Place>
    ensures { result ≡ place_named cave.now role }
{
    Some(Place::new(cave.place(role)?))
}

/// Whether a place is the one that is named, if one is.
pub fn is_place(place: Place, named: Option<Place>) -> bool
    ensures { result ≡ is_place place named }
{
    named == Some(place)
}

/// Whether the cave has a place of a role.
pub fn is_bound(rules: &Rules<'_>, role: PlaceRole) -> bool
    ensures { result ≡ is_some (place_named (cave_of rules.now) role) }
{
    place_named(rules.cave, role).is_some()
}

/// Whether the player is at the place of a role.
pub fn is_player_at(rules: &Rules<'_>, state: &State, role: PlaceRole) -> bool
    ensures { result ≡ is_place state.now.trail.here (place_named (cave_of rules.now) role) }
{
    is_place(state.trail.here, place_named(rules.cave, role))
}

/// The place where a game begins.
#[tactic(auto, unfolding(crate::specs::Places::start_place))]
pub fn start_place(cave: &Cave) -> Place
    ensures { result ≡ start_place cave.now }
{
    place_named(cave, PlaceRole::Start).unwrap_or(Place::new(DEFAULT_START))
}

/// The last place outside the cave.
#[tactic(auto, unfolding(crate::specs::Places::outside_place))]
pub fn outside_place(cave: &Cave) -> Place
    ensures { result ≡ outside_place cave.now }
{
    place_named(cave, PlaceRole::Outside).unwrap_or(Place::new(DEFAULT_OUTSIDE))
}

/// The first place of the cave's depths.
#[tactic(auto, unfolding(crate::specs::Places::deep_place))]
fn deep_place(cave: &Cave) -> Place
    ensures { result ≡ deep_place cave.now }
{
    place_named(cave, PlaceRole::Deep).unwrap_or(Place::new(DEFAULT_DEEP))
}

/// Whether the player is in the depths of the cave.
pub fn is_in_the_depths(rules: &Rules<'_>, state: &State) -> bool
    ensures { result ≡ nat_le (deep_place (cave_of rules.now)) state.now.trail.here }
{
    deep_place(rules.cave).number() <= state.trail.here.number()
}

/// The place where treasures are to be brought.
#[tactic(auto, unfolding(crate::specs::Places::building_place))]
pub fn building_place(cave: &Cave) -> Place
    ensures { result ≡ building_place cave.now }
{
    place_named(cave, PlaceRole::Building).unwrap_or(Place::new(DEFAULT_BUILDING))
}
