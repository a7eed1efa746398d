//! Laws about each state that a game reaches.

ghost use Rattle.turn_laws.specs.Reachable.{HasPlaces, HintsAreKnown, NeverBoth};
ghost use Rattle.turn_laws.specs.Reachable.{ReachableIsLawful, StaysBounded};

use cave_data::Cave;
use data_rows::PlaceRole;

/// The clocks, the lamp and the counts of treasures are within their bounds: this holds as a game
/// begins, and each line preserves it.
#[tactic(auto, using(crate::proofs::Onward::stays_bounded))]
pub fn bounds_are_kept()
    ensures { StaysBounded }
{}

/// A question is open, or the game has ended, or neither: this holds as a game begins, and each
/// line preserves it.
#[tactic(auto, using(crate::proofs::Bounds::never_both))]
pub fn asks_or_ends()
    ensures { NeverBoth }
{}

/// The cave has each hint that a question is about: this holds as a game begins, and each line
/// preserves it.
#[tactic(auto, using(crate::proofs::Bounds::hints_are_known))]
pub fn hints_are_known()
    ensures { HintsAreKnown }
{}

/// In each cave the place where a game begins isn't place 0, nor is the one where the dead come
/// back.
pub fn caves_have_places(cave: &Cave)
    ensures { HasPlaces cave.now }
{
    // These two contracts together are the law.
    let _start = cave.place(PlaceRole::Start);
    let _building = cave.place(PlaceRole::Building);
}

/// Each state that a game reaches, from any seed by any lines, is lawful, in a cave with those
/// places.
pub fn reachable_states_are_lawful()
    ensures { ReachableIsLawful }
{}
