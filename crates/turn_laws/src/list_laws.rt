//! Laws about the lists of places. Each is the contract of a function that does nothing.

ghost use Rattle.turn_laws.specs.OneList.{GamesBeginSo, HalvesStay};

/// Each change of objects leaves each half in at most one list, and a first half where its object
/// says.
#[tactic(auto, using(crate::proofs::OneList::halves_stay))]
pub fn halves_stay()
    ensures { HalvesStay }
{}

/// This holds as a game begins.
pub fn games_begin_so()
    ensures { GamesBeginSo }
{}
