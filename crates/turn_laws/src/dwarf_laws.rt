//! Laws about the dwarves.

ghost use Rattle.turn_laws.specs.DwarfLaws.{FewDwarves, GoneForGood};

/// The dwarves that were killed and those that live are together at most five, and none of the five
/// lives once the cave is closing: this holds as a game begins, and each line preserves it if the
/// player is somewhere.
#[tactic(auto, using(crate::proofs::Bounds::few_dwarves))]
pub fn few_dwarves()
    ensures { FewDwarves }
{}

/// One of the five dwarves that is gone stays gone at each line, if the player is somewhere.
#[tactic(auto, using(crate::proofs::Bounds::gone_for_good))]
pub fn gone_for_good()
    ensures { GoneForGood }
{}
