//! Laws about the order in which faults are found, and why edits are refused. Each is the contract of
//! a function that does nothing.

ghost use Rattle.play_laws.specs.RunLaws.{CavesAreJudgedWhole, FirstIsFound, RefusalsAreOfChanges};

/// A fault that is found comes from outside, or is the first that a stage decides.
pub fn first_is_found()
    ensures { FirstIsFound }
{}

/// The fault that is decided first for a cave is the first fault of its database and bindings.
pub fn caves_are_judged_whole()
    ensures { CavesAreJudgedWhole }
{}

/// No item of a script is refused because the meter is full or memory runs out.
pub fn refusals_are_of_changes()
    ensures { RefusalsAreOfChanges }
{}
