//! Laws about ways of which `check` says that they are never taken.

ghost use Rattle.play_laws.specs.NeverTaken.{NeverTakenIsNeverTried};

/// A way of which `check` says that no player takes it is tried by no motion, from any state.
pub fn never_taken_is_never_tried()
    ensures { NeverTakenIsNeverTried }
{}
