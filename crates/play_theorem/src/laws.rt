//! What else the page says: each law is the contract of a function that does nothing.

ghost use Rattle.play_theorem.specs.Theorem.{InverseGivesBack, RefusedChangesNothing};

/// An edit that is refused changes nothing.
pub fn refused_changes_nothing()
    ensures { RefusedChangesNothing }
{}

/// What takes an accepted edit back gives the old game back.
pub fn inverse_gives_back()
    ensures { InverseGivesBack }
{}
