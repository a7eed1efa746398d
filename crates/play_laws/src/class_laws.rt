//! Laws about classes of which `check` says that no score reaches them.

ghost use Rattle.play_laws.specs.Unreached.{UnreachedIsOfNoScore};

/// In a cave that was read, a class of which `check` says that no score reaches it is the class of
/// no score up to the greatest.
pub fn unreached_is_of_no_score()
    ensures { UnreachedIsOfNoScore }
{}
