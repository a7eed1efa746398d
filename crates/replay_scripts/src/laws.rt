//! Laws about scripts. Each is the contract of a function that does nothing.

ghost use Rattle.replay_scripts.specs.Guards.{GuardsAreSpelled};

/// A line is a guard exactly if it is spelled as one.
pub fn guards_are_spelled()
    ensures { GuardsAreSpelled }
{}
