//! A law: each difference is reported. It is the contract of a function that does nothing.

ghost use Rattle.std.specs.Prelude.{◌≡◌};
ghost use Rattle.cave_world.specs.declared.state.State.{State};
ghost use Rattle.play_tables.specs.Differences.{AreAlike};

/// States that differ in no kind of facts are the same.
pub fn alike_states_are_the_same()
    ensures { (s t : State) → AreAlike s t → s ≡ t }
{}
