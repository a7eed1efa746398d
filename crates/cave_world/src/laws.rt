//! What follows from the definitions of equality and of motions: a law's function does nothing.
ghost use Rattle.std.specs.Prelude.{◌↔◌, IsTrue};
ghost use Rattle.cave_world.specs.Motions.{MotionsAreNumbered};
ghost use Rattle.cave_world.specs.SameGame.{IsSameGame};

use crate::state::State;

impl State {
    /// Two states are equal, by `==`, exactly if each field is the same; in the lists of halves
    /// only the list of each place counts.
    pub fn equal_states_are_one_game(&self, other: &State)
        ensures { IsTrue (⟦<State as PartialEq>⟧.eq self.now other.now)
            ↔ IsSameGame self.now other.now }
    {
        self.objects.lists_are_in_order();
        other.objects.lists_are_in_order();
    }
}

/// Each motion that rules name is the one of its number.
#[tactic(auto, using(crate::proofs::Numbered::motions_are_numbered))]
pub fn motions_are_numbered()
    ensures { MotionsAreNumbered }
{}
