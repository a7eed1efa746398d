//! What happens to the second clock when a player tries to get out of a closing cave.

ghost use Rattle.std.specs.Prelude.{◌≡◌};
ghost use Rattle.turn_scene.specs.Bounds.{GoesOnSaying};
ghost use Rattle.turn_scene.specs.Scene.{cave_of, scene_of};
ghost use Rattle.turn_scene.specs.SharedRules.{after_panic};

use crate::rows;
use crate::rules::Rules;
use crate::scene::Scene;
use cave_world::{RowNotes, Table};

/// How many turns a player who panics has left.
const TURNS_IN_PANIC: i8 = 15;

impl<'a, N: RowNotes> Scene<'a, N> {
    /// The player tries to get out of a closing cave.
    #[tactic(auto, unfolding(crate::specs::SharedRules::after_panic, crate::specs::SharedRules::panic_rows))]
    pub fn panic(&mut self, rules: &Rules<'_>)
        ensures scene { scene_of N.rows self.new
            ≡ after_panic (cave_of rules.now) (scene_of N.rows self.old) }
        ensures says { GoesOnSaying 0 self.old self.new }
    {
        rows! { self, Table::Panic;
            self.state.closing.is_panicking => {};
            self.state.closing.is_closed => { self.state.closing.is_panicking = true; };
            otherwise => {
                self.state.closing.second_clock = TURNS_IN_PANIC;
                self.state.closing.is_panicking = true;
            };
        }
    }
}
