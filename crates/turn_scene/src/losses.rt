//! Treasures that can't be found any more.

ghost use Rattle.std.specs.Prelude.{◌≡◌};
ghost use Rattle.turn_scene.specs.Bounds.{GoesOnSaying};
ghost use Rattle.turn_scene.specs.Scene.{cave_of, scene_of};
ghost use Rattle.turn_scene.specs.SharedRules.{after_loss_to_snake};

use crate::homes::is_at_home;
use crate::rows;
use crate::rules::Rules;
use crate::scene::Scene;
use cave_words::Named;
use cave_world::{RowNotes, Table};

impl<'a, N: RowNotes> Scene<'a, N> {
    /// One more treasure can't be found any more, if the snake is still at home.
    #[tactic(auto, unfolding(crate::specs::SharedRules::after_loss_to_snake, crate::specs::SharedRules::loss_to_snake_rows))]
    pub fn lose_to_snake(&mut self, rules: &Rules<'_>)
        ensures scene { scene_of N.rows self.new
            ≡ after_loss_to_snake (cave_of rules.now) (scene_of N.rows self.old) }
        ensures says { GoesOnSaying 0 self.old self.new }
    {
        rows! { self, Table::SnakeLoss;
            is_at_home(rules, self.state, rules.thing(Named::Snake)) => lose_one();
        }
    }
}
