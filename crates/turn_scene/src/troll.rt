//! How the troll leaves its bridge.

ghost use Rattle.std.specs.Prelude.{◌≡◌};
ghost use Rattle.turn_scene.specs.Bounds.{GoesOnSaying};
ghost use Rattle.turn_scene.specs.Scene.{cave_of, scene_of};
ghost use Rattle.turn_scene.specs.SharedRules.{after_troll};

use crate::homes::{hold, home};
use crate::rules::Rules;
use crate::scene::Scene;
use cave_words::Named;
use cave_world::RowNotes;

impl<'a, N: RowNotes> Scene<'a, N> {
    /// The troll goes, and its second self is at both ends of the bridge.
    #[tactic(auto, unfolding(crate::specs::SharedRules::after_troll, crate::specs::SharedRules::troll_leaves))]
    pub fn troll_goes(&mut self, rules: &Rules<'_>)
        ensures scene { scene_of N.rows self.new
            ≡ after_troll (cave_of rules.now) (scene_of N.rows self.old) }
        ensures says { GoesOnSaying 0 self.old self.new }
    {
        let troll = rules.thing(Named::Troll);
        let second = rules.thing(Named::SecondTroll);
        self.destroy(troll);
        self.loosen(troll);
        self.move_to(second, home(rules, troll));
        self.attach(second, hold(rules, troll));
        self.juggle(rules.thing(Named::Chasm));
    }
}
