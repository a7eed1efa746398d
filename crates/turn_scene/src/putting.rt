//! How an object is put down where the player is.

ghost use Rattle.std.specs.Prelude.{◌≡◌, [], ◌∷◌};
ghost use Rattle.turn_scene.specs.Bounds.{GoesOnSaying};
ghost use Rattle.turn_scene.specs.Scene.{cave_of, scene_of};
ghost use Rattle.turn_scene.specs.SharedRules.{after_put, after_lay_down, caged_bird_rows};
ghost use Rattle.turn_scene.specs.SharedRules.{free_bird_rows, vessel};
ghost use Rattle.turn_scene.specs.Rows.{Does, PlaysBy, by_table};
ghost use Rattle.cave_world.specs.declared.tables.Table.TheVariants as table;

use crate::liquids::{is_liquid, liquid};
use crate::props::BIRD_FREE;
use crate::reach::{has_other_prop, is_carried};
use crate::rows;
use crate::rules::Rules;
use crate::scene::Scene;
use cave_words::Named;
use cave_world::{RowNotes, Table};
use world_objects::Object;

/// What is put down for an object: for the liquid in the bottle, the bottle.
#[tactic(auto, unfolding(crate::specs::SharedRules::vessel))]
fn vessel<N: RowNotes>(rules: &Rules<'_>, object: Object, scene: &mut Scene<'_, N>) -> Object
    ensures rows { PlaysBy N.rows vessel 0 rules.now object scene.old scene.new result }
{
    rows! { scene, Table::Vessel, object;
        is_liquid(object, liquid(rules, scene.state)) => {} -> rules.thing(Named::Bottle);
        otherwise => {};
    }
}

/// The bird comes along with its cage.
#[tactic(auto, unfolding(crate::specs::SharedRules::caged_bird_rows))]
fn put_caged_bird<N: RowNotes>(rules: &Rules<'_>, object: Object, scene: &mut Scene<'_, N>)
    ensures rows { Does N.rows (by_table table.CagedBird caged_bird_rows ∷ []) 0
        rules.now object scene.old scene.new }
{
    let bird = rules.thing(Named::Bird);
    rows! { scene, Table::CagedBird;
        rules.is(object, Named::Cage) && has_other_prop(scene.state, bird, BIRD_FREE)
            => bring(bird);
    }
}

/// The bird itself is free.
#[tactic(auto, unfolding(crate::specs::SharedRules::free_bird_rows))]
fn free_bird<N: RowNotes>(rules: &Rules<'_>, object: Object, scene: &mut Scene<'_, N>)
    ensures rows { Does N.rows (by_table table.FreeBird free_bird_rows ∷ []) 0
        rules.now object scene.old scene.new }
{
    rows! { scene, Table::FreeBird;
        rules.is(object, Named::Bird) => set_prop(object, BIRD_FREE);
    }
}

impl<'a, N: RowNotes> Scene<'a, N> {
    /// An object is put down where the player is: a liquid in its bottle, the cage with the bird in
    /// it.
    #[tactic(auto, unfolding(crate::specs::SharedRules::after_put, crate::specs::SharedRules::put_down))]
    pub fn put(&mut self, rules: &Rules<'_>, object: Object)
        ensures scene { scene_of N.rows self.new
            ≡ after_put (cave_of rules.now) object (scene_of N.rows self.old) }
        ensures says { GoesOnSaying 0 self.old self.new }
    {
        let object = vessel(rules, object, self);
        put_caged_bird(rules, object, self);
        free_bird(rules, object, self);
        self.bring(object);
    }

    /// An object that is carried is put where the player is.
    #[tactic(auto, unfolding(crate::specs::SharedRules::after_lay_down, crate::specs::SharedRules::lay_down_rows))]
    pub fn lay_down(&mut self, rules: &Rules<'_>, object: Object)
        ensures scene { scene_of N.rows self.new
            ≡ after_lay_down (cave_of rules.now) object (scene_of N.rows self.old) }
        ensures says { GoesOnSaying 0 self.old self.new }
    {
        rows! { self, Table::LayDown;
            is_carried(rules, self.state, object) => bring(object);
        }
    }
}
