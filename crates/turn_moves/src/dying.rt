ghost use Rattle.std.specs.Prelude.{◌≡◌, IsTrue};
ghost use Rattle.turn_moves.specs.Dying.{with_all_left_at, after_die_at};
ghost use Rattle.turn_scene.specs.Bounds.{GoesOnSaying, HasRoom, parts_of_death};
ghost use Rattle.turn_scene.specs.Scene.{scene_of, cave_of};
ghost use Rattle.cave_world.specs.State.{takes_no_command};

use cave_world::{RowNotes, State};
use turn_ends::die;
use turn_scene::{Rules, Scene};
use world_objects::Place;

fn leave_all_at(place: Place, state: &mut State)
    ensures { state.new ≡ with_all_left_at place state.old }
{
    state.trail.older = place;
}

/// The player dies, and what is in the hands will be put at a place once the player comes back.
#[tactic(auto, unfolding(crate::specs::Dying::after_die_at))]
pub fn die_at<N: RowNotes>(rules: &Rules<'_>, place: Place, scene: &mut Scene<'_, N>)
    requires { HasRoom parts_of_death scene.old }
    ensures scene { scene_of N.rows scene.new
        ≡ after_die_at (cave_of rules.now) place (scene_of N.rows scene.old) }
    ensures says { GoesOnSaying parts_of_death scene.old scene.new }
    ensures over { IsTrue (takes_no_command scene.new.state.now) }
{
    leave_all_at(place, scene.state);
    die(rules, scene);
}
