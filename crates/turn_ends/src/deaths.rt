ghost use Rattle.std.specs.Prelude.{◌≡◌, IsTrue};
ghost use Rattle.cave_world.specs.State.{takes_no_command};
ghost use Rattle.turn_scene.specs.Bounds.{GoesOnSaying, HasRoom, parts_of_death};
ghost use Rattle.turn_scene.specs.Scene.{scene_of, cave_of};
ghost use Rattle.turn_ends.specs.Endings.{with_one_death, after_die};

use crate::endings::end_as;
use crate::questions::ask;
use cave_world::{Ending, Question, RowNotes, State, Table};
use data_rows::Role;
use turn_scene::{Rules, Scene, rows};

/// Counts one more death.
pub fn count_death(state: &mut State)
    ensures { state.new ≡ with_one_death state.old }
{
    state.tallies.deaths = state.tallies.deaths.up();
}

/// The player dies, and is asked whether to come back unless the cave is closing.
#[tactic(auto, unfolding(crate::specs::Endings::after_die, crate::specs::Endings::death_rows))]
pub fn die<N: RowNotes>(rules: &Rules<'_>, scene: &mut Scene<'_, N>)
    requires { HasRoom parts_of_death scene.old }
    ensures scene { scene_of N.rows scene.new
        ≡ after_die (cave_of rules.now) (scene_of N.rows scene.old) }
    ensures says { GoesOnSaying parts_of_death scene.old scene.new }
    ensures over { IsTrue (takes_no_command scene.new.state.now) }
{
    rows! { scene, Table::Death;
        scene.state.closing.is_closing => {
            scene.say(Role::KilledClosing);
            count_death(scene.state);
            end_as(rules, Ending::Killed, scene);
        };
        otherwise => { ask(rules, &Question::Die, scene); };
    }
}
