ghost use Rattle.std.specs.Prelude.{◌≡◌};
ghost use Rattle.turn_scene.specs.Bounds.{GoesOnSaying, HasRoom, parts_of_dwarves};
ghost use Rattle.turn_scene.specs.Scene.{scene_of, cave_of};
ghost use Rattle.turn_scene.specs.Rows.{act_of, after_all, deed, nothing_but};
ghost use Rattle.turn_dwarves.specs.Dwarves.{is_struck, awake, encounter_dwarves};
ghost use Rattle.turn_dwarves.specs.Knives.{no_attack};

use crate::knives::raid;
use crate::lines::tell_attack;
use crate::pirate::send_pirate;
use crate::waking::{ASLEEP, STIRRING};
use crate::{band, waking};
use cave_world::{RowNotes, Table};
use turn_scene::{Rules, Scene, is_in_the_depths, rows};

/// The dwarves sleep, stir, or are awake as the player arrives. Returns whether a knife hit the
/// player.
#[tactic(auto, unfolding(crate::specs::Dwarves::encounter_dwarves, crate::specs::Dwarves::anger_rows))]
pub fn encounter_dwarves<N: RowNotes>(rules: &Rules<'_>, scene: &mut Scene<'_, N>) -> bool
    requires { HasRoom parts_of_dwarves scene.old }
    ensures moves { act_of (scene_of N.rows scene.new) result
        ≡ encounter_dwarves (cave_of rules.now) (scene_of N.rows scene.old) }
    ensures says { GoesOnSaying parts_of_dwarves scene.old scene.new }
{
    let anger = scene.state.dwarves.anger.number();
    rows! { scene, Table::Anger, false;
        anger == ASLEEP && is_in_the_depths(rules, scene.state) => band::set_anger(STIRRING);
        anger == ASLEEP => {};
        anger == STIRRING => waking::try_waking(rules);
        otherwise => {} -> awake(rules, scene);
    }
}

/// The five act, then the pirate, and then it is printed what the five did. Returns whether a knife
/// hit the player.
#[tactic(auto, unfolding(crate::specs::Dwarves::awake, crate::specs::Lines::tell_attack))]
fn awake<N: RowNotes>(rules: &Rules<'_>, scene: &mut Scene<'_, N>) -> bool
    requires { HasRoom parts_of_dwarves scene.old }
    ensures acts { act_of (scene_of N.rows scene.new) result
        ≡ nothing_but is_struck
        (after_all awake (deed (cave_of rules.now) no_attack (scene_of N.rows scene.old))) }
    ensures says { GoesOnSaying parts_of_dwarves scene.old scene.new }
{
    let attack = raid(rules, scene);
    send_pirate(rules, scene);
    tell_attack(rules, attack, scene);
    attack.hits != 0
}
