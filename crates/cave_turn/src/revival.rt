//! How a player comes back from death.

ghost use Rattle.std.specs.Prelude.{◌≡◌, ◌+◌};
ghost use Rattle.base_lines.specs.Numbers.{LAST_OBJECT};
ghost use Rattle.cave_world.specs.declared.ending.Question.TheVariants as question_is;
ghost use Rattle.turn_scene.specs.Bounds.{GoesOnSaying, HasRoom, MovesOnSaying, parts_of_arrival};
ghost use Rattle.turn_scene.specs.Bounds.{parts_of_end};
ghost use Rattle.turn_scene.specs.Scene.{scene_of, cave_of};
ghost use Rattle.cave_world.specs.declared.tables.Table.TheVariants as table;
ghost use Rattle.turn_scene.specs.Rows.{Does, after_all, deed, by_table};
ghost use Rattle.cave_turn.specs.Revival.{after_fall, revive, revival_rows, come_back, bury};
ghost use Rattle.turn_scene.specs.Effects.{for_each_down_from};

use cave_words::Named;
use cave_world::{Ending, LIVES, RowNotes, Table};
use data_rows::Role;
use turn_ends::{count_death, end_as};
use turn_moves::describe_here;
use turn_scene::props::LAMP_OFF;
use turn_scene::{Rules, Scene, building_place, is_carried, rows, start_place};
use world_objects::Object;
use world_objects::object::OBJECTS;

/// The player wants to come back.
#[tactic(auto, unfolding(crate::specs::Revival::come_back, crate::specs::Revival::reborn_rows))]
pub fn come_back<N: RowNotes>(rules: &Rules<'_>, scene: &mut Scene<'_, N>)
    requires { HasRoom (parts_of_arrival scene.old.left + 1) scene.old }
    ensures scene { scene_of N.rows scene.new ≡ (after_all come_back
        (deed (cave_of rules.now) question_is.Die (scene_of N.rows scene.old))).scene }
    ensures says { MovesOnSaying (parts_of_arrival scene.old.left + 1) scene.old scene.new }
{
    let deaths = scene.state.tallies.deaths.number();
    rows! { scene, Table::Reborn;
        deaths == 0 => say(Role::Reborn1);
        deaths == 1 => say(Role::Reborn2);
        otherwise => say(Role::Reborn3);
    }
    count_death(scene.state);
    decide_revival(rules, scene);
}

/// The third death is the last, and after another the player is back.
#[tactic(auto, unfolding(crate::specs::Revival::revival_rows))]
fn decide_revival<N: RowNotes>(rules: &Rules<'_>, scene: &mut Scene<'_, N>)
    requires { HasRoom (parts_of_arrival scene.old.left) scene.old }
    ensures scene { scene_of N.rows scene.new ≡ (by_table table.Revival revival_rows
        (deed (cave_of rules.now) question_is.Die (scene_of N.rows scene.old))).scene }
    ensures says { MovesOnSaying (parts_of_arrival scene.old.left) scene.old scene.new }
{
    rows! { scene, Table::Revival;
        LIVES <= scene.state.tallies.deaths.number() => { end_as(rules, Ending::Killed, scene); };
        otherwise => { revive(rules, scene); };
    }
}

/// What was in the hands falls, the last object first.
fn leave_belongings<N: RowNotes>(rules: &Rules<'_>, scene: &mut Scene<'_, N>)
    ensures scene { scene_of N.rows scene.new
        ≡ for_each_down_from LAST_OBJECT (after_fall (cave_of rules.now))
        (scene_of N.rows scene.old) }
    ensures says { GoesOnSaying 0 scene.old scene.new }
{
    for before in 0..OBJECTS as u8 {
        let object = Object::new(OBJECTS as u8 - before);
        let_fall(rules, object, scene);
    }
}

/// The player is back with empty hands, and a lamp that was carried is out.
#[tactic(auto, unfolding(crate::specs::Revival::revive, crate::specs::Revival::put_out_rows))]
fn revive<N: RowNotes>(rules: &Rules<'_>, scene: &mut Scene<'_, N>)
    requires { HasRoom (parts_of_arrival scene.old.left) scene.old }
    ensures scene { scene_of N.rows scene.new
        ≡ (after_all revive
        (deed (cave_of rules.now) question_is.Die (scene_of N.rows scene.old))).scene }
    ensures says { MovesOnSaying (parts_of_arrival scene.old.left) scene.old scene.new }
{
    let lamp = rules.thing(Named::Lamp);
    rows! { scene, Table::LampPutOut;
        is_carried(rules, scene.state, lamp) => set_prop(lamp, LAMP_OFF);
    }
    leave_belongings(rules, scene);
    scene.state.put_player_from(building_place(rules.cave));
    describe_here(rules, scene);
}

/// An object in the hands falls: the lamp where the game begins, and all else at the older place of
/// the trail. A death sets that place to where it leaves things, except a death at place 0.
#[tactic(auto, unfolding(crate::specs::Revival::after_fall, crate::specs::Revival::fall_rows))]
fn let_fall<N: RowNotes>(rules: &Rules<'_>, object: Object, scene: &mut Scene<'_, N>)
    ensures scene { scene_of N.rows scene.new
        ≡ after_fall (cave_of rules.now) object (scene_of N.rows scene.old) }
    ensures says { GoesOnSaying 0 scene.old scene.new }
{
    let is_held = scene.state.objects.is_in_hands(object);
    rows! { scene, Table::Fall;
        is_held && rules.is(object, Named::Lamp) => move_to(object, start_place(rules.cave));
        is_held => move_to(object, scene.state.trail.older);
    }
}

/// A player who doesn't want to come back is dead.
#[tactic(auto, unfolding(crate::specs::Revival::bury))]
pub fn bury<N: RowNotes>(rules: &Rules<'_>, scene: &mut Scene<'_, N>)
    requires { HasRoom (1 + parts_of_end) scene.old }
    ensures rows { Does N.rows bury (1 + parts_of_end) rules.now question_is.Die scene.old
        scene.new }
{
    scene.say(Role::Ok);
    count_death(scene.state);
    end_as(rules, Ending::Killed, scene);
}
