ghost use Rattle.std.specs.Prelude.{◌≡◌, ◌+◌};
ghost use Rattle.base_lines.specs.Numbers.{LAST_OBJECT};
ghost use Rattle.cave_world.specs.declared.ending.Question.TheVariants as question_is;
ghost use Rattle.turn_scene.specs.Bounds.{GoesOnSaying, HasRoom, MovesOnSaying, parts_of_arrival};
ghost use Rattle.turn_scene.specs.Scene.{scene_of, cave_of};
ghost use Rattle.turn_scene.specs.Rows.{after_all, deed, PlaysBy};
ghost use Rattle.turn_scene.specs.Effects.{for_each_from};
ghost use Rattle.cave_turn.specs.Dragon.{lair, by_dragon, after_gather, after_settle, fight};

use cave_words::Named;
use cave_world::{RowNotes, Table};
use turn_moves::arrive;
use turn_scene::props::{DRAGON_DEAD, DRAGON_DYING, RUG_FREE};
use turn_scene::{Rules, Scene, home, rows, second_home};
use world_objects::object::OBJECTS;
use world_objects::{Object, Place};

/// Where the dead dragon is: between its two homes, at its only one, or where the player is.
#[tactic(auto, unfolding(crate::specs::Dragon::lair))]
fn lair<N: RowNotes>(rules: &Rules<'_>, scene: &mut Scene<'_, N>) -> Place
    ensures row { PlaysBy N.rows lair 0 rules.now question_is.Dragon scene.old scene.new result }
{
    let dragon = rules.thing(Named::Dragon);
    let one = home(rules, dragon);
    let other = second_home(rules, dragon);
    rows! { scene, Table::Lair, scene.state.trail.here;
        one.number() != 0 && other.number() != 0
            => {} -> Place::new((one.number() + other.number()) / 2);
        one.number() != 0 => {} -> one;
        other.number() != 0 => {} -> other;
        otherwise => {};
    }
}

/// Whether an object is at a home of the dragon.
fn is_by_dragon<N: RowNotes>(rules: &Rules<'_>, object: Object, scene: &Scene<'_, N>) -> bool
    ensures { result ≡ by_dragon (deed (cave_of rules.now) object (scene_of N.rows scene.now)) }
{
    let dragon = rules.thing(Named::Dragon);
    let one = home(rules, dragon);
    let other = second_home(rules, dragon);
    let objects = &scene.state.objects;
    (one.number() != 0 && objects.is_first_at(one, object))
        || (other.number() != 0 && objects.is_first_at(other, object))
}

/// Moves an object that is at a home of the dragon to the lair.
#[tactic(auto, unfolding(crate::specs::Dragon::after_gather, crate::specs::Dragon::gathering_rows))]
fn gather_object<N: RowNotes>(
    rules: &Rules<'_>,
    lair: Place,
    object: Object,
    scene: &mut Scene<'_, N>,
)
    ensures scene { scene_of N.rows scene.new
        ≡ after_gather (cave_of rules.now) lair object (scene_of N.rows scene.old) }
    ensures says { GoesOnSaying 0 scene.old scene.new }
{
    rows! { scene, Table::Gathering;
        is_by_dragon(rules, object, scene) => move_to(object, lair);
    }
}

/// Moves all that is at the homes of the dragon to its lair.
fn gather<N: RowNotes>(rules: &Rules<'_>, lair: Place, scene: &mut Scene<'_, N>)
    ensures scene { scene_of N.rows scene.new
        ≡ for_each_from 1 LAST_OBJECT (after_gather (cave_of rules.now) lair)
        (scene_of N.rows scene.old) }
    ensures says { GoesOnSaying 0 scene.old scene.new }
{
    for before in 0..OBJECTS as u8 {
        gather_object(rules, lair, Object::new(before + 1), scene);
    }
}

/// The dragon lies in its lair, with its rug and all that was there, and the player is there too.
#[tactic(auto, unfolding(crate::specs::Dragon::after_settle, crate::specs::Dragon::settle, cave_world::specs::State::state_with_player_at))]
fn settle<N: RowNotes>(rules: &Rules<'_>, lair: Place, scene: &mut Scene<'_, N>)
    requires { HasRoom (parts_of_arrival scene.old.left) scene.old }
    ensures scene { scene_of N.rows scene.new
        ≡ after_settle (cave_of rules.now) lair (scene_of N.rows scene.old) }
    ensures says { MovesOnSaying (parts_of_arrival scene.old.left) scene.old scene.new }
{
    let dragon = rules.thing(Named::Dragon);
    let rug = rules.thing(Named::Rug);
    scene.fix(dragon);
    scene.loosen(rug);
    scene.move_to(dragon, lair);
    scene.move_to(rug, lair);
    gather(rules, lair, scene);
    scene.put_player_at(lair);
    arrive(rules, lair, scene);
}

/// The player fights the dragon with bare hands, and wins.
#[tactic(auto, unfolding(crate::specs::Dragon::fight))]
pub fn fight<N: RowNotes>(rules: &Rules<'_>, scene: &mut Scene<'_, N>)
    requires { HasRoom (parts_of_arrival scene.old.left + 1) scene.old }
    ensures scene { scene_of N.rows scene.new ≡ (after_all fight
        (deed (cave_of rules.now) question_is.Dragon (scene_of N.rows scene.old))).scene }
    ensures says { MovesOnSaying (parts_of_arrival scene.old.left + 1) scene.old scene.new }
{
    let dragon = rules.thing(Named::Dragon);
    scene.look(dragon, DRAGON_DYING);
    scene.set_prop(dragon, DRAGON_DEAD);
    scene.set_prop(rules.thing(Named::Rug), RUG_FREE);
    let lair = lair(rules, scene);
    settle(rules, lair, scene);
}
