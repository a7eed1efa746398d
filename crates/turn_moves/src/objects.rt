ghost use Rattle.std.specs.Prelude.{◌≡◌, ◌≤ℤ◌, [], ◌∷◌, length};
ghost use Rattle.world_objects.specs.Lists.{halves_at, last_half};
ghost use Rattle.turn_scene.specs.Scene.{cave_of, scene_of};
ghost use Rattle.turn_scene.specs.Bounds.{GoesOnSaying, HasRoom};
ghost use Rattle.cave_world.specs.declared.tables.Table.TheVariants as table;
ghost use Rattle.turn_scene.specs.Effects.{Changes};
ghost use Rattle.turn_scene.specs.Rows.{Does, deed, by_table};
ghost use Rattle.world_objects.specs.Props.{HIGHEST_PROP, LOWEST_PROP};
ghost use Rattle.turn_moves.specs.Objects.{is_second_here, with_short_lamp, object_text_rows};
ghost use Rattle.turn_moves.specs.Objects.{find_treasure, after_object, after_all_objects};

use cave_words::Named;
use cave_world::{Charge, Part, RowNotes, Table};
use turn_scene::props::{SEEN, SEEN_FASTENED, STEPS_FROM_ABOVE};
use turn_scene::{Rules, Scene, rows};
use world_objects::{Half, Object};

/// The most turns for which the lamp burns once the treasures that count as lost are as many as the
/// unseen ones.
const SHORT_LAMP: i32 = 35;

/// Describes an object, which is then found if it wasn't seen before.
#[tactic(auto, unfolding(crate::specs::Objects::after_object, crate::specs::Objects::object_rows))]
fn tell_object<N: RowNotes>(rules: &Rules<'_>, object: Object, scene: &mut Scene<'_, N>)
    requires { HasRoom 1 scene.old }
    ensures scene { scene_of N.rows scene.new
        ≡ after_object (cave_of rules.now) object (scene_of N.rows scene.old) }
    ensures says { GoesOnSaying 1 scene.old scene.new }
{
    rows! { scene, Table::ObjectHere;
        object == rules.thing(Named::Steps) && scene.state.toting(rules.thing(Named::Gold)) => {};
        let is_unseen = scene.state.objects.prop(object).value() < 0;
        is_unseen && scene.state.closing.is_closed => {};
        is_unseen && (object == rules.thing(Named::Rug) || object == rules.thing(Named::Chain))
            => self::find_treasure(rules, object, SEEN_FASTENED);
        is_unseen => self::find_treasure(rules, object, SEEN);
        otherwise => self::tell_object_text(rules, object);
    }
}

/// A treasure is seen for the first time.
#[tactic(auto, unfolding(crate::specs::Objects::find_treasure, crate::specs::Objects::last_treasure_rows))]
fn find_treasure<N: RowNotes>(rules: &Rules<'_>, object: Object, prop: i8, scene: &mut Scene<'_, N>)
    requires low { LOWEST_PROP ≤ℤ prop }
    requires high { prop ≤ℤ HIGHEST_PROP }
    requires room { HasRoom 1 scene.old }
    ensures does { Does N.rows (find_treasure prop) 1 rules.now object scene.old scene.new }
{
    scene.set_prop(object, prop);
    scene.state.tallies.unseen = scene.state.tallies.unseen.down();
    let unseen = scene.state.tallies.unseen.number();
    rows! { scene, Table::LastTreasure;
        unseen == scene.state.tallies.lost.number() && unseen != 0
            => self::shorten_lamp();
    }
    tell_object_text(rules, object, scene);
}

/// The lamp doesn't burn for long any more.
fn shorten_lamp<N: RowNotes>(scene: &mut Scene<'_, N>)
    ensures { Changes N.rows with_short_lamp scene.old scene.new }
{
    let turns = scene.state.lamp.charge.turns();
    scene.state.lamp.charge = Charge::new(turns.min(SHORT_LAMP));
}

fn is_second_here<N: RowNotes>(rules: &Rules<'_>, object: Object, scene: &Scene<'_, N>) -> bool
    ensures { result
        ≡ is_second_here (deed (cave_of rules.now) object (scene_of N.rows scene.now)) }
{
    match scene.state.objects.anchor(object).place() {
        Some(place) => place == scene.state.trail.here,
        None => false,
    }
}

/// Prints the text of an object.
#[tactic(auto, unfolding(crate::specs::Objects::object_text_rows))]
fn tell_object_text<N: RowNotes>(rules: &Rules<'_>, object: Object, scene: &mut Scene<'_, N>)
    requires { HasRoom 1 scene.old }
    ensures rows { Does N.rows (by_table table.ObjectText object_text_rows ∷ []) 1 rules.now
        object scene.old scene.new }
{
    rows! { scene, Table::ObjectText;
        object == rules.thing(Named::Steps) && is_second_here(rules, object, scene)
            => tell(Part::Object(object, STEPS_FROM_ABOVE));
        let prop = scene.state.objects.prop(object).value();
        otherwise => tell(Part::Object(object, prop));
    }
}

fn tell_all<N: RowNotes>(rules: &Rules<'_>, halves: &[Half], scene: &mut Scene<'_, N>)
    requires { HasRoom (length halves.now) scene.old }
    ensures scene { scene_of N.rows scene.new
        ≡ after_all_objects (cave_of rules.now) halves.now (scene_of N.rows scene.old) }
    ensures says { GoesOnSaying (length halves.now) scene.old scene.new }
{
    for half in halves {
        tell_object(rules, half.object(), scene);
    }
}

/// Describes the objects at the player's place, latest first.
pub fn tell_objects<N: RowNotes>(rules: &Rules<'_>, scene: &mut Scene<'_, N>)
    requires { HasRoom last_half scene.old }
    ensures scene { let state = scene.old.state.now in
        let halves = halves_at state.trail.here state.objects.lists in
        scene_of N.rows scene.new
        ≡ after_all_objects (cave_of rules.now) halves (scene_of N.rows scene.old) }
    ensures says { GoesOnSaying last_half scene.old scene.new }
{
    let here = scene.state.trail.here;
    let halves = scene.state.objects_at(here);
    tell_all(rules, halves.as_slice(), scene);
}
