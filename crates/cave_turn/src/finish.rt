//! How a turn that leaves no question open ends.

ghost use Rattle.std.specs.Prelude.{◌≡◌, ◌+◌, [], ◌∷◌};
ghost use Rattle.turn_scene.specs.Bounds.{GoesOnSaying, HasRoom, parts_of_finish};
ghost use Rattle.turn_scene.specs.Bounds.{parts_of_question};
ghost use Rattle.turn_scene.specs.Scene.{scene_of, cave_of};
ghost use Rattle.cave_world.specs.declared.tables.Table.TheVariants as table;
ghost use Rattle.turn_scene.specs.Rows.{Does, by_table};
ghost use Rattle.cave_turn.specs.Finish.{is_hidden_in_hands, after_object_shown, hands_rows};
ghost use Rattle.cave_turn.specs.Finish.{after_all_shown, after_end_of_turn};

use cave_words::Named;
use cave_world::{RowNotes, Table};
use turn_clocks::consider_all;
use turn_scene::props::{OYSTER_WRITTEN_ON, UNSEEN};
use turn_scene::{Rules, Scene, rows};
use world_objects::object::OBJECTS;
use world_objects::{Object, Objects};

/// All that is in the hands shows itself.
fn show_all<N: RowNotes>(rules: &Rules<'_>, scene: &mut Scene<'_, N>)
    ensures scene { scene_of N.rows scene.new
        ≡ after_all_shown (cave_of rules.now) (scene_of N.rows scene.old) }
    ensures says { GoesOnSaying 0 scene.old scene.new }
{
    for before in 0..OBJECTS as u8 {
        show_object(rules, Object::new(before + 1), scene);
    }
}

/// In a closed cave all that is in the hands shows itself, the oyster first what is written under
/// it.
#[tactic(auto, unfolding(crate::specs::Finish::hands_rows))]
fn show_hands<N: RowNotes>(rules: &Rules<'_>, scene: &mut Scene<'_, N>)
    requires { HasRoom 1 scene.old }
    ensures rows { Does N.rows (by_table table.Hands hands_rows ∷ []) 1 rules.now tt
        scene.old scene.new }
{
    let is_closed = scene.state.closing.is_closed;
    rows! { scene, Table::Hands;
        is_closed && hides(&scene.state.objects, rules.thing(Named::Oyster)) => {
            scene.look(rules.thing(Named::Oyster), OYSTER_WRITTEN_ON);
            show_all(rules, scene);
        };
        is_closed => { show_all(rules, scene); };
    }
}

/// Ends a turn; after a question or the end of the game it does nothing more.
#[tactic(auto, unfolding(crate::specs::Finish::after_end_of_turn, crate::specs::Finish::end_rows))]
pub fn end_turn<N: RowNotes>(rules: &Rules<'_>, scene: &mut Scene<'_, N>)
    requires { HasRoom (parts_of_finish + parts_of_question) scene.old }
    ensures scene { scene_of N.rows scene.new
        ≡ after_end_of_turn (cave_of rules.now) (scene_of N.rows scene.old) }
    ensures says { GoesOnSaying parts_of_finish scene.old scene.new }
{
    if scene.state.takes_no_command() {
        return;
    }
    show_hands(rules, scene);
    consider_all(rules, scene);
}

/// Whether an object is in the hands and hasn't shown yet what it is.
fn hides(objects: &Objects, object: Object) -> bool
    ensures { result ≡ is_hidden_in_hands objects.now object }
{
    objects.is_in_hands(object) && objects.prop(object).value() < 0
}

/// An object in the hands shows what it is.
#[tactic(auto, unfolding(crate::specs::Finish::after_object_shown, crate::specs::Finish::shown_rows))]
fn show_object<N: RowNotes>(rules: &Rules<'_>, object: Object, scene: &mut Scene<'_, N>)
    ensures scene { scene_of N.rows scene.new
        ≡ after_object_shown (cave_of rules.now) object (scene_of N.rows scene.old) }
    ensures says { GoesOnSaying 0 scene.old scene.new }
{
    rows! { scene, Table::ObjectShown;
        hides(&scene.state.objects, object) => {
            let prop = scene.state.objects.prop(object).value();
            scene.set_prop(object, UNSEEN - prop);
        };
    }
}
