ghost use Rattle.turn_scene.specs.Bounds.{GoesOnSaying, HasRoom, parts_of_row};
ghost use Rattle.turn_scene.specs.Effects.{Changes};
ghost use Rattle.turn_scene.specs.Parts.{with_objects};
ghost use Rattle.turn_scene.specs.Scene.{after_look_at, scene_of};
ghost use Rattle.world_objects.specs.Objects.{prop_of, with_prop};
ghost use Rattle.cave_verbs.specs.Rows.{DoneByRows};
ghost use Rattle.cave_verbs.specs.Small.{bare_brief_rows, blast_rows, break_rows, wake_rows};
ghost use Rattle.cave_verbs.specs.Small.{wave_rows, rub_rows, on_rows, off_rows};
ghost use Rattle.turn_scene.specs.Rows.{noted};
ghost use Rattle.cave_world.specs.declared.tables.Table.TheVariants as table;
ghost use Rattle.std.specs.Prelude.{◌≡◌, ◌-ℤ◌, pos};

use crate::next::Next;
use crate::task::Task;
use cave_words::Named;
use cave_world::{Count, Ending, LAMP_ON, MAX_DETAILS, RowNotes, Table};
use data_rows::{PlaceRole, Role};
use turn_scene::props::{LAMP_OFF, UNSEEN, VASE_BROKEN, VASE_WHOLE};
use turn_scene::{
    Rules, Scene, has_prop, has_prop_up_to, is_carried, is_near, is_place, place_named, rows,
};
use world_objects::{Object, Prop};

/// ON, with any object.
#[tactic(auto, unfolding(crate::specs::Small::on_rows))]
pub fn turn_on<N: RowNotes>(rules: &Rules<'_>, task: Task, scene: &mut Scene<'_, N>) -> Next
    requires { HasRoom parts_of_row scene.old }
    ensures row { DoneByRows N.rows (noted table.On on_rows) rules.now task scene.old scene.new
        result }
{
    let lamp = rules.thing(Named::Lamp);
    rows! { scene, Table::On, Next::Stay;
        !is_near(rules, scene.state, lamp) => task.default(rules);
        scene.state.lamp.charge.turns() < 0 => say(Role::LampDead);
        scene.was_dark => set_prop(lamp, LAMP_ON), say(Role::LampOn) -> Next::Describe;
        otherwise => set_prop(lamp, LAMP_ON), say(Role::LampOn);
    }
}

/// OFF, with any object.
#[tactic(auto, unfolding(crate::specs::Small::off_rows, crate::specs::Small::darkened_rows))]
pub fn turn_off<N: RowNotes>(rules: &Rules<'_>, task: Task, scene: &mut Scene<'_, N>) -> Next
    requires { HasRoom parts_of_row scene.old }
    ensures row { DoneByRows N.rows (noted table.Off off_rows) rules.now task scene.old scene.new
        result }
{
    let lamp = rules.thing(Named::Lamp);
    rows! { scene, Table::Off, Next::Stay;
        !is_near(rules, scene.state, lamp) => task.default(rules);
        otherwise => {
            scene.set_prop(lamp, LAMP_OFF);
            scene.say(Role::LampOff);
            rows! { scene, Table::Darkened;
                scene.state.dark(rules.cave, lamp) => say(Role::Dark);
            }
        };
    }
}

/// The prop becomes 1 less what it was.
fn flip<N: RowNotes>(object: Object, scene: &mut Scene<'_, N>)
    ensures { Changes N.rows (λ s. with_objects (with_prop s.objects object
        (pos 1 -ℤ prop_of s.objects object)) s) scene.old scene.new }
{
    let prop = scene.state.objects.prop(object);
    scene
        .state
        .objects
        .set_prop(object, Prop::new(1 - prop.value()));
}

/// The text for 2 less the prop is printed.
fn look_at_flip<N: RowNotes>(object: Object, scene: &mut Scene<'_, N>)
    requires { HasRoom 1 scene.old }
    ensures scene { scene_of N.rows scene.new ≡ after_look_at object
        (pos 2 -ℤ prop_of scene.old.state.now.objects object) (scene_of N.rows scene.old) }
    ensures says { GoesOnSaying 1 scene.old scene.new }
{
    let prop = scene.state.objects.prop(object);
    scene.look(object, 2 - prop.value());
}

/// WAVE an object.
#[tactic(auto, unfolding(crate::specs::Small::wave_rows))]
pub fn wave<N: RowNotes>(rules: &Rules<'_>, task: Task, scene: &mut Scene<'_, N>) -> Next
    requires { HasRoom parts_of_row scene.old }
    ensures row { DoneByRows N.rows (noted table.Wave wave_rows) rules.now task scene.old
        scene.new result }
{
    let x = task.object;
    let is_rod = rules.is(x, Named::Rod);
    rows! { scene, Table::Wave, Next::Stay;
        !is_carried(rules, scene.state, x)
            && !(is_rod && is_carried(rules, scene.state, rules.thing(Named::SecondRod)))
            => say(Role::NotHeld);
        let fissure = rules.thing(Named::Fissure);
        is_rod && scene.state.at(fissure)
            && is_carried(rules, scene.state, rules.thing(Named::Rod))
            && !scene.state.closing.is_closing => self::flip(fissure), self::look_at_flip(fissure);
        otherwise => task.default(rules);
    }
}

/// RUB an object.
#[tactic(auto, unfolding(crate::specs::Small::rub_rows))]
pub fn rub<N: RowNotes>(rules: &Rules<'_>, task: Task, scene: &mut Scene<'_, N>) -> Next
    requires { HasRoom parts_of_row scene.old }
    ensures row { DoneByRows N.rows (noted table.Rub rub_rows) rules.now task scene.old scene.new
        result }
{
    rows! { scene, Table::Rub, Next::Stay;
        rules.is(task.object, Named::Lamp) => task.default(rules);
        otherwise => say(Role::RubOdd);
    }
}

/// BLAST, with an object or without one.
#[tactic(auto, unfolding(crate::specs::Small::blast_rows))]
pub fn blast<N: RowNotes>(rules: &Rules<'_>, task: Task, scene: &mut Scene<'_, N>) -> Next
    requires { HasRoom 1 scene.old }
    ensures row { DoneByRows N.rows (noted table.Blast blast_rows) rules.now task scene.old
        scene.new result }
{
    let rod = rules.thing(Named::SecondRod);
    rows! { scene, Table::Blast, Next::Stay;
        !scene.state.closing.is_closed => task.default(rules);
        has_prop_up_to(scene.state, rod, UNSEEN) => task.default(rules);
        is_near(rules, scene.state, rod) => say(Role::Klutz) -> Next::End(Ending::Klutz);
        let northeast = place_named(rules.cave, PlaceRole::Ne);
        is_place(scene.state.trail.here, northeast)
            => say(Role::WrongWay) -> Next::End(Ending::WrongWay);
        otherwise => say(Role::Success) -> Next::End(Ending::Success);
    }
}

/// BREAK an object.
#[tactic(auto, unfolding(crate::specs::Small::break_rows))]
pub fn break_object<N: RowNotes>(rules: &Rules<'_>, task: Task, scene: &mut Scene<'_, N>) -> Next
    requires { HasRoom parts_of_row scene.old }
    ensures row { DoneByRows N.rows (noted table.Break break_rows) rules.now task scene.old
        scene.new result }
{
    let x = task.object;
    rows! { scene, Table::Break, Next::Stay;
        rules.is(x, Named::Vase) && has_prop(scene.state, x, VASE_WHOLE)
            => lay_down(rules, x), set_prop(x, VASE_BROKEN), fix(x), say(Role::VaseSmash);
        let is_mirror = rules.is(x, Named::Mirror);
        is_mirror && scene.state.closing.is_closed
            => say(Role::MirrorBreak), say(Role::Disturbed) -> Next::End(Ending::Killed);
        is_mirror => say(Role::MirrorNo);
        otherwise => task.default(rules);
    }
}

/// WAKE an object.
#[tactic(auto, unfolding(crate::specs::Small::wake_rows))]
pub fn wake<N: RowNotes>(rules: &Rules<'_>, task: Task, scene: &mut Scene<'_, N>) -> Next
    requires { HasRoom parts_of_row scene.old }
    ensures row { DoneByRows N.rows (noted table.Wake wake_rows) rules.now task scene.old
        scene.new result }
{
    rows! { scene, Table::Wake, Next::Stay;
        rules.is(task.object, Named::Dwarf) && scene.state.closing.is_closed
            => say(Role::WakeDwarf), say(Role::Disturbed) -> Next::End(Ending::Killed);
        otherwise => task.default(rules);
    }
}

/// BRIEF without an object.
#[tactic(auto, unfolding(crate::specs::Small::bare_brief_rows))]
pub fn brief<N: RowNotes>(rules: &Rules<'_>, task: Task, scene: &mut Scene<'_, N>) -> Next
    requires { HasRoom 1 scene.old }
    ensures row { DoneByRows N.rows bare_brief_rows rules.now task scene.old scene.new result }
{
    scene.state.talk.is_brief = true;
    scene.state.talk.details = Count::new(MAX_DETAILS);
    scene.say(Role::Brief);
    Next::Stay
}
