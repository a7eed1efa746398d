ghost use Rattle.std.specs.Prelude.{◌≡◌, ◌≤◌, ◌+ℤ◌, pos, int_div};
ghost use Rattle.std.specs.Int.{int_rem_euclid};
ghost use Rattle.turn_scene.specs.Bounds.{HasRoom, parts_of_row};
ghost use Rattle.cave_verbs.specs.Rows.{ByRows, DoneByRows, rank_of};
ghost use Rattle.turn_scene.specs.Rows.{Does, noted};
ghost use Rattle.turn_scene.specs.Scene.{cave_of};
ghost use Rattle.cave_world.specs.declared.tables.Table.TheVariants as table;
ghost use Rattle.cave_verbs.specs.Pouring.{water_plant, poured_of, pour_rows, drink_rows};
ghost use Rattle.cave_verbs.specs.Pouring.{bare_fill_rows, fill_rows};

use crate::next::{Next, VerbStep};
use crate::task::Task;
use crate::verb::Verb;
use cave_words::Named;
use cave_world::{RowNotes, State, Table};
use data_rows::Role;
use turn_scene::props::{
    BOTTLE_EMPTY, BOTTLE_OF_OIL, BOTTLE_OF_WATER, DOOR_OILED, DOOR_RUSTY, VASE_BROKEN,
};
use turn_scene::{Rules, Scene, is_carried, is_liquid, is_near, lake, liquid, rows};
use world_objects::{Object, Prop};

/// What is poured: if the player names the bottle or nothing, it is what is in the bottle.
fn poured(rules: &Rules<'_>, state: &State, object: Object) -> Object
    ensures { result ≡ poured_of (cave_of rules.now) state.now object }
{
    if !object.is_none() && !rules.is(object, Named::Bottle) {
        return object;
    }
    match liquid(rules, state) {
        Some(liquid) => liquid,
        None => Object::none(),
    }
}

fn above(prop: Prop) -> i8
    ensures { result ≡ prop +ℤ pos 1 }
{
    prop.value() + 1
}

fn grown(prop: Prop) -> Prop
    ensures { result ≡ int_rem_euclid (prop +ℤ pos 2) (pos 6) }
{
    Prop::new((prop.value() + 2).rem_euclid(6))
}

fn half(prop: Prop) -> Prop
    ensures { result ≡ int_div prop (pos 2) }
{
    Prop::new(prop.value() / 2)
}

impl Task {
    /// The plant and its upper part grow with the water.
    fn water_plant<N: RowNotes>(&self, rules: &Rules<'_>, scene: &mut Scene<'_, N>)
        requires { HasRoom 1 scene.old }
        ensures { Does N.rows water_plant 1 rules.now self.now scene.old scene.new }
    {
        let plant = rules.thing(Named::Plant);
        let prop = scene.state.objects.prop(plant);
        scene.look(plant, above(prop));
        scene.state.objects.set_prop(plant, grown(prop));
        let second_plant = rules.thing(Named::SecondPlant);
        let half = half(scene.state.objects.prop(plant));
        scene.state.objects.set_prop(second_plant, half);
    }
}

/// POUR, with an object or without one.
#[tactic(auto, unfolding(crate::specs::Pouring::pour_rows))]
pub fn pour<N: RowNotes>(rules: &Rules<'_>, task: Task, scene: &mut Scene<'_, N>) -> Next
    requires { HasRoom parts_of_row scene.old }
    ensures row { DoneByRows N.rows (noted table.Pour pour_rows) rules.now task scene.old
        scene.new result }
{
    rows! { scene, Table::Pour, Next::Stay;
        (task.object.is_none() || rules.is(task.object, Named::Bottle))
            && liquid(rules, scene.state).is_none() => task.ask_what(rules) -> Next::Keep;
        let x = poured(rules, scene.state, task.object);
        !is_carried(rules, scene.state, x) => task.default(rules);
        let pours_water = rules.is(x, Named::Water);
        let pours_oil = rules.is(x, Named::Oil);
        !pours_water && !pours_oil => say(Role::CantPour);
        let bottle = rules.thing(Named::Bottle);
        let door = rules.thing(Named::Door);
        let is_at_door = scene.state.at(door);
        is_at_door && pours_oil
            => set_prop(bottle, BOTTLE_EMPTY), set_prop(door, DOOR_OILED), say(Role::DoorOiled);
        is_at_door
            => set_prop(bottle, BOTTLE_EMPTY), set_prop(door, DOOR_RUSTY), say(Role::DoorWet);
        let plant = rules.thing(Named::Plant);
        let is_at_plant = scene.state.at(plant);
        is_at_plant && pours_water => set_prop(bottle, BOTTLE_EMPTY), task.water_plant(rules)
            -> Next::Arrive(scene.state.trail.here);
        is_at_plant => set_prop(bottle, BOTTLE_EMPTY), say(Role::PlantOil);
        otherwise => set_prop(bottle, BOTTLE_EMPTY), say(Role::PourGround);
    }
}

/// DRINK, with an object or without one.
#[tactic(auto, unfolding(crate::specs::Pouring::drink_rows))]
pub fn drink<N: RowNotes>(rules: &Rules<'_>, task: Task, scene: &mut Scene<'_, N>) -> Next
    requires { HasRoom parts_of_row scene.old }
    ensures row { DoneByRows N.rows (noted table.Drink drink_rows) rules.now task scene.old
        scene.new result }
{
    let x = task.object;
    let water = rules.thing(Named::Water);
    let bottle = rules.thing(Named::Bottle);
    let water_at_hand = is_liquid(water, liquid(rules, scene.state))
        && is_near(rules, scene.state, bottle);
    rows! { scene, Table::Drink, Next::Stay;
        x.is_none() && !is_liquid(water, lake(rules, scene.state)) && !water_at_hand
            => task.ask_what(rules) -> Next::Keep;
        !x.is_none() && !rules.is(x, Named::Water) => say(Role::Ridiculous);
        water_at_hand => set_prop(bottle, BOTTLE_EMPTY), say(Role::Drunk);
        otherwise => task.default(rules);
    }
}

/// FILL without an object.
#[tactic(auto, unfolding(crate::specs::Pouring::bare_fill_rows), using(crate::proofs::Falls::fill_falls))]
pub fn fill_what<N: RowNotes>(rules: &Rules<'_>, task: Task, scene: &mut Scene<'_, N>) -> VerbStep
    requires { HasRoom parts_of_row scene.old }
    ensures row { ByRows N.rows (noted table.BareFill bare_fill_rows) rules.now task scene.old
        scene.new result }
    ensures ranks { rank_of (cave_of rules.now) result ≤ 1 }
{
    let bottle = rules.thing(Named::Bottle);
    rows! { scene, Table::BareFill, VerbStep::Done(Next::Keep);
        is_near(rules, scene.state, bottle) => {} -> VerbStep::GoOn(Verb::Fill, bottle);
        otherwise => task.ask_what(rules);
    }
}

/// FILL an object.
#[tactic(auto, unfolding(crate::specs::Pouring::fill_rows))]
pub fn fill<N: RowNotes>(rules: &Rules<'_>, task: Task, scene: &mut Scene<'_, N>) -> Next
    requires { HasRoom parts_of_row scene.old }
    ensures row { DoneByRows N.rows (noted table.Fill fill_rows) rules.now task scene.old
        scene.new result }
{
    let x = task.object;
    let is_vase = rules.is(x, Named::Vase);
    let lake_here = lake(rules, scene.state);
    rows! { scene, Table::Fill, Next::Stay;
        is_vase && lake_here.is_none() => say(Role::VaseDry);
        is_vase && !is_carried(rules, scene.state, x) => say(Role::NotHeld);
        is_vase => say(Role::VaseBreak), set_prop(x, VASE_BROKEN), fix(x), bring(x);
        !rules.is(x, Named::Bottle) => task.default(rules);
        liquid(rules, scene.state).is_some() => say(Role::BottleFull);
        lake_here.is_none() => say(Role::NoLake);
        is_liquid(rules.thing(Named::Oil), lake_here)
            => set_prop(x, BOTTLE_OF_OIL), say(Role::FilledOil);
        otherwise => set_prop(x, BOTTLE_OF_WATER), say(Role::FilledWater);
    }
}
