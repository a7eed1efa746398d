ghost use Rattle.std.specs.Prelude.{◌≡◌, ◌≤◌};
ghost use Rattle.turn_scene.specs.Bounds.{HasRoom};
ghost use Rattle.cave_verbs.specs.Rows.{ByRows, DoneByRows, noted_after, rank_of, take_rank};
ghost use Rattle.turn_scene.specs.Scene.{cave_of};
ghost use Rattle.turn_scene.specs.Rows.{noted};
ghost use Rattle.cave_world.specs.declared.tables.Table.TheVariants as table;
ghost use Rattle.cave_verbs.specs.Taking.{bare_take_rows, take_rows, lone_object};

use crate::next::{Next, VerbStep};
use crate::task::Task;
use crate::verb::Verb;
use cave_words::Named;
use cave_world::{RowNotes, Table};
use data_rows::Role;
use turn_scene::props::{BEAR_FED, BEAR_WILD, BIRD_CAGED, BIRD_FREE, BOTTLE_EMPTY, PLANT_SMALL};
use turn_scene::{
    Rules, Scene, has_other_prop, has_prop, has_prop_up_to, is_carried, is_dwarf_here, is_fixed,
    is_liquid, is_near, liquid, rows,
};
use world_objects::{Half, Object};

/// A player with this many objects in the hands can't take another.
const MAX_TAKEN: usize = 7;

fn lone_object(halves: &[Half]) -> Object
    ensures { result ≡ lone_object halves.now }
{
    match halves {
        [half] => half.object(),
        _ => Object::none(),
    }
}

/// TAKE without an object.
#[tactic(auto, unfolding(crate::specs::Taking::bare_take_rows))]
pub fn take_what_is_here<N: RowNotes>(
    rules: &Rules<'_>,
    task: Task,
    scene: &mut Scene<'_, N>,
) -> VerbStep
    requires { HasRoom 1 scene.old }
    ensures row { ByRows N.rows (noted table.BareTake bare_take_rows) rules.now task scene.old
        scene.new result }
    ensures ranks { rank_of (cave_of rules.now) result ≤ 3 }
{
    let here = scene.state.trail.here;
    let lone = lone_object(scene.state.objects_at(here).as_slice());
    rows! { scene, Table::BareTake, VerbStep::Done(Next::Keep);
        !lone.is_none() && !is_dwarf_here(scene.state) => {} -> VerbStep::GoOn(Verb::Take, lone);
        otherwise => task.ask_what(rules);
    }
}

/// TAKE an object.
#[tactic(auto, unfolding(crate::specs::Taking::take_rows), using(crate::proofs::Falls::take_falls))]
pub fn take<N: RowNotes>(rules: &Rules<'_>, task: Task, scene: &mut Scene<'_, N>) -> VerbStep
    requires { HasRoom 1 scene.old }
    ensures row { ByRows N.rows (noted table.Take take_rows) rules.now task scene.old scene.new
        result }
    ensures ranks { let cave = cave_of rules.now in
        rank_of cave result ≤ take_rank cave task.object }
{
    let x = task.object;
    let bottle = rules.thing(Named::Bottle);
    rows! { scene, Table::Take, VerbStep::Done(Next::Stay);
        is_carried(rules, scene.state, x) => task.default(rules);
        let immovable = is_fixed(scene.state, x);
        immovable && rules.is(x, Named::Plant) && has_prop_up_to(scene.state, x, PLANT_SMALL)
            => say(Role::PlantRoots);
        immovable && rules.is(x, Named::Bear) && has_prop(scene.state, x, BEAR_FED)
            => say(Role::BearChained);
        immovable && rules.is(x, Named::Chain)
            && has_other_prop(scene.state, rules.thing(Named::Bear), BEAR_WILD)
            => say(Role::ChainLocked);
        immovable => say(Role::Immovable);
        is_liquid(x, liquid(rules, scene.state)) && is_near(rules, scene.state, bottle)
            => {} -> VerbStep::GoOn(Verb::Take, bottle);
        let is_liquid = rules.is(x, Named::Water) || rules.is(x, Named::Oil);
        let has_bottle = is_liquid && is_carried(rules, scene.state, bottle);
        has_bottle && has_prop(scene.state, bottle, BOTTLE_EMPTY)
            => {} -> VerbStep::GoOn(Verb::Fill, bottle);
        has_bottle => say(Role::BottleFull);
        is_liquid => say(Role::NoBottle);
        let full_hands = MAX_TAKEN <= scene.state.holding();
        full_hands => say(Role::TooMuch);
        in VerbStep::Done(take_freely(rules, task, scene));
    }
}

/// TAKE an object that isn't fixed, with hands that aren't full.
#[tactic(auto, unfolding(crate::specs::Taking::take_rows))]
fn take_freely<N: RowNotes>(rules: &Rules<'_>, task: Task, scene: &mut Scene<'_, N>) -> Next
    requires { HasRoom 1 scene.old }
    ensures row { DoneByRows N.rows (noted_after table.Take 10 take_rows) rules.now task
        scene.old scene.new result }
{
    let x = task.object;
    let bird = rules.thing(Named::Bird);
    let is_bird = rules.is(x, Named::Bird);
    let is_bird_free = is_bird && has_prop(scene.state, x, BIRD_FREE);
    rows! { scene, Table::Take, Next::Stay;
        from 11;
        is_bird_free && is_carried(rules, scene.state, rules.thing(Named::Rod))
            => say(Role::BirdRod);
        is_bird_free && !is_carried(rules, scene.state, rules.thing(Named::Cage))
            => say(Role::NoCage);
        is_bird_free => set_prop(x, BIRD_CAGED), carry(rules.thing(Named::Cage)), carry(x),
            say(Role::Ok);
        is_bird => carry(rules.thing(Named::Cage)), carry(x), say(Role::Ok);
        rules.is(x, Named::Cage) && has_other_prop(scene.state, bird, BIRD_FREE)
            => carry(bird), carry(x), say(Role::Ok);
        otherwise => carry(x), say(Role::Ok);
    }
}
