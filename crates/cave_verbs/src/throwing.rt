ghost use Rattle.std.specs.Prelude.{◌≡◌, ◌≤◌, IsTrue};
ghost use Rattle.std.specs.List.{position};
ghost use Rattle.turn_scene.specs.Bounds.{HasRoom, parts_of_row};
ghost use Rattle.cave_verbs.specs.Rows.{ByRows, DoneByRows, noted_after, rank_of, throw_rank};
ghost use Rattle.turn_scene.specs.Effects.{Changes};
ghost use Rattle.turn_scene.specs.Scene.{cave_of};
ghost use Rattle.turn_scene.specs.Reach.{is_dwarf_at, is_dwarf_here};
ghost use Rattle.turn_scene.specs.Rows.{noted};
ghost use Rattle.cave_world.specs.declared.tables.Table.TheVariants as table;
ghost use Rattle.cave_verbs.specs.Throwing.{with_one_killed, throw_rows};

use crate::next::{Next, VerbStep};
use crate::task::Task;
use crate::verb::Verb;
use cave_words::Named;
use cave_world::{Dwarf, PIRATE, RowNotes, Table};
use data_rows::Role;
use turn_scene::props::{AXE_BY_BEAR, BEAR_WILD, DRAGON_ALIVE};
use turn_scene::{Rules, Scene, has_prop, is_carried, is_dwarf_here, is_near, is_treasure, rows};
use world_objects::{Object, Place};

/// THROW an object.
#[tactic(auto, unfolding(crate::specs::Throwing::throw_rows), using(crate::proofs::Falls::throw_falls))]
pub fn throw<N: RowNotes>(rules: &Rules<'_>, task: Task, scene: &mut Scene<'_, N>) -> VerbStep
    requires { HasRoom parts_of_row scene.old }
    ensures row { ByRows N.rows (noted table.Throw throw_rows) rules.now task scene.old scene.new
        result }
    ensures ranks { let cave = cave_of rules.now in
        rank_of cave result ≤ throw_rank cave task.object }
{
    let x = task.object;
    let is_held = is_carried(rules, scene.state, x);
    rows! { scene, Table::Throw, VerbStep::Done(Next::Stay);
        rules.is(x, Named::Rod) && !is_held
            && is_carried(rules, scene.state, rules.thing(Named::SecondRod))
            => {} -> VerbStep::GoOn(Verb::Throw, rules.thing(Named::SecondRod));
        !is_held => task.default(rules);
        in throw_held(rules, task, scene);
    }
}

/// THROW an object that is carried.
#[tactic(auto, unfolding(crate::specs::Throwing::throw_rows))]
fn throw_held<N: RowNotes>(rules: &Rules<'_>, task: Task, scene: &mut Scene<'_, N>) -> VerbStep
    requires { HasRoom parts_of_row scene.old }
    ensures row { ByRows N.rows (noted_after table.Throw 2 throw_rows) rules.now task scene.old
        scene.new result }
    ensures ranks { rank_of (cave_of rules.now) result ≤ 2 }
{
    let x = task.object;
    let bear = rules.thing(Named::Bear);
    rows! { scene, Table::Throw, VerbStep::Done(Next::Stay);
        from 3;
        is_treasure(x) && scene.state.at(rules.thing(Named::Troll))
            => destroy(x), troll_goes(rules), say(Role::TrollPaid);
        rules.is(x, Named::Food) && is_near(rules, scene.state, bear)
            => {} -> VerbStep::GoOn(Verb::Feed, bear);
        !rules.is(x, Named::Axe) => {} -> VerbStep::GoOn(Verb::Drop, x);
        in throw_axe(rules, task, scene);
    }
}

fn first_at(place: Place, dwarves: &[Dwarf]) -> Option<usize>
    ensures { result ≡ position (is_dwarf_at place) dwarves.now }
{
    dwarves.iter().position(|dwarf| dwarf.place == place)
}

/// The first dwarf that is here is killed.
#[tactic(auto, unfolding(crate::specs::Throwing::without_first_at))]
fn strike<N: RowNotes>(scene: &mut Scene<'_, N>)
    ensures { Changes N.rows with_one_killed scene.old scene.new }
{
    let state = &mut *scene.state;
    state.dwarves.kills = state.dwarves.kills.up();
    if let Some(index) = first_at(state.trail.here, &state.dwarves.each[..PIRATE]) {
        state.dwarves.each[index].place = Place::new(0);
        state.dwarves.each[index].has_seen = false;
    }
}

/// The axe is thrown at a dwarf: one number of three is drawn, and 0 is a miss.
#[tactic(auto, unfolding(crate::specs::Throwing::throw_rows, turn_scene::specs::Reach::is_dwarf_here))]
fn throw_axe_at_dwarf<N: RowNotes>(rules: &Rules<'_>, task: Task, scene: &mut Scene<'_, N>) -> Next
    requires room { HasRoom parts_of_row scene.old }
    requires dwarf { IsTrue (is_dwarf_here scene.old.state.now) }
    ensures row { DoneByRows N.rows (noted_after table.Throw 5 throw_rows) rules.now task scene.old
        scene.new result }
{
    let x = task.object;
    rows! { scene, Table::Throw, Next::Arrive(scene.state.trail.here);
        from 6;
        scene.state.stream.draw(3) == 0 => say(Role::AxeMiss), bring(x);
        let is_first_kill = scene.state.dwarves.kills.number() == 0;
        is_first_kill => self::strike(), say(Role::AxeFirst), bring(x);
        otherwise => self::strike(), say(Role::AxeKill), bring(x);
    }
}

#[tactic(auto, unfolding(crate::specs::Throwing::throw_rows))]
fn throw_axe<N: RowNotes>(rules: &Rules<'_>, task: Task, scene: &mut Scene<'_, N>) -> VerbStep
    requires { HasRoom parts_of_row scene.old }
    ensures row { ByRows N.rows (noted_after table.Throw 5 throw_rows) rules.now task scene.old
        scene.new result }
    ensures ranks { rank_of (cave_of rules.now) result ≤ 2 }
{
    let x = task.object;
    let here = scene.state.trail.here;
    rows! { scene, Table::Throw, VerbStep::Done(Next::Stay);
        is_dwarf_here(scene.state)
            => in VerbStep::Done(throw_axe_at_dwarf(rules, task, scene));
        from 9;
        let dragon = rules.thing(Named::Dragon);
        scene.state.at(dragon) && has_prop(scene.state, dragon, DRAGON_ALIVE)
            => say(Role::AxeDragon), bring(x) -> VerbStep::Done(Next::Arrive(here));
        scene.state.at(rules.thing(Named::Troll))
            => say(Role::AxeTroll), bring(x) -> VerbStep::Done(Next::Arrive(here));
        let bear = rules.thing(Named::Bear);
        is_near(rules, scene.state, bear) && has_prop(scene.state, bear, BEAR_WILD)
            => bring(x), fix(x), set_prop(x, AXE_BY_BEAR), juggle(bear), say(Role::AxeBear);
        otherwise => {} -> VerbStep::GoOn(Verb::Kill, Object::none());
    }
}
