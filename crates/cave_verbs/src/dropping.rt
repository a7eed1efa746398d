ghost use Rattle.std.specs.Prelude.{◌≤◌};
ghost use Rattle.turn_scene.specs.Scene.{cave_of};
ghost use Rattle.turn_scene.specs.Bounds.{HasRoom, parts_of_row};
ghost use Rattle.cave_verbs.specs.Rows.{ByRows, DoneByRows, noted_after, rank_of, drop_rank};
ghost use Rattle.turn_scene.specs.Rows.{noted};
ghost use Rattle.cave_world.specs.declared.tables.Table.TheVariants as table;
ghost use Rattle.cave_verbs.specs.Dropping.{drop_rows};

use crate::next::{Next, VerbStep};
use crate::task::Task;
use crate::verb::Verb;
use cave_words::Named;
use cave_world::{Ending, RowNotes, Table};
use data_rows::Role;
use turn_scene::props::{
    BATTERIES_FRESH, BIRD_FREE, DRAGON_ALIVE, SNAKE_GONE, TROLL_FLED, VASE_BREAKING, VASE_BROKEN,
    VASE_ON_PILLOW, VASE_WHOLE,
};
use turn_scene::{Rules, Scene, has_prop, is_carried, is_home_elsewhere, is_near, rows};

/// DROP an object.
#[tactic(auto, unfolding(crate::specs::Dropping::drop_rows), using(crate::proofs::Falls::drop_falls))]
pub fn drop_object<N: RowNotes>(rules: &Rules<'_>, task: Task, scene: &mut Scene<'_, N>) -> VerbStep
    requires { HasRoom parts_of_row scene.old }
    ensures row { ByRows N.rows (noted table.Drop drop_rows) rules.now task scene.old scene.new
        result }
    ensures ranks { let cave = cave_of rules.now in
        rank_of cave result ≤ drop_rank cave task.object }
{
    let x = task.object;
    let is_held = is_carried(rules, scene.state, x);
    rows! { scene, Table::Drop, VerbStep::Done(Next::Stay);
        rules.is(x, Named::Rod) && !is_held
            && is_carried(rules, scene.state, rules.thing(Named::SecondRod))
            => {} -> VerbStep::GoOn(Verb::Drop, rules.thing(Named::SecondRod));
        !is_held => task.default(rules);
        in VerbStep::Done(drop_held(rules, task, scene));
    }
}

/// DROP an object that is carried.
#[tactic(auto, unfolding(crate::specs::Dropping::drop_rows))]
fn drop_held<N: RowNotes>(rules: &Rules<'_>, task: Task, scene: &mut Scene<'_, N>) -> Next
    requires { HasRoom parts_of_row scene.old }
    ensures row { DoneByRows N.rows (noted_after table.Drop 2 drop_rows) rules.now task
        scene.old scene.new result }
{
    let x = task.object;
    let is_bird = rules.is(x, Named::Bird);
    let is_bird_by_snake = is_bird && is_near(rules, scene.state, rules.thing(Named::Snake));
    rows! { scene, Table::Drop, Next::Stay;
        from 3;
        is_bird_by_snake && scene.state.closing.is_closed
            => say(Role::BirdSnake), say(Role::Disturbed) -> Next::End(Ending::Killed);
        is_bird_by_snake => say(Role::BirdSnake), destroy(rules.thing(Named::Snake)),
            set_prop(rules.thing(Named::Snake), SNAKE_GONE), put(rules, x);
        rules.is(x, Named::Coins) && is_near(rules, scene.state, rules.thing(Named::Vending))
            => destroy(x), bring(rules.thing(Named::Batteries)),
            look(rules.thing(Named::Batteries), BATTERIES_FRESH);
        let dragon = rules.thing(Named::Dragon);
        is_bird && scene.state.at(dragon) && has_prop(scene.state, dragon, DRAGON_ALIVE)
            => say(Role::BirdDragon), destroy(x), set_prop(x, BIRD_FREE), lose_to_snake(rules);
        let troll = rules.thing(Named::Troll);
        rules.is(x, Named::Bear) && scene.state.at(troll) => say(Role::TrollFlees),
            troll_goes(rules), set_prop(troll, TROLL_FLED), put(rules, x);
        let pillow = rules.thing(Named::Pillow);
        let is_vase = rules.is(x, Named::Vase) && is_home_elsewhere(rules, scene.state, pillow);
        is_vase && scene.state.at(pillow)
            => set_prop(x, VASE_WHOLE), look(x, VASE_ON_PILLOW), put(rules, x);
        is_vase => set_prop(x, VASE_BROKEN), look(x, VASE_BREAKING), fix(x), put(rules, x);
        otherwise => say(Role::Ok), put(rules, x);
    }
}
