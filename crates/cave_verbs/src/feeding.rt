ghost use Rattle.std.specs.Prelude.{◌≤◌};
ghost use Rattle.turn_scene.specs.Bounds.{HasRoom, parts_of_row};
ghost use Rattle.cave_verbs.specs.Rows.{ByRows, DoneByRows, rank_of};
ghost use Rattle.turn_scene.specs.Scene.{cave_of};
ghost use Rattle.turn_scene.specs.Rows.{noted};
ghost use Rattle.turn_scene.specs.Effects.{Changes};
ghost use Rattle.cave_world.specs.declared.tables.Table.TheVariants as table;
ghost use Rattle.cave_verbs.specs.Feeding.{feed_rows, bare_eat_rows, eat_rows, with_more_anger};

use crate::next::{Next, VerbStep};
use crate::task::Task;
use crate::verb::Verb;
use cave_words::Named;
use cave_world::{RowNotes, Table};
use data_rows::Role;
use turn_scene::props::{AXE_FREE, BEAR_DEAD, BEAR_FED, BEAR_WILD, BIRD_FREE, DRAGON_ALIVE};
use turn_scene::{Rules, Scene, has_other_prop, has_prop, is_near, rows};

/// Living beings that aren't food.
const LIVING: [Named; 8] = [
    Named::Bird,
    Named::Snake,
    Named::Clam,
    Named::Oyster,
    Named::Dwarf,
    Named::Dragon,
    Named::Troll,
    Named::Bear,
];

/// EAT without an object.
#[tactic(auto, using(crate::proofs::Near::is_something), unfolding(crate::specs::Feeding::bare_eat_rows))]
pub fn eat_what_is_here<N: RowNotes>(
    rules: &Rules<'_>,
    task: Task,
    scene: &mut Scene<'_, N>,
) -> VerbStep
    requires { HasRoom parts_of_row scene.old }
    ensures row { ByRows N.rows (noted table.BareEat bare_eat_rows) rules.now task scene.old
        scene.new result }
    ensures ranks { rank_of (cave_of rules.now) result ≤ 1 }
{
    let food = rules.thing(Named::Food);
    rows! { scene, Table::BareEat, VerbStep::Done(Next::Keep);
        is_near(rules, scene.state, food) => {} -> VerbStep::GoOn(Verb::Eat, food);
        otherwise => task.ask_what(rules);
    }
}

/// EAT an object.
#[tactic(auto, unfolding(crate::specs::Feeding::eat_rows))]
pub fn eat<N: RowNotes>(rules: &Rules<'_>, task: Task, scene: &mut Scene<'_, N>) -> Next
    requires { HasRoom parts_of_row scene.old }
    ensures row { DoneByRows N.rows (noted table.Eat eat_rows) rules.now task scene.old scene.new
        result }
{
    let x = task.object;
    rows! { scene, Table::Eat, Next::Stay;
        rules.is(x, Named::Food) => destroy(x), say(Role::Eaten);
        rules.is_one_of(x, &LIVING) => say(Role::NoAppetite);
        otherwise => task.default(rules);
    }
}

/// The dwarves are angrier by one, up to the most.
fn anger_dwarves<N: RowNotes>(scene: &mut Scene<'_, N>)
    ensures { Changes N.rows with_more_anger scene.old scene.new }
{
    scene.state.dwarves.anger = scene.state.dwarves.anger.up();
}

/// FEED an object.
#[tactic(auto, unfolding(crate::specs::Feeding::feed_rows))]
pub fn feed<N: RowNotes>(rules: &Rules<'_>, task: Task, scene: &mut Scene<'_, N>) -> Next
    requires { HasRoom parts_of_row scene.old }
    ensures row { DoneByRows N.rows (noted table.Feed feed_rows) rules.now task scene.old
        scene.new result }
{
    let x = task.object;
    let bird = rules.thing(Named::Bird);
    let food = rules.thing(Named::Food);
    rows! { scene, Table::Feed, Next::Stay;
        rules.is(x, Named::Bird) => say(Role::BirdFeed);
        rules.is(x, Named::Snake) && !scene.state.closing.is_closed
            && is_near(rules, scene.state, bird)
            => destroy(bird), set_prop(bird, BIRD_FREE), lose_one(), say(Role::BirdEaten);
        rules.is(x, Named::Dragon) && has_other_prop(scene.state, x, DRAGON_ALIVE)
            => say(Role::Ridiculous);
        rules.is(x, Named::Snake) || rules.is(x, Named::Dragon) => say(Role::NotHungry);
        rules.is(x, Named::Troll) => say(Role::TrollFeed);
        rules.is(x, Named::Dwarf) && is_near(rules, scene.state, food)
            => self::anger_dwarves(), say(Role::DwarfFeed);
        rules.is(x, Named::Dwarf) => task.default(rules);
        let is_bear = rules.is(x, Named::Bear);
        is_bear && is_near(rules, scene.state, food)
            => destroy(food), set_prop(x, BEAR_FED), loosen(rules.thing(Named::Axe)),
            set_prop(rules.thing(Named::Axe), AXE_FREE), say(Role::BearFed);
        is_bear && has_prop(scene.state, x, BEAR_WILD) => say(Role::NotHungry);
        is_bear && has_prop(scene.state, x, BEAR_DEAD) => say(Role::Ridiculous);
        is_bear => task.default(rules);
        otherwise => say(Role::FeedWhat);
    }
}
