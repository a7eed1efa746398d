ghost use Rattle.std.specs.Prelude.{◌≡◌, ◌≤◌};
ghost use Rattle.turn_scene.specs.Bounds.{HasRoom, parts_of_row};
ghost use Rattle.turn_scene.specs.Scene.{scene_of, cave_of};
ghost use Rattle.cave_verbs.specs.Rows.{ByRows, DoneByRows, rank_of};
ghost use Rattle.turn_scene.specs.Rows.{deed, noted};
ghost use Rattle.cave_world.specs.declared.tables.Table.TheVariants as table;
ghost use Rattle.cave_verbs.specs.Killing.{foes, prey, bare_kill_rows, kill_rows};

use crate::choice::{Meant, add_meant, first, several};
use crate::next::{Next, VerbStep};
use crate::task::Task;
use crate::verb::Verb;
use arrayvec::ArrayVec;
use cave_words::Named;
use cave_world::{Ending, Question, RowNotes, Table};
use data_rows::Role;
use turn_scene::props::{BEAR_DEAD, BEAR_WILD, BIRD_FREE, DRAGON_ALIVE};
use turn_scene::{Rules, Scene, has_prop, is_dwarf_here, is_near, rows};

/// The foes that the player could mean.
fn foes<N: RowNotes>(rules: &Rules<'_>, task: &Task, scene: &Scene<'_, N>) -> Meant
    ensures { result.items
        ≡ foes (deed (cave_of rules.now) task.now (scene_of N.rows scene.now)) }
{
    let dwarf = rules.thing(Named::Dwarf);
    let snake = rules.thing(Named::Snake);
    let dragon = rules.thing(Named::Dragon);
    let troll = rules.thing(Named::Troll);
    let bear = rules.thing(Named::Bear);
    let is_dragon_alive = scene.state.at(dragon) && has_prop(scene.state, dragon, DRAGON_ALIVE);
    let is_bear_wild = is_near(rules, scene.state, bear) && has_prop(scene.state, bear, BEAR_WILD);
    let mut foes = ArrayVec::new();
    add_meant(is_dwarf_here(scene.state), dwarf, &mut foes);
    add_meant(is_near(rules, scene.state, snake), snake, &mut foes);
    add_meant(is_dragon_alive, dragon, &mut foes);
    add_meant(scene.state.at(troll), troll, &mut foes);
    add_meant(is_bear_wild, bear, &mut foes);
    foes
}

/// What the player could mean if there is no foe.
fn prey<N: RowNotes>(rules: &Rules<'_>, task: &Task, scene: &Scene<'_, N>) -> Meant
    ensures { result.items
        ≡ prey (deed (cave_of rules.now) task.now (scene_of N.rows scene.now)) }
{
    let bird = rules.thing(Named::Bird);
    let clam = rules.thing(Named::Clam);
    let oyster = rules.thing(Named::Oyster);
    let is_bird_meant = is_near(rules, scene.state, bird) && !task.commanded.is(Verb::Throw);
    let is_shell_near = is_near(rules, scene.state, clam) || is_near(rules, scene.state, oyster);
    let mut prey = ArrayVec::new();
    add_meant(is_bird_meant, bird, &mut prey);
    add_meant(is_shell_near, clam, &mut prey);
    prey
}

/// KILL without an object.
#[tactic(auto, unfolding(crate::specs::Killing::bare_kill_rows))]
pub fn kill_what_is_here<N: RowNotes>(
    rules: &Rules<'_>,
    task: Task,
    scene: &mut Scene<'_, N>,
) -> VerbStep
    requires { HasRoom parts_of_row scene.old }
    ensures row { ByRows N.rows (noted table.BareKill bare_kill_rows) rules.now task scene.old
        scene.new result }
    ensures ranks { rank_of (cave_of rules.now) result ≤ 1 }
{
    let foes = foes(rules, &task, scene);
    rows! { scene, Table::BareKill, VerbStep::Done(Next::Stay);
        several(foes.as_slice()) => task.ask_what(rules) -> VerbStep::Done(Next::Keep);
        let foe = first(foes.as_slice());
        !foe.is_none() => {} -> VerbStep::GoOn(Verb::Kill, foe);
        let prey = prey(rules, &task, scene);
        several(prey.as_slice()) => task.ask_what(rules) -> VerbStep::Done(Next::Keep);
        let game = first(prey.as_slice());
        !game.is_none() => {} -> VerbStep::GoOn(Verb::Kill, game);
        otherwise => say(Role::NoneToKill);
    }
}

/// KILL an object.
#[tactic(auto, unfolding(crate::specs::Killing::kill_rows))]
pub fn kill<N: RowNotes>(rules: &Rules<'_>, task: Task, scene: &mut Scene<'_, N>) -> Next
    requires { HasRoom parts_of_row scene.old }
    ensures row { DoneByRows N.rows (noted table.Kill kill_rows) rules.now task scene.old
        scene.new result }
{
    let x = task.object;
    let is_closed = scene.state.closing.is_closed;
    rows! { scene, Table::Kill, Next::Stay;
        rules.is(x, Named::Bird) && is_closed => say(Role::BirdNo);
        rules.is(x, Named::Bird)
            => destroy(x), set_prop(x, BIRD_FREE), lose_to_snake(rules), say(Role::BirdDead);
        rules.is(x, Named::Clam) || rules.is(x, Named::Oyster) => say(Role::Shell);
        rules.is(x, Named::Snake) => say(Role::SnakeNo);
        rules.is(x, Named::Dwarf) && is_closed
            => say(Role::Disturbed) -> Next::End(Ending::Killed);
        rules.is(x, Named::Dwarf) => say(Role::WithWhat);
        rules.is(x, Named::Dragon) && has_prop(scene.state, x, DRAGON_ALIVE)
            => {} -> Next::Ask(Question::Dragon);
        rules.is(x, Named::Dragon) => say(Role::DeadAlready);
        rules.is(x, Named::Troll) => say(Role::TrollNo);
        rules.is(x, Named::Bear) && has_prop(scene.state, x, BEAR_WILD) => say(Role::BearFight);
        rules.is(x, Named::Bear) && has_prop(scene.state, x, BEAR_DEAD) => say(Role::DeadAlready);
        rules.is(x, Named::Bear) => say(Role::BearFriend);
        otherwise => task.default(rules);
    }
}
