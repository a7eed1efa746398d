ghost use Rattle.std.specs.Prelude.{◌≡◌, ◌+◌, ◌<◌, ◌≤◌};
ghost use Rattle.turn_scene.specs.Bounds.{GoesOnSaying, HasRoom, parts_of_goings_on};
ghost use Rattle.turn_scene.specs.Bounds.{parts_of_inventory, parts_of_verb};
ghost use Rattle.turn_scene.specs.Scene.{scene_of, cave_of};
ghost use Rattle.cave_verbs.specs.declared.next.VerbStep.TheVariants.{Done};
ghost use Rattle.cave_verbs.specs.Rows.{ActsBy, parts_by, rank, rank_of};
ghost use Rattle.turn_scene.specs.Rows.{act_of, deed};
ghost use Rattle.cave_verbs.specs.Acting.{act, act_bare, act_on, act_once, act_within};

use crate::dropping::drop_object;
use crate::feeding::{eat, eat_what_is_here, feed};
use crate::finding::{find, inventory};
use crate::killing::{kill, kill_what_is_here};
use crate::magic::foo;
use crate::next::{Next, VerbStep};
use crate::opening::{open, open_what_is_here};
use crate::pouring::{drink, fill, fill_what, pour};
use crate::reading::{read, read_what_is_here};
use crate::small::{blast, break_object, brief, rub, turn_off, turn_on, wake, wave};
use crate::taking::{take, take_what_is_here};
use crate::task::Task;
use crate::throwing::throw;
use crate::verb::Verb;
use cave_world::{Question, RowNotes};
use data_rows::Role;
use turn_scene::{Rules, Scene};

/// Does a task in a turn that is played, and returns what follows.
#[tactic(auto, using(crate::proofs::Falls::few_ranks), unfolding(crate::specs::Acting::act))]
pub fn act_in_scene<N: RowNotes>(rules: &Rules<'_>, task: Task, scene: &mut Scene<'_, N>) -> Next
    requires { HasRoom parts_of_verb scene.old }
    ensures rules { act_of (scene_of N.rows scene.new) (Done result)
        ≡ act (cave_of rules.now) task (scene_of N.rows scene.old) }
    ensures says { GoesOnSaying (parts_of_goings_on 3 + parts_by (Done result)) scene.old
        scene.new }
{
    act_within(rules, 3, task, scene)
}

/// Does a verb that is done to no object.
#[tactic(auto, unfolding(crate::specs::Acting::act_bare, crate::specs::Small::bare_rows, crate::specs::Small::nothing_rows, crate::specs::Small::bare_quit_rows, crate::specs::Small::bare_score_rows))]
fn act_bare<N: RowNotes>(rules: &Rules<'_>, task: Task, scene: &mut Scene<'_, N>) -> VerbStep
    requires bare { task.object ≡ 0 }
    requires room { HasRoom parts_of_inventory scene.old }
    ensures rules { ActsBy N.rows act_bare rules.now task scene.old scene.new result }
    ensures ranks { rank_of (cave_of rules.now) result
        ≤ rank (cave_of rules.now) task.verb task.object }
{
    match task.verb {
        Verb::Take => take_what_is_here(rules, task, scene),
        Verb::Open | Verb::Lock => open_what_is_here(rules, task, scene),
        Verb::Nothing => {
            scene.say(Role::Ok);
            VerbStep::Done(Next::Stay)
        }
        Verb::On => VerbStep::Done(turn_on(rules, task, scene)),
        Verb::Off => VerbStep::Done(turn_off(rules, task, scene)),
        Verb::Kill => kill_what_is_here(rules, task, scene),
        Verb::Pour => VerbStep::Done(pour(rules, task, scene)),
        Verb::Eat => eat_what_is_here(rules, task, scene),
        Verb::Drink => VerbStep::Done(drink(rules, task, scene)),
        Verb::Quit => VerbStep::Done(Next::Ask(Question::Quit)),
        Verb::Inventory => VerbStep::Done(inventory(rules, task, scene)),
        Verb::Fill => fill_what(rules, task, scene),
        Verb::Blast => VerbStep::Done(blast(rules, task, scene)),
        Verb::Score => VerbStep::Done(Next::Ask(Question::ScoreQuit)),
        Verb::Foo => VerbStep::Done(foo(rules, task, scene)),
        Verb::Brief => VerbStep::Done(brief(rules, task, scene)),
        Verb::Read => read_what_is_here(rules, task, scene),
        Verb::Drop
        | Verb::Say
        | Verb::Wave
        | Verb::Calm
        | Verb::Rub
        | Verb::Throw
        | Verb::Find
        | Verb::Feed
        | Verb::Break
        | Verb::Wake => {
            task.ask_what(rules, scene);
            VerbStep::Done(Next::Keep)
        }
    }
}

/// Does a verb that is done to an object.
#[tactic(auto, unfolding(crate::specs::Acting::act_on, crate::specs::Small::nothing_rows, crate::specs::Small::other_rows))]
fn act_on<N: RowNotes>(rules: &Rules<'_>, task: Task, scene: &mut Scene<'_, N>) -> VerbStep
    requires object { 0 < task.object }
    requires room { HasRoom parts_of_inventory scene.old }
    ensures rules { ActsBy N.rows act_on rules.now task scene.old scene.new result }
    ensures ranks { rank_of (cave_of rules.now) result
        ≤ rank (cave_of rules.now) task.verb task.object }
{
    match task.verb {
        Verb::Take => take(rules, task, scene),
        Verb::Drop => drop_object(rules, task, scene),
        Verb::Open | Verb::Lock => VerbStep::Done(open(rules, task, scene)),
        Verb::Nothing => {
            scene.say(Role::Ok);
            VerbStep::Done(Next::Stay)
        }
        Verb::On => VerbStep::Done(turn_on(rules, task, scene)),
        Verb::Off => VerbStep::Done(turn_off(rules, task, scene)),
        Verb::Wave => VerbStep::Done(wave(rules, task, scene)),
        Verb::Kill => VerbStep::Done(kill(rules, task, scene)),
        Verb::Pour => VerbStep::Done(pour(rules, task, scene)),
        Verb::Eat => VerbStep::Done(eat(rules, task, scene)),
        Verb::Drink => VerbStep::Done(drink(rules, task, scene)),
        Verb::Rub => VerbStep::Done(rub(rules, task, scene)),
        Verb::Throw => throw(rules, task, scene),
        Verb::Find | Verb::Inventory => VerbStep::Done(find(rules, task, scene)),
        Verb::Feed => VerbStep::Done(feed(rules, task, scene)),
        Verb::Fill => VerbStep::Done(fill(rules, task, scene)),
        Verb::Blast => VerbStep::Done(blast(rules, task, scene)),
        Verb::Read => VerbStep::Done(read(rules, task, scene)),
        Verb::Break => VerbStep::Done(break_object(rules, task, scene)),
        Verb::Wake => VerbStep::Done(wake(rules, task, scene)),
        Verb::Say | Verb::Calm | Verb::Quit | Verb::Score | Verb::Foo | Verb::Brief => {
            task.default(rules, scene);
            VerbStep::Done(Next::Stay)
        }
    }
}

/// Does a verb by its own rules.
fn act_once<N: RowNotes>(rules: &Rules<'_>, task: Task, scene: &mut Scene<'_, N>) -> VerbStep
    requires room { HasRoom parts_of_inventory scene.old }
    ensures rules { ActsBy N.rows act_once rules.now task scene.old scene.new result }
    ensures ranks { rank_of (cave_of rules.now) result
        ≤ rank (cave_of rules.now) task.verb task.object }
{
    if task.object.is_none() {
        act_bare(rules, task, scene)
    } else {
        act_on(rules, task, scene)
    }
}

/// Does a verb, and those that it goes on with, at most this many.
#[tactic(auto, unfolding(crate::specs::Acting::act_within))]
fn act_within<N: RowNotes>(
    rules: &Rules<'_>,
    left: u8,
    task: Task,
    scene: &mut Scene<'_, N>,
) -> Next
    requires rank { rank (cave_of rules.now) task.verb task.object ≤ left }
    requires room { HasRoom (parts_of_goings_on left + parts_of_inventory) scene.old }
    ensures rules { act_of (scene_of N.rows scene.new) (Done result)
        ≡ act_within left (deed (cave_of rules.now) task (scene_of N.rows scene.old)) }
    ensures says { GoesOnSaying (parts_of_goings_on left + parts_by (Done result)) scene.old
        scene.new }
{
    let Task {
        commanded,
        word,
        ..
    } = task;
    match act_once(rules, task, scene) {
        VerbStep::Done(next) => next,
        VerbStep::GoOn(verb, object) => {
            let task = Task {
                verb,
                object,
                commanded,
                word,
            };
            act_within(rules, left - 1, task, scene)
        }
    }
}
