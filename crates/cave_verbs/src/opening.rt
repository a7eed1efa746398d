ghost use Rattle.std.specs.Prelude.{◌≡◌, ◌≤◌, ◌||◌, IsTrue};
ghost use Rattle.cave_words.specs.declared.named.Named.TheVariants as name;
ghost use Rattle.turn_scene.specs.Scene.{is_called, cave_of, scene_of};
ghost use Rattle.turn_scene.specs.Bounds.{HasRoom, parts_of_row};
ghost use Rattle.cave_verbs.specs.Rows.{ByRows, DoneByRows, noted_after, rank_of};
ghost use Rattle.turn_scene.specs.Rows.{deed, noted};
ghost use Rattle.cave_verbs.specs.Verbs.{is_verb};
ghost use Rattle.cave_verbs.specs.declared.verb.Verb.TheVariants as verb_is;
ghost use Rattle.cave_world.specs.declared.tables.Table.TheVariants as table;
ghost use Rattle.cave_verbs.specs.Opening.{bare_open_rows, locks, open_rows};

use crate::choice::{Meant, add_meant, first};
use crate::next::{Next, VerbStep};
use crate::task::Task;
use crate::verb::Verb;
use arrayvec::ArrayVec;
use cave_words::Named;
use cave_world::{RowNotes, Table};
use data_rows::{PlaceRole, Role};
use turn_scene::props::{
    BEAR_DEAD, BEAR_FREE, BEAR_WILD, CHAIN_LOCKED, CHAIN_UNLOCKED, DOOR_OILED, GRATE_LOCKED,
    GRATE_UNLOCKED,
};
use turn_scene::{
    Rules, Scene, has_other_prop, has_prop, is_carried, is_home_elsewhere, is_near, rows,
};

/// What a player who names nothing could mean: the grate or the door that is here, or the oyster or
/// the clam at hand.
fn locks<N: RowNotes>(rules: &Rules<'_>, task: &Task, scene: &Scene<'_, N>) -> Meant
    ensures { result.items
        ≡ locks (deed (cave_of rules.now) task.now (scene_of N.rows scene.now)) }
{
    let grate = rules.thing(Named::Grate);
    let door = rules.thing(Named::Door);
    let oyster = rules.thing(Named::Oyster);
    let clam = rules.thing(Named::Clam);
    let mut locks = ArrayVec::new();
    add_meant(scene.state.at(grate), grate, &mut locks);
    add_meant(scene.state.at(door), door, &mut locks);
    add_meant(is_near(rules, scene.state, oyster), oyster, &mut locks);
    add_meant(is_near(rules, scene.state, clam), clam, &mut locks);
    locks
}

/// OPEN or LOCK without an object.
#[tactic(auto, using(crate::proofs::Near::is_something, crate::proofs::Falls::lock_falls), unfolding(crate::specs::Opening::bare_open_rows))]
pub fn open_what_is_here<N: RowNotes>(
    rules: &Rules<'_>,
    task: Task,
    scene: &mut Scene<'_, N>,
) -> VerbStep
    requires room { HasRoom parts_of_row scene.old }
    requires verb { IsTrue (is_verb task.verb verb_is.Open
        || is_verb task.verb verb_is.Lock) }
    ensures row { ByRows N.rows (noted table.BareOpen bare_open_rows) rules.now task scene.old
        scene.new result }
    ensures ranks { rank_of (cave_of rules.now) result ≤ 1 }
{
    let lock = first(locks(rules, &task, scene).as_slice());
    let chain = rules.thing(Named::Chain);
    let is_chain_near = is_near(rules, scene.state, chain);
    rows! { scene, Table::BareOpen, VerbStep::Done(Next::Stay);
        !lock.is_none() && is_chain_near => task.ask_what(rules) -> VerbStep::Done(Next::Keep);
        !lock.is_none() => {} -> VerbStep::GoOn(task.verb, lock);
        is_chain_near => {} -> VerbStep::GoOn(task.verb, chain);
        otherwise => say(Role::NoLock);
    }
}

/// OPEN or LOCK the clam or the oyster.
#[tactic(auto, unfolding(crate::specs::Opening::open_rows))]
fn open_shell<N: RowNotes>(rules: &Rules<'_>, task: Task, scene: &mut Scene<'_, N>) -> Next
    requires room { HasRoom parts_of_row scene.old }
    requires shell { IsTrue (is_called (cave_of rules.now) task.object name.Clam
        || is_called (cave_of rules.now) task.object name.Oyster) }
    ensures row { DoneByRows N.rows (noted table.Open open_rows) rules.now task scene.old
        scene.new result }
{
    let x = task.object;
    let is_clam = rules.is(x, Named::Clam);
    let has_trident = is_carried(rules, scene.state, rules.thing(Named::Trident));
    rows! { scene, Table::Open, Next::Stay;
        task.verb.is(Verb::Lock) => say(Role::LockWhat);
        is_clam && !has_trident => say(Role::ClamTool);
        !has_trident => say(Role::OysterTool);
        is_clam && is_carried(rules, scene.state, x) => say(Role::ClamHeld);
        is_carried(rules, scene.state, x) => say(Role::OysterHeld);
        is_clam => destroy(x), bring(rules.thing(Named::Oyster)),
            send(rules, rules.thing(Named::Pearl), PlaceRole::Culdesac), say(Role::Pearl);
        otherwise => say(Role::OysterOpen);
    }
}

/// OPEN or LOCK an object.
#[tactic(auto, unfolding(crate::specs::Opening::open_rows))]
pub fn open<N: RowNotes>(rules: &Rules<'_>, task: Task, scene: &mut Scene<'_, N>) -> Next
    requires { HasRoom parts_of_row scene.old }
    ensures row { DoneByRows N.rows (noted table.Open open_rows) rules.now task scene.old
        scene.new result }
{
    let x = task.object;
    let is_grate = rules.is(x, Named::Grate);
    let is_chain = rules.is(x, Named::Chain);
    let has_keys = is_near(rules, scene.state, rules.thing(Named::Keys));
    rows! { scene, Table::Open, Next::Stay;
        rules.is(x, Named::Clam) || rules.is(x, Named::Oyster) => in open_shell(rules, task, scene);
        from 8;
        rules.is(x, Named::Door) && has_prop(scene.state, x, DOOR_OILED) => say(Role::Ok);
        rules.is(x, Named::Door) => say(Role::Rusty);
        rules.is(x, Named::Cage) => say(Role::NoLatch);
        rules.is(x, Named::Keys) => say(Role::KeysWhat);
        (is_grate || is_chain) && !has_keys => say(Role::NoKeys);
        is_grate => in open_or_lock_grate(rules, task, scene);
        in open_or_lock_chain(rules, task, scene);
    }
}

/// OPEN or LOCK the grate, with the keys.
#[tactic(auto, unfolding(crate::specs::Opening::open_rows))]
fn open_or_lock_grate<N: RowNotes>(rules: &Rules<'_>, task: Task, scene: &mut Scene<'_, N>) -> Next
    requires room { HasRoom parts_of_row scene.old }
    requires grate { IsTrue (is_called (cave_of rules.now) task.object name.Grate) }
    ensures row { DoneByRows N.rows (noted_after table.Open 12 open_rows) rules.now task scene.old
        scene.new result }
{
    let x = task.object;
    let is_opening = task.verb.is(Verb::Open);
    rows! { scene, Table::Open, Next::Stay;
        from 13;
        scene.state.closing.is_closing => say(Role::ClosingExit), panic(rules);
        is_opening && has_prop(scene.state, x, GRATE_LOCKED)
            => set_prop(x, GRATE_UNLOCKED), say(Role::Unlocked);
        is_opening => say(Role::WasUnlocked);
        has_prop(scene.state, x, GRATE_LOCKED) => say(Role::WasLocked);
        otherwise => set_prop(x, GRATE_LOCKED), say(Role::Locked);
    }
}

/// OPEN or LOCK the chain, with the keys, or what has no row of its own.
#[tactic(auto, unfolding(crate::specs::Opening::open_rows))]
fn open_or_lock_chain<N: RowNotes>(rules: &Rules<'_>, task: Task, scene: &mut Scene<'_, N>) -> Next
    requires { HasRoom parts_of_row scene.old }
    ensures row { DoneByRows N.rows (noted_after table.Open 17 open_rows) rules.now task
        scene.old scene.new result }
{
    let x = task.object;
    let bear = rules.thing(Named::Bear);
    let is_chain = rules.is(x, Named::Chain);
    let opens = is_chain && task.verb.is(Verb::Open);
    rows! { scene, Table::Open, Next::Stay;
        from 18;
        opens && has_prop(scene.state, x, CHAIN_UNLOCKED) => say(Role::WasUnlocked);
        opens && has_prop(scene.state, bear, BEAR_WILD) => say(Role::BearBars);
        opens && has_prop(scene.state, bear, BEAR_DEAD)
            => set_prop(x, CHAIN_UNLOCKED), loosen(x), fix(bear), say(Role::ChainFree);
        opens => set_prop(x, CHAIN_UNLOCKED), loosen(x), set_prop(bear, BEAR_FREE), loosen(bear),
            say(Role::ChainFree);
        is_chain && is_home_elsewhere(rules, scene.state, x) => say(Role::NoLockHere);
        is_chain && has_other_prop(scene.state, x, CHAIN_UNLOCKED) => say(Role::WasLocked);
        is_chain
            => lay_down(rules, x), set_prop(x, CHAIN_LOCKED), fix(x), say(Role::ChainLock);
        otherwise => task.default(rules);
    }
}
