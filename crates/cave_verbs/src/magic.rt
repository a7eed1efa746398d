ghost use Rattle.std.specs.Prelude.{◌≡◌, ◌<◌, ◌-ℤ◌, not, pos};
ghost use Rattle.std.specs.Ordering.{int_eq};
ghost use Rattle.turn_scene.specs.Bounds.{HasRoom};
ghost use Rattle.cave_verbs.specs.Rows.{DoneByRows};
ghost use Rattle.turn_scene.specs.Rows.{Does, noted};
ghost use Rattle.turn_scene.specs.Effects.{Changes};
ghost use Rattle.data_rows.specs.Rows.{WORDS_PER_CLASS};
ghost use Rattle.cave_world.specs.declared.tables.Table.TheVariants as table;
ghost use Rattle.cave_verbs.specs.Magic.{bare_foo_rows, send_eggs_home, with_magic};

use crate::next::Next;
use crate::task::Task;
use cave_words::Named;
use cave_world::{Magic, RowNotes, State, Table};
use data_rows::Role;
use turn_scene::props::{
    EGGS_APPEARING, EGGS_ELSEWHERE, EGGS_VANISHING, TROLL_CALM, TROLL_RETURNING,
};
use turn_scene::{
    Rules, Scene, has_prop, home, is_at_home, is_carried, is_home_here, is_near, rows, special,
};

/// FOO without an object.
#[tactic(auto, unfolding(crate::specs::Magic::bare_foo_rows))]
pub fn foo<N: RowNotes>(rules: &Rules<'_>, task: Task, scene: &mut Scene<'_, N>) -> Next
    requires { HasRoom 1 scene.old }
    ensures row { DoneByRows N.rows (noted table.BareFoo bare_foo_rows) rules.now task scene.old
        scene.new result }
{
    let k = special(rules, task.word);
    let is_wrong = k == 0 || is_out_of_turn(scene.state, k);
    rows! { scene, Table::BareFoo, Next::Stay;
        is_wrong && magic_of(scene.state) == 0 => say(Role::Magic);
        is_wrong => say(Role::FooOrder);
        k != 4 => self::remember(k), say(Role::Ok);
        let eggs = rules.thing(Named::Eggs);
        eggs.is_none() => self::begin_anew(), say(Role::Magic);
        is_at_home(rules, scene.state, eggs) => self::begin_anew(), say(Role::Magic);
        is_carried(rules, scene.state, eggs) && is_home_here(rules, scene.state, eggs)
            => self::begin_anew(), say(Role::Magic);
        let troll = rules.thing(Named::Troll);
        scene.state.is_gone(eggs) && scene.state.is_gone(troll)
            && has_prop(scene.state, troll, TROLL_CALM)
            => self::begin_anew(), set_prop(troll, TROLL_RETURNING), task.send_eggs_home(rules);
        otherwise => self::begin_anew(), task.send_eggs_home(rules);
    }
}

/// How far the player has come with the magic words.
fn magic_of(state: &State) -> i16
    ensures { result ≡ state.now.talk.magic }
{
    state.talk.magic.value()
}

fn is_out_of_turn(state: &State, k: u16) -> bool
    requires { k < WORDS_PER_CLASS }
    ensures { result ≡ not (int_eq state.now.talk.magic (pos 1 -ℤ pos k)) }
{
    magic_of(state) != 1 - k as i16
}

impl Task {
    /// A text of the eggs is printed: they appear, vanish, or do neither here. They go home.
    #[tactic(auto, unfolding(crate::specs::Magic::eggs_rows))]
    fn send_eggs_home<N: RowNotes>(self, rules: &Rules<'_>, scene: &mut Scene<'_, N>)
        requires { HasRoom 1 scene.old }
        ensures scene { Does N.rows send_eggs_home 1 rules.now self scene.old scene.new }
    {
        let eggs = rules.thing(Named::Eggs);
        rows! { scene, Table::Eggs;
            is_home_here(rules, scene.state, eggs) => look(eggs, EGGS_APPEARING);
            is_near(rules, scene.state, eggs) => look(eggs, EGGS_VANISHING);
            otherwise => look(eggs, EGGS_ELSEWHERE);
        }
        scene.move_to(eggs, home(rules, eggs));
    }
}

/// The word with a number is remembered as the last that was said.
fn remember<N: RowNotes>(k: u16, scene: &mut Scene<'_, N>)
    requires { k < WORDS_PER_CLASS }
    ensures { Changes N.rows (with_magic (pos k)) scene.old scene.new }
{
    scene.state.talk.magic = Magic::new(k as i16);
}

/// No magic word counts as said from now on.
fn begin_anew<N: RowNotes>(scene: &mut Scene<'_, N>)
    ensures { Changes N.rows (with_magic (pos 0)) scene.old scene.new }
{
    scene.state.talk.magic = Magic::new(0);
}
