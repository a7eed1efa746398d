ghost use Rattle.std.specs.Prelude.{◌+◌, ◌≤◌};
ghost use Rattle.arrayvec.specs.ArrayVec.{array_vec_len};
ghost use Rattle.cave_words.specs.Lexicon.{IsLexiconOf};
ghost use Rattle.cave_verbs.specs.Acting.{IsDone, act_on_command};

use crate::acting::act_in_scene;
use crate::next::Next;
use crate::task::Task;
use crate::verb::Verb;
use cave_data::Cave;
use cave_words::{Lexicon, Word};
use cave_world::{Out, State, Unnoted};
use turn_scene::scene::MAX_FORCED_MOTIONS;
use turn_scene::{Rules, Scene};
use world_objects::Object;

/// What a player commands.
#[derive(Clone, Copy, Debug, PartialEq, Eq)]
pub struct Command {
    pub verb: Verb,
    /// The object that the verb is done to; object 0 is none.
    pub object: Object,
    /// The word that was just read.
    pub word: Word,
    /// Whether it was dark as the turn began.
    pub was_dark: bool,
}

/// Does what a command says in a state, appends what is said, and returns what follows.
pub fn act(
    cave: &Cave,
    lexicon: &Lexicon,
    state: &mut State,
    command: Command,
    out: &mut Out,
) -> Next
    requires words { IsLexiconOf cave.now lexicon.now }
    requires room { array_vec_len out.old ≤ 390 }
    ensures rules { IsDone (act_on_command cave.now command state.old out.old.items)
        state.new out.new.items result }
    ensures few { array_vec_len out.new ≤ array_vec_len out.old + 110 }
{
    let rules = Rules::of(cave, lexicon);
    let Command {
        verb,
        object,
        word,
        was_dark,
    } = command;
    let mut notes = Unnoted::new();
    let mut scene = Scene {
        state,
        out,
        notes: &mut notes,
        was_dark,
        left: MAX_FORCED_MOTIONS,
    };
    act_in_scene(&rules, Task::of(verb, object, word), &mut scene)
}
