ghost use Rattle.std.specs.Prelude.{◌≡◌, [], ◌∷◌};
ghost use Rattle.turn_scene.specs.Bounds.{GoesOnSaying, HasRoom};
ghost use Rattle.turn_scene.specs.Scene.{scene_of, cave_of};
ghost use Rattle.turn_scene.specs.Rows.{Does};
ghost use Rattle.cave_verbs.specs.Effects.{after_default, default, ask_what};

use crate::verb::Verb;
use cave_words::Word;
use cave_world::{Part, RowNotes, WordLine};
use turn_scene::{Rules, Scene};
use world_objects::Object;

/// What a verb is to do: what the player commands, or what a row goes on with.
#[derive(Clone, Copy, Debug, PartialEq, Eq)]
pub struct Task {
    pub verb: Verb,
    /// The object that it is done to; object 0 is none.
    pub object: Object,
    /// The verb that the player commands.
    pub commanded: Verb,
    /// The word that was just read.
    pub word: Word,
}

/// Says the message that the cave gives an action, if there is one.
pub fn tell_default<N: RowNotes>(rules: &Rules<'_>, number: u16, scene: &mut Scene<'_, N>)
    requires { HasRoom 1 scene.old }
    ensures scene { scene_of N.rows scene.new
        ≡ after_default (cave_of rules.now) number (scene_of N.rows scene.old) }
    ensures says { GoesOnSaying 1 scene.old scene.new }
{
    let message = rules.cave.default_of(number);
    if message != 0 {
        scene.tell(Part::Message(message));
    }
}

impl Task {
    ghost use Rattle.cave_verbs.specs.Rows.{task_of};

    /// What a player commands.
    pub fn of(verb: Verb, object: Object, word: Word) -> Task
        ensures { result ≡ task_of verb object word }
    {
        Task {
            verb,
            object,
            commanded: verb,
            word,
        }
    }

    /// Says the message that the cave gives the verb, if there is one.
    pub fn default<N: RowNotes>(self, rules: &Rules<'_>, scene: &mut Scene<'_, N>)
        requires { HasRoom 1 scene.old }
        ensures { Does N.rows (default ∷ []) 1 rules.now self scene.old scene.new }
    {
        tell_default(rules, self.verb.number(), scene);
    }

    /// The word that was just read is asked back.
    pub fn ask_what<N: RowNotes>(self, rules: &Rules<'_>, scene: &mut Scene<'_, N>)
        requires { HasRoom 1 scene.old }
        ensures { Does N.rows (ask_what ∷ []) 1 rules.now self scene.old scene.new }
    {
        scene.tell(Part::Word(WordLine::What, self.word));
    }
}
