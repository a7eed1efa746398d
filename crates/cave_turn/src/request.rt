ghost use Rattle.std.specs.Prelude.{◌≡◌, Some, None};
ghost use Rattle.cave_turn.specs.declared.said_word.SaidWord.{SaidWord};
ghost use Rattle.turn_scene.specs.Scene.{cave_of, scene_of};
ghost use Rattle.turn_scene.specs.Bounds.{GoesOnSaying};
ghost use Rattle.turn_scene.specs.Rows.{deed, PlaysBy, act_of};
ghost use Rattle.cave_turn.specs.Request.{phrase, said_word, by_object_alone};
ghost use Rattle.cave_turn.specs.Request.{word_alone, word_aloud, by_object_before, word_before};
ghost use Rattle.cave_turn.specs.Request.{object_alone, object_before};
ghost use Rattle.cave_turn.specs.Request.{pours_over, pour_in, word_entered, two_words, read_words};

use crate::half_command::HalfCommand;
use crate::object_words::{ObjectWord, is_verb_of, object_word};
use crate::said_word::SaidWord;
use cave_verbs::Verb;
use cave_words::{Class, Meaning, Named, Word};
use cave_world::{Motion, Part, RowNotes, Table, WordLine};
use data_rows::Role;
use turn_scene::{Rules, Scene, is_liquid, lake, rows};
use world_objects::Object;

/// What a line asks for.
#[derive(Clone, Copy, Debug, PartialEq, Eq)]
pub enum Request {
    /// The cave doesn't have the word.
    Unknown,
    /// The player travels by a motion.
    Motion(u16),
    /// Something is said, and that is all.
    Tell(Part),
    /// The player asks for the knives of the dwarves.
    Knives,
    /// A verb is done to an object, or to none; the word is the one that was just read.
    Act(u16, Object, Word),
    /// The player names an object, and doesn't say what to do with it.
    WhatToDo(Word),
}

/// What was understood of a line, and the half command as the line leaves it.
#[derive(Clone, Copy, Debug, PartialEq, Eq)]
pub struct Understood {
    pub half: HalfCommand,
    pub request: Request,
}

/// What the words of a line say, with what was said before.
#[tactic(auto, unfolding(crate::specs::Request::words_of_line))]
pub fn read_words<N: RowNotes>(
    rules: &Rules<'_>,
    word: Word,
    next: Option<Word>,
    scene: &mut Scene<'_, N>,
) -> Understood
    ensures read { act_of (scene_of N.rows scene.new) result
        ≡ read_words (cave_of rules.now) word next (scene_of N.rows scene.old) }
    ensures says { GoesOnSaying 0 scene.old scene.new }
{
    let half = HalfCommand::of(scene.state.talk);
    let after_say = is_verb_of(Verb::Say, half.verb);
    rows! { scene, Table::Words;
        after_say && next.is_some()
            => {} -> two_words(rules, half.forget_verb(), word, next.unwrap_or(word), scene);
        after_say => {} -> word_aloud(rules, half, &said_word(rules, word), scene);
        next.is_some() => {} -> two_words(rules, half, word, next.unwrap_or(word), scene);
        otherwise => {} -> word_alone(rules, half, &said_word(rules, word), scene);
    }
}

/// What two words say. They are looked up as far as they are read.
#[tactic(auto, unfolding(crate::specs::Request::two_words))]
fn two_words<N: RowNotes>(
    rules: &Rules<'_>,
    half: HalfCommand,
    word: Word,
    next: Word,
    scene: &mut Scene<'_, N>,
) -> Understood
    ensures row { PlaysBy N.rows two_words 0 rules.now (phrase half (said_word (cave_of rules.now)
        word) (Some (said_word (cave_of rules.now) next))) scene.old scene.new result }
{
    rows! { scene, Table::TwoWords;
        word.is(b"ENTER") => {} -> word_entered(rules, half, next, scene);
        let first = said_word(rules, word);
        pours_over(rules, word, next, scene)
            => {} -> word_before(rules, half, &first, &pour_in(rules), scene);
        otherwise => {} -> word_before(rules, half, &first, &said_word(rules, next), scene);
    }
}

/// Whether two words pour a liquid over what is where the player is.
#[tactic(auto, unfolding(crate::specs::Request::pours_over))]
fn pours_over<N: RowNotes>(rules: &Rules<'_>, word: Word, next: Word, scene: &Scene<'_, N>) -> bool
    ensures { (half : HalfCommand) → result ≡ pours_over (deed (cave_of rules.now)
        (phrase half (said_word (cave_of rules.now) word)
        (Some (said_word (cave_of rules.now) next))) (scene_of N.rows scene.now)) }
{
    (word.is(b"WATER") || word.is(b"OIL"))
        && ((next.is(b"PLANT") && scene.state.at(rules.thing(Named::Plant)))
            || (next.is(b"DOOR") && scene.state.at(rules.thing(Named::Door))))
}

fn pour_in(rules: &Rules<'_>) -> SaidWord
    ensures { result ≡ pour_in (cave_of rules.now) }
{
    SaidWord {
        word: Word::of(b"POUR", rules.lexicon.letters()),
        meaning: Some(Meaning {
            class: Class::Action,
            number: Verb::Pour.number(),
        }),
    }
}

/// What a word after ENTER says.
#[tactic(auto, unfolding(crate::specs::Request::word_entered))]
fn word_entered<N: RowNotes>(
    rules: &Rules<'_>,
    half: HalfCommand,
    next: Word,
    scene: &mut Scene<'_, N>,
) -> Understood
    ensures row { (word : SaidWord) → act_of (scene_of N.rows scene.new) result
        ≡ word_entered (deed (cave_of rules.now)
        (phrase half word (Some (said_word (cave_of rules.now) next)))
        (scene_of N.rows scene.old)) }
    ensures says { GoesOnSaying 0 scene.old scene.new }
{
    rows! { scene, Table::WordEntered;
        let into_water = next.is(b"STREA") || next.is(b"WATER");
        into_water && is_liquid(rules.thing(Named::Water), lake(rules, scene.state))
            => {} -> half.says(Role::FeetWet);
        into_water => {} -> half.says(Role::Where);
        otherwise => {} -> word_alone(rules, half, &said_word(rules, next), scene);
    }
}

fn said_word(rules: &Rules<'_>, word: Word) -> SaidWord
    ensures { result ≡ said_word (cave_of rules.now) word }
{
    SaidWord {
        word,
        meaning: rules.meaning(word),
    }
}

/// What an object asks for if no other word follows.
fn by_object_alone<N: RowNotes>(
    rules: &Rules<'_>,
    found: ObjectWord,
    half: HalfCommand,
    word: &SaidWord,
    scene: &Scene<'_, N>,
) -> Understood
    ensures { act_of (scene_of N.rows scene.now) result ≡ by_object_alone found
        (deed (cave_of rules.now) (phrase half word.now None) (scene_of N.rows scene.now)) }
{
    match found {
        ObjectWord::Is(object) => half.take_object(object).acts_by_verb(word.word),
        ObjectWord::Leads(motion) => half.travels(motion),
        ObjectWord::Knives => half.asks_for(Request::Knives),
        ObjectWord::Unseen => {
            half.asks_for(Request::Tell(Part::Word(WordLine::NotSeen, word.word)))
        }
    }
}

fn object_alone<N: RowNotes>(
    rules: &Rules<'_>,
    half: HalfCommand,
    word: &SaidWord,
    scene: &mut Scene<'_, N>,
) -> Understood
    ensures row { PlaysBy N.rows object_alone 0 rules.now (phrase half word.now None) scene.old
        scene.new result }
{
    let found = object_word(rules, &word.object_named(half.verb, true), scene);
    by_object_alone(rules, found, half, word, scene)
}

/// What a word says if no other follows.
#[tactic(auto, unfolding(crate::specs::Request::word_alone))]
#[inline(always)]
fn word_alone<N: RowNotes>(
    rules: &Rules<'_>,
    half: HalfCommand,
    word: &SaidWord,
    scene: &mut Scene<'_, N>,
) -> Understood
    ensures row { PlaysBy N.rows word_alone 0 rules.now (phrase half word.now None) scene.old
        scene.new result }
{
    let number = word.number();
    rows! { scene, Table::WordAlone;
        word.meaning.is_none() => {} -> half.asks_for(Request::Unknown);
        word.means(Class::Motion) => {} -> half.travels(number);
        word.means(Class::Special) => {} -> half.tells_message(number);
        word.means(Class::Object) => {} -> object_alone(rules, half, word, scene);
        word.means(Class::Action) && word.of_action(Verb::Say)
            => {} -> half.asks_for(Request::Act(number, Object::none(), word.word));
        otherwise => {} -> half.take_verb(number).acts_by_verb(word.word);
    }
}

/// What an object asks for if another word follows.
fn by_object_before<N: RowNotes>(
    rules: &Rules<'_>,
    found: ObjectWord,
    half: HalfCommand,
    word: &SaidWord,
    next: &SaidWord,
    scene: &mut Scene<'_, N>,
) -> Understood
    ensures row { PlaysBy N.rows (by_object_before found) 0 rules.now
        (phrase half word.now (Some next.now)) scene.old scene.new result }
{
    match found {
        ObjectWord::Is(object) => word_alone(rules, half.take_object(object), next, scene),
        ObjectWord::Leads(_) | ObjectWord::Knives | ObjectWord::Unseen => {
            by_object_alone(rules, found, half, word, scene)
        }
    }
}

fn object_before<N: RowNotes>(
    rules: &Rules<'_>,
    half: HalfCommand,
    word: &SaidWord,
    next: &SaidWord,
    scene: &mut Scene<'_, N>,
) -> Understood
    ensures row { PlaysBy N.rows object_before 0 rules.now (phrase half word.now (Some next.now))
        scene.old scene.new result }
{
    let found = object_word(rules, &word.object_named(half.verb, false), scene);
    by_object_before(rules, found, half, word, next, scene)
}

/// What a word says if another follows.
#[tactic(auto, unfolding(crate::specs::Request::word_before))]
fn word_before<N: RowNotes>(
    rules: &Rules<'_>,
    half: HalfCommand,
    word: &SaidWord,
    next: &SaidWord,
    scene: &mut Scene<'_, N>,
) -> Understood
    ensures row { PlaysBy N.rows word_before 0 rules.now (phrase half word.now (Some next.now))
        scene.old scene.new result }
{
    let number = word.number();
    rows! { scene, Table::WordBefore;
        word.meaning.is_none() => {} -> half.asks_for(Request::Unknown);
        word.means(Class::Motion) => {} -> half.travels(number);
        word.means(Class::Special) => {} -> half.tells_message(number);
        word.means(Class::Object) => {} -> object_before(rules, half, word, next, scene);
        word.means(Class::Action) && word.of_action(Verb::Say)
            => {} -> word_aloud(rules, half, next, scene);
        otherwise => {} -> word_alone(rules, half.take_verb(number), next, scene);
    }
}

/// What is done if a word is said aloud.
#[tactic(auto, unfolding(crate::specs::Request::word_aloud))]
fn word_aloud<N: RowNotes>(
    rules: &Rules<'_>,
    half: HalfCommand,
    word: &SaidWord,
    scene: &mut Scene<'_, N>,
) -> Understood
    ensures row { PlaysBy N.rows word_aloud 0 rules.now (phrase half word.now None) scene.old
        scene.new result }
{
    rows! { scene, Table::WordAloud;
        word.means(Class::Motion) && (word.of_motion(Motion::Xyzzy)
            || (word.of_motion(Motion::Plugh) || word.of_motion(Motion::Plover)))
            => {} -> word_alone(rules, half, word, scene);
        word.means(Class::Action) && word.of_action(Verb::Foo)
            => {} -> word_alone(rules, half, word, scene);
        otherwise => {} -> half.asks_for(Request::Tell(Part::Word(WordLine::Okay, word.word)));
    }
}
