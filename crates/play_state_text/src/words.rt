//! The words of facts, and those that stand beside numbers.

ghost use Rattle.std.specs.Prelude.{◌≡◌, option_map};
ghost use Rattle.base_text.specs.Text.{Tells};
ghost use Rattle.play_state_text.specs.Words.{after_blank, end_words, ending_word, named_line};
ghost use Rattle.play_state_text.specs.Words.{knife_text, named_object, question_text};
ghost use Rattle.play_state_text.specs.Words.{question_word, verb_line, word_of_object};
ghost use Rattle.play_state_text.specs.Words.{word_of_verb};

use base_text::Text;
use cave_data::Cave;
use cave_world::{Ending, Knife, Question};
use data_rows::WORDS_PER_CLASS;
use world_objects::Object;

/// The greatest number of an action, which each verb is.
const LAST_ACTION: u16 = 99;

/// Writes which question is open.
pub fn put_question_word(text: &mut Text, question: Question)
    ensures { Tells (question_word question) text.old text.new }
{
    match question {
        Question::Welcome => text.put(b"welcome"),
        Question::Quit => text.put(b"quit"),
        Question::ScoreQuit => text.put(b"score, quit"),
        Question::Die => text.put(b"revive"),
        Question::Hint(hint) => {
            let number = hint.number();
            write!(text, "hint {number}");
        }
        Question::Take(hint) => {
            let number = hint.number();
            write!(text, "take hint {number}");
        }
        Question::Oyster => text.put(b"oyster"),
        Question::Dragon => text.put(b"dragon"),
    }
}

fn put_question(text: &mut Text, question: Option<Question>)
    ensures { Tells (question_text question) text.old text.new }
{
    match question {
        None => text.put(b"none"),
        Some(question) => put_question_word(text, question),
    }
}

/// Writes the line of the question that is open.
#[tactic(auto, unfolding(crate::specs::Words::named_line))]
pub(crate) fn put_question_line(text: &mut Text, name: &str, question: Option<Question>)
    ensures { Tells (named_line name.now (question_text question)) text.old text.new }
{
    write!(text, "{name} ");
    put_question(text, question);
    text.put(b"\n");
}

/// How a game has ended.
pub fn ending_word(ending: Ending) -> &'static str
    ensures { result.now ≡ ending_word ending }
{
    match ending {
        Ending::Quit => "quit",
        Ending::Killed => "killed",
        Ending::Klutz => "klutz",
        Ending::WrongWay => "wrong way",
        Ending::Success => "success",
    }
}

/// How the game has ended, if it has.
pub(crate) fn end_words(ending: Option<Ending>) -> &'static str
    ensures { result.now ≡ end_words ending }
{
    match ending {
        None => "no",
        Some(ending) => ending_word(ending),
    }
}

fn put_knife(text: &mut Text, knife: Knife)
    ensures { Tells (knife_text knife) text.old text.new }
{
    match knife {
        Knife::Unthrown => text.put(b"none"),
        Knife::At(place) => {
            let number = place.number();
            write!(text, "at {number}");
        }
        Knife::Vanished => text.put(b"vanished"),
    }
}

/// Writes the line of the knife that a dwarf threw.
#[tactic(auto, unfolding(crate::specs::Words::named_line))]
pub(crate) fn put_knife_line(text: &mut Text, name: &str, knife: Knife)
    ensures { Tells (named_line name.now (knife_text knife)) text.old text.new }
{
    write!(text, "{name} ");
    put_knife(text, knife);
    text.put(b"\n");
}

/// Writes a word after a blank, if there is one.
fn put_after_blank(text: &mut Text, word: Option<&[u8]>)
    ensures { Tells (after_blank (option_map (λ it. it.now) word.entry)) text.old text.new }
{
    if let Some(word) = word {
        text.put(b" ");
        text.put(word);
    }
}

/// Writes the first word of an object.
#[tactic(auto, unfolding(crate::specs::Words::word_of_object))]
pub(crate) fn put_word_of_object(text: &mut Text, cave: &Cave, object: Object)
    ensures { Tells (word_of_object cave.now object) text.old text.new }
{
    let number = WORDS_PER_CLASS + u16::from(object.number());
    put_after_blank(text, cave.words().first_word(number));
}

/// Writes the first word of a verb.
#[tactic(auto, unfolding(crate::specs::Words::word_of_verb))]
fn put_word_of_verb(text: &mut Text, cave: &Cave, verb: u16)
    ensures { Tells (word_of_verb cave.now verb) text.old text.new }
{
    if verb <= LAST_ACTION {
        put_after_blank(text, cave.words().first_word(2 * WORDS_PER_CLASS + verb));
    }
}

/// Writes an object by its number and its word.
#[tactic(auto, unfolding(crate::specs::Words::named_object))]
pub(crate) fn put_named_object(text: &mut Text, cave: &Cave, object: Object)
    ensures { Tells (named_object cave.now object) text.old text.new }
{
    let number = object.number();
    write!(text, "{number}");
    put_word_of_object(text, cave, object);
}

/// Writes a line with an object.
#[tactic(auto, unfolding(crate::specs::Words::named_line))]
pub(crate) fn put_object_line(text: &mut Text, cave: &Cave, name: &str, object: Object)
    ensures { Tells (named_line name.now (named_object cave.now object)) text.old text.new }
{
    write!(text, "{name} ");
    put_named_object(text, cave, object);
    text.put(b"\n");
}

/// Writes the line of the verb of half a command.
#[tactic(auto, unfolding(crate::specs::Words::named_line))]
pub(crate) fn put_verb_line(text: &mut Text, cave: &Cave, verb: Option<u16>)
    ensures { Tells (verb_line cave.now verb) text.old text.new }
{
    match verb {
        None => text.put(b"half command none\n"),
        Some(verb) => {
            write!(text, "half verb {verb}");
            put_word_of_verb(text, cave, verb);
            text.put(b"\n");
        }
    }
}
