//! What is said about ways: the names of motions and objects, and conditions.

ghost use Rattle.std.specs.Prelude.{◌≡◌};
ghost use Rattle.base_text.specs.Text.{Tells};
ghost use Rattle.data_rows.specs.declared.targets.Condition.TheVariants as condition;
ghost use Rattle.check_tables.specs.WayWords.{condition_mark, condition_text, mark_of_text};
ghost use Rattle.check_tables.specs.WayWords.{motion_name, number_of_object, object_mark};
ghost use Rattle.check_tables.specs.WayWords.{word_or_number};

use base_text::Text;
use cave_data::Cave;
use cave_world::Motion;
use data_rows::{Condition, WORDS_PER_CLASS};

/// Appends a blank and the first word of a number, or the number of the motion or the object.
#[tactic(auto, unfolding(crate::specs::WayWords::word_or_number))]
pub fn put_word_or_number(cave: &Cave, number: u16, text: &mut Text)
    ensures { Tells (word_or_number cave.now number) text.old text.new }
{
    match cave.words().first_word(number) {
        Some(word) => {
            text.put(b" ");
            text.put(word);
        }
        None => {
            let number = number % WORDS_PER_CLASS;
            write!(text, " {number}");
        }
    }
}

/// Appends the name of a motion.
pub fn put_motion(cave: &Cave, motion: u16, text: &mut Text)
    ensures { Tells (motion_name cave.now motion) text.old text.new }
{
    if motion == Motion::Any.number() {
        text.put(b" any motion");
    } else {
        put_word_or_number(cave, motion, text);
    }
}

/// The number of the word of an object.
pub fn number_of_object(object: u8) -> u16
    ensures { result ≡ number_of_object object }
{
    WORDS_PER_CLASS + u16::from(object)
}

/// Appends what a condition asks of an object, with the object.
fn put_object_mark(cave: &Cave, asked: &str, object: u8, text: &mut Text)
    ensures { Tells (object_mark cave.now asked.now object) text.old text.new }
{
    text.put(asked.as_bytes());
    put_word_or_number(cave, number_of_object(object), text);
}

/// Appends a prop that an object must not have.
fn put_other_prop(cave: &Cave, object: u8, prop: u16, text: &mut Text)
    ensures { Tells (condition_text cave.now (condition.OtherProp object prop)) text.old text.new }
{
    put_object_mark(cave, "if prop of", object, text);
    write!(text, " isn't {prop}");
}

/// Appends what a condition asks.
fn put_condition_text(cave: &Cave, condition: Condition, text: &mut Text)
    ensures { Tells (condition_text cave.now condition) text.old text.new }
{
    match condition {
        Condition::Always | Condition::NotForDwarves => {}
        Condition::Chance(percent) => {
            write!(text, "{percent} %");
        }
        Condition::InHands(object) => put_object_mark(cave, "with", object, text),
        Condition::AtHand(object) => put_object_mark(cave, "near", object, text),
        Condition::OtherProp(object, prop) => put_other_prop(cave, object, prop, text),
    }
}

/// Appends the mark of a way that has a condition, or before which others have to fail.
#[tactic(auto, unfolding(crate::specs::WayWords::mark_of_text))]
fn put_mark_of_text(later: bool, asked: &[u8], text: &mut Text)
    ensures { Tells (mark_of_text later asked.now) text.old text.new }
{
    if asked.is_empty() {
        let mark = if later { " (else)" } else { "" };
        text.put(mark.as_bytes());
        return;
    }
    let opening = if later { " (else " } else { " (" };
    text.put(opening.as_bytes());
    text.put(asked);
    text.put(b")");
}

/// Appends the condition of a way as a mark, also if others have to fail before it.
pub fn put_condition_mark(cave: &Cave, later: bool, condition: Condition, text: &mut Text)
    ensures { Tells (condition_mark cave.now later condition) text.old text.new }
{
    let mut asked = text.beside();
    put_condition_text(cave, condition, &mut asked);
    put_mark_of_text(later, &text.bytes_of(asked), text);
}
