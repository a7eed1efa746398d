ghost use Rattle.std.specs.Prelude.{◌≡◌, ◌++◌, take, vec_len, OnOk, OnErr};
ghost use Rattle.turn_text.specs.Text.{text_of_part, text_of_all, message_text, name_line};
ghost use Rattle.turn_text.specs.Text.{look_text, class_text};

use crate::own_lines::{push_final_line, push_number_line, push_word_line};
use cave_data::Cave;
use cave_world::Part;
use data_rows::Role;
use std::alloc::AllocError;
use world_objects::Object;

/// Appends what the parts print at a number of turns. If memory runs out the text is as it was.
pub fn render(cave: &Cave, parts: &[Part], turns: u32, text: &mut Vec<u8>) -> Result<(), AllocError>
    ensures ok { OnOk result
        (text.new.items ≡ text.old.items ++ text_of_all cave.now turns parts.now) }
    ensures err { OnErr result (text.new.items ≡ text.old.items) }
{
    let before = text.len();
    let appended = push_all(cave, parts, turns, text);
    if appended.is_err() {
        text.truncate(before);
    }
    appended
}

fn push_name(role: Role, text: &mut Vec<u8>) -> Result<(), AllocError>
    ensures ok { OnOk result (text.new.items ≡ text.old.items ++ name_line role) }
    ensures front { take (vec_len text.old) text.new.items ≡ text.old.items }
{
    text.extend_from_slice(b"[")?;
    text.extend_from_slice(role.name().as_bytes())?;
    text.extend_from_slice(b"]\n")
}

fn push_message(cave: &Cave, number: u16, text: &mut Vec<u8>) -> Result<(), AllocError>
    ensures ok { OnOk result (text.new.items ≡ text.old.items ++ message_text cave.now number) }
    ensures front { take (vec_len text.old) text.new.items ≡ text.old.items }
{
    text.extend_from_slice(cave.message(number).unwrap_or(&[]))
}

fn push_look(cave: &Cave, object: Object, prop: i8, text: &mut Vec<u8>) -> Result<(), AllocError>
    ensures ok { OnOk result (text.new.items ≡ text.old.items ++ look_text cave.now object prop) }
    ensures front { take (vec_len text.old) text.new.items ≡ text.old.items }
{
    if prop < 0 {
        return Ok(());
    }
    let look = cave.look(u16::from(object.number()), prop as u16);
    text.extend_from_slice(look.unwrap_or(&[]))
}

fn push_class(cave: &Cave, score: u32, text: &mut Vec<u8>) -> Result<(), AllocError>
    ensures ok { OnOk result (text.new.items ≡ text.old.items ++ class_text cave.now score) }
    ensures front { take (vec_len text.old) text.new.items ≡ text.old.items }
{
    match cave.class_of(score) {
        Some(rating) => text.extend_from_slice(rating.text),
        None => Ok(()),
    }
}

#[tactic(auto, unfolding(crate::specs::Text::text_of_part))]
fn push_part(cave: &Cave, part: Part, turns: u32, text: &mut Vec<u8>) -> Result<(), AllocError>
    ensures ok { OnOk result (text.new.items ≡ text.old.items ++ text_of_part cave.now turns part) }
    ensures front { take (vec_len text.old) text.new.items ≡ text.old.items }
{
    match part {
        Part::Long(place) => text.extend_from_slice(cave.long(place).unwrap_or(&[])),
        Part::Short(place) => text.extend_from_slice(cave.short(place).unwrap_or(&[])),
        Part::Message(number) => push_message(cave, number, text),
        Part::Role(role) => match cave.role(role) {
            Some(number) => push_message(cave, number, text),
            None => push_name(role, text),
        },
        Part::Object(object, prop) => push_look(cave, object, prop, text),
        Part::Name(object) => {
            let name = cave.name(u16::from(object.number()));
            text.extend_from_slice(name.unwrap_or(&[]))
        }
        Part::Number(line, number, most) => push_number_line(text, line, number, most),
        Part::Word(line, word) => push_word_line(text, line, word),
        Part::Class(score) => push_class(cave, score, text),
        Part::Turns(score, most) => push_final_line(text, score, most, turns),
    }
}

fn push_all(cave: &Cave, parts: &[Part], turns: u32, text: &mut Vec<u8>) -> Result<(), AllocError>
    ensures ok { OnOk result
        (text.new.items ≡ text.old.items ++ text_of_all cave.now turns parts.now) }
    ensures front { take (vec_len text.old) text.new.items ≡ text.old.items }
{
    for part in parts {
        push_part(cave, *part, turns, text)?;
    }
    Ok(())
}
