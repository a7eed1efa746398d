//! Which texts the parts of a play say.

ghost use Rattle.std.specs.Prelude.{◌≡◌, ◌∷◌, [], OnOk};
ghost use Rattle.std.specs.FinMap.{get};
ghost use Rattle.cave_data.specs.CaveView.{class_of};
ghost use Rattle.data_rows.specs.Role.{role_number};
ghost use Rattle.check_tables.specs.Marks.{Notes};
ghost use Rattle.play_cover.specs.Texts.{class_said, look_said, message_said, text, said_by_part};
ghost use Rattle.play_cover.specs.Texts.{said_by_all};

use cave_data::Cave;
use cave_world::Part;
use check_tables::marks::{Mark, MarkSet};
use check_tables::text_kinds::{PROPS_PER_OBJECT, TextKind};
use data_rows::Role;
use std::alloc::{AllocError, Global};
use world_objects::Object;

/// The mark of a text. It has the number of its place, its object, its message or its role, and a
/// class that of its greatest score. The text of an object at a prop has a hundred times the number
/// of the object and the prop, as in a database.
fn text_mark(kind: TextKind, number: u16) -> Mark
    ensures { result ≡ text kind number }
{
    Mark {
        group: kind.number(),
        number: number as usize,
    }
}

fn note(alloc: Global, said: &mut MarkSet, kind: TextKind, number: u16) -> Result<(), AllocError>
    ensures { OnOk result (Notes (text kind number ∷ []) said.old said.new) }
{
    said.note(alloc, text_mark(kind, number))
}

/// Notes a role, and the message that is bound to it.
fn note_role(alloc: Global, said: &mut MarkSet, cave: &Cave, role: Role) -> Result<(), AllocError>
    ensures { OnOk result (Notes (text TextKind.Role (role_number role)
        ∷ message_said (get cave.now.roles (role_number role))) said.old said.new) }
{
    note(alloc, said, TextKind::Role, role.number())?;
    match cave.role(role) {
        Some(number) => note(alloc, said, TextKind::Message, number),
        None => Ok(()),
    }
}

fn note_look(
    alloc: Global,
    said: &mut MarkSet,
    cave: &Cave,
    object: Object,
    prop: i8,
) -> Result<(), AllocError>
    ensures { OnOk result (Notes (look_said cave.now object prop) said.old said.new) }
{
    if prop < 0 {
        return Ok(());
    }
    let (object, prop) = (u16::from(object.number()), prop as u16);
    match cave.look(object, prop) {
        Some(_) => note(
            alloc,
            said,
            TextKind::Look,
            PROPS_PER_OBJECT * object + prop,
        ),
        None => Ok(()),
    }
}

/// Notes the class that a score belongs to, if it belongs to one.
fn note_class(alloc: Global, said: &mut MarkSet, cave: &Cave, score: u32) -> Result<(), AllocError>
    ensures { OnOk result (Notes (class_said (class_of cave.now score)) said.old said.new) }
{
    match cave.class_of(score) {
        Some(rating) => note(alloc, said, TextKind::Class, rating.bound),
        None => Ok(()),
    }
}

#[tactic(auto, unfolding(crate::specs::Texts::said_by_part))]
fn note_part(alloc: Global, said: &mut MarkSet, cave: &Cave, part: Part) -> Result<(), AllocError>
    ensures { OnOk result (Notes (said_by_part cave.now part) said.old said.new) }
{
    match part {
        Part::Long(place) => note(alloc, said, TextKind::Long, place),
        Part::Short(place) => note(alloc, said, TextKind::Short, place),
        Part::Object(object, prop) => note_look(alloc, said, cave, object, prop),
        Part::Name(object) => note(alloc, said, TextKind::Name, u16::from(object.number())),
        Part::Message(number) => note(alloc, said, TextKind::Message, number),
        Part::Role(role) => note_role(alloc, said, cave, role),
        Part::Class(score) => note_class(alloc, said, cave, score),
        Part::Number(..) | Part::Word(..) | Part::Turns(..) => Ok(()),
    }
}

/// Notes what parts say.
pub fn note_parts(
    alloc: Global,
    said: &mut MarkSet,
    cave: &Cave,
    parts: &[Part],
) -> Result<(), AllocError>
    ensures { OnOk result (Notes (said_by_all cave.now parts.now) said.old said.new) }
{
    for part in parts {
        note_part(alloc, said, cave, *part)?;
    }
    Ok(())
}
