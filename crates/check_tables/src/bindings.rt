//! The list of all keys of bindings, as a text.

ghost use Rattle.std.specs.Prelude.{◌≡◌, ◌++◌, OnOk, option_map};
ghost use Rattle.std.specs.List.{flat_map};
ghost use Rattle.base_text.specs.Text.{Tells};
ghost use Rattle.check_tables.specs.Bindings.{binding_text, bindings_text, letters_line};
ghost use Rattle.check_tables.specs.Bindings.{meaning_of_number, message_count, message_line};
ghost use Rattle.check_tables.specs.Bindings.{message_sum, message_text, place_count, place_line};
ghost use Rattle.check_tables.specs.Bindings.{place_sum, place_text};

use base_lines::first_line;
use base_text::Text;
use cave_data::Cave;
use data_rows::place_role::{PLACE_NAMES, each_place_role};
use data_rows::role::{ROLE_NAMES, each_role};
use data_rows::{PlaceRole, Role};
use std::alloc::{AllocError, Global};

/// The text of the message of a role, if it has one.
fn message_text(cave: &Cave, role: Role) -> Option<&[u8]>
    ensures { option_map (λ text. text.now) result ≡ message_text cave.now role }
{
    cave.message(cave.role(role)?)
}

/// The text by which the place of a role is known, if it has one: the long one, or otherwise the
/// short one.
fn place_text(cave: &Cave, role: PlaceRole) -> Option<&[u8]>
    ensures { option_map (λ text. text.now) result ≡ place_text cave.now role }
{
    let place = cave.place(role)?;
    cave.long(place).or(cave.short(place))
}

fn put_meaning(text: &mut Text, kind: &str, found: Option<&[u8]>)
    ensures { Tells (meaning_of_number kind.now (option_map (λ found. found.now) found.entry))
        text.old text.new }
{
    match found {
        Some(found) => text.put(first_line(found)),
        None => {
            text.put(b"no such ");
            text.put(kind.as_bytes());
        }
    }
}

/// Writes the number that a key is bound to, with what it means.
fn put_binding(text: &mut Text, kind: &str, number: Option<u16>, found: Option<&[u8]>)
    ensures { Tells (binding_text kind.now number (option_map (λ found. found.now) found.entry))
        text.old text.new }
{
    match number {
        None => text.put(b" unbound\n"),
        Some(number) => {
            write!(text, " {number}: ");
            put_meaning(text, kind, found);
            text.put(b"\n");
        }
    }
}

#[tactic(auto, unfolding(crate::specs::Bindings::message_line))]
fn put_message_line(text: &mut Text, cave: &Cave, role: Role)
    ensures { Tells (message_line cave.now role) text.old text.new }
{
    text.put(b"msg.");
    text.put(role.name().as_bytes());
    put_binding(text, "message", cave.role(role), message_text(cave, role));
}

#[tactic(auto, unfolding(crate::specs::Bindings::place_line))]
fn put_place_line(text: &mut Text, cave: &Cave, role: PlaceRole)
    ensures { Tells (place_line cave.now role) text.old text.new }
{
    text.put(b"place.");
    text.put(role.name().as_bytes());
    put_binding(text, "place", cave.place(role), place_text(cave, role));
}

fn put_message_lines(text: &mut Text, cave: &Cave, roles: &[Role])
    ensures { Tells (flat_map (message_line cave.now) roles.now) text.old text.new }
{
    for role in roles {
        put_message_line(text, cave, *role);
    }
}

fn put_place_lines(text: &mut Text, cave: &Cave, roles: &[PlaceRole])
    ensures { Tells (flat_map (place_line cave.now) roles.now) text.old text.new }
{
    for role in roles {
        put_place_line(text, cave, *role);
    }
}

/// How many keys of messages have a text.
#[tactic(auto, unfolding(crate::specs::Bindings::message_count))]
fn message_count(cave: &Cave) -> usize
    ensures { result ≡ message_count cave.now }
{
    each_role()
        .iter()
        .filter(|role| message_text(cave, **role).is_some())
        .count()
}

/// How many keys of places have a text.
#[tactic(auto, unfolding(crate::specs::Bindings::place_count))]
fn place_count(cave: &Cave) -> usize
    ensures { result ≡ place_count cave.now }
{
    each_place_role()
        .iter()
        .filter(|role| place_text(cave, **role).is_some())
        .count()
}

#[tactic(auto, unfolding(crate::specs::Bindings::letters_line))]
fn put_letters(text: &mut Text, letters: u8)
    ensures { Tells (letters_line letters) text.old text.new }
{
    write!(text, "num.letters {letters}\n");
}

/// Writes how many keys of messages have a text.
#[tactic(auto, unfolding(crate::specs::Bindings::message_sum))]
fn put_message_sum(text: &mut Text, count: usize)
    ensures { Tells (message_sum count) text.old text.new }
{
    let all = ROLE_NAMES.len();
    write!(text, "-- {count} of {all} messages and ");
}

/// Writes how many keys of places have a text.
#[tactic(auto, unfolding(crate::specs::Bindings::place_sum))]
fn put_place_sum(text: &mut Text, count: usize)
    ensures { Tells (place_sum count) text.old text.new }
{
    let all = PLACE_NAMES.len();
    write!(text, "{count} of {all} places have a text\n");
}

/// Appends a line for each key of bindings, and then how many of them have a text.
#[tactic(auto, unfolding(crate::specs::Bindings::bindings_text))]
pub fn push_bindings(alloc: Global, cave: &Cave, text: &mut Vec<u8>) -> Result<(), AllocError>
    ensures { OnOk result (text.new.items ≡ text.old.items ++ bindings_text cave.now) }
{
    let mut list = Text::after(alloc, text);
    put_message_lines(&mut list, cave, each_role());
    put_place_lines(&mut list, cave, each_place_role());
    put_letters(&mut list, cave.letters());
    put_message_sum(&mut list, message_count(cave));
    put_place_sum(&mut list, place_count(cave));
    list.give_to(text)
}
