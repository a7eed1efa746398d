//! The table of the messages that nothing in a cave can say.

ghost use Rattle.std.specs.Prelude.{◌≡◌, ◌++◌, IfOk, OnOk, map};
ghost use Rattle.std.specs.FinMap.{get};
ghost use Rattle.std.specs.List.{flat_map, list_any};
ghost use Rattle.base_text.specs.Text.{Tells};
ghost use Rattle.data_rows.specs.Role.{role_number};
ghost use Rattle.data_rows.specs.RowViews.{going};
ghost use Rattle.check_tables.specs.Unused.{hint_says, is_number, is_said, is_unused, role_says};
ghost use Rattle.check_tables.specs.Unused.{row_says, some_hint_says, special_word_says};
ghost use Rattle.check_tables.specs.Unused.{unused_header, unused_messages, unused_row};
ghost use Rattle.check_tables.specs.Unused.{unused_table, verb_says, way_says};

use base_lines::first_line;
use base_lines::numbers::{LAST_ACTION, LAST_HINT, LAST_MESSAGE, LAST_PLACE};
use base_text::Text;
use cave_data::Cave;
use data_rows::role::each_role;
use data_rows::{Destination, Hint, Role, Row, WORDS_PER_CLASS};
use std::alloc::{AllocError, Global};

/// The special words come after this number, each of them its message's number later.
const SPECIAL_WORDS: u16 = 3 * WORDS_PER_CLASS;

/// Whether this is the number.
pub fn is_number(number: u16, found: Option<u16>) -> bool
    ensures { result ≡ is_number number found }
{
    match found {
        Some(other) => other == number,
        None => false,
    }
}

/// Whether one of these roles is bound to a message.
fn any_bound(cave: &Cave, roles: &[Role], number: u16) -> bool
    ensures { result ≡ list_any
        (λ role. is_number number (get cave.now.roles (role_number role))) roles.now }
{
    roles.iter().any(|role| is_number(number, cave.role(*role)))
}

/// Whether any role is bound to a message.
fn role_says(cave: &Cave, number: u16) -> bool
    ensures { result ≡ role_says cave.now number }
{
    any_bound(cave, each_role(), number)
}

/// Whether a row of travel says a message.
fn row_says(row: &Row, number: u16) -> bool
    ensures { result ≡ row_says number (going row.now) }
{
    match row.destination() {
        Destination::Message(other) => other == number,
        _ => false,
    }
}

/// Whether one of these rows says a message.
fn any_row_says(rows: &[Row], number: u16) -> bool
    ensures { result ≡ list_any (row_says number) (map going rows.now) }
{
    rows.iter().any(|row| row_says(row, number))
}

/// Whether a row of any place says a message.
#[tactic(auto, unfolding(crate::specs::Unused::place_numbers))]
fn way_says(cave: &Cave, number: u16) -> bool
    ensures { result ≡ way_says cave.now number }
{
    (1..LAST_PLACE + 1).any(|place| any_row_says(cave.travel(place), number))
}

/// Whether a verb says a message if no rule says more.
#[tactic(auto, unfolding(crate::specs::Unused::action_numbers))]
fn verb_says(cave: &Cave, number: u16) -> bool
    ensures { result ≡ verb_says cave.now number }
{
    (1..LAST_ACTION + 1).any(|action| cave.default_of(action) == number)
}

/// Whether a word says a message.
fn special_word_says(cave: &Cave, number: u16) -> bool
    ensures { result ≡ special_word_says cave.now number }
{
    number <= LAST_MESSAGE && cave.words().first_word(SPECIAL_WORDS + number).is_some()
}

/// Whether a hint asks by a message, or gives it.
fn hint_says(hint: Option<Hint>, number: u16) -> bool
    ensures { result ≡ hint_says number hint }
{
    match hint {
        Some(hint) => hint.question == number || hint.text == number,
        None => false,
    }
}

#[tactic(auto, unfolding(crate::specs::Unused::hint_numbers))]
fn some_hint_says(cave: &Cave, number: u16) -> bool
    ensures { result ≡ some_hint_says cave.now number }
{
    (1..LAST_HINT + 1).any(|hint| hint_says(cave.hint(hint), number))
}

fn is_said(cave: &Cave, number: u16) -> bool
    ensures { result ≡ is_said cave.now number }
{
    role_says(cave, number)
        || way_says(cave, number)
        || verb_says(cave, number)
        || special_word_says(cave, number)
        || some_hint_says(cave, number)
}

fn is_unused(cave: &Cave, number: u16) -> bool
    ensures { result ≡ is_unused cave.now number }
{
    cave.message(number).is_some() && !is_said(cave, number)
}

#[tactic(auto, unfolding(crate::specs::Unused::unused_messages, crate::specs::Unused::message_numbers))]
fn unused_messages(alloc: Global, cave: &Cave) -> Result<Vec<u16>, AllocError>
    ensures { IfOk result (λ numbers. numbers.items ≡ unused_messages cave.now) }
{
    (1..LAST_MESSAGE + 1)
        .filter(|number| is_unused(cave, *number))
        .collect(alloc)
}

/// Writes the row of a message.
fn put_unused_row(text: &mut Text, cave: &Cave, number: u16)
    ensures { Tells (unused_row cave.now number) text.old text.new }
{
    write!(text, "{number}\t");
    text.put(first_line(cave.message(number).unwrap_or(&[])));
    text.put(b"\n");
}

fn put_unused_rows(text: &mut Text, cave: &Cave, numbers: &[u16])
    ensures { Tells (flat_map (unused_row cave.now) numbers.now) text.old text.new }
{
    for number in numbers {
        put_unused_row(text, cave, *number);
    }
}

/// Writes the names of the columns.
#[tactic(auto, unfolding(crate::specs::Unused::unused_header))]
fn put_header(text: &mut Text)
    ensures { Tells unused_header text.old text.new }
{
    text.put(b"message\ttext\n");
}

/// Appends a row for each message that nothing can say.
#[tactic(auto, unfolding(crate::specs::Unused::unused_table))]
pub fn push_unused(alloc: Global, cave: &Cave, text: &mut Vec<u8>) -> Result<(), AllocError>
    ensures { OnOk result (text.new.items ≡ text.old.items ++ unused_table cave.now) }
{
    let numbers = unused_messages(alloc, cave)?;
    let mut table = Text::after(alloc, text);
    put_header(&mut table);
    put_unused_rows(&mut table, cave, &numbers);
    table.give_to(text)
}
