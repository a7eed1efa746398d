//! The kinds of texts of a cave, and what each text is called.

ghost use Rattle.std.specs.Prelude.{◌≡◌, [], map, option_map, slice_index_or};
ghost use Rattle.base_text.specs.Text.{Tells};
ghost use Rattle.check_tables.specs.TextKinds.{first_line_shown, heading_of_kind, kind_number};
ghost use Rattle.check_tables.specs.TextKinds.{text_at, word_of_kind};

use base_lines::first_line;
use base_text::Text;
use cave_data::Cave;

/// The number of a look is that of its object times this, and its prop.
pub const PROPS_PER_OBJECT: u16 = 100;

/// A kind of text.
#[derive(Clone, Copy, Debug, PartialEq, Eq)]
pub enum TextKind {
    /// The long text of a place.
    Long,
    /// The short text of a place.
    Short,
    /// The text of an object at a prop.
    Look,
    /// The inventory text of an object.
    Name,
    /// A message.
    Message,
    /// A message that the rules name by its role.
    Role,
    /// A class of players.
    Class,
}

/// The kinds in the order of the sections.
pub const KINDS: [TextKind; 7] = [
    TextKind::Long,
    TextKind::Short,
    TextKind::Look,
    TextKind::Name,
    TextKind::Message,
    TextKind::Role,
    TextKind::Class,
];

impl TextKind {
    /// Its place among the kinds, from 0.
    pub fn number(self) -> usize
        ensures { result ≡ kind_number self }
    {
        self as usize
    }
}

/// How the line of a kind begins.
pub fn heading_of_kind(kind: TextKind) -> &'static str
    ensures { result.now ≡ heading_of_kind kind }
{
    match kind {
        TextKind::Long => "long texts",
        TextKind::Short => "short texts",
        TextKind::Look => "object texts",
        TextKind::Name => "inventory texts",
        TextKind::Message => "messages",
        TextKind::Role => "roles",
        TextKind::Class => "classes",
    }
}

/// The name for one text of a kind.
pub fn word_of_kind(kind: TextKind) -> &'static str
    ensures { result.now ≡ word_of_kind kind }
{
    match kind {
        TextKind::Long => "long text",
        TextKind::Short => "short text",
        TextKind::Look => "object text",
        TextKind::Name => "inventory text",
        TextKind::Message => "message",
        TextKind::Role => "role",
        TextKind::Class => "class",
    }
}

/// The text of a kind and a number, if the cave has it. A role has none.
pub fn text_at(cave: &Cave, kind: TextKind, number: u16) -> Option<&[u8]>
    ensures { option_map (λ text. text.now) result ≡ text_at cave.now kind number }
{
    match kind {
        TextKind::Long => cave.long(number),
        TextKind::Short => cave.short(number),
        TextKind::Look => cave.look(number / PROPS_PER_OBJECT, number % PROPS_PER_OBJECT),
        TextKind::Name => cave.name(number),
        TextKind::Message => cave.message(number),
        TextKind::Role => None,
        TextKind::Class => match cave.class_of(u32::from(number)) {
            Some(rating) => Some(rating.text),
            None => None,
        },
    }
}

/// Writes the first line of a text, if there is one.
pub fn put_first_line(found: Option<&[u8]>, text: &mut Text)
    ensures { Tells (first_line_shown (option_map (λ found. found.now) found.entry)) text.old
        text.new }
{
    match found {
        Some(found) => {
            text.put(b": ");
            text.put(first_line(found));
        }
        None => {}
    }
}

/// The name at a place of a table.
pub fn name_at<'a>(names: &[&'a str], number: u16) -> &'a str
    ensures { result.now ≡ slice_index_or (map (λ name. name.now) names.now) number [] }
{
    match names.get(number as usize) {
        Some(name) => *name,
        None => "",
    }
}
