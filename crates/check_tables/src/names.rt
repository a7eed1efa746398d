//! The table of the names by which rules know objects.

ghost use Rattle.std.specs.Prelude.{◌≡◌, ◌++◌, OnOk};
ghost use Rattle.std.specs.List.{flat_map};
ghost use Rattle.base_text.specs.Text.{Tells};
ghost use Rattle.cave_words.specs.Lexicon.{IsLexiconOf};
ghost use Rattle.check_tables.specs.Names.{inventory_line, label, name_row};
ghost use Rattle.check_tables.specs.Names.{names_header, names_table, object_columns};

use base_lines::first_line;
use base_text::Text;
use cave_data::Cave;
use cave_words::named::each_name;
use cave_words::{Lexicon, Named};
use std::alloc::{AllocError, Global};

/// The first line of an object's inventory text.
fn inventory_line(cave: &Cave, object: u16) -> &[u8]
    ensures { result.now ≡ inventory_line cave.now object }
{
    first_line(cave.name(object).unwrap_or(&[]))
}

/// Writes a name as it is listed.
fn put_label(text: &mut Text, name: Named)
    ensures { Tells (label name) text.old text.new }
{
    text.put(name.word());
    if name.is_second() {
        text.put(b"2");
    }
}

/// Writes the columns of an object.
fn put_object_columns(text: &mut Text, cave: &Cave, object: Option<u16>)
    ensures { Tells (object_columns cave.now object) text.old text.new }
{
    match object {
        Some(object) => {
            write!(text, "{object}\t");
            text.put(inventory_line(cave, object));
        }
        None => text.put(b"absent\t"),
    }
}

/// Writes the row of a name.
fn put_name_row(text: &mut Text, cave: &Cave, lexicon: &Lexicon, name: Named)
    requires { IsLexiconOf cave.now lexicon.now }
    ensures { Tells (name_row cave.now name) text.old text.new }
{
    put_label(text, name);
    text.put(b"\t");
    put_object_columns(text, cave, lexicon.named(cave, name));
    text.put(b"\n");
}

/// Writes the rows of some names.
fn put_name_rows(text: &mut Text, cave: &Cave, lexicon: &Lexicon, names: &[Named])
    requires { IsLexiconOf cave.now lexicon.now }
    ensures { Tells (flat_map (name_row cave.now) names.now) text.old text.new }
{
    for name in names {
        put_name_row(text, cave, lexicon, *name);
    }
}

/// Writes the names of the columns.
#[tactic(auto, unfolding(crate::specs::Names::names_header))]
fn put_header(text: &mut Text)
    ensures { Tells names_header text.old text.new }
{
    text.put(b"name\tobject\ttext\n");
}

/// Appends a row for each name by which rules know an object.
#[tactic(auto, unfolding(crate::specs::Names::names_table))]
pub fn push_names(alloc: Global, cave: &Cave, text: &mut Vec<u8>) -> Result<(), AllocError>
    ensures { OnOk result (text.new.items ≡ text.old.items ++ names_table cave.now) }
{
    let lexicon = Lexicon::build(alloc, cave)?;
    let mut table = Text::after(alloc, text);
    put_header(&mut table);
    put_name_rows(&mut table, cave, &lexicon, each_name());
    table.give_to(text)
}
