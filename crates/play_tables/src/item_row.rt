//! The row of an item of a script.

ghost use Rattle.std.specs.Prelude.{◌≡◌, ◌++◌, OnOk, []};
ghost use Rattle.base_text.specs.Text.{Tells};
ghost use Rattle.replay_edits.specs.Edit.{change_of, changes_of, own_line};
ghost use Rattle.play_tables.specs.ItemRow.{edit_words, item_head_row, item_columns};
ghost use Rattle.play_tables.specs.ItemRow.{item_text, item_words, met_column, refused_row};
ghost use Rattle.play_tables.specs.ItemRow.{replay_columns, state_columns, text_of_change};

use crate::columns::{ending_column, put_without_tabs};
use crate::differences::put_differences;
use base_text::Text;
use cave_world::State;
use replay_edits::Edit;
use std::alloc::AllocError;

/// Appends the names of the columns.
#[tactic(auto, unfolding(crate::specs::ItemRow::item_head_row))]
pub fn push_item_head_row(text: &mut Vec<u8>) -> Result<(), AllocError>
    ensures { OnOk result (text.new.items ≡ text.old.items ++ item_head_row) }
{
    text.extend_from_slice(
        b"line\tedit\ttext\tresult\tfrom\tmet\tplayed\tscore\tturns\tplace\tended\tdiffers\n",
    )
}

fn put_edit_words(text: &mut Text, edit: &Edit)
    ensures { Tells (edit_words (change_of edit.now)) text.old text.new }
{
    match edit {
        Edit::Insert(place, _) => write!(text, "insert {place}"),
        Edit::Delete(place) => write!(text, "delete {place}"),
        Edit::Replace(place, _) => write!(text, "replace {place}"),
        Edit::Reseed(seed) => write!(text, "seed {seed}"),
    }
}

/// Writes the edit of an item in words, or how many its group has.
fn put_item_words(text: &mut Text, edits: &[Edit])
    ensures { Tells (item_words (changes_of edits.now)) text.old text.new }
{
    match edits {
        [edit] => put_edit_words(text, edit),
        _ => {
            let size = edits.len();
            write!(text, "group of {size}");
        }
    }
}

/// The line that an edit inserts.
fn own_line(edit: &Edit) -> &[u8]
    ensures { result.now ≡ own_line (change_of edit.now) }
{
    match edit {
        Edit::Insert(_, line) | Edit::Replace(_, line) => line,
        Edit::Delete(_) | Edit::Reseed(_) => b"",
    }
}

/// The text that an edit inserted, or deleted.
fn text_of_change<'a>(edit: &'a Edit, inverse: &'a Edit) -> &'a [u8]
    ensures { result.now ≡ text_of_change (change_of edit.now) (change_of inverse.now) }
{
    match edit {
        Edit::Insert(_, line) | Edit::Replace(_, line) => line,
        Edit::Delete(_) => own_line(inverse),
        Edit::Reseed(_) => b"",
    }
}

/// The text that an item inserted or deleted.
fn item_text<'a>(edits: &'a [Edit], inverse: &'a [Edit]) -> &'a [u8]
    ensures { result.now ≡ item_text (changes_of edits.now) (changes_of inverse.now) }
{
    match (edits, inverse) {
        ([edit], [inverse]) => text_of_change(edit, inverse),
        _ => b"",
    }
}

/// Writes what an item is: its line, its edits, and the text that they inserted or deleted.
#[tactic(auto, unfolding(crate::specs::ItemRow::item_columns))]
pub fn put_item_columns(text: &mut Text, line: usize, edits: &[Edit], inverse: &[Edit])
    ensures { Tells (item_columns line (changes_of edits.now) (changes_of inverse.now)) text.old
        text.new }
{
    write!(text, "{line}\t");
    put_item_words(text, edits);
    text.put(b"\t");
    put_without_tabs(text, item_text(edits, inverse));
    text.put(b"\t");
}

/// Writes the place at which a replay met the old play, if it did.
pub fn put_met_column(text: &mut Text, met: Option<u32>)
    ensures { Tells (met_column met) text.old text.new }
{
    match met {
        None => text.put(b"none"),
        Some(place) => write!(text, "{place}"),
    }
}

/// Writes where the replay of an item began and met the old play, and how many lines it played.
#[tactic(auto, unfolding(crate::specs::ItemRow::replay_columns))]
pub fn put_replay_columns(text: &mut Text, from: u32, met: Option<u32>, played: u32)
    ensures { Tells (replay_columns from met played) text.old text.new }
{
    write!(text, "ok\t{from}\t");
    put_met_column(text, met);
    write!(text, "\t{played}\t");
}

/// Writes the score and the turns of the edited log, and how its last state differs from the one
/// before.
#[tactic(auto, unfolding(crate::specs::ItemRow::state_columns))]
pub fn put_state_columns(text: &mut Text, score: u32, turns: u32, before: &State, after: &State)
    ensures { Tells (state_columns score turns before.now after.now) text.old text.new }
{
    let place = after.trail.here.number();
    write!(text, "{score}\t{turns}\t{place}\t");
    text.put(ending_column(after.ending).as_bytes());
    text.put(b"\t");
    put_differences(text, before, after);
    text.put(b"\n");
}

/// Writes the row of an item that was refused, with the number of the reason.
#[tactic(auto, unfolding(crate::specs::ItemRow::refused_row))]
pub fn put_refused_row(text: &mut Text, line: usize, edits: &[Edit], number: u8)
    ensures { Tells (refused_row line (changes_of edits.now) number) text.old text.new }
{
    put_item_columns(text, line, edits, &[]);
    write!(text, "refused {number}\t-\t-\t-\t-\t-\t-\t-\t-\n");
}
