//! What is written about ways.

ghost use Rattle.std.specs.Prelude.{◌≡◌, ◌≤◌, IfOk, OnOk, [], map};
ghost use Rattle.base_lines.specs.Numbers.{LAST_PLACE};
ghost use Rattle.base_text.specs.Text.{Tells};
ghost use Rattle.data_rows.specs.RowViews.{going};
ghost use Rattle.map_ways.specs.WayTexts.{line_of_text, motion_start, motions_after};
ghost use Rattle.map_ways.specs.WayTexts.{motions_text, row_lines, row_motions};
ghost use Rattle.map_ways.specs.WayTexts.{text_to, taking_text, two_texts, way_text};

use crate::ways::ends_at;
use base_text::Text;
use cave_data::Cave;
use cave_world::forced;
use check_tables::reach::{goes_on_to, motions_again, motions_begun};
use check_tables::way_words::{put_condition_mark, put_motion};
use data_rows::{Condition, Row};
use std::alloc::{AllocError, Global};
use world_objects::Place;

/// The most motions on a line, so that a map of many places can be read on a page.
const MOTIONS_PER_LINE: usize = 3;

/// What comes before the name of a motion that follows this many others.
fn motion_start(shown: usize) -> &'static str
    ensures { result.now ≡ motion_start shown }
{
    if shown != 0 && shown % MOTIONS_PER_LINE == 0 {
        " ..\n"
    } else {
        ""
    }
}

/// Appends the names of motions.
fn put_motions(cave: &Cave, motions: &[u16], text: &mut Text)
    ensures { Tells (motions_after cave.now 0 motions.now) text.old text.new }
{
    for (shown, motion) in motions.iter().enumerate() {
        text.put(motion_start(shown).as_bytes());
        put_motion(cave, *motion, text);
    }
}

/// Appends the motions that are named: none if a forced motion leads on.
fn put_motions_text(cave: &Cave, from: u16, motions: &[u16], text: &mut Text)
    requires { from ≤ LAST_PLACE }
    ensures { Tells (motions_text cave.now from motions.now) text.old text.new }
{
    if !forced(cave, Place::new(from)) {
        put_motions(cave, motions, text);
    }
}

/// Motions that take a row, with its condition.
#[tactic(auto, unfolding(crate::specs::WayTexts::taking_text))]
fn taking_text(
    alloc: Global,
    cave: &Cave,
    from: u16,
    later: bool,
    motions: &[u16],
    condition: Condition,
) -> Result<Vec<u8>, AllocError>
    requires { from ≤ LAST_PLACE }
    ensures { IfOk result
        (λ text. text.items ≡ taking_text cave.now from later motions.now condition) }
{
    let mut text = Text::new(alloc);
    if !motions.is_empty() {
        put_motions_text(cave, from, motions, &mut text);
        put_condition_mark(cave, later, condition, &mut text);
    }
    text.finish()
}

/// Appends a second text to the first, with a comma if there are both.
fn push_second_text(second: &[u8], text: &mut Vec<u8>) -> Result<(), AllocError>
    ensures { OnOk result (text.new.items ≡ two_texts text.old.items second.now) }
{
    let is_alone = text.is_empty() || second.is_empty();
    let comma = if is_alone { "" } else { "," };
    text.extend_from_slice(comma.as_bytes())?;
    text.extend_from_slice(second)
}

/// The motions that begin with a row after others, and after rows that can fail those that they
/// list, each with the condition of the row.
#[tactic(auto, unfolding(crate::specs::WayTexts::row_motions))]
fn row_motions(
    alloc: Global,
    cave: &Cave,
    from: u16,
    before: &[Row],
    row: &Row,
) -> Result<Vec<u8>, AllocError>
    requires { from ≤ LAST_PLACE }
    ensures { IfOk result
        (λ text. text.items ≡ row_motions cave.now from (map going before.now) (going row.now)) }
{
    let begun = motions_begun(alloc, before, row)?;
    let mut text = taking_text(alloc, cave, from, false, &begun, row.condition())?;
    if goes_on_to(before, row) {
        let again = motions_again(alloc, before, row)?;
        let second = taking_text(alloc, cave, from, true, &again, row.condition())?;
        push_second_text(&second, &mut text)?;
    }
    Ok(text)
}

/// What is said about a row after others, if it leads to a place.
fn text_to(
    alloc: Global,
    cave: &Cave,
    ends: (u16, u16),
    before: &[Row],
    row: &Row,
) -> Result<Vec<u8>, AllocError>
    requires { ends.0 ≤ LAST_PLACE }
    ensures { IfOk result (λ text. text.items
        ≡ text_to cave.now ends.0 ends.1 (map going before.now) (going row.now)) }
{
    let (from, place) = ends;
    if !ends_at(row, place) {
        return Ok(Vec::new(alloc));
    }
    row_motions(alloc, cave, from, before, row)
}

/// Appends a text that isn't empty, on its own line.
fn put_line_of_text(prefix: &str, line: &[u8], text: &mut Text)
    ensures { Tells (line_of_text prefix.now line.now) text.old text.new }
{
    if line.is_empty() {
        return;
    }
    text.put(prefix.as_bytes());
    text.put(line);
    text.put(b"\n");
}

/// Appends the lines of rows.
fn put_rows(cave: &Cave, prefix: &str, ends: (u16, u16), rows: &[Row], text: &mut Text)
    requires { ends.0 ≤ LAST_PLACE }
    ensures { Tells (row_lines cave.now prefix.now ends.0 ends.1 [] (map going rows.now)) text.old
        text.new }
{
    for (count, row) in rows.iter().enumerate() {
        match text_to(text.alloc(), cave, ends, &rows[..count], row) {
            Ok(line) => put_line_of_text(prefix, &line, text),
            Err(AllocError) => text.fail(),
        }
    }
}

/// Appends the lines of the rows from a place to another.
pub fn put_way(cave: &Cave, prefix: &str, from: u16, to: u16, text: &mut Text)
    requires { from ≤ LAST_PLACE }
    ensures { Tells (way_text cave.now prefix.now from to) text.old text.new }
{
    put_rows(cave, prefix, (from, to), cave.travel(from), text);
}
