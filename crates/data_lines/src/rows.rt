//! The rows of an accepted database, each with the number of its line.

ghost use Rattle.std.specs.Prelude.{◌≡◌, IfOk};
ghost use Rattle.std.specs.Str.Lines.{lines};
ghost use Rattle.data_rows.specs.Grammar.{position_after_line};
ghost use Rattle.data_rows.specs.declared.error.Section.TheVariants as section_is;
ghost use Rattle.data_lines.specs.Marks.{mark_at, mark_in, marked_rows};

use crate::mark::{MarkedRow, RowMark};
use base_lines::bytes::is_all_blank;
use base_lines::numbers::{LAST_NAMED, LAST_PLACE};
use base_lines::split_line;
use data_rows::field_rows::{
    default_row, hint_row, object_line, placement_row, text_line, way_row, word_row,
};
use data_rows::position::{after_heading, closes};
use data_rows::{Position, Section};
use std::alloc::{AllocError, Global};

/// The greatest score of a class.
const LAST_BOUND: u16 = 9999;

fn long_mark(line: &[u8]) -> Option<RowMark>
    ensures { result ≡ mark_in section_is.LongTexts line.now }
{
    match text_line(line, 1, LAST_PLACE) {
        Ok((place, _)) => Some(RowMark::Long(place)),
        Err(_) => None,
    }
}

fn short_mark(line: &[u8]) -> Option<RowMark>
    ensures { result ≡ mark_in section_is.ShortTexts line.now }
{
    match text_line(line, 1, LAST_PLACE) {
        Ok((place, _)) => Some(RowMark::Short(place)),
        Err(_) => None,
    }
}

fn way_mark(line: &[u8]) -> Option<RowMark>
    ensures { result ≡ mark_in section_is.Travel line.now }
{
    match way_row(line) {
        Ok(row) => Some(RowMark::Way(row.place)),
        Err(_) => None,
    }
}

fn word_mark(line: &[u8]) -> Option<RowMark>
    ensures { result ≡ mark_in section_is.Words line.now }
{
    match word_row(line) {
        Ok(_) => Some(RowMark::Word),
        Err(_) => None,
    }
}

fn name_mark(line: &[u8]) -> Option<RowMark>
    ensures { result ≡ mark_in section_is.Objects line.now }
{
    match object_line(line) {
        Ok((number, _)) if 0 < number && number <= LAST_NAMED => Some(RowMark::Name(number)),
        _ => None,
    }
}

fn placement_mark(line: &[u8]) -> Option<RowMark>
    ensures { result ≡ mark_in section_is.Placements line.now }
{
    match placement_row(line) {
        Ok((object, _)) => Some(RowMark::Placement(object)),
        Err(_) => None,
    }
}

fn default_mark(line: &[u8]) -> Option<RowMark>
    ensures { result ≡ mark_in section_is.Defaults line.now }
{
    match default_row(line) {
        Ok((action, message)) => Some(RowMark::Default(action, message)),
        Err(_) => None,
    }
}

fn class_mark(line: &[u8]) -> Option<RowMark>
    ensures { result ≡ mark_in section_is.Classes line.now }
{
    match text_line(line, 0, LAST_BOUND) {
        Ok((bound, _)) => Some(RowMark::Class(bound)),
        Err(_) => None,
    }
}

fn hint_mark(line: &[u8]) -> Option<RowMark>
    ensures { result ≡ mark_in section_is.Hints line.now }
{
    match hint_row(line) {
        Ok((number, hint)) => Some(RowMark::Hint(number, hint.question, hint.text)),
        Err(_) => None,
    }
}

/// What a line of a section is about, unless its kind has no mark.
fn mark_in(section: Section, line: &[u8]) -> Option<RowMark>
    ensures { result ≡ mark_in section line.now }
{
    match section {
        Section::LongTexts => long_mark(line),
        Section::ShortTexts => short_mark(line),
        Section::Travel => way_mark(line),
        Section::Words => word_mark(line),
        Section::Objects => name_mark(line),
        Section::Placements => placement_mark(line),
        Section::Defaults => default_mark(line),
        Section::Classes => class_mark(line),
        Section::Hints => hint_mark(line),
        Section::Messages | Section::Conditions | Section::Magic => None,
    }
}

/// What a line is about at its place in the database.
fn mark_at(position: Position, line: &[u8]) -> Option<RowMark>
    ensures { result ≡ mark_at position line.now }
{
    if is_all_blank(line) {
        return None;
    }
    match position {
        Position::Inside(_) if closes(line) => None,
        Position::Inside(section) => mark_in(section, line),
        Position::Outside | Position::After => None,
    }
}

/// Where the line after this one is.
#[tactic(auto, unfolding(data_rows::specs::Grammar::position_after_line))]
fn position_after_line(position: Position, line: &[u8]) -> Position
    ensures { result ≡ position_after_line position line.now }
{
    if is_all_blank(line) {
        return position;
    }
    match position {
        Position::Outside => after_heading(line).unwrap_or(Position::Outside),
        Position::Inside(_) if closes(line) => Position::Outside,
        _ => position,
    }
}

/// The rows of a database, each with its line, except those of kinds that have no mark.
pub fn marked_rows(alloc: Global, database: &[u8]) -> Result<Vec<MarkedRow>, AllocError>
    ensures { IfOk result
        (λ rows. rows.items ≡ marked_rows 1 Position.Outside (lines database.now)) }
{
    let mut rows = Vec::new(alloc);
    let mut position = Position::Outside;
    let mut rest = database;
    let mut number = 0usize;
    while let Some((line, after)) = split_line(rest) {
        number += 1;
        if let Some(mark) = mark_at(position, line) {
            rows.push(MarkedRow { line: number, mark })?;
        }
        position = position_after_line(position, line);
        rest = after;
    }
    Ok(rows)
}
