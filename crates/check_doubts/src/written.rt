//! Lines of a database that aren't written as they should be.

ghost use Rattle.std.specs.Prelude.{◌≡◌};
ghost use Rattle.data_rows.specs.Grammar.{position_after_line};
ghost use Rattle.check_doubts.specs.Written.{begins_blank, begins_tab, condition_flaw, has_more};
ghost use Rattle.check_doubts.specs.Written.{is_rowless, row_flaw, text_flaw, written_flaw};
ghost use Rattle.check_doubts.specs.Written.{written_flaw_at};

use crate::flaw::CaveFlaw;
use crate::hints::is_placed_hint;
use base_lines::bytes::{is_all_blank, skip_blanks, split_word};
use cave_data::Cave;
use data_rows::field_rows::condition_row;
use data_rows::position::{after_heading, closes};
use data_rows::{Position, Section};

/// Whether a blank is after a number, and another one behind it.
fn begins_blank(after_number: &[u8]) -> bool
    ensures { result ≡ begins_blank after_number.now }
{
    after_number.starts_with(b"  ")
}

/// Whether a blank is after a number, and a tab behind it.
fn begins_tab(after_number: &[u8]) -> bool
    ensures { result ≡ begins_tab after_number.now }
{
    after_number.starts_with(b" \t")
}

/// Whether the text behind a number is a silent one with more.
fn has_more(after_number: &[u8]) -> bool
    ensures { result ≡ has_more after_number.now }
{
    4 < after_number.len() && skip_blanks(&after_number[1..]).starts_with(b">$<")
}

/// What is doubtful about how a text is written.
fn text_flaw(after_number: &[u8]) -> Option<CaveFlaw>
    ensures { result ≡ text_flaw after_number.now }
{
    if begins_blank(after_number) {
        return Some(CaveFlaw::TextOfBlanks);
    }
    if begins_tab(after_number) {
        return Some(CaveFlaw::TabPrinted);
    }
    if has_more(after_number) {
        return Some(CaveFlaw::NotSilent);
    }
    None
}

/// What is doubtful about how the row of a text is written.
fn row_flaw(line: &[u8]) -> Option<CaveFlaw>
    ensures { result ≡ row_flaw line.now }
{
    let (_, after_number) = split_word(skip_blanks(line));
    text_flaw(after_number)
}

/// Whether a hint has some places, and no row of its own.
fn is_rowless(cave: &Cave, hint: u16, places: usize) -> bool
    ensures { result ≡ is_rowless cave.now hint places }
{
    is_placed_hint(hint) && 0 < places && !cave.hint(hint).is_some()
}

/// What is doubtful about a line of places.
fn condition_flaw(cave: &Cave, line: &[u8]) -> Option<CaveFlaw>
    ensures { result ≡ condition_flaw cave.now line.now }
{
    match condition_row(line) {
        Ok((hint, places)) => {
            if is_rowless(cave, hint, places.len()) {
                Some(CaveFlaw::Rowless(hint))
            } else {
                None
            }
        }
        Err(_) => None,
    }
}

/// What is doubtful about how a line of a section is written.
fn written_flaw(cave: &Cave, section: Section, line: &[u8]) -> Option<CaveFlaw>
    ensures { result ≡ written_flaw cave.now section line.now }
{
    match section {
        Section::LongTexts
        | Section::ShortTexts
        | Section::Objects
        | Section::Messages
        | Section::Classes => row_flaw(line),
        Section::Conditions => condition_flaw(cave, line),
        _ => None,
    }
}

/// What is doubtful about how a line is written at its place in the database.
#[tactic(auto, unfolding(crate::specs::Written::written_flaw_at))]
pub(crate) fn written_flaw_at(cave: &Cave, position: Position, line: &[u8]) -> Option<CaveFlaw>
    ensures { result ≡ written_flaw_at cave.now position line.now }
{
    if is_all_blank(line) {
        return None;
    }
    match position {
        Position::Inside(_) if closes(line) => None,
        Position::Inside(section) => written_flaw(cave, section, line),
        Position::Outside | Position::After => None,
    }
}

/// Where the line after this one is.
#[tactic(auto, unfolding(data_rows::specs::Grammar::position_after_line))]
pub(crate) fn position_after_line(position: Position, line: &[u8]) -> Position
    ensures { result ≡ position_after_line position line.now }
{
    if is_all_blank(line) {
        return position;
    }
    match position {
        Position::Outside => after_heading(line).unwrap_or(Position::Outside),
        Position::Inside(_) if closes(line) => Position::Outside,
        _ => position,
    }
}
