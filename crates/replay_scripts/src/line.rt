//! One line of a script.

ghost use Rattle.std.specs.Prelude.{◌≡◌, IfOk, MatchOption, None, Some, option_map, min};
ghost use Rattle.base_lines.specs.Limits.{max_script_number};
ghost use Rattle.base_lines.specs.Bytes.{is_blank, number_of};
ghost use Rattle.replay_edits.specs.Edit.{change_of};
ghost use Rattle.replay_scripts.specs.Line.{is_word_line, number_after_word, text_of_edit, edit_of};
ghost use Rattle.replay_scripts.specs.Line.{expected_in, kind_of_script_line, kind_said};

use crate::edit_flaw::{EditFlaw, edit_flaw_of};
use base_lines::bytes::{is_all_blank, is_blank, split_digits};
use base_lines::is_skipped;
use base_lines::limits::{is_long_number, with_digit};
use replay_edits::{Edit, LineText};
use std::alloc::{AllocError, Global};

/// What a line says.
#[derive(Drop)]
pub(crate) enum ScriptLine {
    Nothing,
    Begin,
    End,
    Edit(Edit),
    /// A script can't have it, for this reason.
    Nonsense(EditFlaw),
}

#[tactic(auto, unfolding(crate::specs::Line::kind_of_script_line))]
pub(crate) fn read_line(alloc: Global, line: &[u8]) -> Result<ScriptLine, AllocError>
    ensures { IfOk result (λ said. kind_said said ≡ kind_of_script_line line.now) }
{
    if is_skipped(line) {
        return Ok(ScriptLine::Nothing);
    }
    if is_word_line(b"begin", line) {
        return Ok(ScriptLine::Begin);
    }
    if is_word_line(b"end", line) {
        return Ok(ScriptLine::End);
    }
    match edit_of(alloc, line)? {
        Some(edit) => Ok(ScriptLine::Edit(edit)),
        None => Ok(ScriptLine::Nonsense(edit_flaw_of(line))),
    }
}

#[tactic(auto, unfolding(crate::specs::Line::is_word_line))]
fn is_word_line(word: &[u8], line: &[u8]) -> bool
    ensures { result ≡ is_word_line word.now line.now }
{
    match line.strip_prefix(word) {
        Some(rest) => is_all_blank(rest),
        None => false,
    }
}

/// The number that digits write, or the greatest.
#[tactic(auto, using(crate::proofs::Numbers::number_capped))]
fn capped_number(digits: &[u8]) -> u32
    ensures { result ≡ min (number_of digits.now) max_script_number }
{
    digits
        .iter()
        .fold(0, |number, &digit| with_digit(number, digit))
}

/// The number after a word and one blank, and what follows the number.
#[tactic(auto, unfolding(crate::specs::Line::number_after_word))]
fn number_after_word<'a>(word: &[u8], line: &'a [u8]) -> Option<(u32, &'a [u8])>
    ensures { MatchOption result (number_after_word word.now line.now ≡ None)
        (λ found. number_after_word word.now line.now ≡ Some (found.0, found.1.now)) }
{
    let (&blank, rest) = line.strip_prefix(word)?.split_first()?;
    if !is_blank(blank) {
        return None;
    }
    let (digits, rest) = split_digits(rest);
    if digits.is_empty() || is_long_number(digits.len()) {
        return None;
    }
    Some((capped_number(digits), rest))
}

/// The text after a number: nothing, or what follows one blank.
fn text_in(rest: &[u8]) -> Option<&[u8]>
    ensures { MatchOption result (text_of_edit rest.now ≡ None)
        (λ text. text_of_edit rest.now ≡ Some text.now) }
{
    match rest {
        [] => Some(rest),
        [blank, text @ ..] if is_blank(*blank) => Some(text),
        _ => None,
    }
}

/// The place and the text after the word `expect`, if the line is a guard.
#[tactic(auto, unfolding(crate::specs::Line::expected_in))]
pub(crate) fn expected_in(line: &[u8]) -> Option<(u32, &[u8])>
    ensures { MatchOption result (expected_in line.now ≡ None)
        (λ expected. expected_in line.now ≡ Some (expected.0, expected.1.now)) }
{
    let (place, rest) = number_after_word(b"expect", line)?;
    Some((place, text_in(rest)?))
}

/// The edit that a line spells, if it spells one.
#[tactic(auto, unfolding(crate::specs::Line::edit_of))]
fn edit_of(alloc: Global, line: &[u8]) -> Result<Option<Edit>, AllocError>
    ensures { IfOk result (λ edit. option_map change_of edit ≡ edit_of line.now) }
{
    if let Some((at, rest)) = number_after_word(b"insert", line) {
        let Some(text) = text_in(rest) else {
            return Ok(None);
        };
        return Ok(Some(Edit::Insert(at, LineText::from_slice(alloc, text)?)));
    }
    if let Some((at, rest)) = number_after_word(b"delete", line) {
        return Ok(is_all_blank(rest).then_some(Edit::Delete(at)));
    }
    if let Some((at, rest)) = number_after_word(b"replace", line) {
        let Some(text) = text_in(rest) else {
            return Ok(None);
        };
        return Ok(Some(Edit::Replace(at, LineText::from_slice(alloc, text)?)));
    }
    if let Some((seed, rest)) = number_after_word(b"seed", line) {
        return Ok(is_all_blank(rest).then_some(Edit::Reseed(seed)));
    }
    Ok(None)
}
