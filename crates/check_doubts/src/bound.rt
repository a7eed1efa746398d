//! The bindings of an accepted text, with their lines, and what is doubtful about one.

ghost use Rattle.std.specs.Prelude.{◌≡◌, IfOk, option_map};
ghost use Rattle.std.specs.Str.Lines.{lines};
ghost use Rattle.check_doubts.specs.BoundRows.{binding_in, bound_flaw, bound_rows, message_flaw};

use crate::flaw::{CaveFlaw, Subject};
use crate::messages::place_has_text;
use base_lines::{is_skipped, split_line};
use cave_data::Cave;
use data_rows::binding::{Binding, Key, binding_row};
use std::alloc::{AllocError, Global};

/// A binding, with the number of its line, from 1.
#[derive(Clone, Copy, Debug)]
pub struct BoundRow {
    pub line: usize,
    pub binding: Binding,
}

/// The binding that a line states, if it states one.
fn binding_in(line: &[u8]) -> Option<Binding>
    ensures { result ≡ binding_in line.now }
{
    if is_skipped(line) {
        return None;
    }
    match binding_row(line) {
        Ok(binding) => Some(binding),
        Err(_) => None,
    }
}

/// The bindings of a text.
pub(crate) fn bound_rows(alloc: Global, bindings: &[u8]) -> Result<Vec<BoundRow>, AllocError>
    ensures { IfOk result (λ rows. rows.items ≡ bound_rows 1 (lines bindings.now)) }
{
    let mut rows = Vec::new(alloc);
    let mut rest = bindings;
    let mut number = 0usize;
    while let Some((line, after)) = split_line(rest) {
        number += 1;
        if let Some(binding) = binding_in(line) {
            rows.push(BoundRow {
                line: number,
                binding,
            })?;
        }
        rest = after;
    }
    Ok(rows)
}

/// What is doubtful about the message that a role is bound to.
fn message_flaw(role: u16, message: u16, text: Option<&[u8]>) -> Option<CaveFlaw>
    ensures { result ≡ message_flaw role message (option_map (λ text. text.now) text.entry) }
{
    match text {
        Some(text) if text.is_empty() => Some(CaveFlaw::RoleSilent(role, message)),
        Some(_) => None,
        None => Some(CaveFlaw::Textless(Subject::MessageRole(role), message)),
    }
}

/// What is doubtful about a binding.
pub(crate) fn bound_flaw(cave: &Cave, row: &BoundRow) -> Option<CaveFlaw>
    ensures { result ≡ bound_flaw cave.now row.now }
{
    let value = row.binding.value;
    match row.binding.key {
        Key::RoleKey(role) => message_flaw(role, value, cave.message(value)),
        Key::PlaceKey(role) => {
            if place_has_text(cave, value) {
                None
            } else {
                Some(CaveFlaw::Textless(Subject::PlaceRole(role), value))
            }
        }
        Key::LettersKey => None,
    }
}
