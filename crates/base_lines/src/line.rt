//! Which lines a log may have, and what is wrong with another.

ghost use Rattle.std.specs.Prelude.{◌≡◌, ◌≤◌, ◌↔◌, None, Some, IsTrue, IsOk, MatchResult, length};
ghost use Rattle.std.specs.List.{list_all, prefix_len};
ghost use Rattle.base_lines.specs.Line.{flaw_of, is_line, is_line_byte, is_printable, line_fault};

use crate::limits::is_long_line;
use std::fmt;

/// Why a line isn't allowed in a log: the first reason.
#[derive(Clone, Copy, Debug, PartialEq, Eq)]
pub enum LineFault {
    /// It has this many bytes.
    TooLong(usize),
    /// It has this byte in this column, from 1.
    BadByte(u8, usize),
}

impl fmt::Display for LineFault {
    ghost use Rattle.base_lines.specs.Line.{line_fault_text};

    ghost output = { λ fault. Some (line_fault_text fault) };

    fn fmt<W: fmt::Write>(&self, f: &mut fmt::Formatter<W>) -> fmt::Result {
        match *self {
            LineFault::TooLong(bytes) => write!(
                f,
                "the line has {bytes} bytes, and a line of a log has at most 255"
            ),
            LineFault::BadByte(byte, column) => write!(
                f,
                "the byte in column {column} is {byte}, and a line of a log has printable ASCII, \
                 32 to 126, and tabs"
            ),
        }
    }
}

impl std::error::Error for LineFault {}

pub(crate) fn is_printable(byte: u8) -> bool
    ensures { result ≡ is_printable byte }
{
    matches!(byte, b' '..=b'~')
}

fn is_line_byte(byte: u8) -> bool
    ensures { result ≡ is_line_byte byte }
{
    is_printable(byte) || byte == b'\t'
}

fn are_line_bytes(line: &[u8]) -> bool
    ensures { result ≡ list_all is_line_byte line.now }
{
    line.iter().all(|&byte| is_line_byte(byte))
}

/// Whether a log may have a line.
#[tactic(auto, unfolding(crate::specs::Line::is_line))]
fn is_line(line: &[u8]) -> bool
    ensures { result ≡ is_line line.now }
{
    !is_long_line(line.len()) && are_line_bytes(line)
}

/// How many bytes come before the first that isn't allowed in a line.
fn good_len(line: &[u8]) -> usize
    ensures value { result ≡ prefix_len is_line_byte line.now }
    ensures within { result ≤ length line.now }
{
    line.iter().take_while(|byte| is_line_byte(**byte)).count()
}

/// What is wrong with a line that isn't allowed in a log. If the line is allowed, this is the byte
/// after its last, as 0.
#[tactic(auto, unfolding(crate::specs::Line::flaw_of))]
fn flaw_of(line: &[u8]) -> LineFault
    ensures { result ≡ flaw_of line.now }
{
    if is_long_line(line.len()) {
        return LineFault::TooLong(line.len());
    }
    let place = good_len(line);
    let byte = line.get(place).copied().unwrap_or(0);
    LineFault::BadByte(byte, place + 1)
}

/// Checks whether a line is allowed in a log; the error is what is wrong with it.
#[tactic(auto, unfolding(crate::specs::Line::line_fault))]
pub fn check_line(line: &[u8]) -> Result<(), LineFault>
    ensures fault { MatchResult result (λ _. line_fault line.now ≡ None)
        (λ fault. line_fault line.now ≡ Some fault) }
    ensures ok { IsOk result ↔ IsTrue (is_line line.now) }
{
    if is_line(line) {
        Ok(())
    } else {
        Err(flaw_of(line))
    }
}
