//! What is known of a fault of a cave beyond its cause.

ghost use Rattle.std.specs.Prelude.{◌≡◌, IfOk};
ghost use Rattle.std.specs.Str.Lines.{lines};
ghost use Rattle.check_tables.specs.Clues.{clue_at_first, clue_of, faulty_text, if_log, if_near};
ghost use Rattle.check_tables.specs.Clues.{begins_no_number, key_in, line_at_number};

use crate::near_key::near_key;
use base_lines::bytes::{skip_blanks, split_word};
use base_lines::{has_byte_order_mark, split_line};
use data_rows::binding::Key;
use data_rows::place_role::PLACE_NAMES;
use data_rows::role::ROLE_NAMES;
use data_rows::{Cause, CaveError, FaultSite};
use std::alloc::{AllocError, Global};
use std::fmt;

/// What is known of a fault beyond its cause.
#[derive(Clone, Copy, Debug, PartialEq, Eq)]
pub enum Clue {
    /// The file begins with a byte order mark.
    ByteOrderMark,
    /// The file of the database begins with no number, as a log does.
    MaybeLog,
    /// The key is near to this one, and to no other.
    NearKey(Key),
}

/// Writes a key, which consists of a prefix and a name of a table.
fn write_key<W: fmt::Write>(
    f: &mut fmt::Formatter<W>,
    prefix: &str,
    names: &[&str],
    number: u16,
) -> fmt::Result {
    let name = names.get(number as usize).copied().unwrap_or("");
    write!(f, "did you mean {prefix}{name}?")
}

impl fmt::Display for Clue {
    fn fmt<W: fmt::Write>(&self, f: &mut fmt::Formatter<W>) -> fmt::Result {
        match *self {
            Clue::ByteOrderMark => {
                write!(
                    f,
                    "the file begins with a byte order mark: save it without one"
                )
            }
            Clue::MaybeLog => {
                write!(
                    f,
                    "expected the number of a section, 1 to 12; if this is a log, CAVE comes \
                     before it"
                )
            }
            Clue::NearKey(Key::RoleKey(role)) => write_key(f, "msg.", &ROLE_NAMES, role),
            Clue::NearKey(Key::PlaceKey(role)) => write_key(f, "place.", &PLACE_NAMES, role),
            Clue::NearKey(Key::LettersKey) => write!(f, "did you mean num.letters?"),
        }
    }
}

/// The line of a text with a number, from 1, which is empty if the text has no such line.
fn line_at(number: usize, text: &[u8]) -> &[u8]
    ensures { result.now ≡ line_at_number number (lines text.now) }
{
    let mut number = number;
    let mut rest = text;
    while let Some((line, after)) = split_line(rest) {
        if number <= 1 {
            return line;
        }
        number -= 1;
        rest = after;
    }
    &[]
}

/// The input that a fault is in.
fn faulty_text<'a>(site: FaultSite, database: &'a [u8], bindings: &'a [u8]) -> &'a [u8]
    ensures { result.now ≡ faulty_text site database.now bindings.now }
{
    match site {
        FaultSite::Bindings => bindings,
        FaultSite::Database | FaultSite::Section(_) => database,
    }
}

/// The key of a line of bindings.
fn key_in(line: &[u8]) -> &[u8]
    ensures { result.now ≡ key_in line.now }
{
    split_word(skip_blanks(line)).0
}

/// The clue to a key, if it isn't known and exactly one known key is near.
fn if_near(alloc: Global, cause: Cause, key: &[u8]) -> Result<Option<Clue>, AllocError>
    ensures { IfOk result (λ clue. clue ≡ if_near cause key.now) }
{
    match cause {
        Cause::UnknownRole => Ok(near_key(alloc, key)?.map(Clue::NearKey)),
        _ => Ok(None),
    }
}

/// Whether there is text, and no number begins it.
fn begins_no_number(text: &[u8]) -> bool
    ensures { result ≡ begins_no_number text.now }
{
    match text {
        [byte, ..] => !byte.is_ascii_digit() && *byte != b'-',
        [] => false,
    }
}

/// The clue to a first line of a database, if it opens no section and no number begins it.
fn if_log(error: CaveError, database: &[u8]) -> Option<Clue>
    ensures { result ≡ if_log error database.now }
{
    if error.cause == Cause::BadSection && begins_no_number(skip_blanks(line_at(1, database))) {
        return Some(Clue::MaybeLog);
    }
    None
}

/// The clue to a fault in the first line of a database or of bindings.
fn clue_at_first(error: CaveError, database: &[u8], bindings: &[u8]) -> Option<Clue>
    ensures { result ≡ clue_at_first error database.now bindings.now }
{
    if has_byte_order_mark(faulty_text(error.site, database, bindings)) {
        return Some(Clue::ByteOrderMark);
    }
    if_log(error, database)
}

/// What is known of a fault of a database and its bindings beyond its cause.
pub fn clue_of(
    alloc: Global,
    error: CaveError,
    database: &[u8],
    bindings: &[u8],
) -> Result<Option<Clue>, AllocError>
    ensures { IfOk result (λ clue. clue ≡ clue_of error database.now bindings.now) }
{
    let first = match error.line {
        1 => clue_at_first(error, database, bindings),
        _ => None,
    };
    match first {
        Some(clue) => Ok(Some(clue)),
        None => if_near(alloc, error.cause, key_in(line_at(error.line, bindings))),
    }
}
