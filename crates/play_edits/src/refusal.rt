//! Why an item of a script is refused, and what is said about that.

ghost use Rattle.std.specs.Prelude.{◌≡◌};
ghost use Rattle.replay_scripts.specs.Views.{applied_item};
ghost use Rattle.play_edits.specs.Refusal.{edit_number, edit_refusal, line_copy, refusal_line};
ghost use Rattle.play_edits.specs.Refusal.{refusal_number, shown_copy};

use replay_edits::{EditFault, GroupFault};
use replay_scripts::Item;
use std::{fmt, str};

/// How many bytes of a line are kept: the most that a line of a log may have.
const MAX_KEPT: usize = 255;

/// A line of a log, which lies in the value itself.
#[derive(Clone, Copy, Debug, PartialEq, Eq)]
pub struct LineCopy {
    bytes: [u8; MAX_KEPT],
    len: u8,
}

impl LineCopy {
    /// The first bytes of a line, or all of them if a log may have it.
    pub(crate) fn of(line: &[u8]) -> LineCopy
        ensures { result ≡ line_copy line.now }
    {
        let cut = &line[..MAX_KEPT.min(line.len())];
        let mut bytes = [0; MAX_KEPT];
        for (i, byte) in cut.iter().enumerate() {
            bytes[i] = *byte;
        }
        LineCopy {
            bytes,
            len: cut.len() as u8,
        }
    }

    /// The line.
    pub fn as_slice(&self) -> &[u8]
        ensures { result.now ≡ shown_copy self.now }
    {
        &self.bytes[..usize::from(self.len)]
    }
}

/// The line that a guard expects.
#[derive(Clone, Copy, Debug, PartialEq, Eq)]
pub enum ExpectedLine {
    /// No log may have it.
    Impossible,
    /// The log doesn't have it.
    Nowhere(LineCopy),
    /// The log has it at this place, and at none that is nearer to the guard's.
    At(LineCopy, usize),
}

/// Why an item of a script is refused, with the line of the script that reports name for it.
#[derive(Clone, Copy, Debug, PartialEq, Eq)]
pub enum Refusal {
    /// An edit meets this fault.
    Edit(usize, EditFault),
    /// A guard expects a line at a place where the log, which has this many lines, has none.
    NoLine(usize, usize, ExpectedLine),
    /// A guard expects a line other than the one that the log has.
    OtherLine(usize, LineCopy, ExpectedLine),
}

impl Refusal {
    /// The line of the script that reports name for it.
    pub fn line(self) -> usize
        ensures { result ≡ refusal_line self }
    {
        match self {
            Refusal::Edit(line, _) => line,
            Refusal::NoLine(line, _, _) | Refusal::OtherLine(line, _, _) => line,
        }
    }

    /// The number by which a report names it.
    pub(crate) fn number(self) -> u8
        ensures { result ≡ refusal_number self }
    {
        match self {
            Refusal::Edit(_, fault) => edit_number(fault),
            Refusal::NoLine(_, _, _) | Refusal::OtherLine(_, _, _) => 8,
        }
    }
}

/// The fault of an edit, as it is said of a script.
#[derive(Clone, Copy)]
pub(crate) struct EditWords {
    pub(crate) fault: EditFault,
}

impl fmt::Display for EditWords {
    ghost use Rattle.std.specs.Prelude.{Some};
    ghost use Rattle.play_edits.specs.Accounts.{edit_words};

    ghost output = { λ words. Some (edit_words words.fault) };

    fn fmt<W: fmt::Write>(&self, f: &mut fmt::Formatter<W>) -> fmt::Result {
        match self.fault {
            EditFault::EmptyGroup => write!(
                f,
                "an empty group: put an edit between `begin` and `end`"
            ),
            fault => write!(f, "{fault}"),
        }
    }
}

impl fmt::Display for ExpectedLine {
    fn fmt<W: fmt::Write>(&self, f: &mut fmt::Formatter<W>) -> fmt::Result {
        match self {
            ExpectedLine::Impossible => write!(f, "; expected a line that no log may have"),
            ExpectedLine::Nowhere(line) => {
                let line = str::from_utf8(line.as_slice()).unwrap_or("");
                write!(f, "; expected {line}, which is nowhere")
            }
            ExpectedLine::At(line, place) => {
                let line = str::from_utf8(line.as_slice()).unwrap_or("");
                write!(f, "; expected {line}, which is at {place}")
            }
        }
    }
}

impl fmt::Display for Refusal {
    fn fmt<W: fmt::Write>(&self, f: &mut fmt::Formatter<W>) -> fmt::Result {
        let number = self.number();
        write!(f, "refused {number}, ")?;
        match *self {
            Refusal::Edit(_, fault) => {
                let words = EditWords { fault };
                write!(f, "{words}")
            }
            Refusal::NoLine(_, lines, expected) => {
                write!(f, "no line: the log has {lines}{expected}")
            }
            Refusal::OtherLine(_, line, expected) => {
                let line = str::from_utf8(line.as_slice()).unwrap_or("");
                write!(f, "another line: {line}{expected}")
            }
        }
    }
}

/// The refusal of an item for a fault of its edits.
pub(crate) fn edit_refusal(item: &Item, fault: GroupFault) -> Refusal
    ensures { result ≡ edit_refusal (applied_item item.now) fault }
{
    Refusal::Edit(item.line_of(fault.at), fault.cause)
}

/// The number by which a report names the refusal of an edit.
fn edit_number(fault: EditFault) -> u8
    ensures { result ≡ edit_number fault }
{
    match fault {
        EditFault::NoSuchPlace(_) => 1,
        EditFault::BadLine(_) => 2,
        EditFault::LogFull => 3,
        EditFault::BadSeed => 4,
        EditFault::MeterFull => 5,
        EditFault::Memory => 6,
        EditFault::EmptyGroup => 7,
    }
}
