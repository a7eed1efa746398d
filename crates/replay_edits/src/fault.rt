ghost use Rattle.std.specs.Prelude.{◌≡◌};

use base_lines::LineFault;
use std::alloc::AllocError;
use std::fmt;

/// Why an edit was refused. The first of these that holds is returned. Only a group can have
/// `EmptyGroup`, which comes first.
#[derive(Clone, Copy, Debug, Drop, PartialEq, Eq)]
pub enum EditFault {
    /// Its place is past the end of the log, which has this many lines.
    NoSuchPlace(usize),
    /// No log may have its line, for this reason.
    BadLine(LineFault),
    LogFull,
    BadSeed,
    MeterFull,
    Memory,
    EmptyGroup,
}

impl fmt::Display for EditFault {
    ghost use Rattle.std.specs.Prelude.{Some};
    ghost use Rattle.replay_edits.specs.Faults.{edit_fault_text};

    ghost output = { λ fault. Some (edit_fault_text fault) };

    fn fmt<W: fmt::Write>(&self, f: &mut fmt::Formatter<W>) -> fmt::Result {
        match *self {
            EditFault::NoSuchPlace(lines) => write!(f, "no such line: the log has {lines}"),
            EditFault::BadLine(flaw) => write!(f, "a bad line: {flaw}"),
            EditFault::LogFull => write!(f, "a full log: a log has at most 65,535 lines"),
            EditFault::BadSeed => write!(f, "a bad seed: a seed is at most 2147483647"),
            EditFault::MeterFull => write!(
                f,
                "a full meter: it has fewer steps left than the log would have lines"
            ),
            EditFault::Memory => write!(f, "there isn't enough memory"),
            EditFault::EmptyGroup => write!(f, "an empty group: it has no edit"),
        }
    }
}

impl std::error::Error for EditFault {}

/// Why a group of edits was refused, and at which of its edits, counted from 0, or 0 if none is to
/// blame.
#[derive(Clone, Copy, Debug, Drop, PartialEq, Eq)]
pub struct GroupFault {
    pub cause: EditFault,
    pub at: usize,
}

impl fmt::Display for GroupFault {
    fn fmt<W: fmt::Write>(&self, f: &mut fmt::Formatter<W>) -> fmt::Result {
        let GroupFault { cause, at } = *self;
        match cause {
            EditFault::NoSuchPlace(_)
            | EditFault::BadLine(_)
            | EditFault::LogFull
            | EditFault::BadSeed => write!(f, "edit {at} of the group, counted from 0: {cause}"),
            EditFault::MeterFull | EditFault::Memory | EditFault::EmptyGroup => {
                write!(f, "{cause}")
            }
        }
    }
}

impl std::error::Error for GroupFault {}

impl From<AllocError> for GroupFault {
    ghost use Rattle.replay_edits.specs.declared.fault.EditFault.TheVariants.{Memory};

    ghost from_gives = { λ _ fault. fault ≡ record { cause = Memory; at = 0 } };

    fn from(_: AllocError) -> GroupFault {
        GroupFault {
            cause: EditFault::Memory,
            at: 0,
        }
    }
}
