ghost use Rattle.std.specs.Prelude.{◌≡◌};
ghost use Rattle.replay_scripts.specs.declared.fault.ScriptRefusal.TheVariants.{Memory};

use crate::edit_flaw::EditFlaw;
use std::alloc::{AllocError, AllocFailed};
use std::fmt;
use thiserror::Error;

/// What is wrong with a line of a script.
#[derive(Clone, Copy, Debug, PartialEq, Eq, Error)]
pub enum ScriptFlaw {
    /// A script can't have such a line, for this reason.
    #[error("{0}")]
    NoEdit(EditFlaw),
    #[error("`begin` inside a group: a group can't hold another")]
    BeginInGroup,
    #[error("`end` without a `begin` before it: delete it")]
    EndOutsideGroup,
    #[error("`begin` without an `end` after it: add a line `end`")]
    NoEnd,
    #[error("`expect` without an edit or a group after it: add one, or delete the line")]
    NoneGuarded,
}

/// Why a script was refused as a whole.
#[derive(Clone, Copy, Debug, PartialEq, Eq)]
pub enum ScriptRefusal {
    /// The number, from 1, of the first malformed line, and what is wrong with it.
    Malformed(usize, ScriptFlaw),
    Memory,
}

/// Its text fits in an `anyhow::Error`, which has room for 120 bytes.
impl fmt::Display for ScriptRefusal {
    fn fmt<W: fmt::Write>(&self, f: &mut fmt::Formatter<W>) -> fmt::Result {
        match *self {
            ScriptRefusal::Malformed(line, ScriptFlaw::NoEdit(EditFlaw::NoWord)) => {
                write!(
                    f,
                    "line {line} of the script: unknown word: expected an edit, a guard, `begin` \
                     or `end`"
                )
            }
            ScriptRefusal::Malformed(line, flaw) => {
                write!(f, "line {line} of the script: {flaw}")
            }
            ScriptRefusal::Memory => write!(f, "there isn't enough memory"),
        }
    }
}

impl std::error::Error for ScriptRefusal {}

impl From<AllocError> for ScriptRefusal {
    ghost from_gives = { λ _ fault. fault ≡ Memory };

    fn from(_: AllocError) -> ScriptRefusal {
        ScriptRefusal::Memory
    }
}

impl<T: Drop> From<AllocFailed<T>> for ScriptRefusal {
    ghost from_gives = { λ _ fault. fault ≡ Memory };

    fn from(_: AllocFailed<T>) -> ScriptRefusal {
        ScriptRefusal::Memory
    }
}
