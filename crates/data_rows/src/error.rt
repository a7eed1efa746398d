//! What is wrong with a database or with bindings, and where.
ghost use Rattle.std.specs.Prelude.{◌≡◌};

use crate::explain::{At, Expected};
use std::alloc::{AllocError, AllocFailed};
use thiserror::Error;

/// Why a line of bindings binds nothing, although its key may be known.
#[derive(Clone, Copy, Debug, PartialEq, Eq, Error)]
pub enum BindingFlaw {
    #[error("not a binding")]
    Malformed,
    #[error("the number of a binding is out of its range")]
    BadValue,
    #[error("the key was bound before")]
    Repeated,
}

/// Why a database or its bindings are refused. If several causes fit a line, the first of them is
/// reported.
#[derive(Clone, Copy, Debug, PartialEq, Eq, Error)]
pub enum Cause {
    #[error("the input is too large")]
    TooLarge,
    #[error("not a section number")]
    BadSection,
    #[error("a number or a word is missing")]
    BadNumber,
    #[error("a number or a text is out of its range")]
    OutOfRange,
    #[error("the database has no end")]
    NoEnd,
    #[error("too many rows")]
    TooManyRows,
    #[error("{0}")]
    BadBinding(BindingFlaw),
    #[error("the key is not known")]
    UnknownRole,
    #[error("there isn't enough memory")]
    Memory,
}

/// A section of a database; these are in the order of their numbers, from 1.
#[derive(Clone, Copy, Debug, PartialEq, Eq)]
pub enum Section {
    LongTexts,
    ShortTexts,
    Travel,
    Words,
    Objects,
    Messages,
    Placements,
    Defaults,
    Conditions,
    Classes,
    Hints,
    Magic,
}

/// Where in the inputs a fault is.
#[derive(Clone, Copy, Debug, PartialEq, Eq)]
pub enum FaultSite {
    Database,
    Section(Section),
    Bindings,
}

/// A fault: its cause, its line from 1, or 0 if no line is at fault, and where in the database that
/// line is.
#[derive(Clone, Copy, Debug, PartialEq, Eq, Error)]
#[error("{}{}", At {line: *.line, site: *.site}, Expected {cause: *.cause, site: *.site})]
pub struct CaveError {
    pub cause: Cause,
    pub line: usize,
    pub site: FaultSite,
}

impl From<AllocError> for Cause {
    ghost use Rattle.data_rows.specs.declared.error.Cause.TheVariants.{Memory};

    ghost from_gives = { λ _ cause. cause ≡ Memory };

    fn from(_refused: AllocError) -> Cause {
        Cause::Memory
    }
}

impl<T: Drop> From<AllocFailed<T>> for Cause {
    ghost use Rattle.data_rows.specs.declared.error.Cause.TheVariants.{Memory};

    ghost from_gives = { λ _ cause. cause ≡ Memory };

    fn from(_refused: AllocFailed<T>) -> Cause {
        Cause::Memory
    }
}
