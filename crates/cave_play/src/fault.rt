//! Why a run fails, and the status that the program then ends with.

ghost use Rattle.std.specs.Prelude.{◌≡◌};
ghost use Rattle.cave_play.specs.declared.fault.PlayFault.TheVariants.{Memory};
ghost use Rattle.cave_play.specs.Fault.{status_of, input_of, faulty_line};
ghost use Rattle.cave_play.specs.Stages.{opening_fault, script_refusal};

use base_lines::LineFault;
use cave_replay::OpenFault;
use check_doubts::{Doubt, Source};
use check_tables::Clue;
use data_rows::{CaveError, Expected, FaultSite};
use play_command::Input;
use play_edits::Refusal;
use replay_scripts::{EditFlaw, ScriptFlaw, ScriptRefusal};
use std::alloc::AllocError;
use std::fmt;
use thiserror::Error;

/// Why a log is refused.
#[derive(Clone, Copy, Debug, PartialEq, Eq, Error)]
pub enum LogFault {
    /// It has more bytes than an input may have.
    #[error("the log is too large: a log has at most 1,048,576 bytes")]
    TooLarge,
    /// The line with this number, from 1, isn't allowed in a log.
    #[error("{}{}", .1, mark_hint(*.0, *.1))]
    BadLine(usize, LineFault),
    /// It has more lines than a log may have.
    #[error("the log has more than 65,535 lines")]
    Full,
}

/// What else is said of a bad line of a log: the first bytes of a log may be a byte order mark.
fn mark_hint(line: usize, flaw: LineFault) -> &'static str {
    match (line, flaw) {
        (1, LineFault::BadByte(239 | 254 | 255, 1)) => {
            ": this looks like a byte order mark: save the log without one"
        }
        _ => "",
    }
}

/// Why a script is refused.
#[derive(Clone, Copy, Debug, PartialEq, Eq, Error)]
pub enum ScriptFault {
    /// It has more bytes than an input may have.
    #[error("the script is too large: a script has at most 1,048,576 bytes")]
    TooLarge,
    /// The line with this number, from 1, is malformed.
    #[error("{}{}", .1, guard_hint(*.1))]
    Malformed(usize, ScriptFlaw),
}

/// What else is said of a malformed line of a script, which may be a guard.
fn guard_hint(flaw: ScriptFlaw) -> &'static str {
    match flaw {
        ScriptFlaw::NoEdit(EditFlaw::Guard) => ": --guarded lets it have them",
        _ => "",
    }
}

/// What is wrong with a cave: the cause, and what else is known, or otherwise what was expected.
#[derive(Clone, Copy, Debug)]
struct CaveWords {
    error: CaveError,
    clue: Option<Clue>,
}

impl fmt::Display for CaveWords {
    fn fmt<W: fmt::Write>(&self, f: &mut fmt::Formatter<W>) -> fmt::Result {
        let (cause, site) = (self.error.cause, self.error.site);
        match self.clue {
            Some(clue) => write!(f, "{cause}: {clue}"),
            None => {
                let expected = Expected { cause, site };
                write!(f, "{expected}")
            }
        }
    }
}

/// Why a run failed. The text says what is wrong, and not where: `Message` of `play_program` does.
#[derive(Clone, Copy, Debug, PartialEq, Eq, Error)]
pub enum PlayFault {
    /// The database or its bindings are refused.
    #[error("{}", CaveWords {error: *.0, clue: *.1})]
    Cave(CaveError, Option<Clue>),
    /// This doubt isn't known, and the run is strict.
    #[error("{}", .0.flaw)]
    Doubt(Doubt),
    /// The list of what is known has more bytes than an input may have.
    #[error("the list of what is known is too large: it has at most 1,048,576 bytes")]
    LargeKnown,
    /// No log shows this many things, they aren't known, and the run is strict.
    #[error("{0} left that no log shows: add logs, or list them for --known")]
    Unshown(usize),
    /// The place around which a map is to be drawn isn't on it.
    #[error("place {0} isn't on the map: it has no text, and no way leads to it or from it")]
    Unmapped(u16),
    /// The seed is too great.
    #[error("a bad seed: a seed is at most 2147483647")]
    Seed,
    /// A session may not have this distance of checkpoints.
    #[error("a bad distance of checkpoints: it is from 1 to 10000")]
    Every,
    /// The log is refused.
    #[error("{0}")]
    Log(LogFault),
    /// The log that edits are to make is refused.
    #[error("{0}")]
    NewLog(LogFault),
    /// The script is refused.
    #[error("{0}")]
    Script(ScriptFault),
    /// An item of the script is refused, and the run is strict.
    #[error("{0}")]
    Refused(Refusal),
    /// The reader of an input returned an error.
    #[error("the file can't be read")]
    Read(Input),
    /// The writer returned an error, or took nothing.
    #[error("the output can't be written")]
    Write,
    /// The edited log has more bytes than an input may have, so no run could read it.
    #[error("the edited log would be larger than 1,048,576 bytes, and no run could read it")]
    LargeLog,
    /// So has a script that a run makes.
    #[error("the script would be larger than 1,048,576 bytes, and no run could read it")]
    LargeScript,
    /// Memory was refused.
    #[error("there isn't enough memory")]
    Memory,
}

impl From<AllocError> for PlayFault {
    ghost from_gives = { λ _ fault. fault ≡ Memory };

    fn from(_: AllocError) -> PlayFault {
        PlayFault::Memory
    }
}

impl From<OpenFault> for PlayFault {
    ghost from_gives = { λ fault found. found ≡ opening_fault fault };

    fn from(fault: OpenFault) -> PlayFault {
        match fault {
            OpenFault::BadEvery => PlayFault::Every,
            OpenFault::BadLine(line, flaw) => PlayFault::Log(LogFault::BadLine(line, flaw)),
            OpenFault::LogFull => PlayFault::Log(LogFault::Full),
            OpenFault::BadSeed => PlayFault::Seed,
            OpenFault::Memory => PlayFault::Memory,
        }
    }
}

impl From<ScriptRefusal> for PlayFault {
    ghost from_gives = { λ fault found. found ≡ script_refusal fault };

    fn from(fault: ScriptRefusal) -> PlayFault {
        match fault {
            ScriptRefusal::Malformed(line, flaw) => {
                PlayFault::Script(ScriptFault::Malformed(line, flaw))
            }
            ScriptRefusal::Memory => PlayFault::Memory,
        }
    }
}

impl PlayFault {
    /// The status with which the program ends.
    pub fn status(self) -> u8
        ensures { result ≡ status_of self }
    {
        match self {
            PlayFault::Cave(_, _) | PlayFault::Doubt(_) => 1,
            PlayFault::LargeKnown | PlayFault::Unshown(_) => 1,
            PlayFault::Seed | PlayFault::Every | PlayFault::Unmapped(_) => 2,
            PlayFault::Log(_) | PlayFault::NewLog(_) => 3,
            PlayFault::Script(_) | PlayFault::Refused(_) => 4,
            PlayFault::Read(_) => 5,
            PlayFault::Write | PlayFault::LargeLog | PlayFault::LargeScript => 6,
            PlayFault::Memory => 7,
        }
    }

    /// The input at fault, if one is.
    pub fn input(self) -> Option<Input>
        ensures { result ≡ input_of self }
    {
        match self {
            PlayFault::Cave(error, _) if error.site == FaultSite::Bindings => Some(Input::Bindings),
            PlayFault::Doubt(found) if found.source == Source::Bindings => Some(Input::Bindings),
            PlayFault::Cave(_, _) | PlayFault::Doubt(_) => Some(Input::Cave),
            PlayFault::Unmapped(_) => Some(Input::Cave),
            PlayFault::LargeKnown => Some(Input::Known),
            PlayFault::Log(_) => Some(Input::Log),
            PlayFault::NewLog(_) => Some(Input::NewLog),
            PlayFault::Script(_) | PlayFault::Refused(_) => Some(Input::Script),
            PlayFault::Read(input) => Some(input),
            PlayFault::Seed | PlayFault::Every | PlayFault::Write | PlayFault::Memory => None,
            PlayFault::LargeLog | PlayFault::LargeScript | PlayFault::Unshown(_) => None,
        }
    }

    /// The line at fault in that input, from 1, if one is.
    pub fn line(self) -> Option<usize>
        ensures { result ≡ faulty_line self }
    {
        match self {
            PlayFault::Cave(error, _) if error.line > 0 => Some(error.line),
            PlayFault::Doubt(found) => Some(found.line),
            PlayFault::Log(LogFault::BadLine(line, _)) => Some(line),
            PlayFault::NewLog(LogFault::BadLine(line, _)) => Some(line),
            PlayFault::Script(ScriptFault::Malformed(line, _)) => Some(line),
            PlayFault::Refused(refusal) => Some(refusal.line()),
            _ => None,
        }
    }
}
