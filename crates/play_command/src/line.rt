//! What the words of a command line ask for.

use crate::views::{CheckView, CoverView, EditView, PlayView, ReportView};
use clap::Error;
use replay_difference::script::ScriptForm;

/// What the words ask for.
#[derive(Debug, Drop)]
pub enum Line<'a> {
    Run(Request<'a>),
    /// Help or the version: the text to print.
    Text(Error),
}

/// What a run reads.
#[derive(Clone, Copy, Debug, PartialEq, Eq)]
pub enum Input {
    Cave,
    Bindings,
    Log,
    /// A log that edits are to make of another.
    NewLog,
    Script,
    /// The list of what is known.
    Known,
}

/// A file that a run reads.
#[derive(Clone, Copy, Debug, PartialEq, Eq)]
pub struct NamedFile<'a> {
    pub input: Input,
    pub name: &'a str,
}

/// A run that the words ask for.
#[derive(Debug, Drop)]
pub struct Request<'a> {
    /// The files that it reads, in the order in which they are opened.
    pub files: Vec<NamedFile<'a>>,
    /// The text of a script on the command line.
    pub typed: Option<String>,
    /// The file of the output, unless it goes to standard output.
    pub output: Option<&'a str>,
    /// Whether edits are to say nothing beside their output but why they failed. Only `edit` asks.
    pub quiet: bool,
    pub what: What,
}

/// What a command alone asks.
#[derive(Clone, Copy, Debug, PartialEq, Eq)]
pub enum What {
    Check(CheckView),
    /// What is doubtful about a cave, which fails if it is strict and something is left.
    Doubts {
        strict: bool,
    },
    Play {
        seed: u32,
        view: PlayView,
    },
    Edit(EditAsked),
    /// The script of edits that make one log of another.
    Script(ScriptForm),
    /// What logs show, which fails if it is strict and something is left.
    Cover {
        seed: u32,
        view: CoverView,
        strict: bool,
    },
    Map {
        seed: u32,
        part: MapPart,
    },
}

/// What an edit of a log asks.
#[derive(Clone, Copy, Debug, PartialEq, Eq)]
pub struct EditAsked {
    pub edits_from: EditsFrom,
    pub editing: Editing,
    /// The report on each item that goes to standard output, if one is asked for.
    pub report: Option<ReportView>,
    /// Whether each item of the script that is refused is a line on standard error.
    pub refusals: bool,
}

/// What the edits of a log are read from.
#[derive(Clone, Copy, Debug, PartialEq, Eq)]
pub enum EditsFrom {
    Script,
    /// The log that they make.
    NewLog,
}

/// How a log is edited.
#[derive(Clone, Copy, Debug, PartialEq, Eq)]
pub struct Editing {
    /// The seed of the random numbers.
    pub seed: u32,
    /// The most lines between two checkpoints.
    pub every: u32,
    /// What is printed.
    pub view: EditView,
    /// Whether nothing is printed if an edit is refused.
    pub strict: bool,
    /// Whether lines of the script may be guards.
    pub guarded: bool,
}

/// Which part of a cave a map draws.
#[derive(Clone, Copy, Debug, PartialEq, Eq)]
pub struct MapPart {
    /// Whether it draws only what the logs saw.
    pub seen: bool,
    /// The places that it draws, if it doesn't draw all.
    pub around: Option<Surroundings>,
}

/// The places around one.
#[derive(Clone, Copy, Debug, PartialEq, Eq)]
pub struct Surroundings {
    /// The one in the middle, by its number.
    pub place: u16,
    /// The most ways from it.
    pub ways: u16,
}
