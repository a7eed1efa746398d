//! Why a command line asks for no run.

ghost use Rattle.std.specs.Prelude.{◌≡◌};
ghost use Rattle.play_command.specs.Line.{misuse_text, status_of_command};
ghost use Rattle.play_command.specs.declared.fault.CommandFault.TheVariants.{Memory};

use crate::found::NumberOption;
use clap::Error as ParseError;
use std::alloc::AllocError;
use std::error::Error;
use std::fmt;

/// Where the texts of faults end.
const HELP: &str = "\n\nFor more information, try '--help'.\n";

/// What is wrong with the arguments of a command.
#[derive(Clone, Copy, Debug, PartialEq, Eq)]
pub enum Misuse {
    /// No command, not all of its files, or no view is named, and the parser let that pass.
    Incomplete,
    /// What is given for this option isn't a number in its range.
    BadNumber(NumberOption),
    /// An edit has neither a script nor a log to make.
    NoScript,
    /// An edit has two of the three.
    TwoScripts,
    /// A report is asked for, and the output goes where it would.
    ReportAlone,
    /// An edit in place is given another file or another view.
    TwoOutputs,
    /// Doubts are to be judged or left out, and something else is to be printed.
    DoubtsAlone,
    /// What is never shown is to be judged or left out, and all of it is to be listed.
    ListAlone,
    /// A number of ways is given, and no place from which they are counted.
    WithinAlone,
    /// Only what logs saw is to be drawn, and there are no logs.
    SeenAlone,
    /// A seed is given, and there are no logs that are played by it.
    SeedAlone,
}

impl Misuse {
    /// What is said of it; of a number after what was given for it.
    #[tactic(auto, unfolding(crate::specs::Line::misuse_text))]
    fn text(self) -> &'static str
        ensures { result.now ≡ misuse_text self }
    {
        match self {
            Misuse::Incomplete => "a command and its files are required",
            Misuse::BadNumber(option) => match option {
                NumberOption::Seed =>
                    "' for '--seed <N>': expected 1 to 10 digits, from 0 to 2147483647",
                NumberOption::Every =>
                    "' for '--every <K>': expected 1 to 10 digits, from 1 to 10000",
                NumberOption::From =>
                    "' for '--from <PLACE>': expected 1 to 10 digits, from 1 to 300",
                NumberOption::Within =>
                    "' for '--within <N>': expected 1 to 10 digits, from 0 to 300",
            },
            Misuse::NoScript => "SCRIPT, '--edit <EDIT>' or '--to <FILE>' is required",
            Misuse::TwoScripts =>
                "only one of SCRIPT, '--edit <EDIT>' and '--to <FILE>' can be used",
            Misuse::ReportAlone => "'--report <WHAT>' is for '--output <FILE>' or '--in-place': \
                without these, '--print <WHAT>' prints reports",
            Misuse::TwoOutputs =>
                "'--in-place' can be used neither with '--output <FILE>' nor with \
                '--print <WHAT>': it is short for '--print log --output LOG'",
            Misuse::DoubtsAlone => "'--strict' and '--known <FILE>' are for '--print doubts'",
            Misuse::ListAlone => "'--strict' and '--known <FILE>' are not for '--print known'",
            Misuse::WithinAlone => "'--within <N>' is for '--from <PLACE>'",
            Misuse::SeenAlone => "'--seen' needs a LOG",
            Misuse::SeedAlone => "'--seed <N>' needs a LOG",
        }
    }
}

/// Why a command line asks for no run. Its text is whole lines, for standard error.
#[derive(Debug, Drop)]
pub enum CommandFault<'a> {
    /// The parser refused the words.
    Usage(ParseError),
    /// The word isn't a command, and is what people type for this one, or near to that.
    OtherName(&'a str, &'static str),
    /// The arguments are misused. The text is what was given for the option, if it is one of a
    /// number.
    Misuse(Misuse, &'a str),
    Memory,
}

impl CommandFault<'_> {
    /// The status with which the program ends.
    pub fn status(&self) -> u8
        ensures { result ≡ status_of_command self.now }
    {
        match self {
            CommandFault::Memory => 7,
            _ => 2,
        }
    }
}

impl From<AllocError> for CommandFault<'_> {
    ghost from_gives = { λ _ fault. fault ≡ Memory };

    fn from(_: AllocError) -> Self {
        CommandFault::Memory
    }
}

impl fmt::Display for CommandFault<'_> {
    ghost use Rattle.play_command.specs.Line.{refusal_text};

    ghost output = { refusal_text };

    fn fmt<W: fmt::Write>(&self, f: &mut fmt::Formatter<W>) -> fmt::Result {
        match self {
            CommandFault::Usage(error) => write!(f, "{error}"),
            CommandFault::OtherName(word, command) => write!(
                f,
                "error: unrecognized subcommand '{word}'\n\n  tip: did you mean '{command}'?\n\n\
                Usage: cave <COMMAND>{HELP}"
            ),
            CommandFault::Misuse(misuse, given) => match *misuse {
                Misuse::BadNumber(_) => {
                    write!(f, "error: invalid value '{given}{}{HELP}", misuse.text())
                }
                _ => write!(f, "error: {}{HELP}", misuse.text()),
            },
            CommandFault::Memory => writeln!(f, "cave: there isn't enough memory"),
        }
    }
}

impl Error for CommandFault<'_> {}
