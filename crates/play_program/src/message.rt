//! What the program says apart from its output, and the status with which it ends if that is why.

ghost use Rattle.std.specs.Prelude.{◌≡◌};
ghost use Rattle.play_program.specs.Calls.{is_silent, out_of_memory, status_told, told_of};
ghost use Rattle.play_program.specs.Files.{fault_told};

use crate::files::file_of;
use crate::head::HeadSaid;
use cave_play::PlayFault;
use play_command::Request;
use std::io::ErrorKind;
use std::{fmt, io, str};

/// What the program says apart from its output, in whole lines.
#[derive(Drop)]
pub enum Message<'a> {
    /// A fault of a run, with the file that it is about, if it is about one.
    Fault(PlayFault, Option<&'a str>),
    /// The file can't be opened, for this reason.
    Unopened(&'a str, io::Error),
    /// The file of the output can't be written, for this reason.
    Unwritten(&'a str, io::Error),
    /// The output can't be written, for this reason.
    Unprinted(io::Error),
    /// What is wrong with the words, in two parts.
    Usage(&'a str, &'a str),
    /// The words can't be read, for this reason.
    Unread(io::Error),
    /// The head of this log says this, and the words don't.
    Head(&'a str, HeadSaid<'a>),
    /// The output may not go over this file, which the run reads, unless it is that of this view.
    Clash(&'a str, Option<&'a str>),
    /// Edits set this seed, and the log that they make doesn't hold it.
    Reseeded(u32),
}

impl<'a> Message<'a> {
    /// Memory ran out.
    pub(crate) fn memory() -> Message<'a>
        ensures { told_of result ≡ out_of_memory }
    {
        Message::Fault(PlayFault::Memory, None)
    }

    /// The fault of the run of a request, with the file that it is about, of several logs the one at
    /// this place, from 0.
    pub(crate) fn of_fault(
        request: &Request<'a>,
        fault: PlayFault,
        log: Option<usize>,
    ) -> Message<'a>
        ensures { told_of result ≡ fault_told request.now fault log }
    {
        let file = match fault.input() {
            Some(input) => file_of(request, input, log.unwrap_or(0)),
            None => None,
        };
        Message::Fault(fault, file)
    }

    /// The status of the program that ends with it.
    pub fn status(&self) -> u8
        ensures { result ≡ status_told (told_of self.now) }
    {
        match self {
            Message::Fault(fault, _) => fault.status(),
            Message::Unopened(_, _) => 5,
            Message::Unwritten(_, _) | Message::Unprinted(_) => 6,
            Message::Usage(_, _) | Message::Unread(_) | Message::Clash(_, _) => 2,
            Message::Head(_, _) | Message::Reseeded(_) => 0,
        }
    }

    /// Whether the program says nothing about it: nobody reads any more what is written.
    pub fn is_silent(&self) -> bool
        ensures { result ≡ is_silent (told_of self.now) }
    {
        match self {
            Message::Unprinted(reason) => reason.kind() == ErrorKind::BrokenPipe,
            _ => false,
        }
    }
}

impl fmt::Display for Message<'_> {
    fn fmt<W: fmt::Write>(&self, f: &mut fmt::Formatter<W>) -> fmt::Result {
        match self {
            Message::Fault(fault, Some(file)) => match fault.line() {
                Some(line) => writeln!(f, "cave: {file}:{line}: {fault}"),
                None => writeln!(f, "cave: {file}: {fault}"),
            },
            Message::Fault(fault, None) => writeln!(f, "cave: {fault}"),
            Message::Unopened(file, reason) => {
                writeln!(f, "cave: {file}: the file can't be opened: {reason}")
            }
            Message::Unwritten(file, reason) => {
                writeln!(f, "cave: {file}: {}: {reason}", PlayFault::Write)
            }
            Message::Unprinted(reason) => writeln!(f, "cave: {}: {reason}", PlayFault::Write),
            Message::Usage(before, after) => write!(f, "{before}{after}"),
            Message::Unread(reason) => {
                writeln!(f, "cave: the command line can't be read: {reason}")
            }
            Message::Head(log, HeadSaid { option, text }) => {
                // A head has only ASCII, so this never fails.
                let text = str::from_utf8(text).unwrap_or("");
                writeln!(f, "cave: {log}:1: the log's head says {option}{text}")
            }
            Message::Clash(file, Some(view)) => writeln!(
                f,
                "cave: {file}: the output would replace this file, which is read: \
                only that of --print {view} may: ask for it, or write into another file"
            ),
            Message::Clash(file, None) => writeln!(
                f,
                "cave: {file}: the output would replace this file, which is read: \
                write into another file"
            ),
            Message::Reseeded(seed) => writeln!(
                f,
                "cave: the edits set the seed {seed}, and a log holds none: \
                play this one with --seed {seed}"
            ),
        }
    }
}
