//! The files of a run as its inputs: they are opened before it, or, if they are several logs, one
//! after another as their turn comes.

ghost use Rattle.std.specs.Prelude.{◌≡◌, ◌⊎◌, ℕ, List, [], ◌∷◌, Option, IfErr, IfOk, Some, map};
ghost use Rattle.std.specs.Prelude.{option_map, is_some, true};
ghost use Rattle.std.specs.List.{position};
ghost use Rattle.std.specs.Option.{option_map_or};
ghost use Rattle.cave_play.specs.Sources.{IsReading};
ghost use Rattle.play_command.specs.Asked.{named_file};
ghost use Rattle.play_program.specs.Calls.{and_then, told_by};
ghost use Rattle.play_program.specs.Files.{files_in, is_same_input};
ghost use Rattle.play_program.specs.Head.{head_notice};
ghost use Rattle.play_program.specs.Sources.{opening_unless, telling_if, AsksFor};
ghost use Rattle.play_program.specs.Sources.{IsTakenFrom, Opened, ReadsOne, entries_by, entry_of};
ghost use Rattle.play_program.specs.Sources.{held_in, is_first, missing_text, typed_text};
ghost use Rattle.play_program.specs.Sources.{waiting_entry};

use crate::head::head_notice;
use crate::message::Message;
use crate::system::System;
use cave_play::PlayFault;
use cave_play::inputs::{Sources, read};
use play_command::{Input, NamedFile, Request, What};
use std::alloc::Global;
use std::io;
use std::io::{ErrorKind, Read};

/// A file that is still to be read.
#[derive(Drop)]
pub(crate) struct WaitingFile<'a, F> {
    input: Input,
    name: &'a str,
    /// It, if it was opened before the run.
    file: Option<F>,
}

/// The files of a run.
#[derive(Drop)]
pub(crate) struct Files<'v, 'a, S, F> {
    system: &'v mut S,
    request: &'v Request<'a>,
    waiting: &'v mut Vec<WaitingFile<'a, F>>,
    /// Why the last of several logs couldn't be opened, if it couldn't be.
    unopened: &'v mut Option<io::Error>,
}

/// Whether a file of an input is opened before the run: it is, unless it is one of several logs.
fn is_first(what: What, input: Input) -> bool
    ensures { result ≡ is_first what input }
{
    match (what, input) {
        (What::Cover { .. } | What::Map { .. }, Input::Log) => false,
        _ => true,
    }
}

/// Opens a file, if it is one that is opened before the run.
fn wait_for<'a, S: System>(
    system: &mut S,
    what: What,
    file: &NamedFile<'a>,
) -> Result<WaitingFile<'a, S::File>, Message<'a>>
    ensures opened { Opened what (named_file file.now ∷ []) (S.calls system.old)
        (S.calls system.new) (told_by result) }
    ensures reads { IfOk result (λ waiting. waiting_entry (S.bytes_of system.old)
        S.File.remaining waiting ≡ entry_of what (S.bytes_of system.old) (named_file file.now)) }
    ensures kept { S.bytes_of system.new ≡ S.bytes_of system.old }
{
    let NamedFile { input, name } = *file;
    if !is_first(what, input) {
        let file = None;
        return Ok(WaitingFile { input, name, file });
    }
    match system.open(name) {
        Ok(opened) => {
            let file = Some(opened);
            Ok(WaitingFile { input, name, file })
        }
        Err(reason) if reason.kind() == ErrorKind::OutOfMemory => Err(Message::memory()),
        Err(reason) => Err(Message::Unopened(name, reason)),
    }
}

/// Opens the files that are opened before a run, one after another, and stops at one that can't be
/// opened.
pub(crate) fn open_first<'a, S: System>(
    alloc: Global,
    system: &mut S,
    request: &Request<'a>,
) -> Result<Vec<WaitingFile<'a, S::File>>, Message<'a>>
    ensures opened { Opened request.now.what (files_in request.now) (S.calls system.old)
        (S.calls system.new) (told_by result) }
    ensures reads { IfOk result (λ waiting.
        map (waiting_entry (S.bytes_of system.old) S.File.remaining) waiting.items
        ≡ entries_by (S.bytes_of system.old) request.now) }
    ensures kept { S.bytes_of system.new ≡ S.bytes_of system.old }
{
    let mut waiting = Vec::new(alloc);
    for file in &request.files {
        let next = wait_for(system, request.what, file)?;
        match waiting.push(next) {
            Ok(()) => {}
            Err(_) => return Err(Message::memory()),
        }
    }
    Ok(waiting)
}

/// The place of the first file of an input among those that wait.
fn place_of<F>(waiting: &[WaitingFile<'_, F>], input: Input) -> Option<usize>
    ensures { result ≡ position (λ file. is_same_input file.input input) waiting.now }
{
    waiting.iter().position(|file| file.input == input)
}

/// Takes the first file of an input out of those that wait.
fn take<'a, F: Read>(
    waiting: &mut Vec<WaitingFile<'a, F>>,
    input: Input,
) -> Option<WaitingFile<'a, F>>
    ensures { (bytes_of : List ℕ → Option (List ℕ)) →
        IsTakenFrom input (map (waiting_entry bytes_of F.remaining) waiting.old.items)
        (map (waiting_entry bytes_of F.remaining) waiting.new.items)
        (option_map (waiting_entry bytes_of F.remaining) result) }
{
    let place = place_of(waiting, input)?;
    Some(waiting.remove(place))
}

/// A file that waits, which is opened now if it isn't open, with the system's reason if it can't be.
fn open_now<S: System>(
    system: &mut S,
    input: Input,
    name: &str,
    file: Option<S::File>,
    unopened: &mut Option<io::Error>,
) -> Result<S::File, PlayFault>
    ensures file { IfOk result (λ opened. S.File.remaining opened
        ≡ option_map_or S.File.remaining file (S.bytes_of system.old name.now)) }
    ensures failed { IfErr result (λ found.
        (found ≡ PlayFault.Memory) ⊎ (found ≡ PlayFault.Read input)) }
    ensures call { S.calls system.new
        ≡ and_then (S.calls system.old) (opening_unless (is_some file) name.now) }
    ensures kept { S.bytes_of system.new ≡ S.bytes_of system.old }
{
    if let Some(file) = file {
        return Ok(file);
    }
    match system.open(name) {
        Ok(file) => Ok(file),
        Err(reason) if reason.kind() == ErrorKind::OutOfMemory => Err(PlayFault::Memory),
        Err(reason) => {
            *unopened = Some(reason);
            Err(PlayFault::Read(input))
        }
    }
}

/// Reports what the head of a file says differently from the request, if it is a log and does.
fn tell_head<S: System>(
    system: &mut S,
    request: &Request<'_>,
    input: Input,
    name: &str,
    text: &[u8],
)
    ensures call { S.calls system.new ≡ and_then (S.calls system.old)
        (telling_if true request.now (input, name.now) text.now) }
    ensures kept { S.bytes_of system.new ≡ S.bytes_of system.old }
{
    if !matches!(input, Input::Log | Input::NewLog) {
        return;
    }
    if let Some(said) = head_notice(request, text) {
        system.tell(Message::Head(name, said));
    }
}

/// Reads a file, which is opened for that if it isn't open, and reports what its head says
/// differently from the request, if it is a log.
fn read_file<S: System>(
    alloc: Global,
    system: &mut S,
    request: &Request<'_>,
    unopened: &mut Option<io::Error>,
    waiting: WaitingFile<'_, S::File>,
) -> Result<Vec<u8>, PlayFault>
    ensures read { IsReading
        (waiting_entry (S.bytes_of system.old) S.File.remaining waiting.entry).known
        waiting.entry.input result }
    ensures asks { AsksFor request.now
        (Some (waiting_entry (S.bytes_of system.old) S.File.remaining waiting.entry))
        (S.calls system.old) (S.calls system.new) }
    ensures kept { S.bytes_of system.new ≡ S.bytes_of system.old }
{
    let WaitingFile { input, name, file } = waiting;
    let mut file = open_now(system, input, name, file, unopened)?;
    let text = read(alloc, input, &mut file)?;
    tell_head(system, request, input, name, &text);
    Ok(text)
}

/// Reads an input that has no file: the lines of a script may be on the command line.
fn read_missing(alloc: Global, request: &Request<'_>, input: Input) -> Result<Vec<u8>, PlayFault>
    ensures { IsReading (Some (missing_text (typed_text request.now) input)) input result }
{
    match (input, &request.typed) {
        (Input::Script, Some(text)) => read(alloc, input, &mut text.as_bytes()),
        _ => Ok(Vec::new(alloc)),
    }
}

impl<'v, 'a, S: System> Files<'v, 'a, S, S::File> {
    /// The files of a request, which wait.
    pub(crate) fn of(
        system: &'v mut S,
        request: &'v Request<'a>,
        waiting: &'v mut Vec<WaitingFile<'a, S::File>>,
        unopened: &'v mut Option<io::Error>,
    ) -> Files<'v, 'a, S, S::File>
        ensures reference { result.system.ghost_name ≡ system.entry.ghost_name }
        ensures system { result.system.now ≡ system.old }
        ensures request { result.request.now ≡ request.now }
        ensures waiting { result.waiting.now ≡ waiting.old }
    {
        Files {
            system,
            request,
            waiting,
            unopened,
        }
    }
}

impl<S: System> Sources for Files<'_, '_, S, S::File> {
    ghost held = { held_in S.bytes_of S.File.remaining };

    ghost Reads = { ReadsOne S.calls S.bytes_of S.File.remaining };

    fn read(&mut self, alloc: Global, input: Input) -> Result<Vec<u8>, PlayFault> {
        match take(self.waiting, input) {
            Some(file) => read_file(alloc, self.system, self.request, self.unopened, file),
            None => read_missing(alloc, self.request, input),
        }
    }
}
