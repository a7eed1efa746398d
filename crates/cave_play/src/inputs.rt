//! Where a run has its inputs from, how one is read to its end within a limit, and the readers.

ghost use Rattle.std.specs.Prelude.{◌≡◌};
ghost use Rattle.play_command.specs.declared.line.Input.{Input};
ghost use Rattle.cave_play.specs.Stages.{too_large};
ghost use Rattle.cave_play.specs.Sources.{AreReadersOf, Held, IsOneLogOf, IsReading, IsTaken};
ghost use Rattle.cave_play.specs.Sources.{held_by, held_by_one, held_for};

use crate::fault::{LogFault, PlayFault, ScriptFault};
use base_lines::limits::MAX_INPUT_BYTES;
use data_rows::{Cause, CaveError, FaultSite};
use play_command::Input;
use std::alloc::Global;
use std::io::Read;

/// Where a run has its inputs from. A run asks for an input when the turn of that input comes to be
/// judged, and not again.
pub trait Sources {
    /// What it is known to have for the inputs that weren't asked for.
    ghost held: { Self → Held };

    /// What reading an input makes of it.
    ghost Reads: { Input → Self → Self → Type 0 };

    /// Reads an input whole: of several logs the next one, and nothing for one that isn't there.
    fn read(&mut self, alloc: Global, input: Input) -> Result<Vec<u8>, PlayFault>
        ensures read { IsReading (held_for input (held self.old)) input result }
        ensures taken { IsTaken input (held self.old) (held self.new) }
        ensures reads { Reads input self.old self.new };
}

/// How many bytes are requested at once: few, since they are filled before the first reading.
const PIECE_BYTES: usize = 2_048;

/// Reads all that a reader has. An input is refused as soon as it is over the limit.
pub fn read<R: Read>(alloc: Global, input: Input, reader: &mut R) -> Result<Vec<u8>, PlayFault>
    ensures { IsReading (R.remaining reader.old) input result }
{
    let mut room = vec![in alloc; 0; PIECE_BYTES]?;
    let piece = room.as_mut_slice();
    let mut text = Vec::new(alloc);
    'pieces: loop {
        let count = match reader.read(piece) {
            Ok(count) => count,
            Err(_) => return Err(PlayFault::Read(input)),
        };
        if count == 0 {
            return Ok(text);
        }
        if count > MAX_INPUT_BYTES - text.len() {
            return Err(too_large(input));
        }
        text.extend_from_slice(&piece[..count])?;
    }
}

/// The fault of an input that has too many bytes.
pub(crate) fn too_large(input: Input) -> PlayFault
    ensures { result ≡ too_large input }
{
    let site = match input {
        Input::Cave => FaultSite::Database,
        Input::Bindings => FaultSite::Bindings,
        Input::Log => return PlayFault::Log(LogFault::TooLarge),
        Input::NewLog => return PlayFault::NewLog(LogFault::TooLarge),
        Input::Script => return PlayFault::Script(ScriptFault::TooLarge),
        Input::Known => return PlayFault::LargeKnown,
    };
    let (cause, line) = (Cause::TooLarge, 0);
    PlayFault::Cave(CaveError { cause, line, site }, None)
}

/// The readers of a cave.
#[derive(Drop)]
pub struct CaveReaders<C, B> {
    pub database: C,
    pub bindings: B,
}

/// The readers of a run, in the order in which they are read. A run that doesn't need a log or a
/// script never asks its reader. What is read in the place of a script, such as a list of what is
/// known, is the script's reader's.
#[derive(Drop)]
pub struct Inputs<C, B, L, S> {
    pub cave: CaveReaders<C, B>,
    pub log: L,
    pub script: S,
}

/// The readers of a run over one log.
#[derive(Drop)]
pub(crate) struct OneLog<'r, C, B, L, S> {
    inputs: &'r mut Inputs<C, B, L, S>,
    /// Whether the log was read.
    is_read: bool,
}

impl<'r, C: Read, B: Read, L: Read, S: Read> OneLog<'r, C, B, L, S> {
    /// These readers, before anything is read.
    pub(crate) fn of(inputs: &'r mut Inputs<C, B, L, S>) -> OneLog<'r, C, B, L, S>
        ensures { IsOneLogOf inputs.old result }
    {
        let is_read = false;
        OneLog { inputs, is_read }
    }
}

impl<C: Read, B: Read, L: Read, S: Read> Sources for OneLog<'_, C, B, L, S> {
    ghost held = { held_by_one C.remaining B.remaining L.remaining S.remaining };

    ghost Reads = { λ _ _ _. Unit {0} };

    fn read(&mut self, alloc: Global, input: Input) -> Result<Vec<u8>, PlayFault> {
        match input {
            Input::Cave => read(alloc, input, &mut self.inputs.cave.database),
            Input::Bindings => read(alloc, input, &mut self.inputs.cave.bindings),
            Input::Log if self.is_read => Ok(Vec::new(alloc)),
            Input::Log => {
                self.is_read = true;
                read(alloc, input, &mut self.inputs.log)
            }
            Input::NewLog | Input::Script | Input::Known => {
                read(alloc, input, &mut self.inputs.script)
            }
        }
    }
}

/// The readers of a run over any number of logs, the first of which were read.
#[derive(Drop)]
pub struct Readers<'r, C, B, L, S> {
    cave: &'r mut CaveReaders<C, B>,
    logs: &'r mut [L],
    script: &'r mut S,
    read: usize,
}

impl<'r, C: Read, B: Read, L: Read, S: Read> Readers<'r, C, B, L, S> {
    /// These readers, before anything is read.
    pub fn of(
        cave: &'r mut CaveReaders<C, B>,
        logs: &'r mut [L],
        script: &'r mut S,
    ) -> Readers<'r, C, B, L, S>
        ensures { AreReadersOf cave.old logs.old script.old result }
    {
        Readers {
            cave,
            logs,
            script,
            read: 0,
        }
    }
}

impl<C: Read, B: Read, L: Read, S: Read> Sources for Readers<'_, C, B, L, S> {
    ghost held = { held_by C.remaining B.remaining L.remaining S.remaining };

    ghost Reads = { λ _ _ _. Unit {0} };

    fn read(&mut self, alloc: Global, input: Input) -> Result<Vec<u8>, PlayFault> {
        match input {
            Input::Cave => read(alloc, input, &mut self.cave.database),
            Input::Bindings => read(alloc, input, &mut self.cave.bindings),
            Input::Log => {
                let place = self.read;
                if place >= self.logs.len() {
                    return Ok(Vec::new(alloc));
                }
                self.read += 1;
                read(alloc, input, &mut self.logs[place])
            }
            Input::NewLog | Input::Script | Input::Known => read(alloc, input, self.script),
        }
    }
}
