//! The files of a system in memory, and the calls that it keeps.

ghost use Rattle.std.specs.Prelude.{◌≡◌, IfOk, option_map, string_bytes};
ghost use Rattle.play_program.specs.Calls.{told_of};
ghost use Rattle.test_runs.specs.Memory.{file_named, told_by};

use cave_play::PlayFault;
use play_program::Message;
use std::alloc::{AllocError, Global};
use std::io;

/// What a message said, with names of its own.
#[derive(Drop)]
pub enum KeptMessage {
    Fault(PlayFault, Option<String>),
    Unopened(String, io::Error),
    Unwritten(String, io::Error),
    Unprinted(io::Error),
    Usage(String, String),
    Unread(io::Error),
    Head(String, &'static str, Vec<u8>),
    Clash(String, Option<String>),
    Reseeded(u32),
}

/// A call of a system.
#[derive(Drop)]
pub enum KeptCall {
    Opens(String),
    /// Bytes for a file, and the reason, if they couldn't be put there.
    Puts(String, Vec<u8>, Option<io::Error>),
    Tells(KeptMessage),
}

/// A file of a system in memory.
#[derive(Clone, Copy)]
pub enum MemoryFile {
    Cave,
    Log,
    Script,
}

impl MemoryFile {
    /// The file of a name, if there is one.
    pub fn named(name: &str) -> Option<MemoryFile>
        ensures { result ≡ file_named name.now }
    {
        match name {
            "cave" => Some(MemoryFile::Cave),
            "log" => Some(MemoryFile::Log),
            "script" => Some(MemoryFile::Script),
            _ => None,
        }
    }
}

/// A copy of a name, if there is one.
fn copy_name(alloc: Global, name: Option<&str>) -> Result<Option<String>, AllocError>
    ensures { IfOk result (λ copied. option_map string_bytes copied
        ≡ option_map (λ name. name.now) name.entry) }
{
    match name {
        Some(name) => Ok(Some(String::from_str(alloc, name)?)),
        None => Ok(None),
    }
}

impl KeptMessage {
    /// What a message says.
    pub fn told_by(alloc: Global, message: &Message<'_>) -> Result<KeptMessage, AllocError>
        ensures { IfOk result (λ kept. told_by kept ≡ told_of message.now) }
    {
        match message {
            Message::Fault(fault, file) => {
                Ok(KeptMessage::Fault(*fault, copy_name(alloc, *file)?))
            }
            Message::Unopened(file, reason) => {
                Ok(KeptMessage::Unopened(String::from_str(alloc, *file)?, *reason))
            }
            Message::Unwritten(file, reason) => {
                Ok(KeptMessage::Unwritten(String::from_str(alloc, *file)?, *reason))
            }
            Message::Unprinted(reason) => Ok(KeptMessage::Unprinted(*reason)),
            Message::Usage(before, after) => {
                let before = String::from_str(alloc, *before)?;
                let after = String::from_str(alloc, *after)?;
                Ok(KeptMessage::Usage(before, after))
            }
            Message::Unread(reason) => Ok(KeptMessage::Unread(*reason)),
            Message::Head(log, said) => {
                let log = String::from_str(alloc, *log)?;
                Ok(KeptMessage::Head(log, said.option, Vec::from_slice(alloc, said.text)?))
            }
            Message::Clash(file, view) => {
                let file = String::from_str(alloc, *file)?;
                Ok(KeptMessage::Clash(file, copy_name(alloc, *view)?))
            }
            Message::Reseeded(seed) => Ok(KeptMessage::Reseeded(*seed)),
        }
    }
}
