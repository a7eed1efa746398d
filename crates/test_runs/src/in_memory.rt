//! A system in memory, of which a contract can name the bytes of its files and the calls that it
//! gets.

ghost use Rattle.std.specs.Prelude.{◌≡◌, Some, bytes_eq, option_map};
ghost use Rattle.test_runs.specs.Memory.{bytes_at, calls_by, file_named};

use crate::calls::{KeptCall, KeptMessage, MemoryFile};
use play_program::{Message, System, Target, replace};
use std::alloc::Global;
use std::io;
use std::io::{Cursor, ErrorKind};
use std::process::Abort;

/// A file in memory.
#[derive(Drop)]
pub struct MemoryTarget {
    pub bytes: Vec<u8>,
    pub alloc: Global,
}

impl Target for MemoryTarget {
    type Draft = Vec<u8>;

    ghost shown = { λ target. Some target.bytes.items };

    fn begin(&mut self) -> io::Result<Vec<u8>> {
        Ok(Vec::new(self.alloc))
    }

    fn publish(&mut self, draft: Vec<u8>) -> io::Result<()> {
        self.bytes = draft;
        Ok(())
    }

    fn discard(&mut self, draft: Vec<u8>) {
        drop(draft);
    }
}

/// A system of three files, of which the log can be replaced. It ends the test if it has no memory
/// to keep a call.
#[derive(Drop)]
pub struct MemorySystem<'a, R: Abort> {
    pub rt: &'a R,
    pub alloc: Global,
    pub cave: Vec<u8>,
    pub log: MemoryTarget,
    pub script: Vec<u8>,
    pub kept: Vec<KeptCall>,
}

impl<R: Abort> MemorySystem<'_, R> {
    /// The bytes of a file, if there is one.
    fn bytes_at(&self, file: Option<MemoryFile>) -> Option<&[u8]>
        ensures { option_map (λ bytes. bytes.now) result
            ≡ bytes_at self.now.cave.items self.now.log.bytes.items self.now.script.items file }
    {
        match file? {
            MemoryFile::Cave => Some(&self.cave),
            MemoryFile::Log => Some(&self.log.bytes),
            MemoryFile::Script => Some(&self.script),
        }
    }
}

impl<R: Abort> System for MemorySystem<'_, R> {
    type File = Cursor<Vec<u8>>;

    ghost bytes_of = { λ system name. bytes_at system.cave.items system.log.bytes.items
        system.script.items (file_named name) };

    ghost calls = { λ system. Some (calls_by system.kept.items) };

    ghost one_file = { λ _ one other. Some (bytes_eq one other) };

    fn is_one_file(&self, one: &str, other: &str) -> io::Result<bool> {
        Ok(one == other)
    }

    fn open(&mut self, file: &str) -> io::Result<Cursor<Vec<u8>>> {
        let name = String::from_str(self.alloc, file).expect(self.rt, "memory for a call");
        self.kept
            .push(KeptCall::Opens(name))
            .expect(self.rt, "memory for a call");
        let Some(bytes) = self.bytes_at(MemoryFile::named(file)) else {
            return Err(io::Error::from(ErrorKind::NotFound));
        };
        let bytes = Vec::from_slice(self.alloc, bytes)?;
        Ok(Cursor::new(bytes))
    }

    fn put(&mut self, file: &str, bytes: &[u8]) -> io::Result<()> {
        let name = String::from_str(self.alloc, file).expect(self.rt, "memory for a call");
        let copy = Vec::from_slice(self.alloc, bytes).expect(self.rt, "memory for a call");
        let put = match MemoryFile::named(file) {
            Some(MemoryFile::Log) => replace(&mut self.log, bytes),
            _ => Err(io::Error::from(ErrorKind::PermissionDenied)),
        };
        self.kept
            .push(KeptCall::Puts(name, copy, put.err()))
            .expect(self.rt, "memory for a call");
        put
    }

    fn tell(&mut self, message: Message<'_>) {
        let kept = KeptMessage::told_by(self.alloc, &message).expect(self.rt, "memory for a call");
        self.kept
            .push(KeptCall::Tells(kept))
            .expect(self.rt, "memory for a call");
    }
}
