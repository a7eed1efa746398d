//! What the operating system gives the program. No clause says what is in its files, or which calls
//! it gets.

ghost use Rattle.std.specs.Prelude.{None};

use crate::replaced::ReplacedFile;
use crate::seen::{SeenFile, Stamp};
use play_program::{Message, System, replace};
use std::fs::File;
use std::io::ErrorKind;
use std::{env, io};

/// The operating system, with the files that were opened.
#[derive(Drop)]
pub(crate) struct Host<'a> {
    rt: &'a HostRuntime,
    seen: Vec<SeenFile>,
}

impl<'a> Host<'a> {
    /// The operating system, before any file is opened.
    pub(crate) fn new(rt: &'a HostRuntime) -> Host<'a> {
        Host {
            rt,
            seen: Vec::new(rt.alloc()),
        }
    }
}

impl System for Host<'_> {
    type File = File;

    ghost bytes_of = { λ _ _. None };

    ghost calls = { λ _. None };

    ghost one_file = { λ _ _ _. None };

    fn is_one_file(&self, one: &str, other: &str) -> io::Result<bool> {
        match (Stamp::found(self.rt, one)?, Stamp::found(self.rt, other)?) {
            (Some(one), Some(other)) => Ok(one.is_of_file(other)),
            _ => Ok(false),
        }
    }

    /// A folder can be opened, but not read, so it is refused here. What was found of a file is
    /// kept, in case it is the one that is written.
    fn open(&mut self, file: &str) -> io::Result<File> {
        let opened = File::open(self.rt, file)?;
        let found = opened.metadata()?;
        if found.is_dir() {
            return Err(io::Error::from(ErrorKind::IsADirectory));
        }
        let name = String::from_str(self.rt.alloc(), file)?;
        let stamp = Stamp::of(&found);
        self.seen.push(SeenFile { name, stamp })?;
        Ok(opened)
    }

    fn put(&mut self, file: &str, bytes: &[u8]) -> io::Result<()> {
        let mut place = ReplacedFile::at(self.rt, file, self.seen.as_slice())?;
        replace(&mut place, bytes)
    }

    fn tell(&mut self, message: Message<'_>) {
        let _ = eprint!(self.rt; "{message}");
    }
}

/// The words of the command line.
pub(crate) fn words(rt: &HostRuntime) -> io::Result<Vec<String>> {
    let words = env::args(rt)?;
    Ok(words.collect::<Vec<String>>(rt.alloc())?)
}
