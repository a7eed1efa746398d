//! What was seen of a file when it was opened, so that a change since then shows.

use std::fs::Metadata;
use std::io::ErrorKind;
use std::os::unix::fs::MetadataExt;
use std::{fs, io};

/// What was found of a file, unless there is none.
pub(crate) fn unless_missing<T>(found: io::Result<T>) -> io::Result<Option<T>> {
    match found {
        Ok(found) => Ok(Some(found)),
        Err(reason) if reason.kind() == ErrorKind::NotFound => Ok(None),
        Err(reason) => Err(reason),
    }
}

/// Which file it was, how long it was, and when its content and it were last changed: seconds, and
/// nanoseconds beside them.
#[derive(Clone, Copy, PartialEq, Eq)]
pub(crate) struct Stamp {
    device: u64,
    node: u64,
    length: u64,
    modified: (i64, i64),
    changed: (i64, i64),
}

impl Stamp {
    /// The stamp of a file with these properties.
    pub(crate) fn of(found: &Metadata) -> Stamp {
        Stamp {
            device: found.dev(),
            node: found.ino(),
            length: found.len(),
            modified: (found.mtime(), found.mtime_nsec()),
            changed: (found.ctime(), found.ctime_nsec()),
        }
    }

    /// Whether both are of one file, which may have changed between them.
    pub(crate) fn is_of_file(self, other: Stamp) -> bool {
        self.device == other.device && self.node == other.node
    }

    /// The stamp of the file of a name, if there is one that can be looked at. A link is followed.
    pub(crate) fn found(rt: &HostRuntime, name: &str) -> io::Result<Option<Stamp>> {
        match fs::metadata(rt, name) {
            Ok(found) => Ok(Some(Stamp::of(&found))),
            Err(reason) if reason.kind() == ErrorKind::OutOfMemory => Err(reason),
            Err(_) => Ok(None),
        }
    }
}

/// A file that was opened.
#[derive(Drop)]
pub(crate) struct SeenFile {
    /// Its name, as it was given.
    pub(crate) name: String,
    pub(crate) stamp: Stamp,
}
