//! The draft of a file: a file in the same folder, which one run at a time holds by a lock. The
//! lock ends with the run, however that ends. So a draft that no run holds was abandoned by a run
//! that was ended, and the next run removes it. A file of its name that is no draft stays.

ghost use Rattle.std.specs.Prelude.{◌≡◌, ◌==◌, ◌||◌, ◌++◌, IfOk, codes, string_bytes};

use crate::seen::{Stamp, unless_missing};
use std::alloc::{AllocError, Global};
use std::fs::{File, OpenOptions, Permissions, TryLockError};
use std::io::ErrorKind;
use std::os::unix::fs::{OpenOptionsExt, PermissionsExt};
use std::{fs, io};

/// The bits of a file's mode that say who may read, write and run it.
const ALL_PERMISSIONS: u32 = 0o777;

/// How often this run makes a draft again because another run takes it away first.
const MAX_TRIES: u32 = 100;

/// The permissions of a draft until it is whole: its owner may write it, and nobody may read it. No
/// file that somebody keeps has these.
const OWNER_WRITES: u32 = 0o200;

/// The name of a draft: that of the file, so that both are in one folder, with an ending.
pub(crate) fn draft_name(alloc: Global, path: &str) -> Result<String, AllocError>
    ensures { IfOk result (λ name. string_bytes name ≡ path.now ++ codes ".cave-draft") }
{
    format!(in alloc; "{path}.cave-draft")
}

/// Whether a file with this length and these permissions may be removed as an abandoned draft: it
/// has no bytes, or is one that only its owner may write, and nobody may read.
fn is_draft(length: u64, permissions: u32) -> bool
    ensures { result ≡ (length == 0 || permissions == 0o200) }
{
    length == 0 || permissions == OWNER_WRITES
}

/// Why a file can't be written if a file that is no draft has the name of its draft.
fn taken() -> io::Error {
    io::Error::other("its draft has the name of another file: move that file")
}

/// Why a file can't be written if another run holds its draft.
fn busy() -> io::Error {
    io::Error::other("another run is writing it: try again once it has ended")
}

/// Whether an open file is the one that has this name.
fn is_named(rt: &HostRuntime, file: &File, path: &str) -> io::Result<bool> {
    let opened = Stamp::of(&file.metadata()?);
    let named = unless_missing(fs::symlink_metadata(rt, path))?;
    Ok(named.is_some_and(|named| Stamp::of(&named).is_of_file(opened)))
}

/// Makes a draft, unless a file has its name.
fn create(rt: &HostRuntime, path: &str, replaces: bool) -> io::Result<Option<File>> {
    let mut options = OpenOptions::new();
    options.write(true).create_new(true);
    if replaces {
        options.mode(OWNER_WRITES);
    }
    match options.open(rt, path) {
        Ok(file) => Ok(Some(file)),
        Err(reason) if reason.kind() == ErrorKind::AlreadyExists => Ok(None),
        Err(reason) => Err(reason),
    }
}

/// Locks a draft that this run has made, and says whether it is still the one with that name:
/// another run may have taken it for an abandoned one. If the file system has no locks, no run does
/// so.
fn hold(rt: &HostRuntime, file: &File, path: &str) -> io::Result<bool> {
    match file.try_lock() {
        Ok(()) => is_named(rt, file, path),
        Err(TryLockError::WouldBlock) => Err(busy()),
        Err(TryLockError::Error(_)) => Ok(true),
    }
}

/// Opens an abandoned draft: to write, as locks of some file systems need, or otherwise to read.
fn open_left(rt: &HostRuntime, path: &str) -> io::Result<File> {
    match OpenOptions::new().write(true).open(rt, path) {
        Err(reason) if reason.kind() == ErrorKind::PermissionDenied => File::open(rt, path),
        opened => opened,
    }
}

/// Removes an abandoned draft while it is locked, so that no run loses one that it holds.
fn remove_locked(rt: &HostRuntime, file: &File, path: &str) -> io::Result<()> {
    match file.try_lock() {
        Ok(()) => {}
        Err(TryLockError::WouldBlock) => return Err(busy()),
        Err(TryLockError::Error(_)) => {
            return Err(io::Error::other(
                "its draft is there, and can't be locked: remove it if no other run is writing \
                 the file",
            ));
        }
    }
    if !is_named(rt, file, path)? {
        return Ok(());
    }
    let found = file.metadata()?;
    if !is_draft(found.len(), found.permissions().mode() & ALL_PERMISSIONS) {
        return Err(taken());
    }
    fs::remove_file(rt, path)
}

/// Removes an abandoned draft, if it is still there.
fn remove_left(rt: &HostRuntime, path: &str) -> io::Result<()> {
    match unless_missing(fs::symlink_metadata(rt, path))? {
        Some(found) if !found.is_file() => return Err(taken()),
        Some(_) => {}
        None => return Ok(()),
    }
    match unless_missing(open_left(rt, path))? {
        Some(file) => remove_locked(rt, &file, path),
        None => Ok(()),
    }
}

/// Makes a draft that this run holds and, where the file system has permissions, nobody may read.
/// Also returns those with which it was made: those of a new file, unless it replaces one.
pub(crate) fn make_draft(
    rt: &HostRuntime,
    path: &str,
    replaces: bool,
) -> io::Result<(File, Permissions)> {
    for _ in 0..MAX_TRIES {
        let Some(file) = create(rt, path, replaces)? else {
            remove_left(rt, path)?;
            continue;
        };
        if hold(rt, &file, path)? {
            let usual = file.metadata()?.permissions();
            let _ = file.set_permissions(Permissions::from_mode(OWNER_WRITES));
            return Ok((file, usual));
        }
    }
    Err(busy())
}
