//! A file of the system, which a draft in the same folder replaces.

ghost use Rattle.std.specs.Prelude.{None};

use crate::draft::{draft_name, make_draft};
use crate::seen::{SeenFile, Stamp, unless_missing};
use play_program::Target;
use std::fs::{File, Metadata, Permissions};
use std::io::ErrorKind;
use std::path::Path;
use std::{fs, io};

/// A file of the system.
#[derive(Drop)]
pub(crate) struct ReplacedFile<'a> {
    rt: &'a HostRuntime,
    path: String,
    /// The path of its draft.
    draft: String,
    /// The permissions of the file, or, if it doesn't exist yet, those that it gets, once its draft
    /// is made.
    permissions: Option<Permissions>,
    /// What this run saw of the file, if it has read it.
    read: Option<Stamp>,
}

/// Whether a name leads to the file of a path.
fn leads_to(rt: &HostRuntime, name: &str, path: &str) -> io::Result<bool> {
    match fs::canonicalize(rt, name) {
        Ok(real) => Ok(real.as_str() == path),
        Err(reason) if reason.kind() == ErrorKind::OutOfMemory => Err(reason),
        Err(_) => Ok(false),
    }
}

/// What was seen of the file of a path and a name, if it was opened by this name, or by another one
/// that leads to it.
fn stamp_of(
    rt: &HostRuntime,
    seen: &[SeenFile],
    path: &str,
    name: &str,
) -> io::Result<Option<Stamp>> {
    for file in seen {
        let known = file.name.as_str();
        if known == name || leads_to(rt, known, path)? {
            return Ok(Some(file.stamp));
        }
    }
    Ok(None)
}

/// The folder of a path.
fn folder_of(path: &str) -> &str {
    match Path::new(path).parent() {
        Some(folder) if !folder.as_str().is_empty() => folder.as_str(),
        _ => ".",
    }
}

/// The names by which the system knows where the program prints to, and why no output goes there.
const STREAMS: [(&str, &str); 2] = [
    (
        "/dev/stdout",
        "it is where standard output goes: leave --output out",
    ),
    (
        "/dev/stderr",
        "it is where standard error goes: write into another file",
    ),
];

/// Why a file can't be replaced, if the program prints to it, since it would lose what is in it.
fn why_printed_to(rt: &HostRuntime, found: &Metadata) -> io::Result<Option<&'static str>> {
    for (stream, why) in &STREAMS {
        let printed = Stamp::found(rt, stream)?;
        if printed.is_some_and(|printed| printed.is_of_file(Stamp::of(found))) {
            return Ok(Some(*why));
        }
    }
    Ok(None)
}

impl<'a> ReplacedFile<'a> {
    /// The file of a name, which is a file or doesn't exist yet, with what was seen of it if it is
    /// one of those that were opened. A link is followed, so the file to which it leads is replaced
    /// and the link stays.
    pub(crate) fn at(
        rt: &'a HostRuntime,
        name: &str,
        seen: &[SeenFile],
    ) -> io::Result<ReplacedFile<'a>> {
        let (path, permissions) = match unless_missing(fs::metadata(rt, name))? {
            Some(found) if found.is_dir() => {
                return Err(io::Error::from(ErrorKind::IsADirectory));
            }
            Some(found) if !found.is_file() => {
                return Err(io::Error::other("is no regular file"));
            }
            Some(found) => {
                if let Some(why) = why_printed_to(rt, &found)? {
                    return Err(io::Error::other(why));
                }
                (
                    fs::canonicalize(rt, name)?.into_string(),
                    Some(found.permissions()),
                )
            }
            None => (String::from_str(rt.alloc(), name)?, None),
        };
        let draft = draft_name(rt.alloc(), path.as_str())?;
        let read = stamp_of(rt, seen, path.as_str(), name)?;
        Ok(ReplacedFile {
            rt,
            path,
            draft,
            permissions,
            read,
        })
    }

    /// Whether the file is still what this run has read, if it has read it.
    fn is_as_read(&self) -> io::Result<bool> {
        let Some(read) = self.read else {
            return Ok(true);
        };
        let found = unless_missing(fs::metadata(self.rt, self.path.as_str()))?;
        Ok(found.is_some_and(|found| Stamp::of(&found) == read))
    }

    /// Puts a draft that is on the disk in the place of the file. The permissions come last, since
    /// they may keep the next run from opening an abandoned draft.
    fn put(&self, draft: &File) -> io::Result<()> {
        draft.sync_all()?;
        if !self.is_as_read()? {
            return Err(io::Error::other("it has changed since it was read: run this again"));
        }
        if let Some(permissions) = &self.permissions {
            draft.set_permissions(permissions.clone()?)?;
        }
        fs::rename(self.rt, self.draft.as_str(), self.path.as_str())
    }

    /// Has the system write the folder to the disk as well, if it can: the file is replaced anyway.
    fn sync_folder(&self) {
        if let Ok(folder) = File::open(self.rt, folder_of(self.path.as_str())) {
            let _ = folder.sync_all();
        }
    }
}

impl Target for ReplacedFile<'_> {
    type Draft = File;

    ghost shown = { λ _. None };

    fn begin(&mut self) -> io::Result<File> {
        let (file, usual) = make_draft(self.rt, self.draft.as_str(), self.permissions.is_some())?;
        self.permissions.get_or_insert(usual);
        Ok(file)
    }

    fn publish(&mut self, draft: File) -> io::Result<()> {
        let put = self.put(&draft);
        match &put {
            Ok(()) => self.sync_folder(),
            Err(_) => self.discard(draft),
        }
        put
    }

    fn discard(&mut self, draft: File) {
        let _ = fs::remove_file(self.rt, self.draft.as_str());
        drop(draft);
    }
}
