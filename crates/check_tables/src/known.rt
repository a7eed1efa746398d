//! Lists of what is known: what one has, what it leaves, and what is said of each of its lines that
//! nothing says any more.

ghost use Rattle.std.specs.Prelude.{◌≡◌, ℕ, List, [], ◌≤◌, if◌then◌else◌, IfOk, length};
ghost use Rattle.std.specs.Str.Lines.{lines};
ghost use Rattle.base_text.specs.Text.{Tells};
ghost use Rattle.check_tables.specs.Known.{entry_lines, has_entry, is_known, is_unmet};
ghost use Rattle.check_tables.specs.Known.{known_entries, unknown, unmet_line, unmet_lines};
ghost use Rattle.check_tables.specs.Known.{unmet_text};

use base_lines::bytes::skip_blanks;
use base_lines::{is_skipped, split_line};
use base_text::Text;
use std::alloc::{AllocError, Global};
use std::marker::Model;

/// Things that lists may know, each by its entry.
pub trait Entries {
    /// A thing.
    type Thing: Copy;

    /// Its entry, without the end of the line.
    ghost entry: { Self → Self.Thing → List ℕ };

    /// Writes the entry of a thing.
    fn put_entry(&self, thing: Self::Thing, text: &mut Text)
        ensures { Tells (entry self.now thing) text.old text.new };
}

/// Writes the entries of things, each as a line after this.
pub fn put_entries<T: Entries>(text: &mut Text, of: &T, indent: &str, things: &[T::Thing])
    ensures { Tells (entry_lines (T.entry of.now) indent.now things.now) text.old text.new }
{
    for thing in things {
        text.put(indent.as_bytes());
        of.put_entry(*thing, text);
        text.put(b"\n");
    }
}

/// Whether a text has an entry. The blanks that begin a line don't count.
fn has_entry(text: &[u8], entry: &[u8]) -> bool
    ensures { result ≡ has_entry text.now entry.now }
{
    let mut rest = text;
    while let Some((line, after)) = split_line(rest) {
        if skip_blanks(line) == entry {
            return true;
        }
        rest = after;
    }
    false
}

/// Whether a line says something, and is none of the entries.
fn is_unmet(entries: &[u8], line: &[u8]) -> bool
    ensures { result ≡ is_unmet entries.now line.now }
{
    let entry = skip_blanks(line);
    !is_skipped(entry) && !has_entry(entries, entry)
}

/// Writes these words about a line of a file, if it is none of the entries.
fn put_if_unmet(
    text: &mut Text,
    file: &str,
    words: &str,
    entries: &[u8],
    number: usize,
    line: &[u8],
)
    ensures { Tells (if is_unmet entries.now line.now then unmet_line file.now words.now number
        else []) text.old text.new }
{
    if is_unmet(entries, line) {
        write!(text, "{file}:{number}: {words}\n");
    }
}

/// Writes these words about each line of a list, which is in a file, that is none of the entries.
fn put_unmet_lines(text: &mut Text, file: &str, words: &str, entries: &[u8], list: &[u8])
    ensures { Tells (unmet_lines file.now words.now entries.now 1 (lines list.now)) text.old
        text.new }
{
    let mut rest = list;
    let mut number = 0usize;
    while let Some((line, after)) = split_line(rest) {
        number += 1;
        put_if_unmet(text, file, words, entries, number, line);
        rest = after;
    }
}

/// A list of what is known, and the name of its file.
#[derive(Drop)]
pub struct KnownList {
    file: String,
    list: Vec<u8>,
}

impl Model for KnownList {
    ghost use Rattle.std.specs.Prelude.{string_bytes};
    ghost use Rattle.check_tables.specs.Known.{KnownEntries};

    ghost Value = { KnownEntries };

    ghost view = { λ known. record { file = string_bytes known.file; list = known.list.items } };
}

impl KnownList {
    /// The list of a text, which is in a file.
    pub fn of(alloc: Global, file: &str, list: Vec<u8>) -> Result<KnownList, AllocError>
        ensures { IfOk result (λ known. known ≡ known_entries file.now list.items) }
    {
        let file = format!(in alloc; "{file}")?;
        Ok(KnownList { file, list })
    }

    /// Whether the list knows a thing.
    fn has<T: Entries>(&self, alloc: Global, of: &T, thing: T::Thing) -> Result<bool, AllocError>
        ensures { IfOk result (λ known. known ≡ is_known self.now (T.entry of.now thing)) }
    {
        let mut entry = Text::new(alloc);
        of.put_entry(thing, &mut entry);
        Ok(has_entry(&self.list, &entry.finish()?))
    }

    /// The things that the list doesn't know.
    pub fn unknown<T: Entries>(
        &self,
        alloc: Global,
        of: &T,
        things: &[T::Thing],
    ) -> Result<Vec<T::Thing>, AllocError>
        ensures value { IfOk result (λ left.
            left.items ≡ unknown (T.entry of.now) self.now things.now) }
        ensures few { IfOk result (λ left. length left.items ≤ length things.now) }
    {
        let mut left = Vec::new(alloc);
        for thing in things {
            if !self.has(alloc, of, *thing)? {
                left.push(*thing)?;
            }
        }
        Ok(left)
    }

    /// Writes these words about each line of the list that says something and is none of the
    /// entries.
    pub fn put_unmet(&self, text: &mut Text, words: &str, entries: &[u8])
        ensures { Tells (unmet_text self.now words.now entries.now) text.old text.new }
    {
        put_unmet_lines(text, &self.file, words, entries, &self.list);
    }
}
