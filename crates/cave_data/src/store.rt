//! A store of bytes: many texts, one after another.
ghost use Rattle.std.specs.Prelude.{◌≡◌, ◌≤◌, ◌++◌, ◌∷◌, [], IfOk, OnOk, length};
ghost use Rattle.cave_data.specs.Spans.{text_of_span, IsSpanWithin, IsFrom};

use crate::span::TextSpan;
use std::alloc::{AllocError, Global};
use std::marker::Model;

/// The room that a store takes first.
const FIRST_ROOM: usize = 4096;

/// The most bytes that spans can refer to.
const MAX_STORE_BYTES: usize = u32::MAX as usize;

/// Bytes of texts, one after another.
#[derive(Drop)]
pub struct Store {
    bytes: Vec<u8>,
}

impl Model for Store {
    ghost use Rattle.std.specs.Prelude.{List, ℕ};

    ghost Value = { List ℕ };

    ghost view = { λ s. s.bytes.items };
}

impl Store {
    /// An empty store.
    pub fn new(alloc: Global) -> Self
        ensures { result ≡ [] }
    {
        Self {
            bytes: Vec::new(alloc),
        }
    }

    /// How many bytes it has.
    pub fn len(&self) -> usize
        ensures { result ≡ length self.now }
    {
        self.bytes.len()
    }

    /// The text that the span refers to.
    pub fn text(&self, span: TextSpan) -> &[u8]
        requires { IsSpanWithin self.now span }
        ensures { result.now ≡ text_of_span self.now span }
    {
        let start = span.start as usize;
        &self.bytes.as_slice()[start..start + span.len as usize]
    }

    /// The span from a place to the end.
    fn span_from(&self, start: usize) -> Result<TextSpan, AllocError>
        requires { start ≤ length self.now }
        ensures { IfOk result (IsFrom self.now start) }
    {
        let end = self.bytes.len();
        if end > MAX_STORE_BYTES {
            return Err(AllocError);
        }
        Ok(TextSpan {
            start: start as u32,
            len: (end - start) as u32,
        })
    }

    /// Takes the first room.
    fn begin(&mut self) -> Result<(), AllocError>
        ensures { self.new ≡ self.old }
    {
        if self.bytes.is_empty() {
            self.bytes.reserve(FIRST_ROOM)?;
        }
        Ok(())
    }

    /// Adds a word at the end, and returns where it is.
    pub fn add(&mut self, word: &[u8]) -> Result<TextSpan, AllocError>
        ensures grows { length self.old ≤ length self.new }
        ensures bytes { OnOk result (self.new ≡ self.old ++ word.now) }
        ensures span { IfOk result (IsFrom self.new (length self.old)) }
    {
        self.begin()?;
        let start = self.bytes.len();
        self.bytes.extend_from_slice(word)?;
        self.span_from(start)
    }

    /// Adds a line, with its line feed, to the text that begins at the start and goes to the end.
    pub fn add_line(&mut self, start: usize, line: &[u8]) -> Result<TextSpan, AllocError>
        requires { start ≤ length self.old }
        ensures grows { length self.old ≤ length self.new }
        ensures bytes { OnOk result (self.new ≡ self.old ++ (line.now ++ 10 ∷ [])) }
        ensures span { IfOk result (IsFrom self.new start) }
    {
        self.begin()?;
        self.bytes.extend_from_slice(line)?;
        self.bytes.push(b'\n')?;
        self.span_from(start)
    }
}
