//! Readers and writers that misbehave on purpose, and count how often they are asked.

use std::alloc::{AllocError, Global};
use std::io;
use std::io::{Read, Write};

/// Gives its bytes in pieces. It fails from the ask with the number `failing` on, or gives a byte
/// at each ask without end.
#[derive(Clone, Copy)]
pub struct TestReader<'a> {
    /// What is left to give.
    pub bytes: &'a [u8],
    /// The most bytes given at once.
    pub piece: usize,
    /// The first ask at which it returns an error, counted from 1, or 0 if there is none.
    pub failing: u64,
    /// Whether it has no end.
    pub endless: bool,
    /// How often the source was asked.
    pub asks: u64,
}

impl<'a> TestReader<'a> {
    /// A source that gives all that it can at each ask.
    pub fn of(bytes: &'a [u8]) -> TestReader<'a> {
        TestReader {
            bytes,
            piece: usize::MAX,
            failing: 0,
            endless: false,
            asks: 0,
        }
    }

    /// A source that returns an error at each ask.
    pub fn broken() -> TestReader<'a> {
        let mut source = TestReader::of(&[]);
        source.failing = 1;
        source
    }

    /// A source that gives one byte at each ask, without end.
    pub fn endless() -> TestReader<'a> {
        let mut source = TestReader::of(&[]);
        source.endless = true;
        source
    }
}

impl Read for TestReader<'_> {
    fn read(&mut self, buf: &mut [u8]) -> io::Result<usize> {
        self.asks = self.asks.saturating_add(1);
        if self.failing != 0 && self.failing <= self.asks {
            return Err(io::Error::other("the source fails"));
        }
        if self.endless && !buf.is_empty() {
            buf[0] = b'x';
            return Ok(1);
        }
        let bytes = self.bytes;
        let count = self.piece.min(buf.len()).min(bytes.len());
        buf[..count].copy_from_slice(&bytes[..count]);
        self.bytes = &bytes[count..];
        Ok(count)
    }
}

/// Takes bytes in pieces, and fails at the given call.
#[derive(Drop)]
pub struct Sink {
    /// What was taken.
    pub taken: Vec<u8>,
    /// The most bytes taken at once.
    pub piece: usize,
    /// The call at which it returns an error, counted from 1, or 0 if there is none.
    pub failing: u64,
    /// How often the sink was called.
    pub calls: u64,
}

impl Sink {
    /// A sink that takes at most this many bytes at each call.
    pub fn in_pieces(alloc: Global, piece: usize) -> Sink {
        Sink {
            taken: Vec::new(alloc),
            piece,
            failing: 0,
            calls: 0,
        }
    }

    /// A sink that takes all, and needs no memory for its first bytes, this many.
    pub fn with_room(alloc: Global, bytes: usize) -> Result<Sink, AllocError> {
        let mut sink = Sink::in_pieces(alloc, usize::MAX);
        sink.taken.reserve(bytes)?;
        Ok(sink)
    }
}

impl Write for Sink {
    fn write(&mut self, buf: &[u8]) -> io::Result<usize> {
        self.calls = self.calls.saturating_add(1);
        if self.calls == self.failing {
            return Err(io::Error::other("the sink fails"));
        }
        let count = self.piece.min(buf.len());
        self.taken.extend_from_slice(&buf[..count])?;
        Ok(count)
    }

    fn flush(&mut self) -> io::Result<()> {
        Ok(())
    }
}
