ghost use Rattle.std.specs.Prelude.{◌≡◌, ◌≤◌, [], length, IsOk, IfOk};
ghost use Rattle.replay_edits.specs.LineText as defined;

use std::alloc::{AllocError, Global};
use std::fmt;
use std::marker::Model;
use std::ops::DerefSlice;

/// The greatest length of a line that takes no memory of its own.
const MAX_SHORT_LINE: usize = 14;

/// Where the bytes of a line lie.
#[derive(Drop)]
enum LineBytes {
    /// The first of these bytes, this many.
    Short(u8, [u8; MAX_SHORT_LINE]),
    Long(Box<Vec<u8>>),
}

/// The bytes of a line of a log. A few bytes lie in the value itself, so a short line takes no
/// memory of its own.
///
/// They are the one item of an array, since lists of arrays move as blocks, and lists of enums item
/// by item.
#[derive(Drop)]
pub struct LineText {
    bytes: [LineBytes; 1],
}

impl Model for LineText {
    ghost use Rattle.replay_edits.specs.LineText.{LineText as Line};

    ghost Value = { Line };

    ghost use Rattle.replay_edits.specs.LineBytes.{line_in, IsSoundLine};

    ghost view = { λ line. line_in line.bytes };

    ghost invariant = { λ line. IsSoundLine line.bytes };
}

impl LineText {
    /// A line of these bytes.
    pub fn from_slice(alloc: Global, bytes: &[u8]) -> Result<LineText, AllocError>
        ensures ok { IfOk result (λ line. line.items ≡ bytes.now) }
        ensures short { length bytes.now ≤ defined.MAX_SHORT_LINE → IsOk result }
    {
        match u8::try_from(bytes.len()) {
            Ok(len) if bytes.len() <= MAX_SHORT_LINE => {
                let mut short = [0; MAX_SHORT_LINE];
                short[..bytes.len()].copy_from_slice(bytes);
                Ok(LineText {
                    bytes: [LineBytes::Short(len, short)],
                })
            }
            _ => {
                let long = Box::new(alloc, Vec::from_slice(alloc, bytes)?)?;
                Ok(LineText {
                    bytes: [LineBytes::Long(long)],
                })
            }
        }
    }

    /// An empty line.
    pub fn empty() -> LineText
        ensures { result.items ≡ [] }
    {
        LineText {
            bytes: [LineBytes::Short(0, [0; MAX_SHORT_LINE])],
        }
    }

    /// The bytes.
    pub fn as_slice(&self) -> &[u8]
        ensures { result.now ≡ self.now.items }
    {
        let [bytes] = &self.bytes;
        match bytes {
            LineBytes::Short(len, short) => &short[..usize::from(*len)],
            LineBytes::Long(long) => long,
        }
    }
}

impl DerefSlice for LineText {
    type Elem = u8;

    ghost deref_gives = { λ line bytes. bytes ≡ line.items };

    fn deref(&self) -> &[u8] {
        self.as_slice()
    }
}

impl fmt::Debug for LineText {
    fn fmt<W: fmt::Write>(&self, f: &mut fmt::Formatter<W>) -> fmt::Result {
        f.debug_list().entries(self.as_slice()).finish()
    }
}
