//! What a turn said.

ghost use Rattle.std.specs.Prelude.{◌≡◌, ◌≤◌, length, IsOk, IfOk};

use cave_world::Part;
use std::alloc::{AllocError, Global};
use std::marker::Model;
use std::ops::DerefSlice;

/// Where the parts of a piece lie.
#[derive(Drop)]
enum PieceParts {
    One([Part; 1]),
    Two([Part; 2]),
    Many(Vec<Part>),
}

/// What a turn said. Most turns say one part or two, which lie in the value itself.
///
/// They are the one item of an array, since lists of arrays move as blocks, and lists of enums item
/// by item.
#[derive(Drop)]
pub struct Piece {
    parts: [PieceParts; 1],
}

impl Model for Piece {
    ghost use Rattle.play_machine.specs.Machine.{Piece as Said};

    ghost Value = { Said };

    ghost use Rattle.play_machine.specs.Machine.{piece_in};

    ghost view = { λ piece. piece_in piece.parts };
}

impl Piece {
    /// A piece of these parts.
    pub fn from_slice(alloc: Global, parts: &[Part]) -> Result<Piece, AllocError>
        ensures ok { IfOk result (λ piece. piece.items ≡ parts.now) }
        ensures few { length parts.now ≤ 2 → IsOk result }
    {
        let parts = match parts {
            [] => PieceParts::Many(Vec::new(alloc)),
            [one] => PieceParts::One([*one]),
            [one, two] => PieceParts::Two([*one, *two]),
            _ => PieceParts::Many(Vec::from_slice(alloc, parts)?),
        };
        Ok(Piece { parts: [parts] })
    }

    /// The parts.
    pub fn as_slice(&self) -> &[Part]
        ensures { result.now ≡ self.now.items }
    {
        let [parts] = &self.parts;
        match parts {
            PieceParts::One(parts) => parts,
            PieceParts::Two(parts) => parts,
            PieceParts::Many(parts) => parts,
        }
    }
}

impl DerefSlice for Piece {
    type Elem = Part;

    ghost deref_gives = { λ piece parts. parts ≡ piece.items };

    fn deref(&self) -> &[Part] {
        self.as_slice()
    }
}
