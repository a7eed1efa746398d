//! The machine.

ghost use Rattle.std.specs.Prelude.{◌≡◌};
ghost use Rattle.counter.specs.Counter.{number_at_end};

use cave_replay::{Machine, Meter, Playable, Session, Started, Stepped, Whole};
use std::alloc::{AllocError, Global};

/// A counter of four digits.
#[derive(Clone, Copy)]
pub struct Counter;

impl Machine for Counter {
    ghost use Rattle.std.specs.Prelude.{ℕ};
    ghost use Rattle.std.proofs.Common.{rules};
    ghost use Rattle.counter.specs.Counter.{counter_rules, IsNumber};

    type State = u32;

    type Piece = u32;

    type Meter = Meter;

    ghost Meaning = { ℕ };

    ghost Text = { ℕ };

    ghost meaning = { λ number. number };

    ghost text = { λ piece. piece };

    ghost rules = { λ _. counter_rules };

    ghost is_state = { IsNumber };

    ghost exact = { Prim.search rules };

    fn start(&self, _alloc: Global, seed: u32) -> Result<Started<u32, u32>, AllocError> {
        let state = seed % 10_000;
        Ok(Started {
            state,
            piece: state,
        })
    }

    fn step(
        &self,
        _alloc: Global,
        number: &u32,
        line: &[u8],
        meter: &mut Meter,
    ) -> Result<Stepped<u32, u32>, AllocError> {
        meter.tick();
        let ticked = line == b"click".as_slice();
        let state = if ticked {
            (*number + 1) % 10_000
        } else {
            *number
        };
        Ok(Stepped {
            state,
            piece: state,
            ticked,
        })
    }

    fn copy_piece(&self, _alloc: Global, piece: &u32) -> Result<u32, AllocError> {
        Ok(*piece)
    }
}

impl Playable for Counter {
    type Kept = Whole<u32>;

    type Scratch = ();

    fn scratch(&self, _alloc: Global) -> Result<(), AllocError> {
        Ok(())
    }
}

/// The number at the end, after any edits: as if the held log were counted from its first line.
pub fn closing_number(session: &Session<Counter>) -> u32
    ensures { result ≡ number_at_end session.now.game }
{
    *session.state()
}
