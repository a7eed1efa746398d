//! The machine of the tests, which is no game: it keeps a number, and counts what it does.

ghost use Rattle.std.specs.Prelude.{◌≡◌, List, [], ◌∷◌, IfOk};
ghost use Rattle.std.specs.Bool.{nat_eq};
ghost use Rattle.std.specs.Ordering.{on};
ghost use Rattle.test_replay.specs.Counter.{adds, after};

use base_lines::Meter;
use cave_replay::{Machine, Playable, Started, Stepped};
use replay_checkpoints::Whole;
use std::alloc::{AllocError, Global};
use std::cell::Cell;

/// What a machine does, counted outside its states and its meter.
#[derive(Drop)]
pub(crate) struct Counts {
    pub(crate) steps: Cell<u64>,
    pub(crate) comparisons: Cell<u64>,
    pub(crate) copies: Cell<u64>,
}

/// Counts one more.
fn count(counted: &Cell<u64>) {
    counted.set(counted.get().wrapping_add(1));
}

impl Counts {
    /// Nothing has been done yet.
    pub(crate) fn new() -> Counts {
        Counts {
            steps: Cell::new(0),
            comparisons: Cell::new(0),
            copies: Cell::new(0),
        }
    }
}

/// A number. Each comparison of two is counted.
#[derive(Clone, Copy)]
pub(crate) struct Counted<'a> {
    pub(crate) number: usize,
    counts: &'a Counts,
}

impl<'a> PartialEq for Counted<'a> {
    ghost use Rattle.std.proofs.Common.{rules};
    ghost use Rattle.std.specs.Cmp.Rules.{comparing};

    ghost eq = { on (λ state. state.number) nat_eq };

    ghost laws = { Prim.search (comparing, rules) };

    fn eq(&self, other: &Counted<'a>) -> bool {
        count(&self.counts.comparisons);
        self.number == other.number
    }
}

impl<'a> Eq for Counted<'a> {
    ghost use Rattle.std.proofs.Common.{rules};
    ghost use Rattle.std.specs.Cmp.Rules.{comparing};

    ghost laws = { Prim.search (comparing, rules) };
}

/// Whether a line adds to the number.
fn adds(line: &[u8]) -> bool
    ensures { result ≡ adds line.now }
{
    line.first() == Some(&b'+')
}

/// The number after a line.
fn after(number: usize, line: &[u8]) -> usize
    ensures { result ≡ after number line.now }
{
    if adds(line) {
        number % 65_536 + line.len()
    } else {
        line.len()
    }
}

/// What says a number.
fn piece_of(alloc: Global, number: usize) -> Result<Vec<usize>, AllocError>
    ensures { IfOk result (λ piece. piece.items ≡ number ∷ []) }
{
    let mut piece = Vec::new(alloc);
    piece.push(number)?;
    Ok(piece)
}

/// A machine whose state is the length of the last line, at the start the seed mod 256; a line that
/// begins with `+` adds its length instead. A line with a byte ticks.
#[derive(Clone, Copy)]
pub(crate) struct Counter<'a> {
    pub(crate) counts: &'a Counts,
}

impl<'a> Machine for Counter<'a> {
    ghost use Rattle.std.specs.Prelude.{ℕ};
    ghost use Rattle.test_replay.specs.Counter.{counter_rules, same_numbers};

    type State = Counted<'a>;

    type Piece = Vec<usize>;

    type Meter = Meter;

    ghost Meaning = { ℕ };

    ghost Text = { List ℕ };

    ghost meaning = { λ state. state.number };

    ghost text = { λ piece. piece.items };

    ghost rules = { λ _. counter_rules };

    fn start(
        &self,
        alloc: Global,
        seed: u32,
    ) -> Result<Started<Counted<'a>, Vec<usize>>, AllocError> {
        let number = seed as usize % 256;
        let piece = piece_of(alloc, number)?;
        let counts = self.counts;
        let state = Counted { number, counts };
        Ok(Started { state, piece })
    }

    fn step(
        &self,
        alloc: Global,
        state: &Counted<'a>,
        line: &[u8],
        meter: &mut Meter,
    ) -> Result<Stepped<Counted<'a>, Vec<usize>>, AllocError> {
        meter.tick();
        count(&self.counts.steps);
        let number = after(state.number, line);
        let piece = piece_of(alloc, number)?;
        let counts = state.counts;
        Ok(Stepped {
            state: Counted { number, counts },
            piece,
            ticked: line.len() > 0,
        })
    }

    fn copy_piece(&self, alloc: Global, piece: &Vec<usize>) -> Result<Vec<usize>, AllocError> {
        count(&self.counts.copies);
        let copy = Vec::from_slice(alloc, piece)?;
        Ok(copy)
    }

    ghost exact = { λ a b _ _. same_numbers a.number b.number };
}

impl<'a> Playable for Counter<'a> {
    type Kept = Whole<Counted<'a>>;

    type Scratch = ();

    fn scratch(&self, _alloc: Global) -> Result<(), AllocError> {
        Ok(())
    }
}
