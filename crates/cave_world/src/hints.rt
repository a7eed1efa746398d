ghost use Rattle.std.specs.Prelude.{◌≡◌, ◌≤◌};
ghost use Rattle.cave_world.specs.State.{unused_hints, is_hint_taken, with_hint_taken};
ghost use Rattle.base_lines.specs.Numbers as defined;

use crate::count::Count;
use crate::state::State;
use base_lines::numbers::LAST_HINT;
use std::marker::Model;

/// How many hints there may be.
pub const HINTS: usize = LAST_HINT as usize;

/// The hint that is written under the oyster.
pub const CLUE_HINT: u8 = 2;

/// The instructions, which count as a hint.
pub const INSTRUCTIONS_HINT: u8 = 3;

/// The most turns that are counted in the area of a hint.
pub const MAX_TURNS_IN_AREA: u16 = 10_000;

/// The number of a hint.
#[derive(Clone, Copy, Debug, PartialEq, Eq)]
pub struct HintNumber {
    number: u8,
}

impl Model for HintNumber {
    ghost use Rattle.std.specs.Prelude.{ℕ, ◌≤◌};
    ghost use Rattle.base_lines.specs.Numbers as defined;

    ghost Value = { ℕ };

    ghost view = { λ h. h.number };

    ghost invariant = { λ h. (1 ≤ h.number) × (h.number ≤ defined.LAST_HINT) };

    ghost inverse = { λ n. record { number = n } };
}

impl HintNumber {
    /// The hint with a number.
    pub fn new(number: u8) -> HintNumber
        requires low { 1 ≤ number }
        requires high { number ≤ defined.LAST_HINT }
        ensures { result ≡ number }
    {
        HintNumber { number }
    }

    /// The number of the hint.
    pub fn number(self) -> u8
        ensures value { result ≡ self }
        ensures low { 1 ≤ result }
        ensures high { result ≤ defined.LAST_HINT }
    {
        self.number
    }
}

/// For each hint, how many turns its place was stayed at, and whether it was taken.
#[derive(Clone, Copy, Debug, PartialEq, Eq)]
pub struct Hints {
    pub turns: [Count<MAX_TURNS_IN_AREA>; HINTS],
    pub is_taken: [bool; HINTS],
}

impl Hints {
    /// No hint has been taken yet, nor waited for.
    #[tactic(auto, unfolding(crate::specs::State::unused_hints))]
    pub fn unused() -> Hints
        ensures { result ≡ unused_hints }
    {
        Hints {
            turns: [Count::new(0); HINTS],
            is_taken: [false; HINTS],
        }
    }
}

impl State {
    /// Whether a hint has been taken.
    pub fn is_hint_taken(&self, hint: HintNumber) -> bool
        ensures { result ≡ is_hint_taken self.now hint }
    {
        self.hints.is_taken[usize::from(hint.number()) - 1]
    }

    /// Marks a hint as taken.
    pub fn take_hint(&mut self, hint: HintNumber)
        ensures { self.new ≡ with_hint_taken hint self.old }
    {
        self.hints.is_taken[usize::from(hint.number()) - 1] = true;
    }
}
