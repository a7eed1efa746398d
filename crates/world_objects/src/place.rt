ghost use Rattle.std.specs.Prelude.{◌≡◌, ◌≤◌};
ghost use Rattle.base_lines.specs.Numbers as defined;

use base_lines::numbers::LAST_PLACE;
use std::marker::Model;

/// How many places there may be.
pub const PLACES: usize = LAST_PLACE as usize;

/// The number of a place. 0 is nowhere: a player who is there is dead.
#[derive(Clone, Copy, Debug, PartialEq, Eq)]
pub struct Place {
    number: u16,
}

impl Model for Place {
    ghost use Rattle.std.specs.Prelude.{ℕ, ◌≤◌};
    ghost use Rattle.base_lines.specs.Numbers as defined;

    ghost Value = { ℕ };

    ghost view = { λ p. p.number };

    ghost invariant = { λ p. p.number ≤ defined.LAST_PLACE };

    ghost inverse = { λ n. record { number = n } };
}

impl Place {
    /// The place with a number.
    pub fn new(number: u16) -> Place
        requires { number ≤ defined.LAST_PLACE }
        ensures { result ≡ number }
    {
        Place { number }
    }

    /// The number of the place.
    pub fn number(self) -> u16
        ensures value { result ≡ self }
        ensures within { result ≤ defined.LAST_PLACE }
    {
        self.number
    }
}
