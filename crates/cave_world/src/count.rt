ghost use Rattle.std.specs.Prelude.{◌≡◌, ◌+◌, ◌-◌, ◌%◌, ◌≤◌, min};

use std::marker::Model;

/// A count that stops at `MOST` and at 0.
#[derive(Clone, Copy, Debug, PartialEq, Eq)]
pub struct Count<const MOST: u16> {
    number: u16,
}

impl<const MOST: u16> Model for Count<MOST> {
    ghost use Rattle.std.specs.Prelude.{ℕ, ◌≤◌};

    ghost Value = { ℕ };

    ghost view = { λ c. c.number };

    ghost invariant = { λ c. c.number ≤ MOST };

    ghost inverse = { λ n. record { number = n } };
}

impl<const MOST: u16> Count<MOST> {
    /// The count with a number.
    pub fn new(number: u16) -> Self
        requires { number ≤ MOST }
        ensures { result ≡ number }
    {
        Count { number }
    }

    /// The number that is counted.
    pub fn number(self) -> u16
        ensures value { result ≡ self.entry }
        ensures within { result ≤ MOST }
    {
        self.number
    }

    /// One more.
    pub fn up(self) -> Self
        ensures { result ≡ min (self.entry + 1) MOST }
    {
        if self.number < MOST {
            Count {
                number: self.number + 1,
            }
        } else {
            self
        }
    }

    /// One more, or 0 after `MOST`.
    pub fn round(self) -> Self
        ensures { result ≡ (self.entry + 1) % (MOST + 1) }
    {
        if self.number < MOST {
            Count {
                number: self.number + 1,
            }
        } else {
            Count { number: 0 }
        }
    }

    /// One less.
    pub fn down(self) -> Self
        ensures { result ≡ self.entry - 1 }
    {
        Count {
            number: self.number.saturating_sub(1),
        }
    }
}
