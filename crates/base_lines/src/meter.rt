ghost use Rattle.std.specs.Prelude.{◌≡◌, ℕ, ◌+◌, ◌-◌, ◌^◌, ◌<◌, IsTrue, IsFalse};

use std::marker::Model;

/// What counts the steps that a machine takes. A machine can read it, but can't make, copy or
/// change one.
pub trait Steps {
    ghost count: { Self → ℕ };

    /// How many steps have been taken.
    fn used(&self) -> u64
        ensures { result ≡ count self.now };

    /// How many steps may still be taken.
    fn left(&self) -> u64
        ensures { result + count self.now ≡ 2 ^ 64 - 1 };

    /// Whether no step may be taken any more.
    fn full(&self) -> bool
        ensures full { IsTrue result → count self.now ≡ 2 ^ 64 - 1 }
        ensures room { IsFalse result → count self.now + 1 < 2 ^ 64 };
}

/// The number of steps taken so far.
#[derive(Debug, Drop)]
pub struct Meter {
    used: u64,
}

impl Model for Meter {
    ghost Value = { ℕ };

    ghost view = { λ m. m.used };
}

impl Meter {
    /// A meter on which no step has been taken.
    pub fn new() -> Meter
        ensures { result ≡ 0 }
    {
        Meter { used: 0 }
    }

    /// A meter on which `used` steps have been taken.
    pub fn starting(used: u64) -> Meter
        ensures { result ≡ used }
    {
        Meter { used }
    }

    /// Counts one step.
    pub fn tick(&mut self)
        requires room { self.old + 1 < 2 ^ 64 }
        ensures { self.new ≡ self.old + 1 }
    {
        self.used += 1;
    }
}

impl Steps for Meter {
    ghost count = { λ used. used };

    fn used(&self) -> u64 {
        self.used
    }

    fn left(&self) -> u64 {
        u64::MAX - self.used
    }

    fn full(&self) -> bool {
        self.left() == 0
    }
}
