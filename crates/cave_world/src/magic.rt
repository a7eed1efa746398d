ghost use Rattle.std.specs.Prelude.{◌≡◌, ◌≤ℤ◌};
ghost use Rattle.cave_world.specs.Limits.{HIGHEST_MAGIC, LOWEST_MAGIC};

use std::marker::Model;

/// How far the player has come with the magic words, by a number.
#[derive(Clone, Copy, Debug, PartialEq, Eq)]
pub struct Magic {
    value: i16,
}

impl Model for Magic {
    ghost use Rattle.std.specs.Prelude.{ℤ};
    ghost use Rattle.cave_world.specs.Limits.{IsMagic};

    ghost Value = { ℤ };

    ghost view = { λ m. m.value };

    ghost invariant = { λ m. IsMagic m.value };

    ghost inverse = { λ n. record { value = n } };
}

impl Magic {
    /// What a number says.
    pub fn new(value: i16) -> Magic
        requires low { LOWEST_MAGIC ≤ℤ value }
        requires high { value ≤ℤ HIGHEST_MAGIC }
        ensures { result ≡ value }
    {
        Magic { value }
    }

    /// The number that says it.
    pub fn value(self) -> i16
        ensures value { result ≡ self }
        ensures low { LOWEST_MAGIC ≤ℤ result }
        ensures high { result ≤ℤ HIGHEST_MAGIC }
    {
        self.value
    }
}
