ghost use Rattle.std.specs.Prelude.{◌≡◌, ◌≤ℤ◌};
ghost use Rattle.world_objects.specs.Props.{HIGHEST_PROP, LOWEST_PROP};

use std::marker::Model;

/// The state of an object, by a number. It is below 0 for a treasure that hasn't been seen yet.
#[derive(Clone, Copy, Debug, PartialEq, Eq)]
pub struct Prop {
    value: i8,
}

impl Model for Prop {
    ghost use Rattle.std.specs.Prelude.{ℤ, ◌≤ℤ◌};
    ghost use Rattle.world_objects.specs.Props.{HIGHEST_PROP, LOWEST_PROP};

    ghost Value = { ℤ };

    ghost view = { λ p. p.value };

    ghost invariant = { λ p. (LOWEST_PROP ≤ℤ p.value) × (p.value ≤ℤ HIGHEST_PROP) };

    ghost inverse = { λ n. record { value = n } };
}

impl Prop {
    /// The prop with a number.
    pub fn new(value: i8) -> Prop
        requires low { LOWEST_PROP ≤ℤ value }
        requires high { value ≤ℤ HIGHEST_PROP }
        ensures { result ≡ value }
    {
        Prop { value }
    }

    /// The number of the prop.
    pub fn value(self) -> i8
        ensures value { result ≡ self }
        ensures low { LOWEST_PROP ≤ℤ result }
        ensures high { result ≤ℤ HIGHEST_PROP }
    {
        self.value
    }
}
