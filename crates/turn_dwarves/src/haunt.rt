ghost use Rattle.std.specs.Prelude.{◌≡◌};

use std::marker::Model;
use world_objects::Place;

/// A place where a dwarf may go.
#[derive(Clone, Copy, Debug, PartialEq, Eq)]
pub struct Haunt {
    place: Place,
}

impl Model for Haunt {
    ghost use Rattle.std.specs.Prelude.{ℕ};

    ghost Value = { ℕ };

    ghost view = { λ h. h.place };

    ghost inverse = { λ n. record { place = n } };
}

impl Default for Haunt {
    ghost is_default = { λ h. h ≡ 0 };

    fn default() -> Haunt {
        Haunt {
            place: Place::new(0),
        }
    }
}

impl Haunt {
    /// The haunt at a place.
    pub fn at(place: Place) -> Haunt
        ensures { result ≡ place }
    {
        Haunt { place }
    }

    /// The place of the haunt.
    pub fn place(self) -> Place
        ensures { result ≡ self }
    {
        self.place
    }
}
