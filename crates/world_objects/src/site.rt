ghost use Rattle.std.specs.Prelude.{◌≡◌, ◌<◌};
ghost use Rattle.world_objects.specs.Objects.{site_at};

use crate::place::Place;
use std::marker::Model;

/// A place where something can be: any but 0.
#[derive(Clone, Copy, Debug, PartialEq, Eq)]
pub struct Site {
    number: u16,
}

impl Model for Site {
    ghost use Rattle.std.specs.Prelude.{ℕ, ◌≤◌};
    ghost use Rattle.base_lines.specs.Numbers.{LAST_PLACE};

    ghost Value = { ℕ };

    ghost view = { λ s. s.number };

    ghost invariant = { λ s. (1 ≤ s.number) × (s.number ≤ LAST_PLACE) };

    ghost inverse = { λ n. record { number = n } };
}

impl Site {
    /// The site at a place. At place 0 there is none.
    pub fn at(place: Place) -> Option<Site>
        ensures { result ≡ site_at place }
    {
        let number = place.number();
        if number == 0 {
            None
        } else {
            Some(Site { number })
        }
    }

    /// The place of the site.
    pub fn place(self) -> Place
        ensures value { result ≡ self }
        ensures somewhere { 0 < result }
    {
        Place::new(self.number)
    }
}
