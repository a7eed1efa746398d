ghost use Rattle.std.specs.Prelude.{◌≡◌};

use crate::place::Place;
use crate::spot::{Anchor, Spot};
use std::marker::Model;

/// The code of a spot that is away, and of an anchor that is loose.
const NOWHERE_CODE: u16 = 0;

/// The code of the spot of an object in the hands.
const IN_HANDS_CODE: u16 = 1;

/// The code of an anchor that is fixed.
const FIXED_CODE: u16 = 1;

/// How much greater the code of a place is than its number.
const FIRST_PLACE_CODE: u16 = 2;

/// A spot in two bytes.
#[derive(Clone, Copy, Debug, PartialEq, Eq)]
pub struct PackedSpot {
    code: u16,
}

impl Model for PackedSpot {
    ghost use Rattle.world_objects.specs.declared.spot.Spot.{Spot};

    ghost Value = { Spot };

    ghost use Rattle.world_objects.specs.Packed.{spot_of_code, code_of_spot, IsCode, spot_back};

    ghost view = { λ s. spot_of_code s.code };

    ghost invariant = { λ s. IsCode s.code };

    ghost inverse = { λ s. record { code = code_of_spot s } };

    ghost inverse_ok = { λ s h i. record { code = spot_back s.code i } };
}

impl PackedSpot {
    /// A spot, packed.
    pub fn new(spot: Spot) -> PackedSpot
        ensures { result ≡ spot }
    {
        match spot {
            Spot::Away => PackedSpot { code: NOWHERE_CODE },
            Spot::InHands => PackedSpot {
                code: IN_HANDS_CODE,
            },
            Spot::At(site) => PackedSpot {
                code: site.place().number() + FIRST_PLACE_CODE,
            },
        }
    }

    /// The spot that was packed.
    pub fn spot(self) -> Spot
        ensures { result ≡ self }
    {
        match self.code {
            NOWHERE_CODE => Spot::Away,
            IN_HANDS_CODE => Spot::InHands,
            code => Spot::at(Place::new(code - FIRST_PLACE_CODE)),
        }
    }
}

/// An anchor in two bytes.
#[derive(Clone, Copy, Debug, PartialEq, Eq)]
pub struct PackedAnchor {
    code: u16,
}

impl Model for PackedAnchor {
    ghost use Rattle.world_objects.specs.declared.spot.Anchor.{Anchor};

    ghost Value = { Anchor };

    ghost use Rattle.world_objects.specs.Packed.{anchor_of_code, code_of_anchor, IsCode};
    ghost use Rattle.world_objects.specs.Packed.{anchor_back};

    ghost view = { λ a. anchor_of_code a.code };

    ghost invariant = { λ a. IsCode a.code };

    ghost inverse = { λ a. record { code = code_of_anchor a } };

    ghost inverse_ok = { λ a h i. record { code = anchor_back a.code i } };
}

impl PackedAnchor {
    /// An anchor, packed.
    pub fn new(anchor: Anchor) -> PackedAnchor
        ensures { result ≡ anchor }
    {
        match anchor {
            Anchor::Loose => PackedAnchor { code: NOWHERE_CODE },
            Anchor::Fixed => PackedAnchor { code: FIXED_CODE },
            Anchor::At(site) => PackedAnchor {
                code: site.place().number() + FIRST_PLACE_CODE,
            },
        }
    }

    /// The anchor that was packed.
    pub fn anchor(self) -> Anchor
        ensures { result ≡ self }
    {
        match self.code {
            NOWHERE_CODE => Anchor::Loose,
            FIXED_CODE => Anchor::Fixed,
            code => Anchor::at(Place::new(code - FIRST_PLACE_CODE)),
        }
    }
}
