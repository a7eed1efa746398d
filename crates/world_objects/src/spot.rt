ghost use Rattle.std.specs.Prelude.{◌≡◌, ◌≢◌, Some};
ghost use Rattle.world_objects.specs.Objects.{place_of_spot, is_spot_in_hands, is_away_spot};
ghost use Rattle.world_objects.specs.Objects.{spot_at, place_of_anchor, anchor_at};

use crate::place::Place;
use crate::site::Site;

/// Where the first half of an object is.
#[derive(Clone, Copy, Debug, PartialEq, Eq)]
pub enum Spot {
    Away,
    InHands,
    At(Site),
}

impl Spot {
    /// The spot at a place; place 0 is away.
    pub fn at(place: Place) -> Spot
        ensures { result ≡ spot_at place }
    {
        match Site::at(place) {
            Some(site) => Spot::At(site),
            None => Spot::Away,
        }
    }

    /// The place where the half is.
    pub fn place(&self) -> Option<Place>
        ensures value { result ≡ place_of_spot self.now }
        ensures somewhere { result ≢ Some 0 }
    {
        match self {
            Spot::At(site) => Some(site.place()),
            Spot::Away => None,
            Spot::InHands => None,
        }
    }

    /// Whether the half is in the hands.
    pub fn is_in_hands(&self) -> bool
        ensures { result ≡ is_spot_in_hands self.now }
    {
        match self {
            Spot::InHands => true,
            Spot::Away => false,
            Spot::At(_) => false,
        }
    }

    /// Whether the half is nowhere.
    pub fn is_away(&self) -> bool
        ensures { result ≡ is_away_spot self.now }
    {
        match self {
            Spot::Away => true,
            Spot::InHands => false,
            Spot::At(_) => false,
        }
    }
}

/// What holds an object where it is: nothing, its nature, or a second half that is at a place too.
#[derive(Clone, Copy, Debug, PartialEq, Eq)]
pub enum Anchor {
    Loose,
    Fixed,
    At(Site),
}

impl Anchor {
    /// The anchor of an object whose second half is at a place; at place 0 there is none.
    pub fn at(place: Place) -> Anchor
        ensures { result ≡ anchor_at place }
    {
        match Site::at(place) {
            Some(site) => Anchor::At(site),
            None => Anchor::Loose,
        }
    }

    /// The place where the second half is.
    pub fn place(&self) -> Option<Place>
        ensures value { result ≡ place_of_anchor self.now }
        ensures somewhere { result ≢ Some 0 }
    {
        match self {
            Anchor::At(site) => Some(site.place()),
            Anchor::Loose => None,
            Anchor::Fixed => None,
        }
    }
}
