ghost use Rattle.std.specs.Prelude.{◌≡◌};
ghost use Rattle.cave_world.specs.State.{no_dwarf, asleep};

use crate::count::Count;
use world_objects::Place;

/// How many dwarves there are, with the pirate.
pub const DWARVES: usize = 6;

/// The number of the pirate, who comes after the other dwarves. They count from 0.
pub const PIRATE: usize = DWARVES - 1;

/// A dwarf: where it is and was, which is place 0 if it is gone, and whether it has seen the
/// player.
#[derive(Clone, Copy, Debug, PartialEq, Eq)]
pub struct Dwarf {
    pub place: Place,
    pub last: Place,
    pub has_seen: bool,
}

/// The knife that a dwarf threw.
#[derive(Clone, Copy, Debug, PartialEq, Eq)]
pub enum Knife {
    /// There is no knife that the player could still ask for.
    Unthrown,
    /// It was thrown at this place.
    At(Place),
    /// The game has said that knives vanish.
    Vanished,
}

/// How angry dwarves can get.
const MAX_ANGER: u16 = 13;

/// The most dwarves killed that are counted.
const MAX_KILLS: u16 = 60_000;

/// The dwarves, how angry they are, and how many have been killed.
#[derive(Clone, Copy, Debug, PartialEq, Eq)]
pub struct Dwarves {
    pub anger: Count<MAX_ANGER>,
    pub kills: Count<MAX_KILLS>,
    pub knife: Knife,
    pub each: [Dwarf; DWARVES],
}

impl Dwarf {
    /// A dwarf that is nowhere.
    pub fn nowhere() -> Dwarf
        ensures { result ≡ no_dwarf }
    {
        Dwarf {
            place: Place::new(0),
            last: Place::new(0),
            has_seen: false,
        }
    }
}

impl Dwarves {
    /// No dwarf is anywhere, and none has seen the player.
    #[tactic(auto, unfolding(crate::specs::State::asleep))]
    pub fn asleep() -> Dwarves
        ensures { result ≡ asleep }
    {
        Dwarves {
            anger: Count::new(0),
            kills: Count::new(0),
            knife: Knife::Unthrown,
            each: [Dwarf::nowhere(); DWARVES],
        }
    }
}
