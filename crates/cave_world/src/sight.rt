ghost use Rattle.std.specs.Prelude.{◌≡◌, ◌<◌};
ghost use Rattle.cave_world.specs.Sight.{has_condition, forced, dark};

use crate::motion::Motion;
use crate::state::State;
use cave_data::Cave;
use world_objects::{Object, Place};

/// The bit of the places that have light.
pub const LIGHT_BIT: u8 = 0;

/// The prop of a burning lamp.
pub const LAMP_ON: i8 = 1;

/// Whether a condition of the cave is set for a place.
#[tactic(auto, unfolding(crate::specs::Sight::has_condition))]
pub fn has_condition(cave: &Cave, place: Place, bit: u8) -> bool
    requires { bit < 32 }
    ensures { result ≡ has_condition cave.now place bit }
{
    (cave.cond(place.number()) >> bit) % 2 == 1
}

/// Whether a place has a forced motion, which moves the player on from it.
#[tactic(auto, unfolding(crate::specs::Sight::forced))]
pub fn forced(cave: &Cave, place: Place) -> bool
    ensures { result ≡ forced cave.now place }
{
    let any = Motion::Any.number();
    match cave.travel(place.number()) {
        [row, ..] => row.motions.first() == Some(&any),
        [] => false,
    }
}

impl State {
    /// Whether the player sees nothing: the place has no light, and no burning lamp is at hand.
    #[tactic(auto, unfolding(crate::specs::Sight::dark))]
    pub fn dark(&self, cave: &Cave, lamp: Object) -> bool
        ensures { result ≡ dark cave.now lamp self.now }
    {
        !has_condition(cave, self.trail.here, LIGHT_BIT)
            && !(self.here(lamp) && self.objects.prop(lamp).value() == LAMP_ON)
    }
}
