//! The conditions that a place may have.

ghost use Rattle.std.specs.Prelude.{◌≡◌, ◌<◌};
ghost use Rattle.turn_scene.specs.Places.{bit_of, has_condition_of};
ghost use Rattle.turn_scene.specs.Scene.{cave_of};

use crate::rules::Rules;
use cave_world::has_condition;
use world_objects::Place;

/// A condition that rules ask of a place, each with its own bit. Bit 0, light, isn't here:
/// `State::dark` asks for it, as it asks whether the player sees anything.
#[derive(Clone, Copy, Debug, PartialEq, Eq)]
pub enum PlaceCondition {
    /// The liquid of the place is oil.
    Oil,
    /// The place has a lake: of oil, or otherwise of water.
    Liquid,
    /// The pirate doesn't come to the place, and no dwarf bars a way out of it.
    NoPirate,
}

impl PlaceCondition {
    /// The bit of the condition.
    pub fn bit(self) -> u8
        ensures value { result ≡ bit_of self }
        ensures within { result < 32 }
    {
        match self {
            PlaceCondition::Oil => 1,
            PlaceCondition::Liquid => 2,
            PlaceCondition::NoPirate => 3,
        }
    }
}

/// Whether a place has a condition.
pub fn has_condition_of(rules: &Rules<'_>, place: Place, condition: PlaceCondition) -> bool
    ensures { result ≡ has_condition_of (cave_of rules.now) place condition }
{
    has_condition(rules.cave, place, condition.bit())
}
