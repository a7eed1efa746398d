//! Laws about where objects are.

ghost use Rattle.std.specs.Prelude.{◌<◌};
ghost use Rattle.turn_laws.specs.ObjectLaws.{IsInOnePlace, StayInOnePlace};

use cave_world::State;
use world_objects::Object;

/// In each state an object is in one place: if it is in the hands its first half is in no list, and
/// each half is in the list of the place where the object says it is, and in no other.
pub fn object_is_in_one_place(state: &State, object: Object)
    ensures { 0 < object → IsInOnePlace state.now.objects object }
{
    // These three contracts together are the law.
    let _in_hands = state.objects.is_in_hands(object);
    let _spot = state.objects.spot(object);
    let _anchor = state.objects.anchor(object);
}

/// Each half of an object is in the list of just one place, or in none, and a first half is where
/// its object says: this holds as a game begins, and each line preserves it.
#[tactic(auto, using(crate::proofs::OnePlace::stay_in_one_place))]
pub fn objects_stay_in_one_place()
    ensures { StayInOnePlace }
{}
