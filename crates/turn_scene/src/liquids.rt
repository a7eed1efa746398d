//! The liquid of a lake, and the liquid in the bottle.

ghost use Rattle.std.specs.Prelude.{◌≡◌};
ghost use Rattle.turn_scene.specs.Reach.{is_liquid, lake_of, liquid_of};
ghost use Rattle.turn_scene.specs.Scene.{cave_of};

use crate::conditions::{PlaceCondition, has_condition_of};
use crate::props::{BOTTLE_OF_OIL, BOTTLE_OF_WATER};
use crate::rules::Rules;
use cave_words::Named;
use cave_world::State;
use world_objects::Object;

/// Whether an object is the liquid that is there, if any is. Object 0 is none.
pub fn is_liquid(object: Object, liquid: Option<Object>) -> bool
    ensures { result ≡ is_liquid object liquid }
{
    match liquid {
        Some(liquid) => !object.is_none() && liquid == object,
        None => false,
    }
}

/// The liquid of the lake where the player is, if there is one: object 0 if it has no name.
#[tactic(auto, unfolding(crate::specs::Reach::lake_of))]
pub fn lake(rules: &Rules<'_>, state: &State) -> Option<Object>
    ensures { result ≡ lake_of (cave_of rules.now) state.now }
{
    let here = state.trail.here;
    if !has_condition_of(rules, here, PlaceCondition::Liquid) {
        return None;
    }
    if has_condition_of(rules, here, PlaceCondition::Oil) {
        Some(rules.thing(Named::Oil))
    } else {
        Some(rules.thing(Named::Water))
    }
}

/// The liquid in the bottle, if there is one: object 0 if it has no name.
#[tactic(auto, unfolding(crate::specs::Reach::liquid_of))]
pub fn liquid(rules: &Rules<'_>, state: &State) -> Option<Object>
    ensures { result ≡ liquid_of (cave_of rules.now) state.now }
{
    let bottle = rules.thing(Named::Bottle);
    if bottle.is_none() {
        return None;
    }
    match state.objects.prop(bottle).value() {
        BOTTLE_OF_WATER => Some(rules.thing(Named::Water)),
        BOTTLE_OF_OIL => Some(rules.thing(Named::Oil)),
        _ => None,
    }
}
