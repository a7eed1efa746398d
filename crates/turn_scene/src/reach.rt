ghost use Rattle.std.specs.Prelude.{◌≡◌, ◌==◌, ◌&&◌, not, int_le};
ghost use Rattle.std.specs.List.{list_any};
ghost use Rattle.world_objects.specs.Objects.{prop_of};
ghost use Rattle.turn_scene.specs.Scene.{cave_of};
ghost use Rattle.turn_scene.specs.Reach.{is_carried, is_near, is_fixed, has_prop, has_other_prop};
ghost use Rattle.turn_scene.specs.Reach.{has_prop_up_to, is_dwarf_at, is_dwarf_here};

use crate::liquids::{is_liquid, liquid};
use crate::rules::Rules;
use cave_words::Named;
use cave_world::{Dwarf, PIRATE, State};
use world_objects::{Anchor, Object, Place};

/// Whether an object is carried: it is in the hands. A liquid, however, is carried if it is in the
/// bottle and the bottle is in the hands.
#[tactic(auto, unfolding(crate::specs::Reach::is_carried))]
pub fn is_carried(rules: &Rules<'_>, state: &State, object: Object) -> bool
    ensures { result ≡ is_carried (cave_of rules.now) state.now object }
{
    if rules.is(object, Named::Water) || rules.is(object, Named::Oil) {
        return state.toting(rules.thing(Named::Bottle)) && is_liquid(object, liquid(rules, state));
    }
    state.toting(object)
}

/// Whether an object is in the player's hands, as a liquid is with its bottle, or its first half is
/// where the player is.
#[tactic(auto, unfolding(crate::specs::Reach::is_near))]
pub fn is_near(rules: &Rules<'_>, state: &State, object: Object) -> bool
    ensures { result ≡ is_near (cave_of rules.now) state.now object }
{
    is_carried(rules, state, object) || state.objects.is_first_at(state.trail.here, object)
}

/// Whether there is the object, and it has a prop.
#[tactic(auto, unfolding(crate::specs::Reach::has_prop))]
pub fn has_prop(state: &State, object: Object, prop: i8) -> bool
    ensures { result ≡ has_prop state.now object prop }
{
    !object.is_none() && state.objects.prop(object).value() == prop
}

/// Whether there is the object, and it has another prop.
#[tactic(auto, unfolding(crate::specs::Reach::has_other_prop))]
pub fn has_other_prop(state: &State, object: Object, prop: i8) -> bool
    ensures { result ≡ has_other_prop state.now object prop }
{
    !object.is_none() && state.objects.prop(object).value() != prop
}

/// Whether the object exists and its prop is at most a number.
#[tactic(auto, unfolding(crate::specs::Reach::has_prop_up_to))]
pub fn has_prop_up_to(state: &State, object: Object, most: i8) -> bool
    ensures { result ≡ has_prop_up_to state.now object most }
{
    !object.is_none() && state.objects.prop(object).value() <= most
}

/// Whether there is the object, and its prop is at least a number.
pub fn has_prop_from(state: &State, object: Object, least: i8) -> bool
    ensures { result ≡ (not (object == 0) && int_le least (prop_of state.now.objects object)) }
{
    !object.is_none() && least <= state.objects.prop(object).value()
}

fn is_at(place: Place, dwarf: &Dwarf) -> bool
    ensures { result ≡ is_dwarf_at place dwarf.now }
{
    dwarf.place == place
}

fn some_is_at(place: Place, dwarves: &[Dwarf]) -> bool
    ensures { result ≡ list_any (is_dwarf_at place) dwarves.now }
{
    dwarves.iter().any(|dwarf| is_at(place, dwarf))
}

/// Whether one of the dwarves before the pirate, once they are angry, is where the player is.
#[tactic(auto, unfolding(crate::specs::Reach::is_dwarf_here))]
pub fn is_dwarf_here(state: &State) -> bool
    ensures { result ≡ is_dwarf_here state.now }
{
    2 <= state.dwarves.anger.number() && some_is_at(state.trail.here, &state.dwarves.each[..PIRATE])
}

/// Whether an object can't be moved.
#[tactic(auto, unfolding(crate::specs::Reach::is_fixed))]
pub fn is_fixed(state: &State, object: Object) -> bool
    ensures { result ≡ is_fixed state.now object }
{
    match state.objects.anchor(object) {
        Anchor::Loose => false,
        Anchor::Fixed | Anchor::At(_) => true,
    }
}
