ghost use Rattle.std.specs.Prelude.{◌≡◌, ◌≤ℤ◌, pos};
ghost use Rattle.turn_scene.specs.Scene.{cave_of};
ghost use Rattle.turn_scene.specs.Homes.{home, anchor_by, hold_of, second_home, is_at_home};
ghost use Rattle.turn_scene.specs.Homes.{is_home_here, is_home_elsewhere};
ghost use Rattle.base_lines.specs.Numbers.{LAST_PLACE};

use crate::rules::Rules;
use cave_world::State;
use world_objects::{Anchor, Object, Place, Spot};

/// What a second number of a row of places says of the object's second half.
pub fn anchor_by(second: i16) -> Anchor
    requires { second ≤ℤ pos LAST_PLACE }
    ensures { result ≡ anchor_by second }
{
    if second < 0 {
        Anchor::Fixed
    } else {
        Anchor::at(Place::new(second as u16))
    }
}

/// Where an object is as the game begins.
pub fn home(rules: &Rules<'_>, object: Object) -> Place
    ensures { result ≡ home (cave_of rules.now) object }
{
    let (home, _) = rules.cave.placement(u16::from(object.number()));
    Place::new(home)
}

/// What holds an object where it is as the game begins.
pub fn hold(rules: &Rules<'_>, object: Object) -> Anchor
    ensures { result ≡ hold_of (cave_of rules.now) object }
{
    let (_, second) = rules.cave.placement(u16::from(object.number()));
    anchor_by(second)
}

/// Where the second half of an object is as a game begins; place 0 if it has none.
pub fn second_home(rules: &Rules<'_>, object: Object) -> Place
    ensures { result ≡ second_home (cave_of rules.now) object }
{
    let (_, second) = rules.cave.placement(u16::from(object.number()));
    if second < 0 {
        return Place::new(0);
    }
    Place::new(second as u16)
}

/// Whether the first half of an object is at home, which may be nowhere.
#[tactic(auto, unfolding(crate::specs::Homes::is_at_home))]
pub fn is_at_home(rules: &Rules<'_>, state: &State, object: Object) -> bool
    ensures { result ≡ is_at_home (cave_of rules.now) state.now object }
{
    if object.is_none() {
        return false;
    }
    let home = home(rules, object);
    match state.objects.spot(object) {
        Spot::Away => home.number() == 0,
        Spot::InHands => false,
        Spot::At(site) => site.place() == home,
    }
}

/// Whether the player is where an object is at home.
#[tactic(auto, unfolding(crate::specs::Homes::is_home_here))]
pub fn is_home_here(rules: &Rules<'_>, state: &State, object: Object) -> bool
    ensures { result ≡ is_home_here (cave_of rules.now) state.now object }
{
    !object.is_none() && home(rules, object) == state.trail.here
}

/// Whether an object is at home in another place than the player's.
#[tactic(auto, unfolding(crate::specs::Homes::is_home_elsewhere))]
pub fn is_home_elsewhere(rules: &Rules<'_>, state: &State, object: Object) -> bool
    ensures { result ≡ is_home_elsewhere (cave_of rules.now) state.now object }
{
    !object.is_none() && home(rules, object) != state.trail.here
}
