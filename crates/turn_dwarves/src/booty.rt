//! What the pirate does to the treasures.

ghost use Rattle.std.specs.Prelude.{◌≡◌};
ghost use Rattle.turn_scene.specs.Bounds.{GoesOnSaying};
ghost use Rattle.turn_scene.specs.Scene.{cave_of, scene_of};
ghost use Rattle.turn_scene.specs.Treasures.{treasures};
ghost use Rattle.turn_scene.specs.Effects.{Changes};
ghost use Rattle.turn_scene.specs.Rows.{Does, deed};
ghost use Rattle.turn_dwarves.specs.Pirate.{fair, is_carried_booty, carries_booty, treasure_near};
ghost use Rattle.turn_dwarves.specs.Pirate.{after_stealing, after_stealing_all, take_booty};
ghost use Rattle.turn_dwarves.specs.Pirate.{with_pirate_home};

use crate::band::{dwarf_of, set_dwarf};
use cave_words::Named;
use cave_world::{Dwarf, PIRATE, RowNotes, Table};
use data_rows::PlaceRole;
use turn_scene::treasures::{FIRST_TREASURE, LAST_TREASURE};
use turn_scene::{Rules, Scene, is_carried, is_fixed, is_home_here, is_near, place_named, rows};
use world_objects::Object;

/// Whether a treasure is fair game: any is, except the pyramid at its own home or at the emerald's.
#[tactic(auto, unfolding(crate::specs::Pirate::fair))]
fn is_fair<N: RowNotes>(rules: &Rules<'_>, object: Object, scene: &Scene<'_, N>) -> bool
    ensures { result ≡ fair (deed (cave_of rules.now) object (scene_of N.rows scene.now)) }
{
    !(rules.is(object, Named::Pyramid)
        && (is_home_here(rules, scene.state, rules.thing(Named::Pyramid))
            || is_home_here(rules, scene.state, rules.thing(Named::Emerald))))
}

/// Whether the player carries a treasure that is fair game.
#[tactic(auto, unfolding(crate::specs::Pirate::is_carried_booty))]
fn is_carried_booty<N: RowNotes>(rules: &Rules<'_>, object: Object, scene: &Scene<'_, N>) -> bool
    ensures { result ≡ is_carried_booty (cave_of rules.now) (scene_of N.rows scene.now) object }
{
    is_fair(rules, object, scene) && is_carried(rules, scene.state, object)
}

/// Whether the player carries something that the pirate takes.
#[tactic(auto, using(crate::proofs::Treasures::walking), unfolding(crate::specs::Pirate::carries_booty))]
pub fn carries_booty<N: RowNotes>(rules: &Rules<'_>, scene: &Scene<'_, N>) -> bool
    ensures { result ≡ carries_booty (deed (cave_of rules.now) tt (scene_of N.rows scene.now)) }
{
    for number in FIRST_TREASURE..LAST_TREASURE + 1 {
        if is_carried_booty(rules, Object::new(number), scene) {
            return true;
        }
    }
    false
}

/// Whether a treasure is at hand.
#[tactic(auto, using(crate::proofs::Treasures::walking), unfolding(crate::specs::Pirate::treasure_near))]
pub fn is_treasure_near<N: RowNotes>(rules: &Rules<'_>, scene: &Scene<'_, N>) -> bool
    ensures { result ≡ treasure_near (deed (cave_of rules.now) tt (scene_of N.rows scene.now)) }
{
    for number in FIRST_TREASURE..LAST_TREASURE + 1 {
        if is_near(rules, scene.state, Object::new(number)) {
            return true;
        }
    }
    false
}

/// Brings a treasure that is fair game to the pirate's chest, if it is carried, or here and loose.
#[tactic(auto, unfolding(crate::specs::Pirate::after_stealing, crate::specs::Pirate::theft_rows))]
fn steal<N: RowNotes>(rules: &Rules<'_>, object: Object, scene: &mut Scene<'_, N>)
    ensures scene { scene_of N.rows scene.new
        ≡ after_stealing (cave_of rules.now) object (scene_of N.rows scene.old) }
    ensures says { GoesOnSaying 0 scene.old scene.new }
{
    rows! { scene, Table::Theft;
        !is_fair(rules, object, scene) => {};
        is_carried(rules, scene.state, object) => send(rules, object, PlaceRole::Chest);
        scene.state.at(object) && !is_fixed(scene.state, object)
            => send(rules, object, PlaceRole::Chest);
    }
}

/// The pirate takes all that it can get, one treasure after another.
#[tactic(auto, using(crate::proofs::Treasures::walking))]
fn steal_all<N: RowNotes>(rules: &Rules<'_>, scene: &mut Scene<'_, N>)
    ensures scene { scene_of N.rows scene.new
        ≡ after_stealing_all (cave_of rules.now) treasures (scene_of N.rows scene.old) }
    ensures says { GoesOnSaying 0 scene.old scene.new }
{
    for number in FIRST_TREASURE..LAST_TREASURE + 1 {
        steal(rules, Object::new(number), scene);
    }
}

/// The pirate goes home to its chest, and no longer sees the player.
#[tactic(auto, unfolding(crate::specs::Pirate::with_pirate_home))]
pub fn go_home<N: RowNotes>(rules: &Rules<'_>, scene: &mut Scene<'_, N>)
    ensures { Changes N.rows (with_pirate_home (cave_of rules.now)) scene.old scene.new }
{
    let pirate = dwarf_of(scene.state, PIRATE);
    let pirate = Dwarf {
        place: place_named(rules.cave, PlaceRole::Chest).unwrap_or(pirate.place),
        last: place_named(rules.cave, PlaceRole::Chest).unwrap_or(pirate.last),
        has_seen: false,
    };
    set_dwarf(PIRATE, &pirate, scene.state);
}

/// The pirate leaves its message, takes all that it can get, and goes home with it.
#[tactic(auto, unfolding(crate::specs::Pirate::take_booty))]
pub fn take_booty<N: RowNotes>(rules: &Rules<'_>, scene: &mut Scene<'_, N>)
    ensures effects { Does N.rows take_booty 0 rules.now tt scene.old scene.new }
{
    scene.send(rules, rules.thing(Named::Message), PlaceRole::Message);
    steal_all(rules, scene);
    go_home(rules, scene);
}
