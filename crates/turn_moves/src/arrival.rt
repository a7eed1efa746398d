ghost use Rattle.std.specs.Prelude.{◌≡◌, ◌+◌, true, false, IsTrue};
ghost use Rattle.std.specs.List.{list_any};
ghost use Rattle.turn_scene.specs.Scene.{cave_of, scene_of};
ghost use Rattle.cave_world.specs.State.{takes_no_command};
ghost use Rattle.turn_scene.specs.Bounds.{GoesOnSaying, HasRoom, MovesOnSaying, SaysUpTo};
ghost use Rattle.turn_scene.specs.Bounds.{parts_of_dwarves, parts_of_place, parts_of_passing};
ghost use Rattle.turn_scene.specs.Bounds.{parts_of_stop, parts_of_text, parts_of_forced_motions};
ghost use Rattle.turn_scene.specs.Bounds.{parts_of_arrival};
ghost use Rattle.turn_scene.specs.Rows.{PlaysBy, act_of};
ghost use Rattle.turn_moves.specs.Arrival.{comes_from, block, meet, come_to};
ghost use Rattle.turn_moves.specs.Arrival.{stop_at, after_forced_motions, after_arrival};
ghost use Rattle.turn_moves.specs.Arrival.{after_description};

use crate::description::{self, stop_here};
use crate::dying;
use crate::journeys::set_forth;
use cave_world::{Dwarf, Motion, PIRATE, RowNotes, Table, forced};
use data_rows::Role;
use turn_dwarves::encounter_dwarves;
use turn_scene::{PlaceCondition, Rules, Scene, has_condition_of, outside_place, rows};
use world_objects::Place;

/// The player arrives at a place, and moves on from there while forced motions are left.
#[tactic(auto, unfolding(crate::specs::Arrival::after_forced_motions))]
pub fn arrive<N: RowNotes>(rules: &Rules<'_>, place: Place, scene: &mut Scene<'_, N>)
    requires { HasRoom (parts_of_arrival scene.old.left) scene.old }
    ensures scene { scene_of N.rows scene.new
        ≡ after_arrival (cave_of rules.now) place (scene_of N.rows scene.old) }
    ensures says { MovesOnSaying (parts_of_arrival scene.old.left) scene.old scene.new }
{
    if stop_at(rules, place, scene) {
        follow_forced_motions(rules, scene);
    }
}

fn comes_from(place: Place, dwarf: &Dwarf) -> bool
    ensures { result ≡ comes_from place dwarf.now }
{
    dwarf.has_seen && dwarf.last == place
}

/// Whether one of the dwarves comes from a place.
fn dwarf_from(place: Place, dwarves: &[Dwarf]) -> bool
    ensures { result ≡ list_any (comes_from place) dwarves.now }
{
    dwarves.iter().any(|dwarf| comes_from(place, dwarf))
}

/// Where the player arrives: a closing cave or a dwarf blocks the way.
#[tactic(auto, unfolding(crate::specs::Arrival::block, crate::specs::Arrival::blocking_rows))]
fn block<N: RowNotes>(rules: &Rules<'_>, new: Place, scene: &mut Scene<'_, N>) -> Place
    requires { HasRoom 1 scene.old }
    ensures row { PlaysBy N.rows block 1 rules.now new scene.old scene.new result }
{
    rows! { scene, Table::Blocking, new;
        scene.state.closing.is_closing && new.number() != 0
            && new.number() <= outside_place(rules.cave).number()
            => say(Role::ClosingExit), panic(rules) -> scene.state.trail.here;
        let here = scene.state.trail.here;
        // Most often no dwarf comes from there, and then the cave isn't asked.
        dwarf_from(new, &scene.state.dwarves.each[..PIRATE]) && new != here
            && !forced(rules.cave, here)
            && !has_condition_of(rules, here, PlaceCondition::NoPirate)
            => say(Role::Blocked) -> here;
    }
}

/// The player comes to a place. Returns whether a forced motion moves the player on from there.
#[tactic(auto, unfolding(crate::specs::Arrival::come_to, crate::specs::Arrival::place_rows))]
fn come_to<N: RowNotes>(rules: &Rules<'_>, place: Place, scene: &mut Scene<'_, N>) -> bool
    requires { HasRoom (parts_of_dwarves + parts_of_place) scene.old }
    ensures stop { act_of (scene_of N.rows scene.new) result
        ≡ come_to (cave_of rules.now) place (scene_of N.rows scene.old) }
    ensures says { GoesOnSaying (parts_of_dwarves + parts_of_place) scene.old scene.new }
    ensures few_on { IsTrue result → SaysUpTo parts_of_text scene.old scene.new }
{
    scene.put_player_at(place);
    let here = scene.state.trail.here;
    rows! { scene, Table::Arrival, false;
        here.number() == 0 => turn_ends::die(rules);
        forced(rules.cave, here) => description::tell_place(rules) -> true;
        has_condition_of(rules, here, PlaceCondition::NoPirate)
            => description::describe_place(rules);
        in meet(rules, scene);
    }
}

/// The dwarves move, and a player who survives them sees the place.
#[tactic(auto, unfolding(crate::specs::Arrival::meet, crate::specs::Arrival::hit_rows))]
fn meet<N: RowNotes>(rules: &Rules<'_>, scene: &mut Scene<'_, N>) -> bool
    requires { HasRoom (parts_of_dwarves + parts_of_place) scene.old }
    ensures row { PlaysBy N.rows meet (parts_of_dwarves + parts_of_place) rules.now tt scene.old
        scene.new result }
    ensures still { result ≡ false }
{
    rows! { scene, Table::Hits, false;
        encounter_dwarves(rules, scene) => dying::die_at(rules, scene.state.trail.here);
        otherwise => description::describe_place(rules);
    }
}

/// The player arrives at a place, if nothing is in the way. Returns whether a forced motion moves
/// the player on.
#[tactic(auto, unfolding(crate::specs::Arrival::stop_at, crate::specs::Arrival::over_rows))]
fn stop_at<N: RowNotes>(rules: &Rules<'_>, place: Place, scene: &mut Scene<'_, N>) -> bool
    requires { HasRoom parts_of_stop scene.old }
    ensures stop { act_of (scene_of N.rows scene.new) result
        ≡ stop_at (cave_of rules.now) place (scene_of N.rows scene.old) }
    ensures says { GoesOnSaying parts_of_stop scene.old scene.new }
    ensures few_on { IsTrue result → SaysUpTo parts_of_passing scene.old scene.new }
    ensures alive { IsTrue result → takes_no_command scene.old.state.now ≡ false }
{
    if scene.state.takes_no_command() {
        return false;
    }
    let place = block(rules, place, scene);
    come_to(rules, place, scene)
}

/// Forced motions move the player on, while any are left.
#[tactic(auto, unfolding(crate::specs::Arrival::after_forced_motions))]
fn follow_forced_motions<N: RowNotes>(rules: &Rules<'_>, scene: &mut Scene<'_, N>)
    requires { HasRoom (parts_of_forced_motions scene.old.left) scene.old }
    ensures scene { scene_of N.rows scene.new
        ≡ after_forced_motions scene.old.left (cave_of rules.now)
        (act_of (scene_of N.rows scene.old) true) }
    ensures says { MovesOnSaying (parts_of_forced_motions scene.old.left) scene.old scene.new }
{
    if scene.left == 0 {
        scene.say(Role::ForcedLimit);
        return;
    }
    scene.left -= 1;
    let next = set_forth(rules, Motion::Any.number(), scene);
    if stop_at(rules, next, scene) {
        follow_forced_motions(rules, scene);
    }
}

/// Describes the player's place again, and forced motions move the player on in the same way.
#[tactic(auto, unfolding(crate::specs::Arrival::after_forced_motions))]
pub fn describe_here<N: RowNotes>(rules: &Rules<'_>, scene: &mut Scene<'_, N>)
    requires { HasRoom (parts_of_arrival scene.old.left) scene.old }
    ensures scene { scene_of N.rows scene.new
        ≡ after_description (cave_of rules.now) (scene_of N.rows scene.old) }
    ensures says { MovesOnSaying (parts_of_arrival scene.old.left) scene.old scene.new }
{
    if stop_here(rules, scene) {
        follow_forced_motions(rules, scene);
    }
}
