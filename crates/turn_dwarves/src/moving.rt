ghost use Rattle.std.specs.Prelude.{◌≡◌, ◌<◌, ◌≤◌, true, length, take, slice_index_or};
ghost use Rattle.cave_words.specs.Stream.{next, number_drawn};
ghost use Rattle.turn_scene.specs.Bounds.{GoesOnSaying};
ghost use Rattle.turn_scene.specs.Scene.{cave_of, scene_of};
ghost use Rattle.cave_world.specs.Limits.{dwarf_count};
ghost use Rattle.turn_scene.specs.Rows.{PlaysBy};
ghost use Rattle.turn_dwarves.specs.Ahead as defined;
ghost use Rattle.turn_dwarves.specs.Moving.{chosen_way, dwarf_in_sight, after_dwarf_move};

use crate::ahead::{MAX_CANDIDATES, MAX_SOUGHT, places_ahead};
use crate::band::{dwarf_of, set_dwarf};
use crate::haunt::Haunt;
use arrayvec::ArrayVec;
use cave_words::Stream;
use cave_world::{Dwarf, PIRATE, RowNotes, Table};
use turn_scene::{Rules, Scene, is_in_the_depths, rows};
use world_objects::Place;

/// Draws one of the first of some places.
fn draw_place(places: &ArrayVec<Haunt, MAX_SOUGHT>, count: usize, stream: &mut Stream) -> Place
    requires some { 0 < count }
    requires few { count ≤ defined.MAX_CANDIDATES }
    requires there { count ≤ length places.now.items }
    ensures place { result
        ≡ slice_index_or (take count places.now.items) (number_drawn count stream.old) 0 }
    ensures moves_on { stream.new ≡ next stream.old }
{
    let drawn = stream.draw(count as u32);
    places[drawn as usize].place()
}

/// Draws one of the ways of a dwarf, even if there is only one.
#[tactic(auto, unfolding(crate::specs::Moving::chosen_way, crate::specs::Ahead::ways_of_dwarf))]
fn choose_way<N: RowNotes>(rules: &Rules<'_>, number: usize, scene: &mut Scene<'_, N>) -> Place
    requires { number < dwarf_count }
    ensures way { PlaysBy N.rows chosen_way 0 rules.now number scene.old scene.new result }
{
    let dwarf = dwarf_of(scene.state, number);
    let ahead = places_ahead(rules, number == PIRATE, &dwarf);
    rows! { scene, Table::DwarfWays;
        ahead.is_empty() => { scene.state.stream.draw(1); } -> dwarf.last;
        MAX_CANDIDATES < ahead.len()
            => {} -> draw_place(&ahead, MAX_CANDIDATES, &mut scene.state.stream);
        otherwise => {} -> draw_place(&ahead, ahead.len(), &mut scene.state.stream);
    }
}

/// A dwarf that sees the player comes to the player.
fn come(dwarf: Dwarf, here: Place) -> Dwarf
    ensures { result ≡ record dwarf { place = here; has_seen = true } }
{
    Dwarf {
        place: here,
        last: dwarf.last,
        has_seen: true,
    }
}

/// A dwarf that has moved comes to the player whom it sees, or forgets the player.
#[tactic(auto, unfolding(crate::specs::Moving::dwarf_in_sight))]
fn dwarf_in_sight<N: RowNotes>(rules: &Rules<'_>, dwarf: Dwarf, scene: &mut Scene<'_, N>) -> Dwarf
    ensures row { PlaysBy N.rows dwarf_in_sight 0 rules.now dwarf scene.old scene.new result }
{
    let here = scene.state.trail.here;
    rows! { scene, Table::DwarfSight, come(dwarf, here);
        dwarf.has_seen && is_in_the_depths(rules, scene.state) => {};
        dwarf.place == here => {};
        dwarf.last == here => {};
        otherwise => {} -> Dwarf { place: dwarf.place, last: dwarf.last, has_seen: false };
    }
}

/// Moves the dwarf with a number.
#[tactic(auto, unfolding(crate::specs::Moving::after_dwarf_move))]
pub fn move_dwarf<N: RowNotes>(rules: &Rules<'_>, number: usize, scene: &mut Scene<'_, N>)
    requires { number < dwarf_count }
    ensures scene { scene_of N.rows scene.new
        ≡ after_dwarf_move (cave_of rules.now) number (scene_of N.rows scene.old) }
    ensures says { GoesOnSaying 0 scene.old scene.new }
{
    let dwarf = dwarf_of(scene.state, number);
    let place = choose_way(rules, number, scene);
    let on_way = Dwarf {
        place,
        last: dwarf.place,
        has_seen: dwarf.has_seen,
    };
    let moved = dwarf_in_sight(rules, on_way, scene);
    set_dwarf(number, &moved, scene.state);
}
