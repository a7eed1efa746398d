ghost use Rattle.std.specs.Prelude.{◌≡◌, ◌≤ℤ◌, pos, IsTrue, map, [], ◌∷◌};
ghost use Rattle.data_rows.specs.declared.place_role.PlaceRole.TheVariants as place;
ghost use Rattle.turn_scene.specs.Scene.{cave_of, scene_of};
ghost use Rattle.cave_world.specs.declared.tables.Table.TheVariants as table;
ghost use Rattle.turn_scene.specs.Rows.{all_hold, by_table, deed, Does};
ghost use Rattle.turn_scene.specs.Tests.{no, player_at, in_the_depths};
ghost use Rattle.turn_clocks.specs.FirstClock.{all_seen, some_turns_left, dismissed_dwarf};
ghost use Rattle.turn_clocks.specs.FirstClock.{closing_bear_rows};

use cave_words::Named;
use cave_world::{Dwarf, RowNotes, Table};
use data_rows::PlaceRole;
use turn_scene::props::BEAR_DEAD;
use turn_scene::{Rules, Scene, has_prop, is_in_the_depths, is_player_at, rows};
use world_objects::Place;

/// Whether the first clock runs: no treasure counts as unseen, the player is in the depths, but not
/// at y2, and some turns are left.
pub fn first_clock_runs<N: RowNotes>(rules: &Rules<'_>, scene: &Scene<'_, N>) -> bool
    ensures value { result
        ≡ all_hold (all_seen ∷ in_the_depths ∷ no (player_at place.Y2) ∷ some_turns_left ∷ [])
        (deed (cave_of rules.now) tt (scene_of N.rows scene.now)) }
    ensures left { IsTrue result → pos 1 ≤ℤ scene.now.state.now.closing.first_clock }
{
    scene.state.tallies.unseen.number() == 0
        && is_in_the_depths(rules, scene.state)
        && !is_player_at(rules, scene.state, PlaceRole::Y2)
        && 0 < scene.state.closing.first_clock
}

fn dismiss(dwarf: &mut Dwarf)
    ensures { dwarf.new ≡ dismissed_dwarf dwarf.old }
{
    dwarf.place = Place::new(0);
    dwarf.has_seen = false;
}

/// All dwarves are gone.
pub fn dismiss_all(dwarves: &mut [Dwarf])
    ensures { dwarves.new ≡ map dismissed_dwarf dwarves.old }
{
    for dwarf in dwarves.iter_mut() {
        dismiss(dwarf);
    }
}

/// The bear vanishes, unless it is dead.
#[tactic(auto, unfolding(crate::specs::FirstClock::closing_bear_rows))]
pub fn dismiss_bear<N: RowNotes>(rules: &Rules<'_>, scene: &mut Scene<'_, N>)
    ensures rows { Does N.rows (by_table table.ClosingBear closing_bear_rows ∷ []) 0 rules.now tt
        scene.old scene.new }
{
    let bear = rules.thing(Named::Bear);
    rows! { scene, Table::ClosingBear;
        has_prop(scene.state, bear, BEAR_DEAD) => {};
        otherwise => destroy(bear);
    }
}
