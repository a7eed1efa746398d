ghost use Rattle.std.specs.Prelude.{◌≡◌, ◌<◌, [], ◌∷◌};
ghost use Rattle.turn_scene.specs.Bounds.{GoesOnSaying, HasRoom};
ghost use Rattle.turn_scene.specs.Scene.{cave_of, scene_of};
ghost use Rattle.cave_world.specs.Limits as defined;
ghost use Rattle.turn_scene.specs.Rows.{Does, by_table};
ghost use Rattle.cave_world.specs.declared.tables.Table.TheVariants as table;
ghost use Rattle.turn_dwarves.specs.Knives.{no_attack};
ghost use Rattle.turn_dwarves.specs.Waking.{without_dwarf, let_one_leave, with_dwarf_at};
ghost use Rattle.turn_dwarves.specs.Waking.{after_keeping_one_apart, waking_rows};
ghost use Rattle.turn_scene.specs.Effects.{Changes, for_each_from};

use crate::band::{self, dwarf_of, set_dwarf};
use cave_words::Named;
use cave_world::{Dwarf, PIRATE, RowNotes, Table};
use data_rows::{PlaceRole, Role};
use turn_scene::{Rules, Scene, is_bound, is_in_the_depths, place_named, rows};
use world_objects::Place;

/// How angry sleeping dwarves are.
pub const ASLEEP: u16 = 0;

/// How angry stirring dwarves are.
pub const STIRRING: u16 = 1;

/// How angry dwarves are that have just woken.
pub const AWAKE: u16 = 2;

/// Keeps the dwarves before the pirate apart from the player, and makes them forget where they came
/// from.
fn keep_apart<N: RowNotes>(rules: &Rules<'_>, scene: &mut Scene<'_, N>)
    ensures scene { scene_of N.rows scene.new
        ≡ for_each_from 0 defined.PIRATE (after_keeping_one_apart (cave_of rules.now))
        (scene_of N.rows scene.old) }
    ensures says { GoesOnSaying 0 scene.old scene.new }
{
    for number in 0..PIRATE {
        keep_one_apart(rules, number, scene);
    }
}

/// In the depths, dwarves that stir may wake.
#[tactic(auto, unfolding(crate::specs::Waking::waking_rows, crate::specs::Waking::wake))]
pub fn try_waking<N: RowNotes>(rules: &Rules<'_>, scene: &mut Scene<'_, N>)
    requires { HasRoom 1 scene.old }
    ensures rows { Does N.rows (by_table table.Waking waking_rows ∷ []) 1 rules.now
        no_attack scene.old scene.new }
{
    rows! { scene, Table::Waking;
        !is_in_the_depths(rules, scene.state) => {};
        scene.happens(95) => {};
        otherwise => band::set_anger(AWAKE), self::let_one_leave(rules), self::let_one_leave(rules),
            self::keep_apart(rules), say(Role::AxeThrown), bring(rules.thing(Named::Axe));
    }
}

/// A dwarf vanishes: its place is now 0.
#[tactic(auto, unfolding(crate::specs::Waking::without_dwarf))]
fn remove<N: RowNotes>(number: usize, scene: &mut Scene<'_, N>)
    requires { number < defined.PIRATE }
    ensures { Changes N.rows (without_dwarf number) scene.old scene.new }
{
    let dwarf = dwarf_of(scene.state, number);
    let gone = Dwarf {
        place: Place::new(0),
        last: dwarf.last,
        has_seen: dwarf.has_seen,
    };
    set_dwarf(number, &gone, scene.state);
}

/// Draws one of those before the pirate, which is then gone in half of the cases.
#[tactic(auto, unfolding(crate::specs::Waking::leaving_rows))]
fn let_one_leave<N: RowNotes>(rules: &Rules<'_>, scene: &mut Scene<'_, N>)
    ensures rows { Does N.rows (let_one_leave ∷ []) 0 rules.now no_attack scene.old scene.new }
{
    let number = scene.state.stream.draw(PIRATE as u32);
    rows! { scene, Table::Leaving;
        scene.happens(50) => self::remove(number as usize);
    }
}

/// Puts a dwarf at a place, as if it had also come from there.
#[tactic(auto, unfolding(crate::specs::Waking::with_dwarf_at))]
fn settle_dwarf<N: RowNotes>(number: usize, place: Place, scene: &mut Scene<'_, N>)
    requires { number < defined.PIRATE }
    ensures { Changes N.rows (with_dwarf_at number place) scene.old scene.new }
{
    let dwarf = dwarf_of(scene.state, number);
    let settled = Dwarf {
        place,
        last: place,
        has_seen: dwarf.has_seen,
    };
    set_dwarf(number, &settled, scene.state);
}

/// A dwarf that is where the player is goes to another place, if one is named for it; any dwarf
/// forgets where it came from.
#[tactic(auto, unfolding(crate::specs::Waking::after_keeping_one_apart, crate::specs::Waking::apart_rows))]
fn keep_one_apart<N: RowNotes>(rules: &Rules<'_>, number: usize, scene: &mut Scene<'_, N>)
    requires { number < defined.PIRATE }
    ensures scene { scene_of N.rows scene.new
        ≡ after_keeping_one_apart (cave_of rules.now) number (scene_of N.rows scene.old) }
    ensures says { GoesOnSaying 0 scene.old scene.new }
{
    let its_place = dwarf_of(scene.state, number).place;
    let dwarfalt = PlaceRole::Dwarfalt;
    rows! { scene, Table::Apart;
        its_place == scene.state.trail.here && is_bound(rules, dwarfalt)
            => self::settle_dwarf(number, place_named(rules.cave, dwarfalt).unwrap_or(its_place));
        otherwise => self::settle_dwarf(number, its_place);
    }
}
