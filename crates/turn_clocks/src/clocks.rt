ghost use Rattle.std.specs.Prelude.{◌≡◌};
ghost use Rattle.turn_scene.specs.Scene.{cave_of, scene_of};
ghost use Rattle.turn_scene.specs.Bounds.{GoesOnSaying, HasRoom, parts_of_clocks};
ghost use Rattle.turn_scene.specs.Rows.{act_of, PlaysBy};
ghost use Rattle.turn_clocks.specs.Clocks.{tick_clocks, run_clocks};

use crate::first_clock::{dismiss_all, dismiss_bear, first_clock_runs};
use crate::lamp::run_lamp;
use crate::repository::close_cave;
use cave_words::Named;
use cave_world::{RowNotes, Table};
use data_rows::{PlaceRole, Role};
use turn_scene::props::{AXE_FREE, CHAIN_UNLOCKED, FISSURE_OPEN, GRATE_LOCKED};
use turn_scene::{Rules, Scene, is_bound, rows};
use world_objects::Place;

/// What follows after the clocks and the lamp have gone on by a turn.
#[derive(Clone, Copy, Debug, PartialEq, Eq)]
pub enum Clocks {
    /// The command is read.
    GoOn,
    /// The player gives up, since the lamp has gone out.
    GaveUp,
    /// The cave is closed, and the player arrives at a place.
    Closed(Place),
}

/// The clocks and the lamp go on by a turn. Returns what follows.
#[tactic(auto, unfolding(crate::specs::Clocks::run_clocks))]
pub fn run_clocks<N: RowNotes>(rules: &Rules<'_>, scene: &mut Scene<'_, N>) -> Clocks
    requires { HasRoom parts_of_clocks scene.old }
    ensures clocks { act_of (scene_of N.rows scene.new) result
        ≡ run_clocks (cave_of rules.now) (scene_of N.rows scene.old) }
    ensures says { GoesOnSaying parts_of_clocks scene.old scene.new }
{
    if tick_clocks(rules, scene) {
        return Clocks::Closed(scene.state.trail.here);
    }
    run_lamp(rules, scene)
}

/// One of the clocks goes on by a turn, if one runs. Returns whether that closed the cave.
#[tactic(auto, unfolding(crate::specs::Clocks::tick_clocks, crate::specs::Clocks::clock_rows, crate::specs::FirstClock::begin_closing))]
fn tick_clocks<N: RowNotes>(rules: &Rules<'_>, scene: &mut Scene<'_, N>) -> bool
    requires { HasRoom 1 scene.old }
    ensures clock { PlaysBy N.rows tick_clocks 1 rules.now tt scene.old scene.new result }
{
    rows! { scene, Table::Clocks, false;
        let runs = first_clock_runs(rules, scene);
        let first_clock = scene.state.closing.first_clock;
        runs && first_clock == 1 => {
            let chain = rules.thing(Named::Chain);
            let axe = rules.thing(Named::Axe);
            scene.set_prop(rules.thing(Named::Grate), GRATE_LOCKED);
            scene.set_prop(rules.thing(Named::Fissure), FISSURE_OPEN);
            dismiss_all(&mut scene.state.dwarves.each);
            scene.troll_goes(rules);
            dismiss_bear(rules, scene);
            scene.set_prop(chain, CHAIN_UNLOCKED);
            scene.loosen(chain);
            scene.set_prop(axe, AXE_FREE);
            scene.loosen(axe);
            scene.say(Role::Closing);
            scene.state.closing.first_clock = -1;
            scene.state.closing.is_closing = true;
        };
        runs => { scene.state.closing.first_clock -= 1; };
        let second_clock = scene.state.closing.second_clock;
        first_clock == -1 && second_clock == 1 && !scene.state.closing.is_closed
            && is_bound(rules, PlaceRole::Ne) && is_bound(rules, PlaceRole::Sw) => {
            scene.state.closing.second_clock -= 1;
            close_cave(rules, scene);
        } -> true;
        first_clock == -1 && 0 <= second_clock => { scene.state.closing.second_clock -= 1; };
    }
}
