//! The bridge that a troll guards.

ghost use Rattle.std.specs.Prelude.{◌≡◌, false, Some, IsTrue, if◌then◌else◌};
ghost use Rattle.turn_moves.specs.Bridge.{bridgehead, bridge, break_bridge, cross_bridge};
ghost use Rattle.turn_scene.specs.Rows.{Does, PlaysBy, deed};
ghost use Rattle.cave_world.specs.declared.tables.Table.TheVariants as table;
ghost use Rattle.cave_words.specs.declared.named.Named.TheVariants as name;
ghost use Rattle.world_objects.specs.Objects.{with_prop};
ghost use Rattle.turn_scene.specs.Parts.{with_objects};
ghost use Rattle.turn_scene.specs.Props as defined;
ghost use Rattle.turn_scene.specs.Reach.{has_prop};
ghost use Rattle.turn_scene.specs.Bounds.{GoesOnSaying, HasRoom, SaysUpTo, parts_of_journey};
ghost use Rattle.turn_scene.specs.Scene.{after_row, cave_of, scene_of, thing};
ghost use Rattle.cave_world.specs.State.{takes_no_command};

use crate::dying::die_at;
use crate::ways::other_end;
use cave_words::Named;
use cave_world::{RowNotes, State, Table};
use data_rows::Role;
use turn_scene::props::{
    BEAR_DEAD, CHASM_UNBRIDGED, TROLL_CALM, TROLL_FLED, TROLL_RETURNING, UNSEEN,
};
use turn_scene::{
    Rules, Scene, has_prop, has_prop_up_to, hold, home, is_carried, rows, second_home,
};
use world_objects::{Place, Prop};

/// Where the bridge leads a player at one of its ends.
#[tactic(auto, unfolding(crate::specs::Bridge::cross_bridge, crate::specs::Bridge::bridge_rows, crate::specs::Bridge::toll_rows, crate::specs::Bridge::bridge))]
pub fn cross_bridge<N: RowNotes>(rules: &Rules<'_>, scene: &mut Scene<'_, N>) -> Place
    requires { HasRoom parts_of_journey scene.old }
    ensures row { PlaysBy N.rows cross_bridge parts_of_journey rules.now tt scene.old scene.new
        result }
    ensures few_on { takes_no_command scene.new.state.now ≡ false → SaysUpTo 1 scene.old scene.new }
{
    match bridge(rules, scene) {
        None => rows! { scene, Table::Bridge;
            otherwise => say(Role::NoWay) -> scene.state.trail.here;
        },
        Some(end) => rows! { scene, Table::Bridge;
            from 2;
            let troll = rules.thing(Named::Troll);
            has_prop(scene.state, troll, TROLL_RETURNING)
                => look(troll, TROLL_RETURNING), set_prop(troll, TROLL_CALM),
                destroy(rules.thing(Named::SecondTroll)), loosen(rules.thing(Named::SecondTroll)),
                move_to(troll, home(rules, troll)), attach(troll, hold(rules, troll)),
                juggle(rules.thing(Named::Chasm)) -> scene.state.trail.here;
            let was_calm = pass_troll(rules, scene.state);
            !is_carried(rules, scene.state, rules.thing(Named::Bear))
                => self::note_toll(was_calm) -> end;
            otherwise => self::note_toll(was_calm), self::break_bridge(rules, end)
                -> scene.state.trail.here;
        },
    }
}

/// A place as an end of a bridge: place 0 is none.
fn bridgehead(place: Place) -> Option<Place>
    ensures { result ≡ bridgehead place }
{
    (place.number() != 0).then_some(place)
}

/// The other end of the bridge, if the player is at one of its ends.
#[tactic(auto, unfolding(crate::specs::Bridge::bridge))]
fn bridge<N: RowNotes>(rules: &Rules<'_>, scene: &Scene<'_, N>) -> Option<Place>
    ensures { result ≡ bridge (deed (cave_of rules.now) tt (scene_of N.rows scene.now)) }
{
    let troll = rules.thing(Named::Troll);
    if troll.is_none() {
        return None;
    }
    other_end(
        scene.state.trail.here,
        bridgehead(home(rules, troll)),
        bridgehead(second_home(rules, troll)),
    )
}

/// A player whom the troll lets pass is stopped the next time. Returns whether the troll was calm.
/// The bear is looked for after that: a troll with the bottle's number says what is in the bottle.
fn pass_troll(rules: &Rules<'_>, state: &mut State) -> bool
    ensures calm { let troll = thing (cave_of rules.now) name.Troll in
        result ≡ has_prop state.old troll defined.TROLL_CALM }
    ensures state { let troll = thing (cave_of rules.now) name.Troll in
        let returning = with_prop state.old.objects troll defined.TROLL_RETURNING in
        state.new ≡ (if result then with_objects returning state.old else state.old) }
{
    let troll = rules.thing(Named::Troll);
    let was_calm = has_prop(state, troll, TROLL_CALM);
    if was_calm {
        state.objects.set_prop(troll, Prop::new(TROLL_RETURNING));
    }
    was_calm
}

/// Notes that a troll that was calm will stop the player the next time.
fn note_toll<N: RowNotes>(was_calm: bool, scene: &mut Scene<'_, N>)
    ensures scene { let before = scene_of N.rows scene.old in
        scene_of N.rows scene.new ≡ (if was_calm then after_row table.Toll 1 before else before) }
    ensures says { GoesOnSaying 0 scene.old scene.new }
{
    rows! { scene, Table::Toll;
        was_calm => {};
    }
}

/// The bridge breaks under the bear and the player.
#[tactic(auto, unfolding(crate::specs::Bridge::break_bridge, crate::specs::Bridge::spices_rows, crate::specs::Bridge::bridge))]
fn break_bridge<N: RowNotes>(rules: &Rules<'_>, end: Place, scene: &mut Scene<'_, N>)
    requires room { HasRoom parts_of_journey scene.old }
    requires end { bridge (deed (cave_of rules.now) tt (scene_of N.rows scene.old)) ≡ Some end }
    ensures scene { Does N.rows break_bridge parts_of_journey rules.now tt scene.old scene.new }
    ensures over { IsTrue (takes_no_command scene.new.state.now) }
{
    let bear = rules.thing(Named::Bear);
    scene.say(Role::BridgeFalls);
    scene.set_prop(rules.thing(Named::Chasm), CHASM_UNBRIDGED);
    scene.set_prop(rules.thing(Named::Troll), TROLL_FLED);
    scene.move_to(bear, end);
    scene.fix(bear);
    scene.set_prop(bear, BEAR_DEAD);
    rows! { scene, Table::SpicesLost;
        has_prop_up_to(scene.state, rules.thing(Named::Spices), UNSEEN) => lose_one();
    }
    die_at(rules, end, scene);
}
