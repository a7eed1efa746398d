ghost use Rattle.std.specs.Prelude.{◌≡◌, [], ◌∷◌, ◌==◌, ◌+◌};
ghost use Rattle.turn_scene.specs.Bounds.{GoesOnSaying, HasRoom};
ghost use Rattle.turn_scene.specs.Scene.{scene_of, cave_of};
ghost use Rattle.turn_scene.specs.Rows.{Does, by_table};
ghost use Rattle.cave_world.specs.declared.tables.Table.TheVariants as table;
ghost use Rattle.turn_dwarves.specs.Pirate.{pirate_rows, chase_rows, after_pirate};

use crate::band::dwarf_of;
use crate::booty::{carries_booty, is_treasure_near};
use crate::{booty, moving};
use cave_words::Named;
use cave_world::{LAMP_ON, PIRATE, RowNotes, Table, Tallies};
use data_rows::{PlaceRole, Role};
use turn_scene::{Rules, Scene, has_prop, has_prop_from, is_near, is_player_at, rows};

/// The pirate moves like a dwarf, and then may be after the player. One that is gone does nothing.
#[tactic(auto, unfolding(crate::specs::Pirate::after_pirate, crate::specs::Pirate::pirate_turn_rows))]
pub fn send_pirate<N: RowNotes>(rules: &Rules<'_>, scene: &mut Scene<'_, N>)
    requires { HasRoom 1 scene.old }
    ensures scene { scene_of N.rows scene.new
        ≡ after_pirate (cave_of rules.now) (scene_of N.rows scene.old) }
    ensures says { GoesOnSaying 1 scene.old scene.new }
{
    rows! { scene, Table::PirateTurn;
        dwarf_of(scene.state, PIRATE).place.number() == 0 => {};
        otherwise => moving::move_dwarf(rules, PIRATE), self::chase(rules);
    }
}

/// The pirate is after a player whom it sees away from its chest, if that hasn't been seen yet.
#[tactic(auto, unfolding(crate::specs::Pirate::chase_rows))]
fn chase<N: RowNotes>(rules: &Rules<'_>, scene: &mut Scene<'_, N>)
    requires { HasRoom 1 scene.old }
    ensures rows { Does N.rows (by_table table.Chase chase_rows ∷ []) 1 rules.now tt
        scene.old scene.new }
{
    let sees_player = dwarf_of(scene.state, PIRATE).has_seen;
    rows! { scene, Table::Chase;
        sees_player && is_player_at(rules, scene.state, PlaceRole::Chest) => {};
        sees_player && has_prop_from(scene.state, rules.thing(Named::Chest), 0) => {};
        sees_player => self::meet_pirate(rules);
    }
}

/// Whether one treasure more counts as unseen than count as lost.
fn is_one_left(tallies: &Tallies) -> bool
    ensures { result ≡ (tallies.now.unseen == tallies.now.lost + 1) }
{
    u32::from(tallies.unseen.number()) == u32::from(tallies.lost.number()) + 1
}

/// The pirate who is after the player robs, or hides its chest, or may be heard. One that hasn't
/// left its message yet puts its chest in its place before it takes its booty.
#[tactic(auto, unfolding(crate::specs::Pirate::pirate_rows))]
fn meet_pirate<N: RowNotes>(rules: &Rules<'_>, scene: &mut Scene<'_, N>)
    requires { HasRoom 1 scene.old }
    ensures rows { Does N.rows (by_table table.Pirate pirate_rows ∷ []) 1 rules.now tt
        scene.old scene.new }
{
    rows! { scene, Table::Pirate;
        let carries_booty = carries_booty(rules, scene);
        carries_booty && scene.state.is_gone(rules.thing(Named::Message))
            => say(Role::Booty), send(rules, rules.thing(Named::Chest), PlaceRole::Chest),
            booty::take_booty(rules);
        carries_booty => say(Role::Booty), booty::take_booty(rules);
        let lamp = rules.thing(Named::Lamp);
        !is_treasure_near(rules, scene) && is_one_left(&scene.state.tallies)
            && scene.state.is_gone(rules.thing(Named::Chest)) && is_near(rules, scene.state, lamp)
            && has_prop(scene.state, lamp, LAMP_ON)
            => say(Role::ChestHid), send(rules, rules.thing(Named::Chest), PlaceRole::Chest),
            send(rules, rules.thing(Named::Message), PlaceRole::Message), booty::go_home(rules);
        let pirate = dwarf_of(scene.state, PIRATE);
        pirate.last != pirate.place && scene.happens(20) => say(Role::Rustle);
    }
}
