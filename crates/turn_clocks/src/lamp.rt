ghost use Rattle.std.specs.Prelude.{[], ◌∷◌};
ghost use Rattle.turn_scene.specs.Bounds.{HasRoom};
ghost use Rattle.cave_world.specs.declared.tables.Table.TheVariants as table;
ghost use Rattle.turn_scene.specs.Rows.{by_table, Does, PlaysBy};
ghost use Rattle.turn_clocks.specs.Lamp.{burn, care_for_lamp, go_out, lamp_clock, warning_rows};

use crate::clocks::Clocks;
use cave_words::Named;
use cave_world::{Charge, LAMP_ON, LOW_CHARGE, RowNotes, Table};
use data_rows::Role;
use turn_scene::props::{BATTERIES_FRESH, BATTERIES_USED, LAMP_OFF};
use turn_scene::{Rules, Scene, has_prop, is_near, outside_place, rows};

const BATTERY_TURNS: i32 = 2500;

/// A lit lamp burns a turn.
#[tactic(auto, unfolding(crate::specs::Lamp::burning_rows))]
fn burn<N: RowNotes>(rules: &Rules<'_>, scene: &mut Scene<'_, N>)
    ensures rows { Does N.rows (burn ∷ []) 0 rules.now tt scene.old scene.new }
{
    rows! { scene, Table::Burning;
        has_prop(scene.state, rules.thing(Named::Lamp), LAMP_ON) => {
            let turns = scene.state.lamp.charge.turns();
            scene.state.lamp.charge = Charge::new((turns - 1).max(-1));
        };
    }
}

/// The lamp has gone out, and can't be lit again.
fn go_out<N: RowNotes>(rules: &Rules<'_>, scene: &mut Scene<'_, N>)
    ensures scene { Does N.rows (go_out ∷ []) 0 rules.now tt scene.old scene.new }
{
    scene.set_charge(Charge::new(-1));
    scene.set_prop(rules.thing(Named::Lamp), LAMP_OFF);
}

/// What happens after the lamp has burnt.
#[tactic(auto, unfolding(crate::specs::Lamp::care_for_lamp, crate::specs::Lamp::lamp_rows, crate::specs::Lamp::change_batteries, crate::specs::Lamp::warn))]
fn care_for_lamp<N: RowNotes>(rules: &Rules<'_>, scene: &mut Scene<'_, N>) -> Clocks
    requires { HasRoom 1 scene.old }
    ensures row { PlaysBy N.rows care_for_lamp 1 rules.now tt scene.old scene.new result }
{
    let turns = scene.state.lamp.charge.turns();
    let is_low = turns <= LOW_CHARGE;
    rows! { scene, Table::Lamp, Clocks::GoOn;
        is_low && is_near(rules, scene.state, rules.thing(Named::Batteries))
            && has_prop(scene.state, rules.thing(Named::Batteries), BATTERIES_FRESH)
            && is_near(rules, scene.state, rules.thing(Named::Lamp)) => {
            let batteries = rules.thing(Named::Batteries);
            scene.say(Role::Replaced);
            scene.set_prop(batteries, BATTERIES_USED);
            scene.lay_down(rules, batteries);
            let turns = scene.state.lamp.charge.turns();
            scene.set_charge(Charge::capped(turns + BATTERY_TURNS));
            scene.state.lamp.is_warned = false;
        };
        turns == 0 && is_near(rules, scene.state, rules.thing(Named::Lamp))
            => self::go_out(rules), say(Role::LampDead);
        turns == 0 => self::go_out(rules);
        turns < 0 && scene.state.trail.here.number() <= outside_place(rules.cave).number()
            => say(Role::GiveUp) -> Clocks::GaveUp;
        is_low && !scene.state.lamp.is_warned
            && is_near(rules, scene.state, rules.thing(Named::Lamp)) => {
            scene.state.lamp.is_warned = true;
            warn(rules, scene);
        };
    }
}

/// The player is told that the lamp is low.
#[tactic(auto, unfolding(crate::specs::Lamp::warning_rows))]
fn warn<N: RowNotes>(rules: &Rules<'_>, scene: &mut Scene<'_, N>)
    requires { HasRoom 1 scene.old }
    ensures rows { Does N.rows (by_table table.LampWarning warning_rows ∷ []) 1 rules.now tt
        scene.old scene.new }
{
    let batteries = rules.thing(Named::Batteries);
    rows! { scene, Table::LampWarning;
        has_prop(scene.state, batteries, BATTERIES_USED) => say(Role::LampLowUsed);
        scene.state.is_gone(batteries) => say(Role::LampLowFind);
        otherwise => say(Role::LampLow);
    }
}

/// The lamp burns a turn, if it is lit, with all that follows from it.
pub fn run_lamp<N: RowNotes>(rules: &Rules<'_>, scene: &mut Scene<'_, N>) -> Clocks
    requires { HasRoom 1 scene.old }
    ensures row { PlaysBy N.rows lamp_clock 1 rules.now tt scene.old scene.new result }
{
    burn(rules, scene);
    care_for_lamp(rules, scene)
}
