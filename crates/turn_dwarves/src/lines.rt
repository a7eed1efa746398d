ghost use Rattle.std.specs.Prelude.{[], ◌∷◌};
ghost use Rattle.turn_scene.specs.Bounds.{HasRoom, parts_of_attack, parts_of_throws};
ghost use Rattle.turn_scene.specs.Rows.{Does, by_table};
ghost use Rattle.cave_world.specs.declared.tables.Table.TheVariants as table;
ghost use Rattle.turn_dwarves.specs.Lines.{dwarf_rows, provoked_rows, knife_rows, tell_attack};

use crate::band;
use crate::knives::Attack;
use crate::waking::AWAKE;
use cave_world::{NumberLine, Part, RowNotes, Table};
use data_rows::Role;
use turn_scene::{Rules, Scene, rows};

/// How angry dwarves are after they threw knives for the first time.
const PROVOKED: u16 = 3;

/// Prints how many dwarves are here.
#[tactic(auto, unfolding(crate::specs::Lines::dwarf_rows))]
fn tell_dwarf_lines<N: RowNotes>(rules: &Rules<'_>, attack: Attack, scene: &mut Scene<'_, N>)
    requires { HasRoom 1 scene.old }
    ensures rows { Does N.rows (by_table table.DwarvesHere dwarf_rows ∷ []) 1 rules.now
        attack scene.old scene.new }
{
    rows! { scene, Table::DwarvesHere;
        attack.dwarves == 0 => {};
        attack.dwarves == 1 => say(Role::DwarfOne);
        otherwise => tell(Part::Number(NumberLine::DwarvesHere, attack.dwarves, 0));
    }
}

/// Dwarves that threw knives for the first time are angrier from then on.
#[tactic(auto, unfolding(crate::specs::Lines::provoked_rows))]
fn set_provoked<N: RowNotes>(rules: &Rules<'_>, attack: Attack, scene: &mut Scene<'_, N>)
    ensures rows { Does N.rows (by_table table.Provoked provoked_rows ∷ []) 0 rules.now
        attack scene.old scene.new }
{
    rows! { scene, Table::Provoked;
        attack.knives != 0 && scene.state.dwarves.anger.number() == AWAKE
            => band::set_anger(PROVOKED);
    }
}

/// Prints the lines about the knives, if any were thrown.
#[tactic(auto, unfolding(crate::specs::Lines::knife_rows))]
fn tell_knife_lines<N: RowNotes>(rules: &Rules<'_>, attack: Attack, scene: &mut Scene<'_, N>)
    requires { HasRoom parts_of_throws scene.old }
    ensures rows { Does N.rows (by_table table.Knives knife_rows ∷ []) parts_of_throws
        rules.now attack scene.old scene.new }
{
    rows! { scene, Table::Knives;
        attack.knives == 0 => {};
        attack.knives == 1 && attack.hits != 0 => say(Role::KnifeOne), say(Role::HitOne);
        attack.knives == 1 => say(Role::KnifeOne), say(Role::MissOne);
        let count_knives = Part::Number(NumberLine::KnivesThrown, attack.knives, 0);
        attack.hits == 0 => tell(count_knives), say(Role::MissAll);
        attack.hits == 1 => tell(count_knives), say(Role::HitMany);
        otherwise => tell(count_knives), tell(Part::Number(NumberLine::KnivesHit, attack.hits, 0));
    }
}

/// Prints the line about the dwarves, and then those about their knives.
#[tactic(auto, unfolding(crate::specs::Lines::tell_attack))]
pub fn tell_attack<N: RowNotes>(rules: &Rules<'_>, attack: Attack, scene: &mut Scene<'_, N>)
    requires { HasRoom parts_of_attack scene.old }
    ensures lines { Does N.rows tell_attack parts_of_attack rules.now attack scene.old scene.new }
{
    tell_dwarf_lines(rules, attack, scene);
    set_provoked(rules, attack, scene);
    tell_knife_lines(rules, attack, scene);
}
