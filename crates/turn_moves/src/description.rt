ghost use Rattle.std.specs.Prelude.{◌≡◌, [], ◌∷◌, IsTrue};
ghost use Rattle.turn_scene.specs.Scene.{cave_of, scene_of};
ghost use Rattle.turn_scene.specs.Bounds.{GoesOnSaying, HasRoom, SaysUpTo, parts_of_place};
ghost use Rattle.turn_scene.specs.Bounds.{parts_of_text, parts_of_darkness};
ghost use Rattle.cave_world.specs.declared.tables.Table.TheVariants as table;
ghost use Rattle.turn_scene.specs.Rows.{Does, PlaysBy, by_table};
ghost use Rattle.turn_moves.specs.Description.{bear_rows, text_rows, hollow_rows, tell_place};
ghost use Rattle.turn_moves.specs.Description.{see_place, feel_place, after_describe, stop_here};

use crate::dying;
use crate::objects::tell_objects;
use cave_words::Named;
use cave_world::{Part, RowNotes, Table, forced};
use data_rows::{PlaceRole, Role};
use turn_scene::{Rules, Scene, is_player_at, rows};

/// Prints what is seen at the player's place. Returns whether a forced motion moves the player on
/// from there.
#[tactic(auto, unfolding(crate::specs::Description::stop_here, crate::specs::Description::stop_rows))]
pub fn stop_here<N: RowNotes>(rules: &Rules<'_>, scene: &mut Scene<'_, N>) -> bool
    requires { HasRoom parts_of_place scene.old }
    ensures row { PlaysBy N.rows stop_here parts_of_place rules.now tt scene.old scene.new result }
    ensures few_on { IsTrue result → SaysUpTo parts_of_text scene.old scene.new }
{
    rows! { scene, Table::Stops, false;
        forced(rules.cave, scene.state.trail.here) => self::tell_place(rules) -> true;
        otherwise => self::describe_place(rules);
    }
}

/// Prints the text of the player's place, after the bear.
#[tactic(auto, unfolding(crate::specs::Description::tell_place))]
pub fn tell_place<N: RowNotes>(rules: &Rules<'_>, scene: &mut Scene<'_, N>)
    requires { HasRoom parts_of_text scene.old }
    ensures does { Does N.rows tell_place parts_of_text rules.now tt scene.old scene.new }
{
    tell_bear(rules, scene);
    tell_text(rules, scene);
}

/// Describes a place that the player sees.
#[tactic(auto, unfolding(crate::specs::Description::see_place, crate::specs::Description::tell_place))]
fn see_place<N: RowNotes>(rules: &Rules<'_>, scene: &mut Scene<'_, N>)
    requires { HasRoom parts_of_place scene.old }
    ensures does { Does N.rows see_place parts_of_place rules.now tt scene.old scene.new }
{
    tell_bear(rules, scene);
    tell_text(rules, scene);
    tell_hollow(rules, scene);
    let here = scene.state.trail.here;
    scene.state.visit(here);
    tell_objects(rules, scene);
}

/// Describes a place in which the player sees nothing.
#[tactic(auto, unfolding(crate::specs::Description::feel_place))]
fn feel_place<N: RowNotes>(rules: &Rules<'_>, scene: &mut Scene<'_, N>)
    requires { HasRoom parts_of_darkness scene.old }
    ensures does { Does N.rows feel_place parts_of_darkness rules.now tt scene.old scene.new }
{
    tell_bear(rules, scene);
    scene.say(Role::Dark);
    tell_hollow(rules, scene);
}

/// Describes the player's place, which has no forced motion. A player who goes on in the dark may
/// fall into a pit.
#[tactic(auto, unfolding(crate::specs::Description::after_describe, crate::specs::Description::description_rows))]
pub fn describe_place<N: RowNotes>(rules: &Rules<'_>, scene: &mut Scene<'_, N>)
    requires { HasRoom parts_of_place scene.old }
    ensures scene { scene_of N.rows scene.new
        ≡ after_describe (cave_of rules.now) (scene_of N.rows scene.old) }
    ensures says { GoesOnSaying parts_of_place scene.old scene.new }
{
    rows! { scene, Table::Description;
        !scene.state.dark(rules.cave, rules.thing(Named::Lamp)) => self::see_place(rules);
        scene.was_dark && scene.happens(35)
            => say(Role::Pit), dying::die_at(rules, scene.state.trail.here);
        otherwise => self::feel_place(rules);
    }
}

#[tactic(auto, unfolding(crate::specs::Description::bear_rows))]
fn tell_bear<N: RowNotes>(rules: &Rules<'_>, scene: &mut Scene<'_, N>)
    requires { HasRoom 1 scene.old }
    ensures rows { Does N.rows (by_table table.BearFollows bear_rows ∷ []) 1 rules.now tt scene.old
        scene.new }
{
    rows! { scene, Table::BearFollows;
        scene.state.toting(rules.thing(Named::Bear)) => say(Role::BearFollows);
    }
}

/// Prints the text of the player's place, long or short.
#[tactic(auto, unfolding(crate::specs::Description::text_rows))]
#[inline(always)]
fn tell_text<N: RowNotes>(rules: &Rules<'_>, scene: &mut Scene<'_, N>)
    requires { HasRoom 1 scene.old }
    ensures rows { Does N.rows (by_table table.PlaceText text_rows ∷ []) 1 rules.now tt
        scene.old scene.new }
{
    let here = scene.state.trail.here;
    let visits = scene.state.visits(here).number();
    let is_brief = scene.state.talk.is_brief;
    rows! { scene, Table::PlaceText;
        is_brief && visits == 0 => tell(Part::Long(here.number()));
        !is_brief && visits % 5 == 0 => tell(Part::Long(here.number()));
        rules.cave.short(here.number()).is_none() => tell(Part::Long(here.number()));
        otherwise => tell(Part::Short(here.number()));
    }
}

/// Something hollow may be heard.
#[tactic(auto, unfolding(crate::specs::Description::hollow_rows))]
fn tell_hollow<N: RowNotes>(rules: &Rules<'_>, scene: &mut Scene<'_, N>)
    requires { HasRoom 1 scene.old }
    ensures rows { Does N.rows (by_table table.Hollow hollow_rows ∷ []) 1 rules.now tt scene.old
        scene.new }
{
    rows! { scene, Table::Hollow;
        is_player_at(rules, scene.state, PlaceRole::Y2)
            && !scene.state.closing.is_closing && scene.happens(25) => say(Role::Hollow);
    }
}
