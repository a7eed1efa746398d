ghost use Rattle.std.specs.Prelude.{◌≡◌, map, option_map};
ghost use Rattle.data_rows.specs.RowViews.{going};
ghost use Rattle.turn_scene.specs.Scene.{cave_of};
ghost use Rattle.turn_scene.specs.Bounds.{HasRoom};
ghost use Rattle.turn_scene.specs.Rows.{PlaysBy};
ghost use Rattle.turn_moves.specs.Back.{place_back, leads_at_once, leads_through, direct_row};
ghost use Rattle.turn_moves.specs.Back.{indirect_row, first_motion, go_back};
ghost use Rattle.turn_moves.specs.Journeys.{parts_of_own_motion};

use cave_world::{RowNotes, Table, forced};
use data_rows::{Destination, Role, Row};
use turn_scene::{Rules, Scene, rows};
use world_objects::Place;

/// Where a player who goes back wants to go.
#[tactic(auto, unfolding(crate::specs::Back::place_back))]
fn place_back<N: RowNotes>(rules: &Rules<'_>, scene: &mut Scene<'_, N>) -> Place
    ensures row { PlaysBy N.rows place_back 0 rules.now tt scene.old scene.new result }
{
    rows! { scene, Table::BackFrom;
        forced(rules.cave, scene.state.trail.last) => {} -> scene.state.trail.older;
        otherwise => {} -> scene.state.trail.last;
    }
}

/// Whether a row leads to a place whose forced motion leads to the place sought.
fn leads_through(rules: &Rules<'_>, sought: Place, row: &Row) -> bool
    ensures { result ≡ leads_through (cave_of rules.now) sought (going row.now) }
{
    match row.destination() {
        Destination::Place(place) => {
            forced(rules.cave, Place::new(place)) && leads_at_once(sought, rules.cave.travel(place))
        }
        _ => false,
    }
}

fn leads_at_once(sought: Place, rows: &[Row]) -> bool
    ensures { result ≡ leads_at_once sought (map going rows.now) }
{
    match rows {
        [row, ..] => row.destination().leads_to_place(sought.number()),
        [] => false,
    }
}

/// The first row that leads to the place sought.
fn direct_row(sought: Place, rows: &[Row]) -> Option<&Row>
    ensures { option_map (λ row. going row.now) result
        ≡ direct_row sought (map going rows.now) }
{
    for row in rows {
        if row.destination().leads_to_place(sought.number()) {
            return Some(row);
        }
    }
    None
}

/// The last row that leads there through a place of forced motion.
fn indirect_row<'a>(rules: &Rules<'_>, sought: Place, rows: &'a [Row]) -> Option<&'a Row>
    ensures { option_map (λ row. going row.now) result
        ≡ indirect_row (cave_of rules.now) sought (map going rows.now) }
{
    let mut last = None;
    for row in rows {
        if leads_through(rules, sought, row) {
            last = Some(row);
        }
    }
    last
}

/// The first motion of a row, if there is the row.
fn first_motion(found: Option<&Row>) -> Option<u16>
    ensures { result ≡ first_motion (option_map (λ row. going row.now) found.entry) }
{
    match found {
        Some(row) => Some(row.motions.first().copied().unwrap_or(0)),
        None => None,
    }
}

/// The motion by which a player goes back, if there is one.
#[tactic(auto, unfolding(crate::specs::Back::go_back, crate::specs::Back::back_rows))]
pub fn go_back<N: RowNotes>(rules: &Rules<'_>, scene: &mut Scene<'_, N>) -> Option<u16>
    requires { HasRoom 1 scene.old }
    ensures row { PlaysBy N.rows go_back (parts_of_own_motion result) rules.now tt scene.old
        scene.new result }
{
    let sought = place_back(rules, scene);
    let here = scene.state.trail.here;
    rows! { scene, Table::Back, None;
        sought == here => set_out(), say(Role::BackNone);
        let ways = rules.cave.travel(here.number());
        let at_once = first_motion(direct_row(sought, ways));
        at_once.is_some() => {} -> at_once;
        let in_passing = first_motion(indirect_row(rules, sought, ways));
        in_passing.is_some() => {} -> in_passing;
        otherwise => set_out(), say(Role::BackNo);
    }
}
