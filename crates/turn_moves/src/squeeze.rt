//! The narrow passage.

ghost use Rattle.std.specs.Prelude.{◌≡◌, [], ◌∷◌};
ghost use Rattle.turn_moves.specs.Squeeze.{squeeze, slim, squeeze_through};
ghost use Rattle.turn_scene.specs.Rows.{PlaysBy, all_hold, deed};
ghost use Rattle.turn_scene.specs.Bounds.{HasRoom};
ghost use Rattle.turn_scene.specs.Scene.{scene_of, cave_of};

use crate::ways::other_end;
use cave_words::Named;
use cave_world::{RowNotes, Table};
use data_rows::{PlaceRole, Role};
use turn_scene::{Rules, Scene, place_named, rows};
use world_objects::Place;

/// The other end of the narrow passage, if the player is at one end.
#[tactic(auto, unfolding(crate::specs::Squeeze::squeeze))]
fn squeeze<N: RowNotes>(rules: &Rules<'_>, scene: &Scene<'_, N>) -> Option<Place>
    ensures { result ≡ squeeze (deed (cave_of rules.now) tt (scene_of N.rows scene.now)) }
{
    let alcove = place_named(rules.cave, PlaceRole::Alcove);
    let plover = place_named(rules.cave, PlaceRole::Plover);
    other_end(scene.state.trail.here, alcove, plover)
}

/// Whether the hands are empty, or have only the emerald.
fn is_slim<N: RowNotes>(rules: &Rules<'_>, scene: &Scene<'_, N>) -> bool
    ensures { result
        ≡ all_hold (slim ∷ []) (deed (cave_of rules.now) tt (scene_of N.rows scene.now)) }
{
    let held = scene.state.holding();
    held == 0 || (held == 1 && scene.state.toting(rules.thing(Named::Emerald)))
}

/// Through the narrow passage, which lets nothing but the emerald through in the player's hands.
#[tactic(auto, unfolding(crate::specs::Squeeze::squeeze, crate::specs::Squeeze::squeeze_through, crate::specs::Squeeze::squeeze_rows))]
pub fn squeeze_through<N: RowNotes>(rules: &Rules<'_>, scene: &mut Scene<'_, N>) -> Place
    requires { HasRoom 1 scene.old }
    ensures row { PlaysBy N.rows squeeze_through 1 rules.now tt scene.old scene.new result }
{
    match squeeze(rules, scene) {
        None => rows! { scene, Table::Squeeze;
            otherwise => say(Role::NoWay) -> scene.state.trail.here;
        },
        Some(end) => rows! { scene, Table::Squeeze;
            from 2;
            is_slim(rules, scene) => {} -> end;
            otherwise => say(Role::TooTight) -> scene.state.trail.here;
        },
    }
}
