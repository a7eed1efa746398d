ghost use Rattle.std.specs.List.{list_any};
ghost use Rattle.std.specs.Prelude.{◌≡◌, ◌==◌, false};
ghost use Rattle.turn_scene.specs.Scene.{cave_of, scene_of};
ghost use Rattle.cave_world.specs.Motions.{motion_number};
ghost use Rattle.cave_world.specs.State.{takes_no_command};
ghost use Rattle.turn_scene.specs.Bounds.{GoesOnSaying, HasRoom, SaysUpTo, parts_of_journey};
ghost use Rattle.turn_scene.specs.Rows.{Does, PlaysBy, act_of};
ghost use Rattle.turn_moves.specs.Journeys.{after_refusal, journey_of_outcome, journey_by_rows};
ghost use Rattle.turn_moves.specs.Journeys.{look_round, set_forth, own_motion};
ghost use Rattle.turn_moves.specs.Journeys.{parts_of_own_motion, journey_by_request};

use crate::back::go_back;
use crate::bridge::cross_bridge;
use crate::squeeze::squeeze_through;
use cave_words::Named;
use cave_world::{MAX_DETAILS, Motion, Outcome, RowNotes, Table, note_travel};
use data_rows::{Role, Special};
use turn_scene::{Rules, Scene, outside_place, rows};
use world_objects::Place;

/// Where a motion that the player asks for leads.
#[tactic(auto, unfolding(crate::specs::Journeys::journey_by_request))]
pub fn journey_by_request<N: RowNotes>(
    rules: &Rules<'_>,
    motion: u16,
    scene: &mut Scene<'_, N>,
) -> Place
    requires { HasRoom parts_of_journey scene.old }
    ensures journey { act_of (scene_of N.rows scene.new) result
        ≡ journey_by_request (cave_of rules.now) motion (scene_of N.rows scene.old) }
    ensures says { GoesOnSaying parts_of_journey scene.old scene.new }
    ensures few_on { takes_no_command scene.new.state.now ≡ false → SaysUpTo 1 scene.old scene.new }
{
    let travelled = own_motion(rules, motion, scene);
    match travelled {
        Some(motion) => set_forth(rules, motion, scene),
        None => scene.state.trail.here,
    }
}

/// What a motion that the player asks for does. Returns the motion by which the player travels, if
/// by any.
#[tactic(auto, unfolding(crate::specs::Journeys::own_motion))]
fn own_motion<N: RowNotes>(rules: &Rules<'_>, motion: u16, scene: &mut Scene<'_, N>) -> Option<u16>
    requires { HasRoom 1 scene.old }
    ensures row { PlaysBy N.rows own_motion (parts_of_own_motion result) rules.now motion scene.old
        scene.new result }
{
    rows! { scene, Table::OwnMotions, None;
        motion == Motion::Nowhere.number() => {};
        motion == Motion::Look.number() => self::look_round(rules, motion);
        let is_cave = motion == Motion::Cave.number();
        is_cave && scene.state.trail.here.number() < outside_place(rules.cave).number()
            => say(Role::CaveOut);
        is_cave => say(Role::CaveIn);
        motion == Motion::Back.number() => {} -> go_back(rules, scene);
        otherwise => {} -> Some(motion);
    }
}

/// The player looks round, and the place will be described at length.
#[tactic(auto, unfolding(crate::specs::Journeys::look_round, crate::specs::Journeys::enough_rows))]
fn look_round<N: RowNotes>(rules: &Rules<'_>, motion: u16, scene: &mut Scene<'_, N>)
    requires { HasRoom 1 scene.old }
    ensures effects { Does N.rows look_round 1 rules.now motion scene.old scene.new }
{
    rows! { scene, Table::Enough;
        scene.state.talk.details.number() < MAX_DETAILS => {
            scene.say(Role::Enough);
            scene.state.talk.details = scene.state.talk.details.up();
        };
    }
    scene.was_dark = false;
    let here = scene.state.trail.here;
    scene.state.forget_visits(here);
}

/// Whether a motion is one of those.
fn is_among(motions: &[Motion], number: u16) -> bool
    ensures { result ≡ list_any (λ m. motion_number m == number) motions.now }
{
    motions.iter().any(|motion| motion.number() == number)
}

/// What is said of a motion that no row lists.
#[tactic(auto, unfolding(crate::specs::Journeys::refusal_rows))]
fn refuse<N: RowNotes>(rules: &Rules<'_>, motion: u16, scene: &mut Scene<'_, N>)
    requires { HasRoom 1 scene.old }
    ensures scene { scene_of N.rows scene.new
        ≡ after_refusal (cave_of rules.now) motion (scene_of N.rows scene.old) }
    ensures says { GoesOnSaying 1 scene.old scene.new }
{
    let directions = [
        Motion::Up,
        Motion::Down,
        Motion::East,
        Motion::West,
        Motion::North,
        Motion::South,
        Motion::Northeast,
        Motion::Southeast,
        Motion::Southwest,
        Motion::Northwest,
    ];
    rows! { scene, Table::NoMotion;
        is_among(&directions, motion) => say(Role::NoDir);
        is_among(&[Motion::Forward, Motion::Left, Motion::Right], motion) => say(Role::Facing);
        is_among(&[Motion::Out, Motion::Inside], motion) => say(Role::Inout);
        is_among(&[Motion::Xyzzy, Motion::Plugh], motion) => say(Role::Magic);
        motion == Motion::Crawl.number() => say(Role::Crawl);
        otherwise => say(Role::NoMotion);
    }
}

/// Where the outcome of a motion leads.
fn journey_of_outcome<N: RowNotes>(
    rules: &Rules<'_>,
    motion: u16,
    outcome: Outcome,
    scene: &mut Scene<'_, N>,
) -> Place
    requires { HasRoom parts_of_journey scene.old }
    ensures journey { act_of (scene_of N.rows scene.new) result
        ≡ journey_of_outcome (cave_of rules.now) motion outcome (scene_of N.rows scene.old) }
    ensures says { GoesOnSaying parts_of_journey scene.old scene.new }
    ensures few_on { takes_no_command scene.new.state.now ≡ false → SaysUpTo 1 scene.old scene.new }
{
    match outcome {
        Outcome::Go(place) => place,
        Outcome::Special(special) => match special {
            Special::Squeeze => squeeze_through(rules, scene),
            Special::Bridge => cross_bridge(rules, scene),
        },
        Outcome::Say(message) => {
            scene.tell_message(message);
            scene.state.trail.here
        }
        Outcome::NoMotion => {
            refuse(rules, motion, scene);
            scene.state.trail.here
        }
        Outcome::NoWay => {
            scene.say(Role::NoWay);
            scene.state.trail.here
        }
    }
}

/// Where the rows of the place lead by a motion.
#[tactic(auto, unfolding(crate::specs::Journeys::journey_by_rows))]
fn journey_by_rows<N: RowNotes>(rules: &Rules<'_>, motion: u16, scene: &mut Scene<'_, N>) -> Place
    requires { HasRoom parts_of_journey scene.old }
    ensures journey { act_of (scene_of N.rows scene.new) result
        ≡ journey_by_rows (cave_of rules.now) motion (scene_of N.rows scene.old) }
    ensures says { GoesOnSaying parts_of_journey scene.old scene.new }
    ensures few_on { takes_no_command scene.new.state.now ≡ false → SaysUpTo 1 scene.old scene.new }
{
    let emerald = rules.thing(Named::Emerald);
    let outcome = note_travel(rules.cave, emerald, scene.state, motion, scene.notes);
    journey_of_outcome(rules, motion, outcome, scene)
}

/// The player sets out by a motion.
#[tactic(auto, unfolding(crate::specs::Journeys::set_forth))]
pub fn set_forth<N: RowNotes>(rules: &Rules<'_>, motion: u16, scene: &mut Scene<'_, N>) -> Place
    requires { HasRoom parts_of_journey scene.old }
    ensures journey { act_of (scene_of N.rows scene.new) result
        ≡ set_forth (cave_of rules.now) motion (scene_of N.rows scene.old) }
    ensures says { GoesOnSaying parts_of_journey scene.old scene.new }
    ensures few_on { takes_no_command scene.new.state.now ≡ false → SaysUpTo 1 scene.old scene.new }
{
    scene.set_out();
    journey_by_rows(rules, motion, scene)
}
