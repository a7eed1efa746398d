//! Laws about the states that a session of a game holds, about faults and edits of any log, scripts
//! of edits, their guards and what is printed of them, about ways that are never taken and classes
//! that no score reaches, about how many draws are counted, and about the words of a command line.
#![tactic(auto)]

ghost use Rattle.std.specs.Prelude.{◌<◌};
ghost use Rattle.play_laws.specs.Held.{EachIsOfAGame};
ghost use Rattle.turn_laws.specs.ObjectLaws.{IsInOnePlace};
ghost use Rattle.turn_laws.specs.Reachable.{IsLawful, IsReachable};

pub mod class_laws;
pub mod command_laws;
pub mod difference_laws;
pub mod draw_laws;
pub mod edit_laws;
pub mod fault_laws;
pub mod guard_laws;
pub mod log_laws;
pub mod output_laws;
pub mod way_laws;

use cave_replay::Session;
use play_machine::CaveMachine;
use turn_laws::object_laws::object_is_in_one_place;
use turn_laws::reachable::caves_have_places;
use world_objects::Object;

/// After a session was opened, and after each edit, accepted or refused, the state that it holds is
/// one that a game reaches, and lawful; so is the state after each line of the log that it holds.
pub fn held_states_are_lawful(session: &Session<CaveMachine<'_>>)
    ensures reachable { IsReachable session.now.machine.rules.cave.now session.now.state }
    ensures lawful { IsLawful session.now.machine.rules.cave.now session.now.state }
    ensures each { EachIsOfAGame session.now.machine.rules.cave.now session.now.game }
{
    // The law begins with what these contracts promise about the held play and its cave.
    let _state = session.state();
    caves_have_places(session.machine().cave());
}

/// After a session was opened, and after each edit, accepted or refused, each object of the state
/// that it holds is in one place.
pub fn held_objects_are_in_one_place(session: &Session<CaveMachine<'_>>, object: Object)
    ensures { 0 < object → IsInOnePlace session.now.state.objects object }
{
    object_is_in_one_place(session.state(), object)
}
