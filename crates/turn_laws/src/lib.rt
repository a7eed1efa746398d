//! Laws of the game. Each is the contract of a function that does nothing.
#![tactic(auto)]

pub mod carrying;
pub mod courses;
pub mod dwarf_laws;
pub mod line_laws;
pub mod list_laws;
pub mod object_laws;
pub mod reachable;
pub mod unmet_laws;

ghost use Rattle.turn_laws.specs.Laws.{CommandsTick, DragonIsFoughtOrLeft, EndIsQuiet, FewDeaths};
ghost use Rattle.turn_laws.specs.Laws.{LampBurnsDown, PlayerIsSomewhere, SeedsAlone};

/// After the end nothing is said, no turn passes, and nothing changes except the random stream at a
/// seed line.
#[tactic(auto, using(crate::proofs::Lines::end_is_quiet))]
pub fn end_is_quiet()
    ensures { EndIsQuiet }
{}

/// A seed line changes only the random stream, says nothing and is no turn.
#[tactic(auto, using(crate::proofs::Lines::seeds_alone))]
pub fn seeds_alone()
    ensures { SeedsAlone }
{}

/// A line is a turn exactly if it is a command.
#[tactic(auto, using(crate::proofs::Lines::commands_tick))]
pub fn commands_tick()
    ensures { CommandsTick }
{}

/// A line answers the question about the dragon only by yes: any other is a command.
pub fn dragon_is_fought_or_left()
    ensures { DragonIsFoughtOrLeft }
{}

/// There are at most three deaths, and after the third the game has ended.
#[tactic(auto, using(crate::proofs::Bounds::few_deaths))]
pub fn few_deaths()
    ensures { FewDeaths }
{}

/// The player is at place 0 only if the game has ended, or if the player died and is asked whether
/// to come back.
#[tactic(auto, using(crate::proofs::Bounds::player_is_somewhere))]
pub fn player_is_somewhere()
    ensures { PlayerIsSomewhere }
{}

/// If the lamp's charge is at least -1, only the instructions, a hint and, in a command, new
/// batteries raise it.
#[tactic(auto, using(crate::proofs::Onward::lamp_burns_down))]
pub fn lamp_burns_down()
    ensures { LampBurnsDown }
{}
