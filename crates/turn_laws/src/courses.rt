//! Laws about what only ever goes one way in a game.
ghost use Rattle.turn_laws.specs.Courses.{AskedInTime, ClosedIsClosing, DeathsComeOneByOne};
ghost use Rattle.turn_laws.specs.Courses.{HintsNeverFall, LampBurnsByOne, NoScoreIsGreater};
ghost use Rattle.turn_laws.specs.Courses.{NobodyGetsOut, NothingGoesBack, TreasuresGoOneWay};

/// No line takes back that the cave is closing or closed, that a hint was taken, or that the
/// dwarves are awake.
#[tactic(auto, using(crate::proofs::Onward::nothing_goes_back))]
pub fn nothing_goes_back()
    ensures { NothingGoesBack }
{}

/// A closed cave is also closing: this holds as a game begins, and each line preserves it.
#[tactic(auto, using(crate::proofs::Onward::closed_is_closing))]
pub fn closed_is_closing()
    ensures { ClosedIsClosing }
{}

/// No line makes the treasures that count as unseen more, or those that count as lost fewer.
#[tactic(auto, using(crate::proofs::Onward::treasures_go_one_way))]
pub fn treasures_go_one_way()
    ensures { TreasuresGoOneWay }
{}

/// No state scores more than the greatest score of its cave.
#[tactic(auto, using(turn_ends::proofs::Most::score_within))]
pub fn no_score_is_greater()
    ensures { NoScoreIsGreater }
{}

/// A closing cave never asks whether to come back from death: this holds as a game begins, and each
/// line preserves it.
#[tactic(auto, using(crate::proofs::Bounds::asked_in_time))]
pub fn asked_in_time()
    ensures { AskedInTime }
{}

/// Deaths rise by at most one a line, if a closing cave never asks whether to come back.
#[tactic(auto, using(crate::proofs::Bounds::deaths_come_one_by_one))]
pub fn deaths_come_one_by_one()
    ensures { DeathsComeOneByOne }
{}

/// While the cave is closing the player can't get to a place outside it, unless the cave itself
/// puts the player there.
#[tactic(auto, using(crate::proofs::Bounds::nobody_gets_out))]
pub fn nobody_gets_out()
    ensures { NobodyGetsOut }
{}

/// If the lamp's charge is above 0, it goes down by one in each command in which the lamp burns,
/// and in no other line; it also goes down to at most 35 if a treasure is found.
#[tactic(auto, using(crate::proofs::Onward::lamp_burns_by_one))]
pub fn lamp_burns_by_one()
    ensures { LampBurnsByOne }
{}

/// No line makes the hints that were taken fewer.
#[tactic(auto, using(crate::proofs::HintCount::hints_never_fall))]
pub fn hints_never_fall()
    ensures { HintsNeverFall }
{}
