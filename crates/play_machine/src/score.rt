//! The score of a play as a table.

ghost use Rattle.std.specs.Prelude.{◌≡◌, ◌++◌, OnOk};
ghost use Rattle.play_machine.specs.FinalState.{score_text};

use crate::machine::CaveMachine;
use cave_replay::Session;
use play_tables::push_score_table;
use std::alloc::{AllocError, Global};

/// Appends the table of the score to which the play of a session of the machine leads.
#[tactic(auto, unfolding(crate::specs::FinalState::score_text))]
pub fn push_score(
    alloc: Global,
    session: &Session<CaveMachine<'_>>,
    text: &mut Vec<u8>,
) -> Result<(), AllocError>
    ensures { OnOk result (text.new.items ≡ text.old.items
        ++ score_text session.now.machine.rules.cave.now session.now.game) }
{
    let rules = session.machine().rules;
    push_score_table(alloc, text, &rules, session.state())
}
