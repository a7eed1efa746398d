//! The state to which a play leads.

ghost use Rattle.std.specs.Prelude.{◌≡◌, ◌++◌, OnOk};
ghost use Rattle.play_machine.specs.FinalState.{final_state_text, state_text_after};

use crate::machine::CaveMachine;
use cave_replay::Session;
use cave_words::Stream;
use cave_world::State;
use play_state_text::{Counts, push_state};
use std::alloc::{AllocError, Global};
use turn_ends::begun_state;

/// Appends the text of the state of a play after this many turns.
pub fn push_state_after(
    alloc: Global,
    machine: CaveMachine<'_>,
    state: &State,
    turns: u32,
    text: &mut Vec<u8>,
) -> Result<(), AllocError>
    ensures { OnOk result (text.new.items ≡ text.old.items
        ++ state_text_after machine.entry.rules.cave.now turns state.now) }
{
    let cave = machine.cave();
    let begun = begun_state(cave, Stream::seeded(0));
    let score = machine.score(state);
    let counts = Counts { turns, score };
    push_state(alloc, text, cave, &begun.objects, counts, state)
}

/// Appends the text of the state to which the play of a session of the machine leads.
pub fn push_final_state(
    alloc: Global,
    session: &Session<CaveMachine<'_>>,
    text: &mut Vec<u8>,
) -> Result<(), AllocError>
    ensures { OnOk result (text.new.items ≡ text.old.items
        ++ final_state_text session.now.machine.rules.cave.now session.now.game) }
{
    let turns = session.ticks(session.lines());
    push_state_after(alloc, *session.machine(), session.state(), turns, text)
}
