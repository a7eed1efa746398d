//! The table of the lines of a play.

ghost use Rattle.std.specs.Prelude.{◌≡◌, ◌++◌, OnOk};
ghost use Rattle.play_machine.specs.Moments.{steps_text};

use crate::course::watch_session;
use crate::machine::CaveMachine;
use crate::watch::{Begun, SeenLine, Watch};
use cave_replay::Session;
use cave_world::{State, Unnoted};
use play_walk::{StepRow, push_step_head_row, push_step_row};
use std::alloc::{AllocError, Global};
use std::mem;

/// A text to which the table of the lines of a play is appended.
#[derive(Drop)]
pub struct StepTable {
    pub text: Vec<u8>,
}

impl Watch for StepTable {
    ghost use Rattle.std.specs.Prelude.{◌≡◌, ℕ};
    ghost use Rattle.play_walk.specs.Step.{step_head_row};
    ghost use Rattle.play_machine.specs.Moments.{moment_row};

    type Before = State;

    type Rows = Unnoted;

    ghost Fact = { ℕ };

    ghost kept = { λ state. state };

    ghost first_facts = { λ _ _ _. step_head_row };

    ghost facts = { moment_row };

    ghost HasNoted = { λ bytes table. table.text.items ≡ bytes };

    fn before(state: &State) -> State {
        *state
    }

    fn start(&mut self, _: Global, _: &Begun<'_>) -> Result<(), AllocError> {
        push_step_head_row(&mut self.text)
    }

    fn see(
        &mut self,
        alloc: Global,
        seen: &SeenLine<'_, State>,
        _: &Unnoted,
    ) -> Result<(), AllocError> {
        let row = StepRow {
            place: seen.place,
            line: seen.line,
            turns: seen.turns,
            before: &seen.before,
            after: seen.after,
        };
        push_step_row(alloc, &mut self.text, &seen.rules, &row)
    }
}

/// Appends the table of the lines of the play that a session of the machine holds.
#[tactic(auto, unfolding(crate::specs::Moments::steps_text))]
pub fn push_steps(
    alloc: Global,
    session: &Session<CaveMachine<'_>>,
    text: &mut Vec<u8>,
) -> Result<(), AllocError>
    ensures { OnOk result (text.new.items ≡ text.old.items
        ++ steps_text session.now.machine.rules.cave.now session.now.game) }
{
    let mut table = StepTable {
        text: mem::replace(text, Vec::new(alloc)),
    };
    watch_session(alloc, session, &mut table)?;
    *text = table.text;
    Ok(())
}
