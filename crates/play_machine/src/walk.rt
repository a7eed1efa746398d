//! The lines of a play as JSON.

ghost use Rattle.std.specs.Prelude.{◌≡◌, ◌++◌, OnOk};
ghost use Rattle.play_machine.specs.Moments.{walk_text};

use crate::course::watch_session;
use crate::machine::CaveMachine;
use crate::watch::{Begun, SeenLine, Watch};
use cave_replay::Session;
use cave_world::{State, Unnoted};
use play_walk::{StepRow, push_walk_line, push_walk_opening};
use std::alloc::{AllocError, Global};
use std::mem;
use turn_text::render;

/// A text to which the lines of a play are appended, and what is said at one of them, which is kept
/// apart until it is written as a string.
#[derive(Drop)]
pub struct WalkLines {
    pub text: Vec<u8>,
    said: Vec<u8>,
}

impl WalkLines {
    /// Lines that are appended to a text.
    pub fn after(alloc: Global, text: Vec<u8>) -> WalkLines
        ensures { result.text.items ≡ text.items }
    {
        WalkLines {
            text,
            said: Vec::new(alloc),
        }
    }
}

impl Watch for WalkLines {
    ghost use Rattle.std.specs.Prelude.{◌≡◌, ℕ};
    ghost use Rattle.play_machine.specs.Moments.{opening_object, moment_object};

    type Before = State;

    type Rows = Unnoted;

    ghost Fact = { ℕ };

    ghost kept = { λ state. state };

    ghost first_facts = { opening_object };

    ghost facts = { moment_object };

    ghost HasNoted = { λ bytes walk. walk.text.items ≡ bytes };

    fn before(state: &State) -> State {
        *state
    }

    fn start(&mut self, alloc: Global, begun: &Begun<'_>) -> Result<(), AllocError> {
        self.said.clear();
        render(begun.rules.cave, begun.parts, 0, &mut self.said)?;
        push_walk_opening(alloc, &mut self.text, &begun.rules, &self.said, begun.state)
    }

    fn see(
        &mut self,
        alloc: Global,
        seen: &SeenLine<'_, State>,
        _: &Unnoted,
    ) -> Result<(), AllocError> {
        self.said.clear();
        render(seen.rules.cave, seen.parts, seen.turns, &mut self.said)?;
        let step = StepRow {
            place: seen.place,
            line: seen.line,
            turns: seen.turns,
            before: &seen.before,
            after: seen.after,
        };
        push_walk_line(alloc, &mut self.text, &seen.rules, &step, &self.said)
    }
}

/// Appends the lines of the play that a session of the machine holds.
#[tactic(auto, unfolding(crate::specs::Moments::walk_text))]
pub fn push_walk(
    alloc: Global,
    session: &Session<CaveMachine<'_>>,
    text: &mut Vec<u8>,
) -> Result<(), AllocError>
    ensures { OnOk result (text.new.items ≡ text.old.items
        ++ walk_text session.now.machine.rules.cave.now session.now.game) }
{
    let mut walk = WalkLines::after(alloc, mem::replace(text, Vec::new(alloc)));
    watch_session(alloc, session, &mut walk)?;
    *text = walk.text;
    Ok(())
}
