//! The transcript of a play.

ghost use Rattle.std.specs.Prelude.{◌≡◌, ◌+◌, ◌≤◌, ◌++◌, length, vec_capacity, vec_len, OnOk};
ghost use Rattle.base_lines.specs.LogLine.{log_line};
ghost use Rattle.turn_ends.specs.Score.{max_score_of, score_of};
ghost use Rattle.play_machine.specs.Machine.{rendering_of};
ghost use Rattle.play_machine.specs.Transcript.{echo, is_shown, last_line, play_text, shown_line};

use crate::machine::CaveMachine;
use crate::watch::{Begun, SeenLine, Watch};
use base_lines::is_skipped;
use cave_data::Cave;
use cave_replay::Session;
use cave_world::{Part, State, Unnoted};
use std::alloc::{AllocError, Global};
use turn_text::render;

/// How many bytes a line of a log and what is said at it take in many transcripts.
const USUAL_LINE: usize = 64;

/// How many bytes the transcript of a long game takes.
const USUAL_PLAY: usize = 65_536;

/// How many bytes an echo has besides those of the line.
const ECHO_MARKS: usize = 4;

/// How many bytes at most are pushed faster one by one than as a copy of their slice.
const FEW_BYTES: usize = 8;

/// Appends the transcript of the play that a session of the machine holds.
pub fn push_play(
    alloc: Global,
    session: &Session<CaveMachine<'_>>,
    text: &mut Vec<u8>,
) -> Result<(), AllocError>
    ensures { OnOk result (text.new.items ≡ text.old.items
        ++ play_text session.now.machine.rules.cave.now session.now.game) }
{
    let machine = session.machine();
    let cave = machine.cave();
    let pieces = session.pieces();
    let lines = session.lines();
    text.reserve(USUAL_LINE * lines as usize)?;
    render(cave, session.opening(), 0, text)?;
    for (place, turns) in session.tick_counts().enumerate() {
        let line = session.line(place as u32);
        push_line(cave, text, line, pieces.at(place), turns)?;
    }
    let score = machine.score(session.state());
    push_last_line(
        alloc,
        text,
        score,
        machine.max_score(),
        session.ticks(lines),
    )
}

#[tactic(auto, using(crate::proofs::Shown::shown_unless_skipped))]
fn is_shown(line: &[u8]) -> bool
    ensures { result ≡ is_shown (log_line line.now) }
{
    !is_skipped(line)
}

/// Appends bytes for which there is room.
fn push_bytes(text: &mut Vec<u8>, bytes: &[u8]) -> Result<(), AllocError>
    requires room { vec_len text.old + length bytes.now ≤ vec_capacity text.old }
    ensures items { OnOk result (text.new.items ≡ text.old.items ++ bytes.now) }
    ensures len { OnOk result (vec_len text.new ≡ vec_len text.old + length bytes.now) }
    ensures capacity { vec_capacity text.old ≤ vec_capacity text.new }
{
    if FEW_BYTES < bytes.len() {
        return text.extend_from_slice(bytes);
    }
    for byte in bytes {
        text.push_reserved(*byte);
    }
    Ok(())
}

/// Appends a line of the log as it is shown.
fn push_echo(text: &mut Vec<u8>, line: &[u8]) -> Result<(), AllocError>
    ensures { OnOk result (text.new.items ≡ text.old.items ++ echo line.now) }
{
    text.reserve(line.len() + ECHO_MARKS)?;
    text.push_reserved(b'\n');
    text.push_reserved(b'>');
    text.push_reserved(b' ');
    push_bytes(text, line)?;
    text.push_reserved(b'\n');
    Ok(())
}

/// Appends the line of the score, the greatest score, and how many turns were taken. No score above
/// the greatest is passed to it.
fn push_last_line(
    alloc: Global,
    text: &mut Vec<u8>,
    score: u32,
    most: u32,
    turns: u32,
) -> Result<(), AllocError>
    requires { score ≤ most }
    ensures { OnOk result (text.new.items ≡ text.old.items ++ last_line score most turns) }
{
    let line = format!(in alloc; "-- score {score} of {most}, turns {turns}\n")?;
    text.extend_from_slice(line.as_bytes())
}

/// Appends the last line of the transcript of a play that is in a state after this many turns.
pub fn push_play_end(
    alloc: Global,
    machine: CaveMachine<'_>,
    state: &State,
    turns: u32,
    text: &mut Vec<u8>,
) -> Result<(), AllocError>
    ensures { let cave = machine.entry.rules.cave.now in OnOk result (text.new.items
        ≡ text.old.items ++ last_line (score_of cave state.now) (max_score_of cave) turns) }
{
    let score = machine.score(state);
    push_last_line(alloc, text, score, machine.max_score(), turns)
}

/// Appends a line of the log, if it is shown, and what was said at it.
fn push_line(
    cave: &Cave,
    text: &mut Vec<u8>,
    line: &[u8],
    piece: &[Part],
    turns: u32,
) -> Result<(), AllocError>
    ensures { OnOk result (text.new.items ≡ text.old.items
        ++ shown_line (rendering_of cave.now) line.now piece.now turns) }
{
    if !is_shown(line) {
        return Ok(());
    }
    push_echo(text, line)?;
    render(cave, piece, turns, text)
}

/// A text to which the transcript of a play is appended, up to its last line.
#[derive(Drop)]
pub struct Transcript {
    pub text: Vec<u8>,
}

impl Watch for Transcript {
    ghost use Rattle.std.specs.Prelude.{◌≡◌, ℕ};
    ghost use Rattle.turn_ends.specs.Score.{max_score_of, score_of};
    ghost use Rattle.play_machine.specs.Machine.{rendering_of};
    ghost use Rattle.play_machine.specs.Transcript.{shown_moment};

    type Before = ();

    type Rows = Unnoted;

    ghost Fact = { ℕ };

    ghost kept = { λ _. tt };

    ghost first_facts = { λ cave _ parts. rendering_of cave parts 0 };

    ghost facts = { shown_moment };

    ghost HasNoted = { λ bytes transcript. transcript.text.items ≡ bytes };

    fn before(_: &State) {}

    fn start(&mut self, _: Global, begun: &Begun<'_>) -> Result<(), AllocError> {
        self.text.reserve(USUAL_PLAY)?;
        render(begun.rules.cave, begun.parts, 0, &mut self.text)
    }

    fn see(&mut self, _: Global, seen: &SeenLine<'_, ()>, _: &Unnoted) -> Result<(), AllocError> {
        let cave = seen.rules.cave;
        push_line(cave, &mut self.text, seen.line, seen.parts, seen.turns)
    }
}
