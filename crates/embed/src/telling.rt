//! What is printed of games.

use anyhow::Result;
use cave_data::Cave;
use cave_play::{CaveMachine, Counts, push_state};
use cave_replay::Session;
use cave_turn::{render, start};
use cave_world::{Out, Part};
use std::str;

/// Prints a text.
pub fn print_text(rt: &HostRuntime, text: &[u8]) -> Result<()> {
    let text = str::from_utf8(text)?;
    print!(rt; "{text}")?;
    Ok(())
}

/// Prints parts, at a number of turns.
pub fn tell(rt: &HostRuntime, cave: &Cave, parts: &[Part], turns: u32) -> Result<()> {
    let mut text = Vec::new(rt.alloc());
    render(cave, parts, turns, &mut text)?;
    print_text(rt, &text)
}

/// Prints the state that the log of a session leads to, one fact a line.
pub fn tell_state(rt: &HostRuntime, session: &Session<CaveMachine<'_>>) -> Result<()> {
    let machine = session.machine();
    let cave = machine.cave();
    let begun = start(cave, 0, &mut Out::new());
    let state = session.state();
    let turns = session.ticks(session.lines());
    let score = machine.score(state);
    let mut text = Vec::new(rt.alloc());
    let counts = Counts { turns, score };
    push_state(rt.alloc(), &mut text, cave, &begun.objects, counts, state)?;
    let text = str::from_utf8(&text)?;
    println!(rt; "{text}")?;
    Ok(())
}
