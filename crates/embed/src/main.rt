//! A program with the engine inside: it plays lines one by one, does a verb that no line says, edits a
//! log and takes the edit back, and edits it by a script.
#![tactic(auto)]

mod boathouse;
mod runs;
mod telling;

use crate::boathouse::{BINDINGS, DATABASE, LOG};
use crate::runs::{tell_coverage, tell_reports};
use crate::telling::{tell, tell_state};
use anyhow::Result;
use cave_data::Cave;
use cave_play::CaveMachine;
use cave_replay::{Edit, LineText, Session};
use cave_turn::{Rules, max_score, score, start, turn};
use cave_verbs::{Command, Verb, act};
use cave_words::{Lexicon, Meter, Steps, check_line};
use cave_world::{Object, Out, Place, State};
use std::env;

/// Plays lines from the start, each by one call, and prints what is said. Returns the last state.
fn play(rt: &HostRuntime, rules: &Rules<'_>, lines: &[&[u8]]) -> Result<State> {
    let mut out = Out::new();
    let mut meter = Meter::new();
    let mut turns: u32 = 0;
    let mut state = start(rules.cave, 0, &mut out);
    tell(rt, rules.cave, out.as_slice(), turns)?;
    for line in lines {
        check_line(line)?;
        if meter.full() {
            break;
        }
        out.clear();
        let turned = turn(
            rules.cave,
            rules.lexicon,
            &state,
            line,
            &mut out,
            &mut meter,
        );
        state = turned.state;
        turns = turns.saturating_add(u32::from(turned.ticked));
        tell(rt, rules.cave, out.as_slice(), turns)?;
    }
    Ok(state)
}

/// The lamp falls in the boathouse, and the player takes it there, although no line says so.
fn take_lamp(rt: &HostRuntime, rules: &Rules<'_>, state: &mut State) -> Result<()> {
    let lamp = Object::new(2);
    state.drop_at(lamp, Place::new(3));
    let mut out = Out::new();
    if let Some(word) = rules.words_of(b"lamp").first {
        let take = Command {
            verb: Verb::Take,
            object: lamp,
            word,
            was_dark: false,
        };
        act(rules.cave, rules.lexicon, state, take, &mut out);
    }
    tell(rt, rules.cave, out.as_slice(), 1)
}

/// Puts a line into a session's log, and takes it out again, with the state before and after.
fn edit_and_undo(rt: &HostRuntime, session: &mut Session<CaveMachine<'_>>) -> Result<()> {
    let lit = Edit::Insert(3, LineText::from_slice(rt.alloc(), b"on")?);
    let report = session.edit(&lit, &mut Meter::new())?;
    tell_state(rt, session)?;
    session.edit(&report.inverse, &mut Meter::new())?;
    tell_state(rt, session)
}

/// Plays a few lines, and then edits a log.
fn play_and_edit(rt: &HostRuntime, rules: &Rules<'_>, machine: CaveMachine<'_>) -> Result<()> {
    let mut state = play(rt, rules, &[b"no", b"in"])?;
    take_lamp(rt, rules, &mut state)?;
    let (score, most) = (score(rules.cave, &state), max_score(rules.cave));
    println!(rt; "score {score} of {most}")?;
    let mut session = Session::open(rt.alloc(), machine, 0, LOG, 2, &mut Meter::new())?;
    let told = edit_and_undo(rt, &mut session);
    // The checker can't drop a session over a borrowed machine at the end of a block.
    drop(session);
    told
}

/// Reads the cave, plays in it, and edits a log.
fn play_in_cave(rt: &HostRuntime) -> Result<()> {
    let cave = Cave::read(rt.alloc(), DATABASE, BINDINGS)?;
    let lexicon = Lexicon::build(rt.alloc(), &cave)?;
    let rules = Rules::of(&cave, &lexicon);
    play_and_edit(rt, &rules, CaveMachine::new(&cave, &lexicon))
}

fn main(rt: HostRuntime) -> Result<()> {
    play_in_cave(&rt)?;
    for script in env::args(&rt)?.skip(1) {
        tell_reports(&rt, script.as_str())?;
    }
    tell_coverage(&rt)
}
