//! Whether a log meets the guards of an item, and where it has the lines that they expect.

ghost use Rattle.std.specs.Prelude.{◌≡◌, ◌≤◌, ◌↔◌, ℕ, IsTrue, List, None, length, IfOk, OnOk, Some};
ghost use Rattle.std.specs.Prelude.{map, option_map};
ghost use Rattle.replay_edits.specs.Draft.{IsDraft, edits_in, log_before, made_in};
ghost use Rattle.replay_edits.specs.Edit.{changes_of, log_of};
ghost use Rattle.replay_edits.specs.Faults.{fault_of_all};
ghost use Rattle.replay_scripts.specs.Views.{expectation_in, expectations_of};
ghost use Rattle.play_edits.specs.Refusal.{IsFreeCount, first_unmet, log_in, other_line};
ghost use Rattle.play_edits.specs.Refusal.{other_line_in, IsNearest, distance, expected_by};
ghost use Rattle.play_edits.specs.Refusal.{expected_line, found_with, nearer, nearest};
ghost use Rattle.std.specs.Option.{option_map_or};

use crate::refusal::{ExpectedLine, LineCopy, Refusal};
use base_lines::check_line;
use cave_replay::Session;
use play_machine::CaveMachine;
use replay_checkpoints::Blocks;
use replay_edits::plan::plan_edits;
use replay_edits::{Draft, Edit, LineText};
use replay_scripts::{Guard, Item};
use std::alloc::{AllocError, Global};

/// The refusal for the first guard of an item that the held game doesn't meet.
pub(crate) fn unmet_guard(
    alloc: Global,
    session: &Session<CaveMachine<'_>>,
    item: &Item,
) -> Result<Option<Refusal>, AllocError>
    ensures { let changes = changes_of item.now.edits.items in
        IfOk result (λ refused. refused
        ≡ first_unmet changes (expectations_of item.now.guards) session.now.game.log) }
{
    if item.guards.is_empty() {
        return Ok(None);
    }
    first_unmet(alloc, session.log(), &item.edits, &item.guards)
}

/// The refusal for the first guard among edits that a log doesn't meet.
fn first_unmet(
    alloc: Global,
    log: &Blocks<LineText>,
    edits: &[Edit],
    guards: &[Guard],
) -> Result<Option<Refusal>, AllocError>
    ensures { let log = log_of log.now.items in IfOk result (λ refused. refused
        ≡ first_unmet (changes_of edits.now) (map expectation_in guards.now) log) }
{
    let free = &edits[..free_count(edits, log.len())];
    let mut draft = Draft::new(alloc, free, log)?;
    for guard in guards {
        let after = guard.after.min(edits.len());
        if after <= free.len() {
            move_to(alloc, free, log, &mut draft, after)?;
            if let Some(refused) = other_line_now(guard, &draft) {
                return Ok(Some(refused));
            }
        }
    }
    Ok(None)
}

/// How many of the edits of a log of `lines` lines are made before one is refused.
fn free_count(edits: &[Edit], lines: usize) -> usize
    ensures { (log : List (List ℕ)) → length log ≡ lines
        → IsFreeCount (changes_of edits.now) log result }
{
    match plan_edits(edits, lines) {
        Ok(_) => edits.len(),
        Err(fault) => fault.at,
    }
}

/// Makes edits of a draft until this many are made, and begins again if more are.
fn move_to<'a>(
    alloc: Global,
    edits: &'a [Edit],
    log: &'a Blocks<LineText>,
    draft: &mut Draft<'a>,
    after: usize,
) -> Result<(), AllocError>
    requires free { fault_of_all (changes_of edits.now) (log_of log.now.items) 0 ≡ None }
    requires draft { IsDraft edits.now log.now.items (made_in draft.old) draft.old }
    requires within { after ≤ length edits.now }
    ensures { OnOk result (IsDraft edits.now log.now.items after draft.new) }
{
    if after < draft.made() {
        *draft = Draft::new(alloc, edits, log)?;
    }
    while draft.made() < after {
        draft.make_next(alloc)?;
    }
    Ok(())
}

/// Whether a line is there and has this text.
fn is_line_of(line: Option<&[u8]>, text: &[u8]) -> bool
    ensures { IsTrue result ↔ (option_map (λ line. line.now) line.entry ≡ Some text.now) }
{
    match line {
        Some(line) => line == text,
        None => false,
    }
}

/// The refusal for a guard if a draft doesn't meet it.
fn other_line_now(guard: &Guard, draft: &Draft<'_>) -> Option<Refusal>
    requires { IsDraft (edits_in draft.now) (log_before draft.now) (made_in draft.now) draft.now }
    ensures { result ≡ other_line_in (expectation_in guard.now) (log_in draft.now) }
{
    let line = draft.line(guard.place as usize);
    if is_line_of(line, &guard.text) {
        return None;
    }
    let expected = expected_line(guard, draft);
    Some(other_line(guard, expected, draft.lines(), line))
}

/// The refusal for a guard, which expects this line, if the log has this many lines, and another
/// line at the guard's place, or none.
fn other_line(guard: &Guard, expected: ExpectedLine, lines: usize, line: Option<&[u8]>) -> Refusal
    requires { ¬ (option_map (λ line. line.now) line ≡ Some guard.now.text.items) }
    ensures { let there = option_map (λ line. line.now) line.entry in
        Some result ≡ other_line (expectation_in guard.now) expected lines there }
{
    match line {
        None => Refusal::NoLine(guard.line, lines, expected),
        Some(line) => Refusal::OtherLine(guard.line, LineCopy::of(line), expected),
    }
}

fn distance(one: usize, other: usize) -> usize
    ensures { result ≡ distance one other }
{
    one.abs_diff(other)
}

/// Of a place that was found, if one was, and a later one, the one nearer to `place`. Of two that
/// are as near it is the first.
fn nearer(place: usize, found: Option<usize>, later: usize) -> Option<usize>
    ensures { result ≡ nearer place found later }
{
    match found {
        Some(first) if distance(later, place) >= distance(first, place) => Some(first),
        _ => Some(later),
    }
}

/// The place nearest to `place` at which a draft has this line.
fn nearest(place: usize, text: &[u8], draft: &Draft<'_>) -> Option<usize>
    requires { IsDraft (edits_in draft.now) (log_before draft.now) (made_in draft.now) draft.now }
    ensures value { result ≡ nearest place text.now (log_in draft.now) }
    ensures nearest { IsNearest place text.now (log_in draft.now) result }
{
    let mut found = None;
    let lines = draft.lines();
    for at in 0..lines {
        found = found_with(place, text, found, at, draft.line(at));
    }
    found
}

/// The place that is found after a line at a place, if there is one, and this place was found
/// before it.
fn found_with(
    place: usize,
    text: &[u8],
    found: Option<usize>,
    at: usize,
    line: Option<&[u8]>,
) -> Option<usize>
    ensures { let there = option_map (λ line. line.now) line.entry in
        result ≡ option_map_or (found_with place text.now found at) there found }
{
    match line {
        Some(line) if line == text => nearer(place, found, at),
        _ => found,
    }
}

/// A line that a log may have, with the place where the log has it.
fn expected_by(text: &[u8], place: Option<usize>) -> ExpectedLine
    ensures { result ≡ expected_by text.now place }
{
    match place {
        None => ExpectedLine::Nowhere(LineCopy::of(text)),
        Some(at) => ExpectedLine::At(LineCopy::of(text), at),
    }
}

/// The line that a guard expects, with the place nearest to the guard's where the draft has it.
#[tactic(auto, unfolding(crate::specs::Refusal::expected_line, base_lines::specs::Line::is_line))]
pub(crate) fn expected_line(guard: &Guard, draft: &Draft<'_>) -> ExpectedLine
    requires { IsDraft (edits_in draft.now) (log_before draft.now) (made_in draft.now) draft.now }
    ensures { result ≡ expected_line (expectation_in guard.now) (log_in draft.now) }
{
    if check_line(&guard.text).is_err() {
        return ExpectedLine::Impossible;
    }
    let place = nearest(guard.place as usize, &guard.text, draft);
    expected_by(&guard.text, place)
}
