ghost use Rattle.std.specs.Prelude.{◌≡◌, ℕ, ◌+◌, ◌-◌, ◌^◌, ◌<◌, ◌≤◌, ◌↔◌, length, slice_index};
ghost use Rattle.std.specs.Prelude.{IfOk, OnOk, IsTrue, None, Some};
ghost use Rattle.base_lines.specs.Line.{is_line};
ghost use Rattle.replay_edits.specs.Edit.{log_of};
ghost use Rattle.cave_replay.specs.ReadyEdits.{log_after_edits, IsReady, MayReplay, IsReplayed};
ghost use Rattle.cave_replay.specs.ReadyEdits.{ready_revision};
ghost use Rattle.cave_replay.specs.Replay.{AreStates, IsMarking, IsNextIndex, PlaysLine};
ghost use Rattle.cave_replay.specs.Replay.{IsWithinBound, segment_view};
ghost use Rattle.cave_replay.specs.Report.{RisesByAtMost};
ghost use Rattle.base_lines.specs.Limits.{MAX_LOG_LINES};

use crate::machine::Playable;
use crate::ready_edits::ReadyEdits;
use crate::workspace::Workspace;
use replay_checkpoints::{Blocks, Checkpoints, KeptState, Marks, first_from};
use replay_edits::LineText;
use std::alloc::AllocError;

/// Lines that were played from a checkpoint on: what was said, which of them ticked, and the new
/// marks.
///
/// `met` is the index of the old checkpoint at which the play met the old one.
#[derive(Drop)]
pub(crate) struct Segment<M: Playable> {
    pub(crate) pieces: Vec<M::Piece>,
    pub(crate) ticked: Vec<bool>,
    pub(crate) marks: Marks<M::Kept>,
    pub(crate) met: Option<usize>,
}

/// A game as it was before edits, with the checkpoints of its play.
#[derive(Drop)]
pub(crate) struct OldPlay<'a, K: KeptState> {
    pub(crate) seed: u32,
    pub(crate) log: &'a Blocks<LineText>,
    pub(crate) checkpoints: &'a Checkpoints<K>,
}

/// Plays a changed game from the open place of the marks on, until the play meets the old one at a
/// checkpoint, or to the end.
pub(crate) fn play_changed<M: Playable>(
    workspace: &mut Workspace<M>,
    machine: &M,
    old: &OldPlay<'_, M::Kept>,
    ready: &ReadyEdits,
    marks: Marks<M::Kept>,
    meter: &mut M::Meter,
) -> Result<Segment<M>, AllocError>
    requires ready { IsReady old.now.seed old.now.log.now.items ready.now }
    requires few { length old.now.log.now.items ≤ MAX_LOG_LINES }
    requires begun { MayReplay M.meaning M.is_state (M.rules machine.now) old.now ready.now marks }
    requires room { let new = log_after_edits ready.now (log_of old.now.log.now.items) in
        M.Meter.count meter.old + length new < 2 ^ 64 }
    ensures played { let rules = M.rules machine.now in
        IfOk result (IsReplayed M.meaning M.is_state M.text rules old.now ready.now marks) }
    ensures steps { IfOk result (λ played. M.Meter.count meter.new + marks.next
        ≡ M.Meter.count meter.old + played.marks.next) }
    ensures counted { M.Meter.count meter.old ≤ M.Meter.count meter.new }
    ensures bounded { let steps = M.Meter.count meter.new - M.Meter.count meter.old in
        IsWithinBound (ready_revision (M.rules machine.now) old.now ready.now) marks.every steps }
{
    let end = ready.lines;
    let new = ready.rest_after(old.log);
    let mut index = first_from(old.checkpoints.places(), ready.rest as u32);
    let mut played = Segment {
        pieces: Vec::new(workspace.alloc),
        ticked: Vec::new(workspace.alloc),
        marks,
        met: None,
    };
    'lines: loop {
        let Some(further) = pass::<M>(old.checkpoints, index, ready.rest, new, &played.marks) else {
            played.met = Some(index);
            return Ok(played);
        };
        index = further;
        let place = played.marks.next() as usize;
        if place == end {
            return Ok(played);
        }
        let line = ready.line(old.log, place);
        play_line(workspace, machine, line, &mut played, meter)?;
    }
}

/// The index of the checkpoint to look at after the open place of the marks, if `index` is the
/// first that isn't before that place; none if the plays agree there. The old place `old` is now
/// `new`.
fn pass<M: Playable>(
    checkpoints: &Checkpoints<M::Kept>,
    index: usize,
    old: usize,
    new: usize,
    marks: &Marks<M::Kept>,
) -> Option<usize>
    requires after { index < length checkpoints.now.places
        → old ≤ slice_index checkpoints.now.places index }
    requires few { new ≤ MAX_LOG_LINES }
    ensures { (old_at new_at : ℕ → M.Meaning)
        → AreStates M.meaning M.is_state old_at checkpoints.now.places checkpoints.now.states
        → IsMarking M.meaning M.is_state new_at marks.now
        → IsNextIndex old_at new_at checkpoints.now.places index old new marks.now.next result }
{
    let place = marks.next() as usize;
    if !comes_to(checkpoints.places(), index, old, new, place) {
        return Some(index);
    }
    if agrees::<M>(checkpoints, index, marks) {
        return None;
    }
    Some(index + 1)
}

fn comes_to(places: &[u32], index: usize, old: usize, new: usize, place: usize) -> bool
    requires after { index < length places.now → old ≤ slice_index places.now index }
    requires few { new ≤ MAX_LOG_LINES }
    ensures { IsTrue result ↔ ((index < length places.now)
        × (slice_index places.now index - old + new ≡ place)) }
{
    index < places.len() && places[index] as usize - old + new == place
}

/// Whether the state at the old checkpoint of this index is the one at the open place of the marks.
fn agrees<M: Playable>(
    checkpoints: &Checkpoints<M::Kept>,
    index: usize,
    marks: &Marks<M::Kept>,
) -> bool
    requires { index < length checkpoints.now.places }
    ensures { (old new : ℕ → M.Meaning)
        → AreStates M.meaning M.is_state old checkpoints.now.places checkpoints.now.states
        → IsMarking M.meaning M.is_state new marks.now
        → (IsTrue result ↔ (new marks.now.next ≡ old (slice_index checkpoints.now.places index))) }
{
    checkpoints.state(index) == *marks.state()
}

pub(crate) fn play_line<M: Playable>(
    workspace: &mut Workspace<M>,
    machine: &M,
    line: &[u8],
    played: &mut Segment<M>,
    meter: &mut M::Meter,
) -> Result<(), AllocError>
    requires made { M.is_state played.old.marks.state }
    requires line { IsTrue (is_line line.now) }
    requires room { M.Meter.count meter.old + 1 < 2 ^ 64 }
    requires inside { played.old.marks.next < played.old.marks.end }
    requires few { played.old.marks.end ≤ MAX_LOG_LINES }
    requires apart { 0 < played.old.marks.every }
    ensures counted { OnOk result (M.Meter.count meter.new ≡ M.Meter.count meter.old + 1) }
    ensures risen { RisesByAtMost (M.Meter.count meter.old) (M.Meter.count meter.new) 1 }
    ensures plays { let old = segment_view M.text played.old in
        let new = segment_view M.text played.new in
        OnOk result (PlaysLine M.meaning M.is_state (M.rules machine.now) line.now old new) }
{
    let place = played.marks.next() + 1;
    played.marks.advance(place)?;
    let Workspace { alloc, scratch } = workspace;
    let stepped = machine.step_in_place(*alloc, scratch, played.marks.state_mut(), line, meter)?;
    played.pieces.push(stepped.piece)?;
    played.ticked.push(stepped.ticked)?;
    Ok(())
}
