ghost use Rattle.std.specs.Prelude.{◌≡◌, ◌<◌, ◌≤◌, length, slice_index, MatchOption, OnOk};
ghost use Rattle.std.specs.Option.{ForSome};
ghost use Rattle.replay_checkpoints.specs.Marks.{IsBegunAt};
ghost use Rattle.cave_replay.specs.Playthrough.{KeepsAll};
ghost use Rattle.replay_edits.specs.Edit.{changes_of};
ghost use Rattle.cave_replay.specs.ReadyEdits.{MayMove};
ghost use Rattle.cave_replay.specs.Takeover.{end_of_stretch, checkpoints_passed};
ghost use Rattle.cave_replay.specs.Takeover.{FitsMarks, HasRoomFor, IsStretch, IsTakenOver};
ghost use Rattle.cave_replay.specs.Takeover.{IsWhole, MarksEnd, new_places, new_states, new_state};

use crate::machine::Playable;
use crate::playthrough::Playthrough;
use crate::replay::Rerun;
use crate::segment::Segment;
use replay_checkpoints::{Checkpoints, KeptState, Marks};
use replay_edits::Edit;
use std::alloc::AllocError;

/// Reserves room for what a rerun brings, before it is taken over. What is kept stays as it is.
pub(crate) fn make_room<M: Playable>(
    kept: &mut Playthrough<M>,
    rerun: &Rerun<M>,
) -> Result<(), AllocError>
    requires among { rerun.now.at < length kept.old.checkpoints.places }
    requires passed { rerun.now.at
        ≤ checkpoints_passed kept.old.checkpoints rerun.now.played.met }
    requires met { let places = kept.old.checkpoints.places in
        ForSome rerun.now.played.met (λ index. index < length places) }
    requires ordered { rerun.now.ready.head ≤ rerun.now.ready.rest }
    requires within { rerun.now.ready.rest ≤ length kept.old.log.items }
    requires whole { IsWhole kept.old }
    requires forward { slice_index kept.old.checkpoints.places rerun.now.at
        ≤ end_of_stretch kept.old.checkpoints rerun.now.played.met }
    ensures same { KeepsAll kept.old kept.new }
    ensures room { OnOk result (HasRoomFor kept.new rerun.now) }
{
    let met = rerun.played.met;
    let ready = &rerun.ready;
    kept.log.open(ready.head, ready.rest, ready.middle.len())?;
    let from = kept.checkpoints.places()[rerun.at] as usize;
    let to = end_of_stretch(&kept.checkpoints, met);
    kept.pieces.open(from, to, rerun.played.pieces.len())?;
    kept.ticked.open(from, to, rerun.played.ticked.len())?;
    let going = checkpoints_passed(&kept.checkpoints, met) - rerun.at.saturating_sub(1);
    kept.checkpoints
        .reserve(rerun.played.marks.len().saturating_sub(going))?;
    Ok(())
}

/// Makes the edits of a rerun, and puts what was played in the place of what was there, without
/// taking memory. Returns the edits that take these back. `state` is kept for the open place of the
/// marks.
pub(crate) fn take_over<M: Playable>(
    kept: &mut Playthrough<M>,
    rerun: Rerun<M>,
    state: M::Kept,
) -> Vec<Edit>
    requires state { M.Kept.state_of state ≡ rerun.played.marks.state }
    requires moves { MayMove rerun.ready }
    requires ordered { rerun.ready.head ≤ rerun.ready.rest }
    requires within { rerun.ready.rest ≤ length kept.old.log.items }
    requires whole { IsWhole kept.old }
    requires stretch { let met = rerun.played.met in
        IsStretch kept.old.checkpoints rerun.played.marks rerun.at met }
    requires room { HasRoomFor kept.old rerun }
    ensures taken { IsTakenOver kept.old kept.new rerun }
    ensures inverse { changes_of result.items ≡ changes_of rerun.ready.inverse.items }
{
    let Segment {
        mut pieces,
        mut ticked,
        marks,
        met,
    } = rerun.played;
    let from = kept.checkpoints.places()[rerun.at] as usize;
    let to = end_of_stretch(&kept.checkpoints, met);
    let inverse = rerun.ready.make(&mut kept.log, &mut kept.seed);
    kept.pieces.replace(from, to, &mut pieces);
    kept.ticked.replace(from, to, &mut ticked);
    replace_piece(&mut kept.opening, rerun.opening);
    let last = &mut kept.state;
    take_marks(&mut kept.checkpoints, last, marks, state, rerun.at, met);
    inverse
}

/// Replaces a piece, if there is a new one.
fn replace_piece<P: Drop>(piece: &mut P, new: Option<P>)
    ensures { MatchOption new (piece.new ≡ piece.old) (λ taken. piece.new ≡ taken) }
{
    match new {
        Some(new) => *piece = new,
        None => {}
    }
}

/// Takes over the marks of a replay from the checkpoint of the index `at`, whose last state is kept
/// as `state`; without a meeting it is also the last state of the play.
fn take_marks<K: KeptState>(
    checkpoints: &mut Checkpoints<K>,
    last: &mut K::State,
    marks: Marks<K>,
    state: K,
    at: usize,
    met: Option<usize>,
)
    requires state { K.state_of state ≡ marks.state }
    requires begun { IsBegunAt checkpoints.old at marks }
    requires end { MarksEnd checkpoints.old marks at met }
    requires room { FitsMarks checkpoints.old marks at (checkpoints_passed checkpoints.old met) }
    ensures every { checkpoints.new.every ≡ checkpoints.old.every }
    ensures lines { checkpoints.new.lines ≡ marks.end }
    ensures places { checkpoints.new.places ≡ new_places checkpoints.old marks at met }
    ensures states { checkpoints.new.states ≡ new_states checkpoints.old marks at met }
    ensures last { last.new ≡ new_state last.old marks met }
{
    match met {
        Some(index) => checkpoints.meet(marks, state, at, index),
        None => {
            *last = *marks.state();
            checkpoints.replace_from(marks, at);
        }
    }
}

/// How many checkpoints are before the one at which a replay met the old play: all of them if the
/// two didn't meet.
fn checkpoints_passed<K: KeptState>(checkpoints: &Checkpoints<K>, met: Option<usize>) -> usize
    requires { ForSome met (λ index. index < length checkpoints.now.places) }
    ensures count { result ≡ checkpoints_passed checkpoints.now met }
    ensures within { result ≤ length checkpoints.now.places }
{
    match met {
        Some(index) => index,
        None => checkpoints.places().len(),
    }
}

/// The old place up to which what was played replaces the old play: the checkpoint that was met, or
/// the end.
fn end_of_stretch<K: KeptState>(checkpoints: &Checkpoints<K>, met: Option<usize>) -> usize
    requires { ForSome met (λ index. index < length checkpoints.now.places) }
    ensures place { result ≡ end_of_stretch checkpoints.now met }
    ensures within { result ≤ checkpoints.now.lines }
{
    match met {
        Some(index) => checkpoints.places()[index] as usize,
        None => checkpoints.lines() as usize,
    }
}
