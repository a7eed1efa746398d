ghost use Rattle.std.specs.Prelude.{◌≡◌, ◌≢◌, ◌+◌, ◌<◌, ◌≤◌, length, slice_index, IfOk, OnOk};
ghost use Rattle.std.specs.Prelude.{OnErr, MatchOption, Option};
ghost use Rattle.std.specs.Option.{option_map};
ghost use Rattle.replay_checkpoints.specs.Marks.{IsBegunAt};
ghost use Rattle.replay_checkpoints.specs.Spacing.{IsSpaced};
ghost use Rattle.replay_edits.specs.Edit.{changes_of, apply_all};
ghost use Rattle.cave_replay.specs.ReadyEdits.{AreEditsOf, IsRerunOf};
ghost use Rattle.replay_edits.specs.Faults.{group_fault, steps_left, IsAnswerTo, TakesBack};
ghost use Rattle.cave_replay.specs.Playthrough.{kept_game, KeepsPlay, KeepsAll};
ghost use Rattle.cave_replay.specs.Replay.{MarksBegin};
ghost use Rattle.cave_replay.specs.Report.{IsReport, AreGroupSteps};

use crate::machine::Playable;
use crate::playthrough::Playthrough;
use crate::ready_edits::{ReadyEdits, prepare};
use crate::report::GroupReport;
use crate::segment::{OldPlay, Segment, play_changed};
use crate::takeover::{make_room, take_over};
use crate::workspace::Workspace;
use base_lines::Steps;
use replay_checkpoints::{Marks, last_to};
use replay_edits::{Edit, GroupFault};
use std::alloc::{AllocError, Global};

/// Makes the edits in the kept game, and replays it once. It makes all of them, or none.
pub(crate) fn edit_kept<M: Playable>(
    workspace: &mut Workspace<M>,
    machine: &M,
    kept: &mut Playthrough<M>,
    edits: &[Edit],
    meter: &mut M::Meter,
) -> Result<GroupReport, GroupFault>
    requires kept { KeepsPlay M.meaning M.is_state M.text (M.rules machine.now) kept.old }
    ensures kept { KeepsPlay M.meaning M.is_state M.text (M.rules machine.now) kept.new }
    ensures game { OnOk result (kept_game kept.new
        ≡ apply_all (changes_of edits.now) (kept_game kept.old)) }
    ensures every { kept.new.checkpoints.every ≡ kept.old.checkpoints.every }
    ensures lines { IfOk result (λ done. done.lines ≡ kept.new.checkpoints.lines) }
    ensures spaced { let checkpoints = kept.new.checkpoints in
        OnOk result (IsSpaced checkpoints.every checkpoints.places checkpoints.lines) }
    ensures inverse { IfOk result (λ report. TakesBack (changes_of report.inverse.items)
        (changes_of edits.now) (kept_game kept.old) (kept_game kept.new)) }
    ensures refused { OnErr result (KeepsAll kept.old kept.new) }
    ensures faults { let left = steps_left (M.Meter.count meter.old) in
        IsAnswerTo (group_fault (changes_of edits.now) (kept_game kept.old).log left) result }
    ensures report { let checkpoints = kept.old.checkpoints in
        IfOk result (λ report. IsReport (M.rules machine.now) (changes_of edits.now)
        (kept_game kept.old) checkpoints.every checkpoints.places
        report.from report.met report.played) }
    ensures steps { IfOk result (λ report. M.Meter.count meter.new
        ≡ M.Meter.count meter.old + report.played) }
    ensures bounded { AreGroupSteps (M.rules machine.now) (changes_of edits.now)
        (kept_game kept.old) kept.old.checkpoints.every (M.Meter.count meter.old)
        (M.Meter.count meter.new) }
{
    let rerun = replay(workspace, machine, kept, edits, meter)?;
    let from = kept.checkpoints.places()[rerun.at];
    let state = rerun.played.marks.keep_open()?;
    make_room(kept, &rerun)?;
    let end = rerun.played.marks.next();
    let met = met_place(rerun.played.met, end);
    let inverse = take_over(kept, rerun, state);
    let played = end - from;
    let lines = kept.checkpoints.lines();
    Ok(GroupReport {
        from,
        met,
        played,
        lines,
        inverse,
    })
}

/// A changed game, replayed from the checkpoint of the index `at` on.
#[derive(Drop)]
pub(crate) struct Rerun<M: Playable> {
    pub(crate) ready: ReadyEdits,
    pub(crate) opening: Option<M::Piece>,
    pub(crate) played: Segment<M>,
    pub(crate) at: usize,
}

/// Plays the game that the edits make of the kept one, which stays as it is.
fn replay<M: Playable>(
    workspace: &mut Workspace<M>,
    machine: &M,
    kept: &Playthrough<M>,
    edits: &[Edit],
    meter: &mut M::Meter,
) -> Result<Rerun<M>, GroupFault>
    requires kept { KeepsPlay M.meaning M.is_state M.text (M.rules machine.now) kept.now }
    ensures edits { IfOk result (λ rerun.
        AreEditsOf (changes_of edits.now) kept.now.seed kept.now.log.items rerun.ready) }
    ensures rerun { let rules = M.rules machine.now in
        IfOk result (IsRerunOf M.meaning M.is_state M.text rules (changes_of edits.now) kept.now) }
    ensures faults { let left = steps_left (M.Meter.count meter.old) in
        IsAnswerTo (group_fault (changes_of edits.now) (kept_game kept.now).log left) result }
    ensures steps { IfOk result (λ rerun.
        M.Meter.count meter.new + slice_index kept.now.checkpoints.places rerun.at
        ≡ M.Meter.count meter.old + rerun.played.marks.next) }
    ensures bounded { AreGroupSteps (M.rules machine.now) (changes_of edits.now)
        (kept_game kept.now) kept.now.checkpoints.every (M.Meter.count meter.old)
        (M.Meter.count meter.new) }
{
    let old = OldPlay {
        seed: kept.seed,
        log: &kept.log,
        checkpoints: &kept.checkpoints,
    };
    let alloc = workspace.alloc;
    let left = meter.left();
    let ready = prepare(alloc, old.seed, old.log, edits, left)?;
    let at = last_to(kept.checkpoints.places(), ready.head as u32);
    let end = ready.lines as u32;
    let ReplayStart { opening, marks } = begin(alloc, machine, &old, ready.seed, at, end)?;
    let played = play_changed(workspace, machine, &old, &ready, marks, meter)?;
    Ok(Rerun {
        ready,
        opening,
        played,
        at,
    })
}

/// Where a replay begins: what the machine says if the game starts again, and the marks at the
/// first place.
#[derive(Drop)]
pub(crate) struct ReplayStart<M: Playable> {
    pub(crate) opening: Option<M::Piece>,
    pub(crate) marks: Marks<M::Kept>,
}

/// Begins the replay of a game of `end` lines at the checkpoint of the index `at`, or with another
/// seed at the start.
fn begin<M: Playable>(
    alloc: Global,
    machine: &M,
    old: &OldPlay<'_, M::Kept>,
    seed: u32,
    at: usize,
    end: u32,
) -> Result<ReplayStart<M>, AllocError>
    requires among { at < length old.now.checkpoints.now.places }
    requires first { slice_index old.now.checkpoints.now.places 0 ≡ 0 }
    requires within { slice_index old.now.checkpoints.now.places at ≤ end }
    requires fresh { seed ≢ old.now.seed → at ≡ 0 }
    ensures begun { IfOk result (λ start. IsBegunAt old.now.checkpoints.now at start.marks) }
    ensures end { IfOk result (λ start. start.marks.end ≡ end) }
    ensures next { IfOk result (λ start.
        start.marks.next ≡ slice_index old.now.checkpoints.now.places at) }
    ensures marking { let first = (M.rules machine.now).begun seed in
        let checkpoints = old.now.checkpoints.now in
        IfOk result (λ start.
        MarksBegin M.meaning M.is_state first (seed ≡ old.now.seed) checkpoints at start.marks) }
    ensures opening { let greeting = (M.rules machine.now).greeting seed in
        IfOk result (λ start.
        MatchOption start.opening (seed ≡ old.now.seed) (λ piece. M.text piece ≡ greeting)) }
{
    if seed == old.seed {
        let marks = old.checkpoints.marks(alloc, at, end)?;
        return Ok(ReplayStart {
            opening: None,
            marks,
        });
    }
    let started = machine.start(alloc, seed)?;
    let marks = Marks::open(alloc, old.checkpoints.every(), end, started.state)?;
    Ok(ReplayStart {
        opening: Some(started.piece),
        marks,
    })
}

/// The place at which the plays met, if they did.
fn met_place(met: Option<usize>, place: u32) -> Option<u32>
    ensures { result ≡ option_map (λ _. place) met }
{
    match met {
        Some(_) => Some(place),
        None => None,
    }
}
