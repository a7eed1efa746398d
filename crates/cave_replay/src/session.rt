ghost use Rattle.std.specs.Prelude.{◌≡◌, ℕ, ◌+◌, ◌-◌, ◌^◌, ◌<◌, ◌≤◌, ◌∷◌, ◌++◌, [], length, map};
ghost use Rattle.std.specs.Prelude.{take, slice_get, slice_index, count_by, IsTrue, None, Some};
ghost use Rattle.std.specs.Prelude.{IfOk, IfSome, OnOk, OnErr};
ghost use Rattle.std.specs.Str.Lines.{lines};
ghost use Rattle.replay_checkpoints.specs.Spacing.{IsSpaced, most_spaced};
ghost use Rattle.base_lines.specs.Line.{is_line};
ghost use Rattle.replay_edits.specs.Edit.{game_of, IsGame, change_of, changes_of, apply, apply_all};
ghost use Rattle.replay_edits.specs.Edit.{inverse_of, inverses_of, line_at, log_of};
ghost use Rattle.replay_edits.specs.Faults.{fault_of, fault_of_all, edit_fault, group_fault};
ghost use Rattle.replay_edits.specs.Faults.{steps_left, IsAnswerTo, IsFaultOr};
ghost use Rattle.cave_replay.specs.Opening.{open_fault, IsAnswerToOpen, AreOpenSteps};
ghost use Rattle.cave_replay.specs.LogText.{log_text};
ghost use Rattle.cave_replay.specs.PlayedRow.{IsRowOf};
ghost use Rattle.cave_replay.specs.Session.{HoldsPlay, KeepsSettings, IsReportOn};
ghost use Rattle.cave_replay.specs.Report.{AreGroupSteps, AreEditSteps};
ghost use Rattle.base_lines.specs.Limits.{MAX_LOG_LINES};

use crate::copies::copy_kept;
use crate::fault::OpenFault;
use crate::log::{push_lines, read_lines};
use crate::machine::Playable;
use crate::played_lines::PlayedLines;
use crate::playthrough::{Playthrough, play_game};
use crate::replay::edit_kept;
use crate::report::{GroupReport, Report};
use crate::tick_counts::TickCounts;
use crate::workspace::Workspace;
use base_lines::Steps;
use replay_checkpoints::Blocks;
use replay_edits::{Edit, EditFault, GroupFault, LineText};
use std::alloc::{AllocError, Global};
use std::marker::Model;
use std::slice;

/// A game, held together with its play.
///
/// The states at its checkpoints and the last state are kept, and what was said at each line.
#[derive(Drop)]
pub struct Session<M: Playable> {
    workspace: Workspace<M>,
    machine: M,
    kept: Playthrough<M>,
}

impl<M: Playable> Model for Session<M> {
    ghost use Rattle.cave_replay.specs.Playthrough.{KeepsPlay};
    ghost use Rattle.cave_replay.specs.Session.{SessionView, session_view};

    ghost Value = { SessionView M M.Piece M.State };

    ghost view = { λ s. session_view s.machine s.kept };

    ghost invariant = { λ s. KeepsPlay M.meaning M.is_state M.text (M.rules s.machine) s.kept };
}

impl<M: Playable> Session<M> {
    /// Plays a log from its first line to its last and holds the play.
    pub fn open(
        alloc: Global,
        machine: M,
        seed: u32,
        log: &[u8],
        every: u32,
        meter: &mut M::Meter,
    ) -> Result<Session<M>, OpenFault>
        requires { M.Meter.count meter.old + MAX_LOG_LINES < 2 ^ 64 }

        ensures game { IfOk result (λ session. session.game ≡ game_of seed (lines log.now)) }
        ensures kept { IfOk result (λ session.
            (session.machine ≡ machine) × (session.every ≡ every)) }
        ensures plays { IfOk result (HoldsPlay M.rules M.text M.meaning) }
        ensures spaced { IfOk result (λ session.
            IsSpaced session.every session.checkpoints (length session.game.log)) }

        ensures faults { IsAnswerToOpen (open_fault every (lines log.now) seed) result }

        // The meter counts each played line: all of them, or those before memory ran out.
        ensures steps { IfOk result (λ session. M.Meter.count meter.new
            ≡ M.Meter.count meter.old + length session.game.log) }
        ensures steps_refused { let fault = open_fault every (lines log.now) seed in
            AreOpenSteps fault (length (lines log.now)) (M.Meter.count meter.old)
            (M.Meter.count meter.new) }
    {
        let lines = read_lines(alloc, every, log, seed)?;
        let mut workspace = Workspace::open(alloc, &machine)?;
        let kept = play_game(&mut workspace, &machine, seed, lines, every, meter)?;
        Ok(Session {
            workspace,
            machine,
            kept,
        })
    }

    /// Edits the held game by each of the edits in turn, and plays it once. It makes all of them,
    /// or none.
    pub fn edit_group(
        &mut self,
        edits: &[Edit],
        meter: &mut M::Meter,
    ) -> Result<GroupReport, GroupFault>
        ensures game { OnOk result (self.new.game
            ≡ apply_all (changes_of edits.now) self.old.game) }
        ensures kept { OnOk result (KeepsSettings self.old self.new) }
        ensures plays { OnOk result (HoldsPlay M.rules M.text M.meaning self.new) }
        ensures lines { IfOk result (λ done. done.lines ≡ length self.new.game.log) }
        ensures spaced { OnOk result (IsSpaced self.new.every self.new.checkpoints
            (length self.new.game.log)) }

        ensures inverse { IfOk result (λ report. changes_of report.inverse.items
            ≡ inverses_of (changes_of edits.now) self.old.game) }
        ensures back { IfOk result (λ report.
            apply_all (changes_of report.inverse.items) self.new.game ≡ self.old.game) }
        ensures back_accepted { IfOk result (λ report.
            fault_of_all (changes_of report.inverse.items) self.new.game.log 0 ≡ None) }

        ensures refused { OnErr result (self.new ≡ self.old) }
        ensures faults { let left = steps_left (M.Meter.count meter.old) in
            IsAnswerTo (group_fault (changes_of edits.now) self.old.game.log left) result }

        ensures report { let rules = M.rules self.old.machine in
            IfOk result (λ report.
            IsReportOn rules (changes_of edits.now) self.old
            report.from report.met report.played) }
        ensures steps { IfOk result (λ report. M.Meter.count meter.new
            ≡ M.Meter.count meter.old + report.played) }
        ensures bounded { AreGroupSteps (M.rules self.old.machine) (changes_of edits.now)
            self.old.game self.old.every (M.Meter.count meter.old) (M.Meter.count meter.new) }
    {
        let workspace = &mut self.workspace;
        edit_kept(workspace, &self.machine, &mut self.kept, edits, meter)
    }

    /// Edits the held game, and plays it. This is the group of just this edit. `by_table` in
    /// laws.rt says what such a group leaves alone, by the kind of its edit.
    pub fn edit(&mut self, edit: &Edit, meter: &mut M::Meter) -> Result<Report, EditFault>
        ensures game { OnOk result (self.new.game ≡ apply (change_of edit.now) self.old.game) }
        ensures kept { OnOk result (KeepsSettings self.old self.new) }
        ensures plays { OnOk result (HoldsPlay M.rules M.text M.meaning self.new) }

        ensures inverse { IfOk result (λ report.
            change_of report.inverse ≡ inverse_of (change_of edit.now) self.old.game) }
        ensures back { IfOk result (λ report.
            apply (change_of report.inverse) self.new.game ≡ self.old.game) }
        ensures back_accepted { IfOk result (λ report.
            fault_of (change_of report.inverse) self.new.game.log ≡ None) }

        ensures refused { OnErr result (self.new ≡ self.old) }
        ensures faults { let left = steps_left (M.Meter.count meter.old) in
            IsFaultOr EditFault.Memory (edit_fault (change_of edit.now) self.old.game.log left)
            result }

        ensures report { let rules = M.rules self.old.machine in
            IfOk result (λ report.
            IsReportOn rules (change_of edit.now ∷ []) self.old
            report.from report.met report.played) }
        ensures steps { IfOk result (λ report. M.Meter.count meter.new
            ≡ M.Meter.count meter.old + report.played) }
        ensures bounded { AreEditSteps (M.rules self.old.machine) (change_of edit.now)
            self.old.game self.old.every (M.Meter.count meter.old) (M.Meter.count meter.new) }
    {
        match self.edit_group(slice::from_ref(edit), meter) {
            Ok(mut report) => match report.inverse.pop() {
                Some(inverse) => Ok(Report {
                    from: report.from,
                    met: report.met,
                    played: report.played,
                    inverse,
                }),
                None => unreachable!(),
            },
            Err(fault) => Err(fault.cause),
        }
    }

    /// A session that shows the same, over a machine with the same answers.
    pub fn copy(&self, machine: M) -> Result<Session<M>, AllocError>
        requires { M.rules machine ≡ M.rules self.now.machine }
        ensures machine { IfOk result (λ copy. copy.machine ≡ machine) }
        ensures game { IfOk result (λ copy.
            (copy.game ≡ self.now.game) × (copy.every ≡ self.now.every)) }
        ensures opening { IfOk result (λ copy. M.text copy.opening ≡ M.text self.now.opening) }
        ensures pieces { IfOk result (λ copy. map M.text copy.pieces ≡ map M.text self.now.pieces) }
        ensures ticks { IfOk result (λ copy. copy.ticks ≡ self.now.ticks) }
        ensures state { IfOk result (λ copy. copy.state ≡ self.now.state) }
        ensures checkpoints { IfOk result (λ copy. copy.checkpoints ≡ self.now.checkpoints) }
        ensures plays { IfOk result (HoldsPlay M.rules M.text M.meaning) }
    {
        let alloc = self.workspace.alloc;
        let workspace = Workspace::open(alloc, &machine)?;
        let kept = copy_kept(alloc, &machine, &self.kept)?;
        Ok(Session {
            workspace,
            machine,
            kept,
        })
    }

    /// The machine that plays.
    pub fn machine(&self) -> &M
        ensures { result.now ≡ self.now.machine }
    {
        &self.machine
    }

    /// The seed of the held game.
    pub fn seed(&self) -> u32
        ensures { result ≡ self.now.game.seed }
    {
        self.kept.seed
    }

    /// How far apart checkpoints may be.
    pub fn every(&self) -> u32
        ensures { result ≡ self.now.every }
    {
        self.kept.checkpoints.every()
    }

    /// How many lines the held log has.
    pub fn lines(&self) -> u32
        ensures lines { result ≡ length self.now.game.log }
        ensures game { IsGame self.now.game }
        ensures spaced { let lines = length self.now.game.log in
            IsSpaced self.now.every self.now.checkpoints lines }
    {
        self.kept.checkpoints.lines()
    }

    /// The line of the held log at a place.
    pub fn line(&self, place: u32) -> &[u8]
        requires { place < length self.now.game.log }
        ensures line { result.now ≡ line_at self.now.game.log place }
        ensures valid { IsTrue (is_line result.now) }
    {
        self.kept.log.at(place as usize)
    }

    /// The held log.
    pub fn log(&self) -> &Blocks<LineText>
        ensures { log_of result.now.items ≡ self.now.game.log }
    {
        &self.kept.log
    }

    /// Appends the held log, each line with a line feed after it. What is appended reads back as
    /// the same log.
    pub fn push_log(&self, text: &mut Vec<u8>) -> Result<(), AllocError>
        ensures written { OnOk result
            (text.new.items ≡ text.old.items ++ log_text self.now.game.log) }
        ensures reads_back { lines (log_text self.now.game.log) ≡ self.now.game.log }
    {
        push_lines(&self.kept.log, text)
    }

    /// The places whose states are kept.
    pub fn checkpoints(&self) -> &[u32]
        ensures checkpoints { result.now ≡ self.now.checkpoints }
        ensures spaced { let lines = length self.now.game.log in
            IsSpaced self.now.every self.now.checkpoints lines }
        ensures few { let lines = length self.now.game.log in
            length self.now.checkpoints ≤ most_spaced self.now.every lines }
    {
        self.kept.checkpoints.places()
    }

    /// What the machine said at the start.
    pub fn opening(&self) -> &M::Piece
        ensures opening { result.now ≡ self.now.opening }
        ensures plays { HoldsPlay M.rules M.text M.meaning self.now }
    {
        &self.kept.opening
    }

    /// What the machine said at each line.
    pub fn pieces(&self) -> &Blocks<M::Piece>
        ensures pieces { result.now.items ≡ self.now.pieces }
        ensures each { length result.now.items ≡ length self.now.game.log }
    {
        &self.kept.pieces
    }

    /// The state after the last line. All that the session holds is the play of the held game.
    pub fn state(&self) -> &M::State
        ensures state { result.now ≡ self.now.state }
        ensures made { M.is_state result.now }
        ensures plays { HoldsPlay M.rules M.text M.meaning self.now }
    {
        &self.kept.state
    }

    /// Whether the line at a place ticked.
    pub fn ticked(&self, place: u32) -> bool
        requires { place < length self.now.game.log }
        ensures { slice_get self.now.ticks place ≡ Some result }
    {
        *self.kept.ticked.each.at(place as usize)
    }

    /// How many of the lines before a place ticked. Those from the place on are counted, so at the
    /// end none are; `tick_counts` goes over all lines in one pass.
    pub fn ticks(&self, place: u32) -> u32
        requires { place ≤ length self.now.game.log }
        ensures { result ≡ count_by (λ ticks. ticks) (take place self.now.ticks) }
    {
        self.kept.ticked.before(place as usize) as u32
    }

    /// How many lines ticked up to and including each line, from the first line to the last.
    pub fn tick_counts(&self) -> TickCounts<'_>
        ensures each_line { length result ≡ length self.now.game.log }
        ensures counts { (place : ℕ) → place < length self.now.game.log
            → slice_index result place
            ≡ count_by (λ ticks. ticks) (take (place + 1) self.now.ticks) }
    {
        TickCounts::of(self.kept.ticked.each.items())
    }

    /// The lines of the held log as they were played, from the first to the last.
    pub fn played_lines(&self) -> PlayedLines<'_, M::Piece>
        ensures each_line { length result ≡ length self.now.game.log }
        ensures rows { (place : ℕ) → place < length self.now.game.log
            → IfSome (slice_get result place) (IsRowOf self.now place) }
    {
        let kept = &self.kept;
        PlayedLines::of(
            kept.log.items(),
            kept.pieces.items(),
            kept.ticked.each.items(),
        )
    }
}
