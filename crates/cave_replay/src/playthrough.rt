ghost use Rattle.std.specs.Prelude.{◌≡◌, ◌+◌, ◌^◌, ◌<◌, length, IfOk, OnOk};
ghost use Rattle.replay_checkpoints.specs.Spacing.{IsSpaced};
ghost use Rattle.replay_edits.specs.Edit.{IsGame, game_in};
ghost use Rattle.cave_replay.specs.Playthrough.{IsDistance, kept_game, KeepsPlay};
ghost use Rattle.cave_replay.specs.Report.{RisesByAtMost};

use crate::machine::Playable;
use crate::segment::{Segment, play_line};
use crate::ticked_lines::TickedLines;
use crate::workspace::Workspace;
use replay_checkpoints::{Blocks, Checkpoints, Marks};
use replay_edits::LineText;
use std::alloc::AllocError;

/// A game, its play, and the states at its checkpoints and at its end.
#[derive(Drop)]
pub(crate) struct Playthrough<M: Playable> {
    pub(crate) seed: u32,
    pub(crate) log: Blocks<LineText>,
    pub(crate) opening: M::Piece,
    pub(crate) pieces: Blocks<M::Piece>,
    pub(crate) ticked: TickedLines,
    pub(crate) checkpoints: Checkpoints<M::Kept>,
    pub(crate) state: M::State,
}

/// Plays a game from its first line to its last.
pub(crate) fn play_game<M: Playable>(
    workspace: &mut Workspace<M>,
    machine: &M,
    seed: u32,
    log: Vec<LineText>,
    every: u32,
    meter: &mut M::Meter,
) -> Result<Playthrough<M>, AllocError>
    requires game { IsGame (game_in seed log) }
    requires every { IsDistance every }
    requires room { M.Meter.count meter.old + length log.items < 2 ^ 64 }
    ensures kept { IfOk result (KeepsPlay M.meaning M.is_state M.text (M.rules machine.now)) }
    ensures game { IfOk result (λ kept. kept_game kept ≡ game_in seed log) }
    ensures every { IfOk result (λ kept. kept.checkpoints.every ≡ every) }
    ensures spaced { IfOk result (λ kept. let checkpoints = kept.checkpoints in
        IsSpaced checkpoints.every checkpoints.places checkpoints.lines) }
    ensures steps { OnOk result (M.Meter.count meter.new
        ≡ M.Meter.count meter.old + length log.items) }
    ensures counted { RisesByAtMost (M.Meter.count meter.old) (M.Meter.count meter.new)
        (length log.items) }
{
    let alloc = workspace.alloc;
    let started = machine.start(alloc, seed)?;
    let opening = started.piece;
    let mut played = Segment {
        pieces: Vec::with_capacity(alloc, log.len())?,
        ticked: Vec::with_capacity(alloc, log.len())?,
        marks: Marks::open(alloc, every, log.len() as u32, started.state)?,
        met: None,
    };
    for line in &log {
        play_line(workspace, machine, line, &mut played, meter)?;
    }
    let Segment {
        pieces,
        ticked,
        marks,
        met: _,
    } = played;
    let state = *marks.state();
    Ok(Playthrough {
        seed,
        log: Blocks::of(alloc, log)?,
        opening,
        pieces: Blocks::of(alloc, pieces)?,
        ticked: TickedLines::of(alloc, ticked)?,
        checkpoints: Checkpoints::of(marks),
        state,
    })
}
