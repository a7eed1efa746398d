ghost use Rattle.std.specs.Prelude.{◌≡◌, map, IfOk};
ghost use Rattle.replay_edits.specs.Edit.{log_of};
ghost use Rattle.cave_replay.specs.Playthrough.{IsCopyOf};

use crate::machine::Playable;
use crate::playthrough::Playthrough;
use replay_checkpoints::Blocks;
use replay_edits::LineText;
use std::alloc::{AllocError, Global};

/// A copy of what a session keeps.
pub(crate) fn copy_kept<M: Playable>(
    alloc: Global,
    machine: &M,
    kept: &Playthrough<M>,
) -> Result<Playthrough<M>, AllocError>
    ensures { IfOk result (IsCopyOf M.text kept.now) }
{
    let log = copy_lines(alloc, &kept.log)?;
    let opening = machine.copy_piece(alloc, &kept.opening)?;
    let pieces = copy_pieces(alloc, machine, &kept.pieces)?;
    let ticked = kept.ticked.copy(alloc)?;
    let checkpoints = kept.checkpoints.copy(alloc)?;
    Ok(Playthrough {
        seed: kept.seed,
        log,
        opening,
        pieces,
        ticked,
        checkpoints,
        state: kept.state,
    })
}

fn copy_lines(alloc: Global, lines: &Blocks<LineText>) -> Result<Blocks<LineText>, AllocError>
    ensures { IfOk result (λ copy. log_of copy.items ≡ log_of lines.now.items) }
{
    let mut copy = Vec::with_capacity(alloc, lines.len())?;
    for place in 0..lines.len() {
        copy.push(LineText::from_slice(alloc, lines.at(place))?)?;
    }
    Blocks::of(alloc, copy)
}

fn copy_pieces<M: Playable>(
    alloc: Global,
    machine: &M,
    pieces: &Blocks<M::Piece>,
) -> Result<Blocks<M::Piece>, AllocError>
    ensures { IfOk result (λ copy. map M.text copy.items ≡ map M.text pieces.now.items) }
{
    let mut copy = Vec::with_capacity(alloc, pieces.len())?;
    for place in 0..pieces.len() {
        copy.push(machine.copy_piece(alloc, pieces.at(place))?)?;
    }
    Blocks::of(alloc, copy)
}
