ghost use Rattle.std.specs.Prelude.{◌≡◌, ◌-◌, ◌<◌, length, IfOk, None};
ghost use Rattle.replay_edits.specs.Edit.{changes_of, log_of, margins_of};
ghost use Rattle.replay_edits.specs.Faults.{fault_of_all};
ghost use Rattle.replay_edits.specs.Outcome.{IsOutcome};

use crate::edit::Edit;
use crate::line_text::LineText;
use crate::margins::Margins;
use crate::new_line::NewLine;
use crate::stock::{NumberedGame, Stock};
use replay_checkpoints::Blocks;
use std::alloc::{AllocError, Global};

/// What edits do to a game: its new seed, the lines between those that the edits leave alone, and
/// the edits that take them back, the last one first.
#[derive(Drop)]
pub struct EditOutcome {
    pub seed: u32,
    pub lines: Vec<NewLine>,
    pub inverse: Vec<Edit>,
}

/// What edits that leave these margins alone do to a game. Each edit is made once, among numbers of
/// lines: no line is moved, and only lines that come in or go are copied.
pub fn find_outcome(
    alloc: Global,
    edits: &[Edit],
    log: &Blocks<LineText>,
    seed: u32,
    margins: Margins,
) -> Result<EditOutcome, AllocError>
    requires some { 0 < length edits.now }
    requires free { fault_of_all (changes_of edits.now) (log_of log.now.items) 0 ≡ None }
    requires margins { margins ≡ margins_of (changes_of edits.now) (log_of log.now.items) }
    ensures { let lines = log.now.items in
        let rest = length lines - margins.tail in
        IfOk result (IsOutcome (changes_of edits.now) seed (log_of lines) margins.head rest) }
{
    let stock = Stock {
        log,
        edits,
        head: margins.head,
        rest: log.len() - margins.tail,
    };
    let mut game = NumberedGame {
        seed,
        numbers: stock.numbers(alloc)?,
    };
    let mut inverse = Vec::with_capacity(alloc, edits.len())?;
    for (index, edit) in edits.iter().enumerate() {
        let back = stock.make(alloc, edit, log.len() + index, &mut game)?;
        inverse.push(back)?;
    }
    inverse.reverse();
    let numbers = game.numbers.to_vec(alloc)?;
    Ok(EditOutcome {
        seed: game.seed,
        lines: stock.new_lines(alloc, &numbers)?,
        inverse,
    })
}
