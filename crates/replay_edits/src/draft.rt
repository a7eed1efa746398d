ghost use Rattle.std.specs.Prelude.{◌≡◌, ℕ, ◌+◌, ◌<◌, List, length, take, IfOk, OnOk, None};
ghost use Rattle.std.specs.Prelude.{option_map, slice_get};
ghost use Rattle.replay_edits.specs.Draft.{IsDraft, edits_in, log_before, made_in};
ghost use Rattle.replay_edits.specs.Edit.{change_of, changes_of, log_after, log_of};
ghost use Rattle.replay_edits.specs.Faults.{fault_of, fault_of_all, log_after_all};

use crate::edit::Edit;
use crate::line_text::LineText;
use crate::plan::{lines_after, plan_edits};
use crate::stock::{NumberedGame, Stock};
use replay_checkpoints::Blocks;
use std::alloc::{AllocError, Global};

/// A log after the first of some edits, which are made in it one after another. No line is moved
/// for that, and only lines that go are copied.
#[derive(Drop)]
pub struct Draft<'a> {
    stock: Stock<'a>,
    game: NumberedGame,
    made: usize,
    lines: usize,
}

/// How many lines a log of `lines` lines has after an edit that it takes.
fn lines_with(edit: &Edit, lines: usize) -> usize
    ensures { let change = change_of edit.now in (log : List (List ℕ)) → length log ≡ lines
        → fault_of change log ≡ None → result ≡ length (log_after change log) }
{
    match lines_after(edit, lines) {
        Ok(more) => more,
        Err(_) => lines,
    }
}

impl<'a> Draft<'a> {
    /// The log before the edits.
    pub fn new(
        alloc: Global,
        edits: &'a [Edit],
        log: &'a Blocks<LineText>,
    ) -> Result<Draft<'a>, AllocError>
        requires { fault_of_all (changes_of edits.now) (log_of log.now.items) 0 ≡ None }
        ensures { IfOk result (IsDraft edits.now log.now.items 0) }
    {
        let Ok(plan) = plan_edits(edits, log.len()) else {
            unreachable!();
        };
        let margins = plan.margins;
        let stock = Stock {
            log,
            edits,
            head: margins.head,
            rest: (log.len() - margins.tail).max(margins.head),
        };
        let numbers = stock.numbers(alloc)?;
        Ok(Draft {
            stock,
            game: NumberedGame { seed: 0, numbers },
            made: 0,
            lines: log.len(),
        })
    }

    /// How many of the edits have been made.
    pub fn made(&self) -> usize
        ensures { result ≡ made_in self.now }
    {
        self.made
    }

    /// Makes the next edit.
    pub fn make_next(&mut self, alloc: Global) -> Result<(), AllocError>
        requires draft { IsDraft (edits_in self.old) (log_before self.old) (made_in self.old)
            self.old }
        requires left { made_in self.old < length (edits_in self.old) }
        ensures { OnOk result (IsDraft (edits_in self.old) (log_before self.old)
            (made_in self.old + 1) self.new) }
    {
        let edit = &self.stock.edits[self.made];
        let own = self.stock.log.len() + self.made;
        let lines = lines_with(edit, self.lines);
        self.stock.make(alloc, edit, own, &mut self.game)?;
        self.made += 1;
        self.lines = lines;
        Ok(())
    }

    /// How many lines the log has.
    pub fn lines(&self) -> usize
        requires { IsDraft (edits_in self.now) (log_before self.now) (made_in self.now) self.now }
        ensures { let log = log_after_all (take (made_in self.now) (changes_of (edits_in self.now)))
            (log_of (log_before self.now)) in
            result ≡ length log }
    {
        self.lines
    }

    /// The line at a place, if there is one.
    pub fn line(&self, place: usize) -> Option<&[u8]>
        requires { IsDraft (edits_in self.now) (log_before self.now) (made_in self.now) self.now }
        ensures { let log = log_after_all (take (made_in self.now) (changes_of (edits_in self.now)))
            (log_of (log_before self.now)) in
            option_map (λ line. line.now) result ≡ slice_get log place }
    {
        match self.stock.number_by(&self.game.numbers, place) {
            Some(number) => Some(self.stock.line(number)),
            None => None,
        }
    }
}
