ghost use Rattle.std.specs.Prelude.{◌≡◌, ◌+◌, ◌-◌, ◌<◌, ◌≤◌, ◌++◌, ◌∷◌, [], length, IfOk, OnOk, None};
ghost use Rattle.std.specs.Prelude.{IfSome, option_map, slice_get};
ghost use Rattle.replay_edits.specs.Edit.{change_of, log_of, line_at, own_line, apply, inverse_of};
ghost use Rattle.replay_edits.specs.Faults.{fault_of};
ghost use Rattle.replay_edits.specs.Leaves.{LeavesAlone};
ghost use Rattle.replay_edits.specs.Outcome.{lines_of, lines_by, log_by, game_by, AreNumbers, AreRising};
ghost use Rattle.replay_edits.specs.Outcome.{new_texts};

use crate::edit::Edit;
use crate::line_text::LineText;
use crate::new_line::NewLine;
use crate::numbers::Numbers;
use replay_checkpoints::Blocks;
use std::alloc::{AllocError, Global};
use std::mem;

/// The lines that a log may have after edits, by numbers: first its own, and then that of each
/// edit. Its own lines before `head`, and those from `rest` on, stay.
#[derive(Drop)]
pub(crate) struct Stock<'a> {
    pub(crate) log: &'a Blocks<LineText>,
    pub(crate) edits: &'a [Edit],
    pub(crate) head: usize,
    pub(crate) rest: usize,
}

/// A game with the lines of these numbers between those that stay.
#[derive(Drop)]
pub(crate) struct NumberedGame {
    pub(crate) seed: u32,
    pub(crate) numbers: Numbers,
}

impl<'a> Stock<'a> {
    /// The line with a number.
    pub(crate) fn line(&self, number: usize) -> &[u8]
        requires { number < length self.now.log.now.items + length self.now.edits.now }
        ensures { result.now ≡ line_at (lines_of self.now) number }
    {
        let lines = self.log.len();
        if number < lines {
            return self.log.at(number);
        }
        own_line(&self.edits[number - lines])
    }

    /// The number of the line at a place of the log by numbers, if there is one.
    pub(crate) fn number_by(&self, numbers: &Numbers, place: usize) -> Option<usize>
        requires ordered { self.now.head ≤ self.now.rest }
        requires within { self.now.rest ≤ length self.now.log.now.items }
        requires numbers { AreNumbers self.now numbers.now }
        ensures line { option_map (line_at (lines_of self.now)) result
            ≡ slice_get (log_by self.now numbers.now) place }
        ensures number { IfSome result (λ number.
            number < length self.now.log.now.items + length self.now.edits.now) }
    {
        if place < self.head {
            return Some(place);
        }
        match numbers.seek(place - self.head) {
            Ok(number) => Some(number),
            Err(past) => {
                if past < self.log.len() - self.rest {
                    Some(self.rest + past)
                } else {
                    None
                }
            }
        }
    }

    /// The numbers of the lines that may not stay.
    pub(crate) fn numbers(&self, alloc: Global) -> Result<Numbers, AllocError>
        requires ordered { self.now.head ≤ self.now.rest }
        requires within { self.now.rest ≤ length self.now.log.now.items }
        ensures log { IfOk result (λ numbers.
            log_by self.now numbers ≡ log_of self.now.log.now.items) }
        ensures numbers { IfOk result (AreNumbers self.now) }
    {
        let mut numbers = Numbers::none(alloc)?;
        for number in self.head..self.rest {
            numbers.push(alloc, number)?;
        }
        Ok(numbers)
    }

    /// Makes an edit, whose own line has the number `own`, and returns the edit that takes it back.
    pub(crate) fn make(
        &self,
        alloc: Global,
        edit: &Edit,
        own: usize,
        game: &mut NumberedGame,
    ) -> Result<Edit, AllocError>
        requires own { own < length self.now.log.now.items + length self.now.edits.now }
        requires line { line_at (lines_of self.now) own ≡ own_line (change_of edit.now) }
        requires within { self.now.rest ≤ length self.now.log.now.items }
        requires ordered { self.now.head ≤ self.now.rest }
        requires numbers { AreNumbers self.now game.old.numbers }
        requires free { fault_of (change_of edit.now) (game_by self.now game.old).log ≡ None }
        requires leaves { LeavesAlone (change_of edit.now) (length (game_by self.now game.old).log)
            self.now.head (length self.now.log.now.items - self.now.rest) }
        ensures game { OnOk result (game_by self.now game.new
            ≡ apply (change_of edit.now) (game_by self.now game.old)) }
        ensures inverse { IfOk result (λ back. change_of back
            ≡ inverse_of (change_of edit.now) (game_by self.now game.old)) }
        ensures numbers { OnOk result (AreNumbers self.now game.new.numbers) }
    {
        match edit {
            Edit::Insert(place, _) => {
                game.numbers
                    .insert(alloc, *place as usize - self.head, own)?;
                Ok(Edit::Delete(*place))
            }
            Edit::Delete(place) => {
                let number = game.numbers.remove(*place as usize - self.head);
                let line = LineText::from_slice(alloc, self.line(number))?;
                Ok(Edit::Insert(*place, line))
            }
            Edit::Replace(place, _) => {
                let number = game.numbers.replace(*place as usize - self.head, own);
                let line = LineText::from_slice(alloc, self.line(number))?;
                Ok(Edit::Replace(*place, line))
            }
            Edit::Reseed(new) => {
                let old = mem::replace(&mut game.seed, *new);
                Ok(Edit::Reseed(old))
            }
        }
    }

    /// The lines with these numbers.
    pub(crate) fn new_lines(
        &self,
        alloc: Global,
        numbers: &[usize],
    ) -> Result<Vec<NewLine>, AllocError>
        requires numbers { AreNumbers self.now numbers.now }
        requires ordered { self.now.head ≤ self.now.rest }
        requires within { self.now.rest ≤ length self.now.log.now.items }
        ensures lines { IfOk result (λ lines. new_texts (log_of self.now.log.now.items) lines.items
            ≡ lines_by self.now numbers.now) }
        ensures rising { IfOk result (λ lines.
            AreRising self.now.head self.now.rest lines.items) }
    {
        let mut lines = Vec::with_capacity(alloc, numbers.len())?;
        let mut from = self.head;
        for number in numbers {
            from = self.push_line(alloc, *number, from, &mut lines)?;
        }
        Ok(lines)
    }

    /// Appends the line with a number, and returns the first place where the next old one may be. A
    /// line of the log that follows those before it is named by its place, and moves later; any
    /// other is copied.
    fn push_line(
        &self,
        alloc: Global,
        number: usize,
        from: usize,
        lines: &mut Vec<NewLine>,
    ) -> Result<usize, AllocError>
        requires number { number < length self.now.log.now.items + length self.now.edits.now }
        requires from { from ≤ self.now.rest }
        requires within { self.now.rest ≤ length self.now.log.now.items }
        requires rising { AreRising self.now.head from lines.old.items }
        ensures line { OnOk result (new_texts (log_of self.now.log.now.items) lines.new.items
            ≡ new_texts (log_of self.now.log.now.items) lines.old.items
            ++ line_at (lines_of self.now) number ∷ []) }
        ensures rising { IfOk result (λ next. AreRising self.now.head next lines.new.items) }
        ensures within { IfOk result (λ next. next ≤ self.now.rest) }
    {
        if from <= number && number < self.rest {
            lines.push(NewLine::Old(number))?;
            return Ok(number + 1);
        }
        let line = LineText::from_slice(alloc, self.line(number))?;
        lines.push(NewLine::Own(line))?;
        Ok(from)
    }
}

/// The line that an edit brings in, if it brings one in.
fn own_line(edit: &Edit) -> &[u8]
    ensures { result.now ≡ own_line (change_of edit.now) }
{
    match edit {
        Edit::Insert(_, line) | Edit::Replace(_, line) => line,
        Edit::Delete(_) | Edit::Reseed(_) => &[],
    }
}
