//! How the lines of a log end, how items of a script change that, and what is printed with such
//! ends.

ghost use Rattle.std.specs.Prelude.{◌≡◌, IfOk, OnOk};
ghost use Rattle.std.specs.Str.Lines.{lines};
ghost use Rattle.replay_edits.specs.Edit.{change_of};
ghost use Rattle.replay_scripts.specs.Views.{applied_item};
ghost use Rattle.play_edits.specs.Ends.{are_alike, bytes_of_end, end_at, with_line_ends, ends_after};
ghost use Rattle.play_edits.specs.Ends.{ends_in, ends_left, is_unended, log_ends, shown_ends};
ghost use Rattle.play_edits.specs.Outcome.{refusal_in};

use crate::refusal::Refusal;
use base_lines::split_line;
use cave_replay::GroupReport;
use replay_edits::Edit;
use replay_scripts::Item;
use std::alloc::{AllocError, Global};

/// What ends a line of a text.
#[derive(Clone, Copy, Debug, PartialEq, Eq)]
pub enum LineEnd {
    /// Just a line feed.
    Feed,
    /// A carriage return and a line feed.
    Return,
}

/// How the lines of a log end.
#[derive(Debug, Drop)]
pub struct LogEnds {
    /// The end of each line, if they all end alike.
    pub usual: LineEnd,
    /// The end of each line, if they don't.
    pub each: Vec<LineEnd>,
    /// Whether the last line has no end.
    pub unended: bool,
    /// The ends of the lines of the script that edits the log.
    pub script: Vec<LineEnd>,
}

impl LogEnds {
    /// How the lines of a log that a script edits end.
    pub fn of(alloc: Global, log: &[u8], script: &[u8]) -> Result<LogEnds, AllocError>
        ensures { IfOk result (λ ends. shown_ends ends ≡ log_ends log.now script.now) }
    {
        let (mut each, unended) = ends_in(alloc, log)?;
        let (script, _) = ends_in(alloc, script)?;
        let usual = end_at(end_at(LineEnd::Feed, &script, 0), &each, 0);
        if are_alike(usual, &each) {
            each.clear();
        }
        Ok(LogEnds {
            usual,
            each,
            unended,
            script,
        })
    }

    /// Makes the edits of an item among the ends, unless it was refused: each line keeps its end,
    /// and one that is inserted ends as its line in the script does. Lines that all end alike go on
    /// to end like that.
    pub(crate) fn follow(
        &mut self,
        item: &Item,
        outcome: &Result<GroupReport, Refusal>,
    ) -> Result<(), AllocError>
        ensures { OnOk result (shown_ends self.new
            ≡ ends_left (applied_item item.now) (refusal_in outcome.now) (shown_ends self.old)) }
    {
        if outcome.is_err() || self.each.is_empty() {
            return Ok(());
        }
        let mut edits = item.edits.as_slice();
        let mut at = 0;
        while let Some((edit, rest)) = edits.split_first() {
            let line = item.line_of(at).saturating_sub(1);
            edit_ends(&mut self.each, edit, end_at(self.usual, &self.script, line))?;
            at += 1;
            edits = rest;
        }
        Ok(())
    }
}

/// Makes an edit among the ends of the lines of a log. An inserted line has this end.
fn edit_ends(ends: &mut Vec<LineEnd>, edit: &Edit, end: LineEnd) -> Result<(), AllocError>
    ensures { OnOk result
        (ends.new.items ≡ ends_after (change_of edit.now) end ends.old.items) }
{
    match edit {
        Edit::Insert(place, _) => {
            let place = ends.len().min(*place as usize);
            ends.insert(place, end)?;
        }
        Edit::Delete(place) if (*place as usize) < ends.len() => {
            ends.remove(*place as usize);
        }
        _ => {}
    }
    Ok(())
}

/// The end at a place, or the usual one if there is none.
fn end_at(usual: LineEnd, ends: &[LineEnd], place: usize) -> LineEnd
    ensures { result ≡ end_at usual ends.now place }
{
    ends.get(place).copied().unwrap_or(usual)
}

/// Whether all ends are this one.
fn are_alike(end: LineEnd, ends: &[LineEnd]) -> bool
    ensures { result ≡ are_alike end ends.now }
{
    ends.iter().all(|&other| end == other)
}

/// The ends of the lines of a text, one for each line feed, and whether its last line has none.
fn ends_in(alloc: Global, text: &[u8]) -> Result<(Vec<LineEnd>, bool), AllocError>
    ensures ends { IfOk result (λ found. found.0.items ≡ ends_in text.now) }
    ensures unended { IfOk result (λ found. found.1 ≡ is_unended text.now) }
{
    let mut ends = Vec::new(alloc);
    let mut last = b'\n';
    let mut left = text;
    while let Some((&byte, rest)) = left.split_first() {
        if byte == b'\n' {
            ends.push(if last == b'\r' {
                LineEnd::Return
            } else {
                LineEnd::Feed
            })?;
        }
        last = byte;
        left = rest;
    }
    Ok((ends, last != b'\n'))
}

fn bytes_of_end(end: LineEnd) -> &'static [u8]
    ensures { result.now ≡ bytes_of_end end }
{
    match end {
        LineEnd::Feed => b"\n",
        LineEnd::Return => b"\r\n",
    }
}

/// The lines of a text, each with its own end in the place of the one that it has, or with the
/// usual end if there is none for it. In an unended text the last line has no end, unless it is
/// empty.
pub(crate) fn with_line_ends(
    alloc: Global,
    usual: LineEnd,
    unended: bool,
    ends: &[LineEnd],
    text: &[u8],
) -> Result<Vec<u8>, AllocError>
    ensures { IfOk result (λ ended. ended.items
        ≡ with_line_ends usual unended ends.now (lines text.now)) }
{
    let mut ended = Vec::new(alloc);
    let Some((mut line, mut rest)) = split_line(text) else {
        return Ok(ended);
    };
    let mut ends = ends;
    while let Some((next, more)) = split_line(rest) {
        ended.extend_from_slice(line)?;
        ended.extend_from_slice(bytes_of_end(end_at(usual, ends, 0)))?;
        ends = ends.get(1..).unwrap_or(&[]);
        line = next;
        rest = more;
    }
    ended.extend_from_slice(line)?;
    if !unended || line.is_empty() {
        ended.extend_from_slice(bytes_of_end(end_at(usual, ends, 0)))?;
    }
    Ok(ended)
}
