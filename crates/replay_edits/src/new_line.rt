ghost use Rattle.std.specs.Prelude.{◌≡◌, ◌<◌, ◌≤◌, [], length, take, drop, vec_capacity};
ghost use Rattle.replay_edits.specs.Edit.{log_of};
ghost use Rattle.replay_edits.specs.Outcome.{text_of, new_texts, log_without, AreRising};
ghost use Rattle.replay_edits.specs.Outcome.{IsOldWithin};

use crate::line_text::LineText;
use replay_checkpoints::Blocks;
use std::mem;

/// A line of a log after edits that don't leave it alone.
#[derive(Drop)]
pub enum NewLine {
    /// The line at this place of the log before them.
    Old(usize),
    /// A line that one of them brings in.
    Own(LineText),
}

impl NewLine {
    /// The bytes of the line, if this is the log before the edits.
    pub fn text<'a>(&'a self, log: &'a Blocks<LineText>) -> &'a [u8]
        requires { IsOldWithin (length log.now.items) self.now }
        ensures { result.now ≡ text_of (log_of log.now.items) self.now }
    {
        match self {
            NewLine::Old(place) => log.at(*place),
            NewLine::Own(line) => line,
        }
    }
}

/// Appends new lines to `taken`. The old ones among them are taken out of the log, which then has
/// empty lines in their places.
pub fn take_lines(
    lines: &mut [NewLine],
    log: &mut Blocks<LineText>,
    taken: &mut Vec<LineText>,
    head: usize,
    rest: usize,
)
    requires rising { AreRising head rest lines.old }
    requires within { rest ≤ length log.old.items }
    requires empty { taken.old.items ≡ [] }
    requires room { length lines.old ≤ vec_capacity taken.old }
    ensures taken { log_of taken.new.items ≡ new_texts (log_of log.old.items) lines.old }
    ensures before { take head (log_of log.new.items) ≡ take head (log_of log.old.items) }
    ensures after { drop rest (log_of log.new.items) ≡ drop rest (log_of log.old.items) }
    ensures len { length log.new.items ≡ length log.old.items }
    ensures stretch { log.new.stretch ≡ log.old.stretch }
{
    for line in lines.iter_mut() {
        let next = mem::replace(line, NewLine::Old(0));
        match taken.push(take_line(next, log)) {
            Ok(()) => {}
            Err(_) => unreachable!(),
        }
    }
}

/// A new line. An old one is taken out of the log, which then has an empty line in its place.
fn take_line(line: NewLine, log: &mut Blocks<LineText>) -> LineText
    requires { IsOldWithin (length log.old.items) line }
    ensures line { result.items ≡ text_of (log_of log.old.items) line }
    ensures log { log_of log.new.items ≡ log_without (log_of log.old.items) line }
    ensures len { length log.new.items ≡ length log.old.items }
    ensures stretch { log.new.stretch ≡ log.old.stretch }
{
    match line {
        NewLine::Old(place) => log.put(place, LineText::empty()),
        NewLine::Own(line) => line,
    }
}
