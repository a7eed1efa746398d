ghost use Rattle.std.specs.Prelude.{◌≡◌, ℕ, ◌<◌, ◌^◌, length, slice_get, IfSome};
ghost use Rattle.replay_edits.specs.Edit.{log_of};
ghost use Rattle.cave_replay.specs.PlayedRow.{IsRowAt};

use replay_checkpoints::Items;
use replay_edits::LineText;
use std::marker::Model;

/// A line of a log as it was played.
#[derive(Clone, Copy, Drop)]
pub struct PlayedLine<'a, P> {
    /// Its place in the log, from 0.
    pub place: u32,
    pub line: &'a [u8],
    /// What the machine said at it.
    pub piece: &'a P,
    pub ticked: bool,
    /// How many lines ticked up to and including it.
    pub ticks: u32,
}

/// The lines of a log as they were played, one after another.
#[derive(Drop)]
pub struct PlayedLines<'a, P> {
    log: Items<'a, LineText>,
    pieces: Items<'a, P>,
    ticked: Items<'a, bool>,
    place: u32,
    ticks: u32,
}

impl<'a, P> Model for PlayedLines<'a, P> {
    ghost use Rattle.std.specs.Prelude.{◌+◌, ◌<◌, ◌^◌, List, length};
    ghost use Rattle.replay_edits.specs.Edit.{log_of};
    ghost use Rattle.cave_replay.specs.PlayedRow.{PlayedRow, rows_from};

    ghost Value = { List (PlayedRow P) };

    ghost view = { λ l. rows_from l.place l.ticks (log_of l.log) l.pieces l.ticked };

    ghost invariant = { λ l. record {
      places : l.place + length l.log < 2 ^ 32;
      ticks : l.ticks + length l.ticked < 2 ^ 32;
    } };
}

impl<'a, P> PlayedLines<'a, P> {
    /// Lines to which these pieces were said, each of which ticked or not.
    pub(crate) fn of(
        log: Items<'a, LineText>,
        pieces: Items<'a, P>,
        ticked: Items<'a, bool>,
    ) -> Self
        requires few { length log < 2 ^ 32 }
        requires pieces { length pieces ≡ length log }
        requires ticked { length ticked ≡ length log }
        ensures each_line { length result ≡ length log.entry }
        ensures rows { (place : ℕ) → place < length log.entry → IfSome (slice_get result place)
            (IsRowAt (log_of log.entry) pieces.entry ticked.entry place) }
    {
        PlayedLines {
            log,
            pieces,
            ticked,
            place: 0,
            ticks: 0,
        }
    }
}

impl<'a, P> Iterator for PlayedLines<'a, P> {
    ghost use Rattle.std.specs.Iterator.{YieldsFirstBy, item_count};
    ghost use Rattle.cave_replay.specs.PlayedRow.{row_of};

    type Item = PlayedLine<'a, P>;

    ghost next_gives = { YieldsFirstBy row_of (λ rows. rows) };

    ghost remaining = { item_count (λ rows. rows) };

    fn next(&mut self) -> Option<PlayedLine<'a, P>> {
        let line = self.log.next()?;
        let piece = self.pieces.next()?;
        let ticked = *self.ticked.next()?;
        let place = self.place;
        self.place += 1;
        self.ticks += u32::from(ticked);
        Some(PlayedLine {
            place,
            line,
            piece,
            ticked,
            ticks: self.ticks,
        })
    }
}
