ghost use Rattle.std.specs.Prelude.{◌≡◌, ℕ, ◌+◌, ◌<◌, ◌^◌, length, take, slice_index, count_by};
ghost use Rattle.std.specs.Iterator.{YieldsFirst, item_count};

use replay_checkpoints::Items;
use std::marker::Model;

/// How many lines ticked up to and including each line, one line after another. It counts as it
/// goes.
#[derive(Drop)]
pub struct TickCounts<'a> {
    ticked: Items<'a, bool>,
    count: u32,
}

impl<'a> Model for TickCounts<'a> {
    ghost use Rattle.std.specs.Prelude.{ℕ, ◌+◌, ◌<◌, ◌^◌, List, length};
    ghost use Rattle.cave_replay.specs.Play.{counts_after};

    ghost Value = { List ℕ };

    ghost view = { λ c. counts_after c.count c.ticked };

    ghost invariant = { λ c. c.count + length c.ticked < 2 ^ 32 };
}

impl<'a> TickCounts<'a> {
    /// The counts of lines, each of which ticked or not.
    pub(crate) fn of(ticked: Items<'a, bool>) -> Self
        requires { length ticked < 2 ^ 32 }
        ensures each_line { length result ≡ length ticked.entry }
        ensures counts { (line : ℕ) → line < length ticked.entry
            → slice_index result line ≡ count_by (λ ticks. ticks) (take (line + 1) ticked.entry) }
    {
        TickCounts { ticked, count: 0 }
    }
}

impl<'a> Iterator for TickCounts<'a> {
    type Item = u32;

    ghost next_gives = { YieldsFirst (λ counts. counts) };

    ghost remaining = { item_count (λ counts. counts) };

    fn next(&mut self) -> Option<u32> {
        let ticked = *self.ticked.next()?;
        self.count += u32::from(ticked);
        Some(self.count)
    }
}
