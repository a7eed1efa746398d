ghost use Rattle.std.specs.Prelude.{◌≡◌, ◌+◌, ◌≤◌, length, take, count_by, IfOk, OnOk, vec_len};
ghost use Rattle.std.specs.List.{splice};
ghost use Rattle.replay_checkpoints.specs.Blocks.{IsOpenAt};

use replay_checkpoints::Blocks;
use std::alloc::{AllocError, Global};

/// Which lines of a log ticked, and how many did. An edit counts only the lines that it plays again
/// and those that they replace.
#[derive(Drop)]
pub(crate) struct TickedLines {
    pub(crate) each: Blocks<bool>,
    count: usize,
    ghost counted: { count ≡ count_by (λ ticks. ticks) each.items },
}

impl TickedLines {
    /// Lines, each of which ticked or not.
    pub(crate) fn of(alloc: Global, each: Vec<bool>) -> Result<TickedLines, AllocError>
        ensures { IfOk result (λ made. made.each.items ≡ each.items) }
    {
        let count = count_ticks(&each);
        let each = Blocks::of(alloc, each)?;
        Ok(TickedLines { each, count })
    }

    /// How many of the lines before a place ticked. Those from there on are counted.
    pub(crate) fn before(&self, place: usize) -> usize
        requires { place ≤ length self.now.each.items }
        ensures { result ≡ count_by (λ ticks. ticks) (take place self.now.each.items) }
    {
        self.count - count_between(&self.each, place, self.each.len())
    }

    /// Opens the stretch from `from` up to `to`, and reserves room for `count` lines in its place.
    pub(crate) fn open(&mut self, from: usize, to: usize, count: usize) -> Result<(), AllocError>
        requires ordered { from ≤ to }
        requires within { to ≤ length self.old.each.items }
        ensures same { self.new.each.items ≡ self.old.each.items }
        ensures open { OnOk result (IsOpenAt self.new.each from to count) }
    {
        self.each.open(from, to, count)
    }

    /// Replaces the lines of the open stretch by others, without taking memory.
    pub(crate) fn replace(&mut self, from: usize, to: usize, lines: &mut Vec<bool>)
        requires ordered { from ≤ to }
        requires within { to ≤ length self.old.each.items }
        requires open { IsOpenAt self.old.each from to (vec_len lines.old) }
        ensures { self.new.each.items ≡ splice self.old.each.items from to lines.old.items }
    {
        let gone = count_between(&self.each, from, to);
        let come = count_ticks(lines);
        prove!(self.count <= self.each.len());
        self.each.replace(from, to, lines);
        self.count = self.count - gone + come;
    }

    pub(crate) fn copy(&self, alloc: Global) -> Result<TickedLines, AllocError>
        ensures { IfOk result (λ copy. copy.each.items ≡ self.now.each.items) }
    {
        let mut each = Vec::with_capacity(alloc, self.each.len())?;
        for place in 0..self.each.len() {
            each.push(*self.each.at(place))?;
        }
        TickedLines::of(alloc, each)
    }
}

fn count_ticks(ticked: &[bool]) -> usize
    ensures { result ≡ count_by (λ ticks. ticks) ticked.now }
{
    ticked.iter().filter(|ticks| **ticks).count()
}

/// How many of the lines from `from` up to `to` ticked.
fn count_between(ticked: &Blocks<bool>, from: usize, to: usize) -> usize
    requires ordered { from ≤ to }
    requires within { to ≤ length ticked.now.items }
    ensures { count_by (λ ticks. ticks) (take from ticked.now.items) + result
        ≡ count_by (λ ticks. ticks) (take to ticked.now.items) }
{
    let mut count = 0;
    for place in from..to {
        count += usize::from(*ticked.at(place));
    }
    count
}
