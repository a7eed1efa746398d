ghost use Rattle.std.specs.Prelude.{◌≡◌, ℕ, ◌+◌, ◌<◌, ◌≤◌, ◌^◌, length, slice_index_or, slice_set};
ghost use Rattle.std.specs.Prelude.{slice_get, option_map, IfOk, OnOk, vec_len};
ghost use Rattle.std.specs.List.{splice};
ghost use Rattle.replay_checkpoints.specs.Blocks.{AreLaid, HoldsStretch, IsOpenAt, items_in};

use crate::block::{Block, cut_all_items, find_block, gather_items, move_later};
use crate::items::Items;
use crate::stretch::splice;
use std::alloc::{AllocError, Global};
use std::marker::Model;
use std::mem;

/// A stretch of a list. It lies in the block of an index, which has room for this many items in its
/// place.
#[derive(Clone, Copy, Drop)]
pub struct Stretch {
    block: usize,
    from: usize,
    to: usize,
    room: usize,
}

/// A list that lies in blocks. If others replace some of its items, the items of one block move,
/// and each block after it only changes the place where it begins.
///
/// First a stretch is opened, which may take memory. Then other items replace it, which takes none:
/// once an edit is made no memory may be refused.
#[derive(Drop)]
pub struct Blocks<T> {
    blocks: Vec<Block<T>>,
    len: usize,
    stretch: Option<Stretch>,
}

impl<T> Model for Blocks<T> {
    ghost use Rattle.replay_checkpoints.specs.Blocks.{AreBlocks, BlocksView, items_in};

    ghost Value = { BlocksView T };

    ghost view = { λ b. record { items = items_in b.blocks.items; stretch = b.stretch } };

    ghost invariant = { λ b. AreBlocks b.blocks.items b.len b.stretch };
}

impl<T: Drop> Blocks<T> {
    /// The items of a list, in blocks.
    pub fn of(alloc: Global, items: Vec<T>) -> Result<Blocks<T>, AllocError>
        ensures { IfOk result (λ blocks. blocks.items ≡ items.items) }
    {
        let len = items.len();
        if usize::MAX / 2 < len {
            return Err(AllocError);
        }
        let mut blocks = Vec::new(alloc);
        blocks.push(Block { start: 0, items })?;
        cut_all_items(&mut blocks, 0)?;
        Ok(Blocks {
            blocks,
            len,
            stretch: None,
        })
    }

    /// How many items there are.
    pub fn len(&self) -> usize
        ensures len { result ≡ length self.now.items }
        ensures few { result < 2 ^ 63 }
    {
        self.len
    }

    /// The item at a place.
    pub fn at(&self, place: usize) -> &T
        requires { place < length self.now.items }
        ensures { result.now ≡ slice_index_or self.now.items place result.now }
    {
        item_at(&self.blocks, place)
    }

    /// The item at a place, if there is one.
    pub fn get(&self, place: usize) -> Option<&T>
        ensures { option_map (λ item. item.now) result ≡ slice_get self.now.items place }
    {
        if place < self.len {
            return Some(self.at(place));
        }
        None
    }

    /// The items, from the first to the last.
    pub fn items(&self) -> Items<'_, T>
        ensures { result ≡ self.now.items }
    {
        Items::of(&self.blocks)
    }

    /// Replaces an item, and returns the old one.
    pub fn put(&mut self, place: usize, item: T) -> T
        requires { place < length self.old.items }
        ensures item { result ≡ slice_index_or self.old.items place result }
        ensures items { self.new.items ≡ slice_set self.old.items place item }
        ensures stretch { self.new.stretch ≡ self.old.stretch }
    {
        put_item(&mut self.blocks, place, item)
    }

    /// Opens the stretch from `from` up to `to`, and reserves room for `count` items in its place.
    /// The list stays as it is.
    pub fn open(&mut self, from: usize, to: usize, count: usize) -> Result<(), AllocError>
        requires ordered { from ≤ to }
        requires within { to ≤ length self.old.items }
        ensures items { self.new.items ≡ self.old.items }
        ensures open { OnOk result (IsOpenAt self.new from to count) }
    {
        self.stretch = None;
        if usize::MAX / 2 - self.len < count {
            return Err(AllocError);
        }
        let block = gather_items(&mut self.blocks, from, to, count)?;
        self.stretch = Some(Stretch {
            block,
            from,
            to,
            room: count,
        });
        Ok(())
    }

    /// Replaces the open stretch by `middle`, and drops its items. This takes no memory.
    pub fn replace(&mut self, from: usize, to: usize, middle: &mut Vec<T>)
        requires { IsOpenAt self.old from to (vec_len middle.old) }
        ensures { self.new.items ≡ splice self.old.items from to middle.old.items }
    {
        match self.stretch {
            Some(stretch) => {
                self.stretch = None;
                let come = middle.len();
                replace_in(&mut self.blocks, stretch.block, from, to, middle);
                self.len = self.len - (to - from) + come;
            }
            None => unreachable!(),
        }
    }
}

fn item_at<T>(blocks: &[Block<T>], place: usize) -> &T
    requires laid { AreLaid 0 blocks.now }
    requires place { place < length (items_in blocks.now) }
    ensures { result.now ≡ slice_index_or (items_in blocks.now) place result.now }
{
    let block = &blocks[find_block(blocks, place)];
    &block.items[place - block.start]
}

fn put_item<T>(blocks: &mut Vec<Block<T>>, place: usize, item: T) -> T
    requires laid { AreLaid 0 blocks.old.items }
    requires place { place < length (items_in blocks.old.items) }
    ensures len { length blocks.new.items ≡ length blocks.old.items }
    ensures laid { AreLaid 0 blocks.new.items }
    ensures item { result ≡ slice_index_or (items_in blocks.old.items) place result }
    ensures items { items_in blocks.new.items ≡ slice_set (items_in blocks.old.items) place item }
    ensures held { (from to count index : ℕ) → HoldsStretch blocks.old.items from to count index
        → HoldsStretch blocks.new.items from to count index }
{
    let index = find_block(blocks, place);
    let block = &mut blocks[index];
    let within = place - block.start;
    mem::replace(&mut block.items[within], item)
}

fn replace_in<T: Drop>(
    blocks: &mut Vec<Block<T>>,
    index: usize,
    from: usize,
    to: usize,
    middle: &mut Vec<T>,
)
    requires laid { AreLaid 0 blocks.old.items }
    requires held { HoldsStretch blocks.old.items from to (vec_len middle.old) index }
    requires few { length (items_in blocks.old.items) + vec_len middle.old < 2 ^ 63 }
    ensures len { length blocks.new.items ≡ length blocks.old.items }
    ensures laid { AreLaid 0 blocks.new.items }
    ensures items { items_in blocks.new.items
        ≡ splice (items_in blocks.old.items) from to middle.old.items }
{
    let gone = to - from;
    let come = middle.len();
    move_later(blocks, index + 1, gone, come);
    let block = &mut blocks[index];
    let first = from - block.start;
    splice(&mut block.items, first, first + gone, middle);
}
