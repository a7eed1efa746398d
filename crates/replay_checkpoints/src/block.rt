ghost use Rattle.std.specs.Prelude.{◌≡◌, ℕ, ◌+◌, ◌<◌, ◌≤◌, ◌^◌, ◌++◌, length, map, take, drop};
ghost use Rattle.std.specs.Prelude.{slice_index_or, IfOk, OnOk, IsTrue, false};
ghost use Rattle.replay_checkpoints.specs.Blocks.{items_in, start_at, AreLaid, HoldsStretch};
ghost use Rattle.replay_checkpoints.specs.Blocks.{HasRoom, IsBlockOf, moved_block};

use std::alloc::AllocError;

/// How many items a block has after a list is cut. A block with twice as many is cut again, and two
/// blocks that together have no more are joined.
const BLOCK_ITEMS: usize = 512;

/// Items of a list that lie together, and the place of the first of them in the list.
#[derive(Drop)]
pub(crate) struct Block<T> {
    pub(crate) start: usize,
    pub(crate) items: Vec<T>,
}

/// The index of the block that has the item at a place, or that of the last block. The search
/// begins where it would be if all blocks were full.
pub(crate) fn find_block<T>(blocks: &[Block<T>], place: usize) -> usize
    requires some { 0 < length blocks.now }
    requires laid { AreLaid 0 blocks.now }
    ensures { IsBlockOf blocks.now place result }
{
    let mut index = (place / BLOCK_ITEMS).min(blocks.len() - 1);
    'back: while 0 < index && place < blocks[index].start {
        index -= 1;
    }
    'on: while index < blocks.len() - 1 && blocks[index + 1].start <= place {
        index += 1;
    }
    index
}

/// Cuts a long block.
fn cut_items<T: Drop>(blocks: &mut Vec<Block<T>>, index: usize) -> Result<(), AllocError>
    requires inside { index < length blocks.old.items }
    requires laid { AreLaid 0 blocks.old.items }
    requires few { length (items_in blocks.old.items) < 2 ^ 63 }
    ensures inside { index < length blocks.new.items }
    ensures laid { AreLaid 0 blocks.new.items }
    ensures items { items_in blocks.new.items ≡ items_in blocks.old.items }
{
    let len = blocks[index].items.len();
    if len <= 2 * BLOCK_ITEMS {
        return Ok(());
    }
    cut_all_items(blocks, index)
}

/// Cuts a block into full ones and one with the rest.
pub(crate) fn cut_all_items<T: Drop>(
    blocks: &mut Vec<Block<T>>,
    index: usize,
) -> Result<(), AllocError>
    requires inside { index < length blocks.old.items }
    requires laid { AreLaid 0 blocks.old.items }
    requires few { length (items_in blocks.old.items) < 2 ^ 63 }
    ensures inside { index < length blocks.new.items }
    ensures laid { AreLaid 0 blocks.new.items }
    ensures items { items_in blocks.new.items ≡ items_in blocks.old.items }
{
    let cuts = blocks[index].items.len().saturating_sub(1) / BLOCK_ITEMS;
    for _ in 0..cuts {
        cut_last_items(blocks, index)?;
    }
    fit_items(blocks, index);
    Ok(())
}

/// Gives back the room that a block has for more items than a full one.
fn fit_items<T: Drop>(blocks: &mut Vec<Block<T>>, index: usize)
    requires inside { index < length blocks.old.items }
    requires laid { AreLaid 0 blocks.old.items }
    ensures len { length blocks.new.items ≡ length blocks.old.items }
    ensures laid { AreLaid 0 blocks.new.items }
    ensures items { items_in blocks.new.items ≡ items_in blocks.old.items }
{
    blocks[index].items.shrink_to(BLOCK_ITEMS);
}

/// Cuts off the last items of a block, at a place where a full block may end. They then are a block
/// of their own, after it.
fn cut_last_items<T: Drop>(blocks: &mut Vec<Block<T>>, index: usize) -> Result<(), AllocError>
    requires inside { index < length blocks.old.items }
    requires laid { AreLaid 0 blocks.old.items }
    requires few { length (items_in blocks.old.items) < 2 ^ 63 }
    ensures inside { index < length blocks.new.items }
    ensures laid { AreLaid 0 blocks.new.items }
    ensures items { items_in blocks.new.items ≡ items_in blocks.old.items }
{
    blocks.reserve(1)?;
    let block = &mut blocks[index];
    let keep = block.items.len().saturating_sub(1) / BLOCK_ITEMS * BLOCK_ITEMS;
    let items = block.items.split_off(keep)?;
    let start = block.start + keep;
    match blocks.insert(index + 1, Block { start, items }) {
        Ok(()) => Ok(()),
        Err(_) => unreachable!(),
    }
}

/// Joins a block with the one after it.
fn join_next_items<T: Drop>(blocks: &mut Vec<Block<T>>, index: usize) -> Result<(), AllocError>
    requires inside { index + 1 < length blocks.old.items }
    requires laid { AreLaid 0 blocks.old.items }
    ensures len { OnOk result (length blocks.new.items + 1 ≡ length blocks.old.items) }
    ensures some { 0 < length blocks.new.items }
    ensures laid { AreLaid 0 blocks.new.items }
    ensures items { items_in blocks.new.items ≡ items_in blocks.old.items }
    ensures start { start_at blocks.new.items index ≡ start_at blocks.old.items index }
{
    let more = blocks[index + 1].items.len();
    blocks[index].items.reserve(more)?;
    let mut next = blocks.remove(index + 1);
    match blocks[index].items.append(&mut next.items) {
        Ok(()) => Ok(()),
        Err(_) => unreachable!(),
    }
}

/// Whether a block must be joined with the one after it, so that it has all items up to `to`, or
/// because both have few.
fn is_short<T>(blocks: &[Block<T>], index: usize, to: usize) -> bool
    requires inside { index < length blocks.now }
    requires laid { AreLaid 0 blocks.now }
    requires within { to ≤ length (items_in blocks.now) }
    ensures next { IsTrue result → index + 1 < length blocks.now }
    ensures ended { result ≡ false → to ≤ start_at blocks.now (index + 1) }
{
    if blocks.len() - 1 <= index {
        return false;
    }
    let next = &blocks[index + 1];
    if next.start < to {
        return true;
    }
    blocks[index].items.len().saturating_add(next.items.len()) <= BLOCK_ITEMS
}

/// The index of a block with all items from `from` up to `to` and room for `count` others in their
/// place. The blocks that have these items are joined for that.
pub(crate) fn gather_items<T: Drop>(
    blocks: &mut Vec<Block<T>>,
    from: usize,
    to: usize,
    count: usize,
) -> Result<usize, AllocError>
    requires some { 0 < length blocks.old.items }
    requires laid { AreLaid 0 blocks.old.items }
    requires few { length (items_in blocks.old.items) < 2 ^ 63 }
    requires ordered { from ≤ to }
    requires within { to ≤ length (items_in blocks.old.items) }
    ensures some { 0 < length blocks.new.items }
    ensures laid { AreLaid 0 blocks.new.items }
    ensures items { items_in blocks.new.items ≡ items_in blocks.old.items }
    ensures held { IfOk result (HoldsStretch blocks.new.items from to count) }
{
    let long = find_block(blocks, from);
    cut_items(blocks, long)?;
    let index = find_block(blocks, from);
    'joins: while is_short(blocks, index, to) {
        join_next_items(blocks, index)?;
    }
    reserve_items(blocks, index, count.saturating_sub(to - from))?;
    Ok(index)
}

/// Reserves room in a block for this many more items.
fn reserve_items<T: Drop>(
    blocks: &mut Vec<Block<T>>,
    index: usize,
    more: usize,
) -> Result<(), AllocError>
    requires inside { index < length blocks.old.items }
    requires laid { AreLaid 0 blocks.old.items }
    ensures len { length blocks.new.items ≡ length blocks.old.items }
    ensures laid { AreLaid 0 blocks.new.items }
    ensures items { items_in blocks.new.items ≡ items_in blocks.old.items }
    ensures starts { (k : ℕ) → start_at blocks.new.items k ≡ start_at blocks.old.items k }
    ensures room { OnOk result ((other : Block T)
        → HasRoom (slice_index_or blocks.new.items index other).items 0 more) }
{
    blocks[index].items.reserve(more)
}

/// Moves the starts of the blocks from the index `first` on, after `come` items have replaced
/// `gone` items before them.
pub(crate) fn move_later<T>(blocks: &mut Vec<Block<T>>, first: usize, gone: usize, come: usize)
    requires within { first ≤ length blocks.old.items }
    requires late { (i : ℕ) (other : Block T) → first ≤ i → i < length blocks.old.items
        → gone ≤ (slice_index_or blocks.old.items i other).start }
    requires few { (i : ℕ) (other : Block T) → first ≤ i → i < length blocks.old.items
        → (slice_index_or blocks.old.items i other).start + come < 2 ^ 64 }
    ensures { blocks.new.items ≡ take first blocks.old.items
        ++ map (moved_block gone come) (drop first blocks.old.items) }
{
    move_starts(&mut blocks[first..], gone, come);
}

fn move_starts<T>(blocks: &mut [Block<T>], gone: usize, come: usize)
    requires late { (i : ℕ) (other : Block T) → i < length blocks.old
        → gone ≤ (slice_index_or blocks.old i other).start }
    requires few { (i : ℕ) (other : Block T) → i < length blocks.old
        → (slice_index_or blocks.old i other).start + come < 2 ^ 64 }
    ensures { blocks.new ≡ map (moved_block gone come) blocks.old }
{
    for block in blocks.iter_mut() {
        block.start = block.start - gone + come;
    }
}
