ghost use Rattle.std.specs.Prelude.{◌≡◌, ◌+◌, ◌≤◌, ◌<◌, ◌++◌, ◌∷◌, [], length, OnOk, IfOk};
ghost use Rattle.std.specs.Prelude.{insert, remove, slice_set, slice_index};
ghost use Rattle.replay_edits.specs.Chunks.{numbers_in, IsSought, IsWithinChunk};

use std::alloc::{AllocError, Global};
use std::mem;

/// How many numbers fill a chunk. One with twice as many is halved.
const HALF_CHUNK: usize = 512;

/// Adds a number at the end.
pub(crate) fn push_number(
    alloc: Global,
    chunks: &mut Vec<Vec<usize>>,
    number: usize,
) -> Result<(), AllocError>
    requires { 0 < length chunks.old.items }
    ensures some { 0 < length chunks.new.items }
    ensures numbers { OnOk result
        (numbers_in chunks.new.items ≡ numbers_in chunks.old.items ++ number ∷ []) }
{
    let last = chunks.len() - 1;
    if chunks[last].len() < HALF_CHUNK {
        chunks[last].push(number)?;
        return Ok(());
    }
    let mut chunk = Vec::with_capacity(alloc, HALF_CHUNK)?;
    chunk.push(number)?;
    chunks.push(chunk)?;
    Ok(())
}

/// Adds a number at a place.
pub(crate) fn insert_number(
    alloc: Global,
    chunks: &mut Vec<Vec<usize>>,
    place: usize,
    number: usize,
) -> Result<(), AllocError>
    requires some { 0 < length chunks.old.items }
    requires within { place ≤ length (numbers_in chunks.old.items) }
    ensures some { 0 < length chunks.new.items }
    ensures numbers { OnOk result
        (numbers_in chunks.new.items ≡ insert (numbers_in chunks.old.items) place number) }
{
    let (index, within) = find_place(chunks, place);
    chunks[index].insert(within, number)?;
    if chunks[index].len() < 2 * HALF_CHUNK {
        return Ok(());
    }
    halve(alloc, chunks, index)
}

/// Splits the chunk of an index in two.
fn halve(alloc: Global, chunks: &mut Vec<Vec<usize>>, index: usize) -> Result<(), AllocError>
    requires { index < length chunks.old.items }
    ensures some { 0 < length chunks.new.items }
    ensures numbers { OnOk result (numbers_in chunks.new.items ≡ numbers_in chunks.old.items) }
{
    let chunk = &mut chunks[index];
    let half = chunk.len() / 2;
    let rest = Vec::from_slice(alloc, &chunk[half..])?;
    chunk.truncate(half);
    chunks.insert(index + 1, rest)?;
    Ok(())
}

/// Removes the number at a place, and returns it.
pub(crate) fn remove_number(chunks: &mut Vec<Vec<usize>>, place: usize) -> usize
    requires some { 0 < length chunks.old.items }
    requires within { place < length (numbers_in chunks.old.items) }
    ensures some { 0 < length chunks.new.items }
    ensures number { result ≡ slice_index (numbers_in chunks.old.items) place }
    ensures numbers { numbers_in chunks.new.items ≡ remove (numbers_in chunks.old.items) place }
{
    let (index, within) = find_place(chunks, place);
    chunks[index].remove(within)
}

/// Replaces the number at a place, and returns the old one.
pub(crate) fn replace_number(chunks: &mut Vec<Vec<usize>>, place: usize, number: usize) -> usize
    requires some { 0 < length chunks.old.items }
    requires within { place < length (numbers_in chunks.old.items) }
    ensures some { 0 < length chunks.new.items }
    ensures number { result ≡ slice_index (numbers_in chunks.old.items) place }
    ensures numbers { numbers_in chunks.new.items
        ≡ slice_set (numbers_in chunks.old.items) place number }
{
    let (index, within) = find_place(chunks, place);
    let chunk = &mut chunks[index];
    mem::replace(&mut chunk[within], number)
}

/// The number at a place, or how far the place is past the last number.
pub(crate) fn seek_number(chunks: &[Vec<usize>], place: usize) -> Result<usize, usize>
    ensures { IsSought (numbers_in chunks.now) place result }
{
    let mut past = place;
    for chunk in chunks {
        if past < chunk.len() {
            return Ok(chunk[past]);
        }
        past -= chunk.len();
    }
    Err(past)
}

/// The chunk that a place is in, and where it is within that.
fn find_place(chunks: &[Vec<usize>], place: usize) -> (usize, usize)
    requires some { 0 < length chunks.now }
    requires within { place ≤ length (numbers_in chunks.now) }
    ensures { IsWithinChunk chunks.now place result.0 result.1 }
{
    let mut index = 0;
    let mut within = place;
    while index + 1 < chunks.len() {
        let count = chunks[index].len();
        if within < count {
            return (index, within);
        }
        within -= count;
        index += 1;
    }
    (index, within)
}

/// The numbers of all chunks, side by side.
pub(crate) fn join_chunks(alloc: Global, chunks: &[Vec<usize>]) -> Result<Vec<usize>, AllocError>
    ensures { IfOk result (λ all. all.items ≡ numbers_in chunks.now) }
{
    let mut all = Vec::new(alloc);
    for chunk in chunks {
        all.extend_from_slice(chunk)?;
    }
    Ok(all)
}
