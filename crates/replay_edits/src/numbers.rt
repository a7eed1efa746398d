ghost use Rattle.std.specs.Prelude.{◌≡◌, ◌+◌, ◌≤◌, ◌<◌, ◌++◌, ◌∷◌, [], length, OnOk, IfOk};
ghost use Rattle.std.specs.Prelude.{insert, remove, slice_set, slice_index};
ghost use Rattle.replay_edits.specs.Chunks.{IsSought};

use crate::chunks::{
    insert_number, join_chunks, push_number, remove_number, replace_number, seek_number,
};
use std::alloc::{AllocError, Global};
use std::marker::Model;

/// Numbers in a row. They lie in chunks, so adding or removing one moves few of the others.
#[derive(Drop)]
pub(crate) struct Numbers {
    chunks: Vec<Vec<usize>>,
}

impl Model for Numbers {
    ghost use Rattle.std.specs.Prelude.{ℕ, List, length, ◌<◌};
    ghost use Rattle.replay_edits.specs.Chunks.{numbers_in};

    ghost Value = { List ℕ };

    ghost view = { λ numbers. numbers_in numbers.chunks.items };

    ghost invariant = { λ numbers. 0 < length numbers.chunks.items };
}

impl Numbers {
    /// No numbers.
    pub(crate) fn none(alloc: Global) -> Result<Numbers, AllocError>
        ensures { IfOk result (λ numbers. numbers ≡ []) }
    {
        let mut chunks = Vec::new(alloc);
        chunks.push(Vec::new(alloc))?;
        Ok(Numbers { chunks })
    }

    /// The number at a place, or how far the place is past the last one.
    pub(crate) fn seek(&self, place: usize) -> Result<usize, usize>
        ensures { IsSought self.now place result }
    {
        seek_number(&self.chunks, place)
    }

    /// Adds a number at the end.
    pub(crate) fn push(&mut self, alloc: Global, number: usize) -> Result<(), AllocError>
        ensures { OnOk result (self.new ≡ self.old ++ number ∷ []) }
    {
        push_number(alloc, &mut self.chunks, number)
    }

    /// Adds a number at a place; those from there on move back by one.
    pub(crate) fn insert(
        &mut self,
        alloc: Global,
        place: usize,
        number: usize,
    ) -> Result<(), AllocError>
        requires { place ≤ length self.old }
        ensures { OnOk result (self.new ≡ insert self.old place number) }
    {
        insert_number(alloc, &mut self.chunks, place, number)
    }

    /// Removes the number at a place, and returns it; those after it move forward by one.
    pub(crate) fn remove(&mut self, place: usize) -> usize
        requires { place < length self.old }
        ensures number { result ≡ slice_index self.old place }
        ensures numbers { self.new ≡ remove self.old place }
    {
        remove_number(&mut self.chunks, place)
    }

    /// Replaces the number at a place, and returns the old one.
    pub(crate) fn replace(&mut self, place: usize, number: usize) -> usize
        requires { place < length self.old }
        ensures number { result ≡ slice_index self.old place }
        ensures numbers { self.new ≡ slice_set self.old place number }
    {
        replace_number(&mut self.chunks, place, number)
    }

    /// The numbers, side by side.
    pub(crate) fn to_vec(&self, alloc: Global) -> Result<Vec<usize>, AllocError>
        ensures { IfOk result (λ all. all.items ≡ self.now) }
    {
        join_chunks(alloc, &self.chunks)
    }
}
