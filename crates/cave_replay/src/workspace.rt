use crate::machine::Playable;
use std::alloc::{AllocError, Global};

/// What a session uses to play: where memory comes from, and what its machine works in.
#[derive(Drop)]
pub(crate) struct Workspace<M: Playable> {
    pub(crate) alloc: Global,
    pub(crate) scratch: M::Scratch,
}

impl<M: Playable> Workspace<M> {
    /// The workspace of a machine.
    pub(crate) fn open(alloc: Global, machine: &M) -> Result<Workspace<M>, AllocError> {
        let scratch = machine.scratch(alloc)?;
        Ok(Workspace { alloc, scratch })
    }
}
