//! Edits as tests write them.

use replay_edits::{Edit, LineText};
use std::alloc::{AllocError, Global};

/// An edit without memory of its own.
#[derive(Clone, Copy)]
pub(crate) enum LineChange {
    Insert(u32, &'static [u8]),
    Delete(u32),
    Replace(u32, &'static [u8]),
    Reseed(u32),
}

impl LineChange {
    /// The edit.
    fn edit(&self, alloc: Global) -> Result<Edit, AllocError> {
        let edit = match self {
            LineChange::Insert(at, line) => Edit::Insert(*at, LineText::from_slice(alloc, line)?),
            LineChange::Delete(at) => Edit::Delete(*at),
            LineChange::Replace(at, line) => Edit::Replace(*at, LineText::from_slice(alloc, line)?),
            LineChange::Reseed(seed) => Edit::Reseed(*seed),
        };
        Ok(edit)
    }
}

/// The edits, in their order.
pub(crate) fn edits_of(alloc: Global, changes: &[LineChange]) -> Result<Vec<Edit>, AllocError> {
    let mut edits = Vec::new(alloc);
    for change in changes {
        edits.push(change.edit(alloc)?)?;
    }
    Ok(edits)
}
