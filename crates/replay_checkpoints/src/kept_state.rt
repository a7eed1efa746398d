ghost use Rattle.std.specs.Prelude.{◌≡◌, IfOk};

use std::alloc::{AllocError, Global};

/// A form in which a checkpoint keeps a state.
pub trait KeptState: Drop {
    /// The type of states that are kept like this.
    type State: Copy;

    ghost state_of: { Self → Self.State };

    /// Keeps a state. `last` was kept before it, if any was, and may share its memory with it.
    fn keep(alloc: Global, state: &Self::State, last: Option<&Self>) -> Result<Self, AllocError>
        ensures { IfOk result (λ kept. state_of kept ≡ state.now) };

    /// The kept state.
    fn state(&self) -> Self::State
        ensures { result ≡ state_of self.now };
}

/// A state that is kept whole, in its own Box.
#[derive(Drop)]
pub struct Whole<S: Copy> {
    whole: Box<S>,
}

impl<S: Copy> KeptState for Whole<S> {
    type State = S;

    ghost state_of = { λ kept. kept.whole.value };

    fn keep(alloc: Global, state: &S, _last: Option<&Whole<S>>) -> Result<Whole<S>, AllocError> {
        Ok(Whole {
            whole: Box::new(alloc, *state)?,
        })
    }

    fn state(&self) -> S {
        *self.whole
    }
}

/// The same state, kept once more.
pub(crate) fn keep_again<K: KeptState>(alloc: Global, kept: &K) -> Result<K, AllocError>
    ensures { IfOk result (λ copy. K.state_of copy ≡ K.state_of kept.now) }
{
    K::keep(alloc, &kept.state(), Some(kept))
}
