ghost use Rattle.std.specs.Prelude.{◌≡◌};

use base_lines::LineFault;
use std::alloc::AllocError;
use thiserror::Error;

/// Why a session couldn't be opened. The first of these that holds is returned.
#[derive(Clone, Copy, Debug, Drop, PartialEq, Eq, Error)]
pub enum OpenFault {
    #[error("a bad distance of checkpoints: it is from 1 to 10000")]
    BadEvery,
    #[error("line {0} of the log can't be played: {1}")]
    BadLine(usize, LineFault),
    #[error("the log has more than 65,535 lines")]
    LogFull,
    #[error("a bad seed: a seed is at most 2147483647")]
    BadSeed,
    #[error("there isn't enough memory")]
    Memory,
}

impl From<AllocError> for OpenFault {
    ghost use Rattle.cave_replay.specs.declared.fault.OpenFault.TheVariants.{Memory};

    ghost from_gives = { λ _ fault. fault ≡ Memory };

    fn from(_: AllocError) -> OpenFault {
        OpenFault::Memory
    }
}
