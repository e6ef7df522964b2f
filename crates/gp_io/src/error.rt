//! The reasons why a call of a shelf or a sink stopped.
ghost use Rattle.std.specs.Prelude.{◌≡◌};

use std::alloc::AllocError;
use thiserror::Error;

/// Why a file was not read or not replaced.
#[derive(Clone, Copy, Debug, PartialEq, Eq, Error)]
pub enum ShelfStop {
    /// There is no such file. Only a read gives this answer.
    #[error("no such file")]
    Absent,
    /// The file could not be read or replaced.
    #[error("the file cannot be read or replaced")]
    Failed,
    /// Out of memory: no file changed.
    #[error("out of memory")]
    NoMemory,
}

/// Why bytes were not written, or not all of them.
#[derive(Clone, Copy, Debug, PartialEq, Eq, Error)]
pub enum SinkStop {
    /// A write error. A prefix of the bytes may have been written.
    #[error("the output cannot be written")]
    Failed,
    /// Out of memory: nothing was written.
    #[error("out of memory")]
    NoMemory,
}

/// Why bytes were not stored in a new file.
#[derive(Clone, Copy, Debug, PartialEq, Eq, Drop)]
pub(crate) enum NotStored {
    /// The name is taken: nothing was made.
    Taken,
    /// The file could not be made.
    NotMade,
    /// It was made, and does not have the bytes for sure.
    Broken,
}

impl From<AllocError> for ShelfStop {
    ghost use Rattle.gp_io.specs.declared.error.ShelfStop.TheVariants.{NoMemory};

    ghost from_gives = { λ _ stop. stop ≡ NoMemory };

    fn from(_error: AllocError) -> ShelfStop {
        ShelfStop::NoMemory
    }
}

impl From<AllocError> for SinkStop {
    ghost use Rattle.gp_io.specs.declared.error.SinkStop.TheVariants.{NoMemory};

    ghost from_gives = { λ _ stop. stop ≡ NoMemory };

    fn from(_error: AllocError) -> SinkStop {
        SinkStop::NoMemory
    }
}
