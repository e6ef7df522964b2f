//! Why a line, a statement or a question has no result.

ghost use Rattle.std.specs.Prelude.{◌≡◌};
ghost use Rattle.gp_base.specs.declared.stop.Stop.TheVariants as stop;

use crate::error::NoMemory;
use crate::refusal::Refusal;
use std::alloc::{AllocError, AllocFailed};

/// Why a line, a statement or a question has no result.
#[derive(Drop)]
pub enum Stop {
    /// It is refused, for this reason.
    Refused(Refusal),
    /// Memory ran out, which says nothing of it.
    NoMemory,
}

impl From<Refusal> for Stop {
    ghost from_gives = { λ refusal e. e ≡ stop.Refused refusal };

    fn from(refusal: Refusal) -> Stop {
        Stop::Refused(refusal)
    }
}

impl From<NoMemory> for Stop {
    ghost from_gives = { λ _ e. e ≡ stop.NoMemory };

    fn from(_error: NoMemory) -> Stop {
        Stop::NoMemory
    }
}

impl From<AllocError> for Stop {
    ghost from_gives = { λ _ e. e ≡ stop.NoMemory };

    fn from(_error: AllocError) -> Stop {
        Stop::NoMemory
    }
}

impl<T: Drop> From<AllocFailed<T>> for Stop {
    ghost from_gives = { λ _ e. e ≡ stop.NoMemory };

    fn from(_error: AllocFailed<T>) -> Stop {
        Stop::NoMemory
    }
}
