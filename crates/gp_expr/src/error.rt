//! The errors of this crate.

ghost use Rattle.std.specs.Prelude.{◌≡◌};

use gp_base::NoMemory;
use std::alloc::{AllocError, AllocFailed};

/// Why an expression has no value.
#[derive(Drop)]
pub enum EvalStop {
    /// It would make an identity of more than [`MAX_NODES`](gp_base::MAX_NODES) nodes.
    Ancestry,
    /// Memory ran out.
    NoMemory,
}

impl From<NoMemory> for EvalStop {
    ghost use Rattle.gp_expr.specs.declared.error.EvalStop.TheVariants as stop;

    ghost from_gives = { λ _ e. e ≡ stop.NoMemory };

    fn from(_error: NoMemory) -> EvalStop {
        EvalStop::NoMemory
    }
}

impl From<AllocError> for EvalStop {
    ghost use Rattle.gp_expr.specs.declared.error.EvalStop.TheVariants as stop;

    ghost from_gives = { λ _ e. e ≡ stop.NoMemory };

    fn from(_error: AllocError) -> EvalStop {
        EvalStop::NoMemory
    }
}

impl<T: Drop> From<AllocFailed<T>> for EvalStop {
    ghost use Rattle.gp_expr.specs.declared.error.EvalStop.TheVariants as stop;

    ghost from_gives = { λ _ e. e ≡ stop.NoMemory };

    fn from(_error: AllocFailed<T>) -> EvalStop {
        EvalStop::NoMemory
    }
}
