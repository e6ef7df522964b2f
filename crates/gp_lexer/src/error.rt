//! The error of the lexer.

ghost use Rattle.std.specs.Prelude.{◌≡◌};
ghost use Rattle.gp_lexer.specs.declared.error.LexStop.TheVariants.{NoMemory as OutOfMemory};

use gp_base::NoMemory;
use std::alloc::AllocFailed;
use thiserror::Error;

/// Why a line has no lexemes.
#[derive(Debug, Drop, Error)]
pub enum LexStop {
    /// A lexical fault: no lexeme can be read at this place.
    #[error("no lexeme at column {column}")]
    Fault {
        /// The column, which counts the bytes of the line from 1.
        column: u32,
    },
    /// Memory ran out.
    #[error("out of memory")]
    NoMemory,
}

impl From<NoMemory> for LexStop {
    ghost from_gives = { λ _ stop. stop ≡ OutOfMemory };

    fn from(_error: NoMemory) -> LexStop {
        LexStop::NoMemory
    }
}

impl<T: Drop> From<AllocFailed<T>> for LexStop {
    ghost from_gives = { λ _ stop. stop ≡ OutOfMemory };

    fn from(_error: AllocFailed<T>) -> LexStop {
        LexStop::NoMemory
    }
}
