//! Why a part of a line is not read.

ghost use Rattle.std.specs.Prelude.{◌≡◌};
ghost use Rattle.gp_syntax.specs.declared.error.ParseStop.TheVariants.{NoMemory as OutOfMemory};

use gp_base::NoMemory;
use gp_lexer::Lexeme;
use std::alloc::{AllocError, AllocFailed};

/// Why a parser stops.
#[derive(Drop)]
pub(crate) enum ParseStop<'a> {
    /// The first of these lexemes, which end the line, fits nothing that may be at its place. If there is none, the line
    /// may not end there.
    At(&'a [Lexeme]),
    /// Memory ran out.
    NoMemory,
}

impl<'a> From<NoMemory> for ParseStop<'a> {
    ghost from_gives = { λ _ stop. stop ≡ OutOfMemory };

    fn from(_error: NoMemory) -> ParseStop<'a> {
        ParseStop::NoMemory
    }
}

impl<'a, T: Drop> From<AllocFailed<T>> for ParseStop<'a> {
    ghost from_gives = { λ _ stop. stop ≡ OutOfMemory };

    fn from(_error: AllocFailed<T>) -> ParseStop<'a> {
        ParseStop::NoMemory
    }
}

impl<'a> From<AllocError> for ParseStop<'a> {
    ghost from_gives = { λ _ stop. stop ≡ OutOfMemory };

    fn from(_error: AllocError) -> ParseStop<'a> {
        ParseStop::NoMemory
    }
}
