//! Functions on tokens that a value can keep.

ghost use Rattle.std.specs.Prelude.{Result};
ghost use Rattle.std.specs.Fn.{FnReturnsAt};
ghost use Rattle.gp_base.specs.declared.error.NoMemory.{NoMemory};
ghost use Rattle.gp_base.specs.declared.token.Token.{Token};

use gp_base::{NoMemory, Token};

/// What gives an element for each token, or runs out of memory. A type that keeps a function beside a fact about its answers
/// has this bound, since the fact can name the members below, and not those of `Fn`.
pub trait Answers<K>: Drop {
    /// Each token may be asked.
    ghost is_callable: { Self → Type 0 };

    /// What may be answered for a token.
    ghost says: { Self → Token → Result K NoMemory → Type 0 };

    /// The answer for a token.
    fn answer(&self, token: &Token) -> Result<K, NoMemory>
        requires { is_callable self.now }
        ensures { says self.now token.now result };
}

/// A function on tokens.
#[derive(Drop)]
pub struct Function<F> {
    /// The function.
    pub function: F,
}

impl<K, F: Fn(&Token) -> Result<K, NoMemory> + Drop> Answers<K> for Function<F> {
    ghost is_callable = { λ kept. F.IsAlwaysCallable kept.function };

    ghost says = { λ kept token answer. FnReturnsAt F.Fn kept.function token answer };

    fn answer(&self, token: &Token) -> Result<K, NoMemory> {
        (self.function)(token)
    }
}
