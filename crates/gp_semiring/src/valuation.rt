//! A function on tokens beside the rules by which it answers.

ghost use Rattle.std.specs.Prelude.{◌≡◌, IfOk, Result};
ghost use Rattle.gp_base.specs.declared.error.NoMemory.{NoMemory};
ghost use Rattle.gp_base.specs.declared.token.Token.{Token};
ghost use Rattle.gp_semiring.specs.Values.{token_value};

use crate::answers::Answers;
use crate::rules::Rules;
use crate::semiring::Semiring;
use gp_base::{NoMemory, Token};
use std::marker::{Model, PhantomData};

/// A function that gives each token its value by rules. Contracts see it as the rules and the number of all other tokens.
#[derive(Drop)]
pub struct Valuation<K: Semiring, F: Answers<K>> {
    rules: Rules,
    function: F,
    of: PhantomData<K>,
}

impl<K: Semiring, F: Answers<K>> Model for Valuation<K, F> {
    ghost use Rattle.std.specs.Prelude.{◌≡◌, ℕ, List, Option, Result, IfOk};
    ghost use Rattle.gp_base.specs.declared.error.NoMemory.{NoMemory};
    ghost use Rattle.gp_base.specs.declared.token.Token.{Token};
    ghost use Rattle.gp_semiring.specs.declared.rules.Rule.{Rule};
    ghost use Rattle.gp_semiring.specs.Values.{token_value};

    ghost Value = { List Rule × Option ℕ };

    ghost view = { λ a. (a.rules.rules, a.rules.other) };

    ghost invariant = { λ a. F.is_callable a.function
        × ((token : Token) (answer : Result K NoMemory) → F.says a.function token answer
        → IfOk answer (λ element. element
        ≡ token_value K.one_of K.number_of K.itself_of (a.rules.rules, a.rules.other) token)) };
}

impl<K: Semiring, F: Answers<K>> Valuation<K, F> {
    /// A valuation by these rules. The function may be called on every token and gives, unless it runs out of memory, the
    /// element that the number of the token stands for. A token without a number is itself, and one in a semiring that has
    /// no tokens.
    pub fn new(rules: Rules, function: F) -> Valuation<K, F>
        requires callable { F.is_callable function }
        requires answers { (token : Token) (answer : Result K NoMemory) → F.says function token answer
            → IfOk answer (λ element. element
            ≡ token_value K.one_of K.number_of K.itself_of (rules.rules, rules.other) token) }
        ensures { result ≡ (rules.rules, rules.other) }
    {
        Valuation {
            rules,
            function,
            of: PhantomData,
        }
    }

    /// The value of a token. Running out of memory is the only error.
    pub fn of_token(&self, token: &Token) -> Result<K, NoMemory>
        ensures { IfOk result (λ element. element
            ≡ token_value K.one_of K.number_of K.itself_of self.now token.now) }
    {
        self.function.answer(token)
    }
}
