//! Values of tokens by rules alone.

ghost use Rattle.std.specs.Prelude.{◌≡◌, [], Result, IfOk};
ghost use Rattle.std.specs.Option.{is_none};
ghost use Rattle.gp_base.specs.declared.error.NoMemory.{NoMemory};
ghost use Rattle.gp_base.specs.declared.token.Token.{Token};
ghost use Rattle.gp_semiring.specs.Rules as r;
ghost use Rattle.gp_semiring.specs.Values.{token_value, value_by};

use crate::answers::Answers;
use crate::rules::Rules;
use crate::semiring::Semiring;
use crate::valuation::Valuation;
use gp_base::{NoMemory, Sequence, Token};
use std::alloc::Global;
use std::marker::PhantomData;

/// Gives each token the element that stands for its number by rules, and in a semiring of tokens the token itself where it
/// has none.
#[derive(Drop)]
pub struct ByRules<K> {
    alloc: Global,
    rules: Rules,
    of: PhantomData<K>,
}

/// The element of a number, or of the token itself; where there is none, one.
fn element_of<K: Semiring>(alloc: Global, number: Option<u64>, token: &Token) -> Result<K, NoMemory>
    ensures { IfOk result (λ element. element
        ≡ value_by K.one_of K.number_of K.itself_of number token.now) }
{
    let found = match number {
        Some(number) => K::of_number(alloc, number)?,
        None => K::of_itself(alloc, token)?,
    };
    match found {
        Some(element) => Ok(element),
        None => K::one(alloc),
    }
}

impl<K: Semiring> Answers<K> for ByRules<K> {
    ghost is_callable = { λ by_rules. Unit {0} };

    ghost says = { λ by_rules token answer. IfOk answer (λ element. element
        ≡ token_value K.one_of K.number_of K.itself_of
        (by_rules.rules.rules, by_rules.rules.other) token) };

    fn answer(&self, token: &Token) -> Result<K, NoMemory> {
        element_of(self.alloc, self.rules.number(token), token)
    }
}

/// The valuation by these rules: a token has the element that the number of the first rule that matches it stands for,
/// else that of the number of all other tokens. Without one it is itself, and one in a semiring that has no tokens. Running
/// out of memory is the only error.
pub fn by_rules<K: Semiring>(
    alloc: Global,
    rules: Rules,
) -> Result<Valuation<K, ByRules<K>>, NoMemory>
    ensures { IfOk result (λ valuation. valuation ≡ (rules.rules, rules.other)) }
{
    let kept = Sequence::from_slice(alloc, rules.rules.as_slice())?;
    let function = ByRules {
        alloc,
        rules: Rules {
            rules: kept,
            other: rules.other,
        },
        of: PhantomData,
    };
    Ok(Valuation::new(rules, function))
}

/// Whether a number stands for no element.
fn is_outside<K: Semiring>(alloc: Global, number: u64) -> Result<bool, NoMemory>
    ensures { IfOk result (λ outside. outside ≡ is_none (K.number_of number)) }
{
    let element: Option<K> = K::of_number(alloc, number)?;
    Ok(element.is_none())
}

/// The number of all other tokens, if it stands for no element.
fn other_outside<K: Semiring>(alloc: Global, other: Option<u64>) -> Result<Option<u64>, NoMemory>
    ensures { IfOk result (λ found. found ≡ r.first_outside K.number_of [] other) }
{
    match other {
        None => Ok(None),
        Some(number) => {
            if is_outside::<K>(alloc, number)? {
                return Ok(Some(number));
            }
            Ok(None)
        }
    }
}

/// The first number that stands for no element of the semiring, in the order of the rules and then that of all other tokens;
/// None if there is no such number. Running out of memory is the only error.
pub fn first_outside<K: Semiring>(alloc: Global, rules: &Rules) -> Result<Option<u64>, NoMemory>
    ensures { IfOk result (λ found. found
        ≡ r.first_outside K.number_of rules.now.rules rules.now.other) }
{
    for rule in rules.rules.as_slice() {
        if is_outside::<K>(alloc, rule.value)? {
            return Ok(Some(rule.value));
        }
    }
    other_outside::<K>(alloc, rules.other)
}
