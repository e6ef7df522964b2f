//! Monomials over tokens.

ghost use Rattle.std.specs.Prelude.{◌≡◌, ◌++◌, ◌∷◌, ◌&&◌, [], IfOk, OnErr, if◌then◌else◌, nat_le};
ghost use Rattle.std.specs.Ordering.{eq_by_cmp, as_partial_cmp};
ghost use Rattle.std.specs.Cmp.{eq_by_cmp_equiv, partial_equiv_from_equiv, po};
ghost use Rattle.gp_base.specs.Tokens.{monomial_cmp, once, one, times, token_cmp};
ghost use Rattle.gp_base.specs.MonomialForms.{IsMonomial, follows, power};
ghost use Rattle.gp_base.specs.TokenOrder.{monomial_cmp_total};

use crate::error::NoMemory;
use crate::token::Token;
use smallvec::SmallVec;
use std::alloc::{AllocError, Global};
use std::cmp::Ordering;
use std::marker::Model;

/// A product of tokens, each with its count: a monomial of a provenance polynomial (Green, Karvounarakis and Tannen 2007).
/// Contracts see it as the list of its tokens with their counts, in ascending order of the tokens. Counts are from 1 to
/// 2^64 - 1, where they stop. One token is kept in the value, which keeps cells small; more need an allocation.
#[derive(Drop)]
pub struct Monomial {
    powers: SmallVec<(Token, u64), 1>,
}

impl Model for Monomial {
    ghost use Rattle.gp_base.specs.Tokens.{Monomial};
    ghost use Rattle.gp_base.specs.MonomialForms.{IsMonomial};
    ghost use Rattle.gp_base.specs.TokenOrder.{coded_monomial};

    ghost Value = { Monomial };

    ghost coded = { coded_monomial };

    ghost view = { λ a. a.powers.items };

    ghost invariant = { λ a. IsMonomial a.powers.items };
}

/// The order of tokens.
fn compare_tokens(left: &Token, right: &Token) -> Ordering
    ensures { result ≡ token_cmp left.now right.now }
{
    left.cmp(right)
}

/// Whether the token is greater than the last of an ascending list.
#[tactic(auto, using(crate::proofs::FollowingLemmas::lasts))]
fn follows(token: &Token, powers: &[(Token, u64)]) -> bool
    ensures { result ≡ follows token.now powers.now }
{
    match powers.last() {
        None => true,
        Some((last, _)) => compare_tokens(last, token).is_lt(),
    }
}

/// The product of two lists of tokens with counts.
fn merge(
    alloc: Global,
    left: &[(Token, u64)],
    right: &[(Token, u64)],
) -> Result<SmallVec<(Token, u64), 1>, NoMemory>
    ensures { IfOk result (λ powers. powers.items ≡ times left.now right.now) }
{
    let mut powers = SmallVec::new(alloc);
    let mut i = 0;
    let mut j = 0;
    'both: while i < left.len() && j < right.len() {
        let (token, count) = left[i];
        let (other, more) = right[j];
        match compare_tokens(&token, &other) {
            Ordering::Less => {
                powers.push((token, count))?;
                i += 1;
            }
            Ordering::Equal => {
                powers.push((token, count.saturating_add(more)))?;
                i += 1;
                j += 1;
            }
            Ordering::Greater => {
                powers.push((other, more))?;
                j += 1;
            }
        }
    }
    'left: while i < left.len() {
        powers.push(left[i])?;
        i += 1;
    }
    'right: while j < right.len() {
        powers.push(right[j])?;
        j += 1;
    }
    Ok(powers)
}

impl Monomial {
    /// The product of no tokens.
    pub fn one(alloc: Global) -> Monomial
        ensures { result ≡ one }
    {
        Monomial {
            powers: SmallVec::new(alloc),
        }
    }

    /// One token, which needs no allocation.
    pub fn of(alloc: Global, token: Token) -> Monomial
        ensures { result ≡ once token }
    {
        let mut powers = SmallVec::new(alloc);
        powers.push_reserved((token, 1));
        Monomial { powers }
    }

    /// The tokens with their counts, in ascending order.
    pub fn powers(&self) -> &[(Token, u64)]
        ensures powers { result.now ≡ self.now }
        ensures valid { IsMonomial self.now }
    {
        self.powers.as_slice()
    }

    /// Adds a token with its count behind all others, and returns true. If the count is 0, or if the token is not greater than
    /// all others, the monomial is unchanged, and the result is false. If memory runs out, it is unchanged too.
    pub fn push(&mut self, token: Token, count: u64) -> Result<bool, NoMemory>
        ensures value { IfOk result (λ pushed.
            pushed ≡ (nat_le 1 count && follows token self.old)) }
        ensures ok { IfOk result (λ pushed. self.new
            ≡ (if pushed then self.old ++ (token, count) ∷ [] else self.old)) }
        ensures unchanged { OnErr result (self.new ≡ self.old) }
    {
        if count == 0 || !follows(&token, self.powers.as_slice()) {
            return Ok(false);
        }
        self.powers.push((token, count))?;
        Ok(true)
    }

    /// The product: the counts of common tokens add up, and stop at 2^64 - 1. Running out of memory is the only error.
    pub fn times(&self, alloc: Global, other: &Monomial) -> Result<Monomial, NoMemory>
        ensures { IfOk result (λ monomial. monomial ≡ times self.now other.now) }
    {
        let powers = merge(alloc, self.powers.as_slice(), other.powers.as_slice())?;
        Ok(Monomial { powers })
    }

    /// The count of a token, 0 where it is absent.
    pub fn power(&self, token: Token) -> u64
        ensures { result ≡ power self.now token }
    {
        for &(other, count) in self.powers.as_slice() {
            if compare_tokens(&token, &other) == Ordering::Equal {
                return count;
            }
        }
        0
    }

    /// The order of monomials: by the first token or count that differs; a proper prefix is less.
    pub fn compare(&self, other: &Monomial) -> Ordering
        ensures { result ≡ monomial_cmp self.now other.now }
    {
        self.powers.as_slice().cmp(other.powers.as_slice())
    }
}

impl Clone for Monomial {
    ghost is_clone = { λ value copy. copy ≡ value };

    fn clone(&self) -> Result<Monomial, AllocError> {
        let powers = SmallVec::from_slice(*self.powers.allocator(), self.powers.as_slice())?;
        Ok(Monomial { powers })
    }
}

impl PartialEq for Monomial {
    ghost eq = { eq_by_cmp monomial_cmp };

    ghost laws = { partial_equiv_from_equiv (eq_by_cmp_equiv monomial_cmp_total) };

    fn eq(&self, other: &Monomial) -> bool {
        self.compare(other) == Ordering::Equal
    }
}

impl Eq for Monomial {
    ghost laws = { eq_by_cmp_equiv monomial_cmp_total };
}

impl PartialOrd for Monomial {
    ghost use Rattle.std.specs.Prelude.{refl};

    ghost partial_cmp = { as_partial_cmp monomial_cmp };

    ghost laws = { po monomial_cmp_total (λ x y. refl) };

    fn partial_cmp(&self, other: &Monomial) -> Option<Ordering> {
        Some(self.compare(other))
    }
}

impl Ord for Monomial {
    ghost use Rattle.std.specs.Prelude.{refl};

    ghost cmp = { monomial_cmp };

    ghost total = { monomial_cmp_total };

    ghost matches_partial_cmp = { λ x y. refl };

    ghost matches_eq = { λ x y. refl };

    fn cmp(&self, other: &Monomial) -> Ordering {
        self.compare(other)
    }
}
