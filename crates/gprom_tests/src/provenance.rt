//! Identities of rows and monomials: their limits, and the order of monomials. The other orders and texts are in transcripts.

use crate::cases::instead;
use gp_base::{Monomial, NoMemory, RowId, Token};
use std::alloc::Global;
use std::cmp::Ordering;
use std::test::Fail;

/// The three numbers of an identity.
pub(crate) type Numbers = (u32, u32, u32);

/// The identity of these numbers and sources, which have few enough nodes.
pub(crate) fn id_with(numbers: Numbers, sources: Vec<RowId>) -> Result<RowId, NoMemory> {
    let (t, k, n) = numbers;
    RowId::new(t, k, n, sources).ok_or(NoMemory)
}

/// The identities of these numbers, which have no sources.
fn leaves(alloc: Global, all: &[Numbers]) -> Result<Vec<RowId>, NoMemory> {
    let mut ids = Vec::new(alloc);
    for numbers in all {
        ids.push(id_with(*numbers, Vec::new(alloc))?)?;
    }
    Ok(ids)
}

/// The identity of these numbers; its sources have no sources themselves.
pub(crate) fn id_of(
    alloc: Global,
    numbers: Numbers,
    sources: &[Numbers],
) -> Result<RowId, NoMemory> {
    id_with(numbers, leaves(alloc, sources)?)
}

/// Whether there is an identity of these sources.
fn is_there(sources: Vec<RowId>) -> bool {
    RowId::new(2, 1, 1, sources).is_some()
}

#[test]
fn an_identity_has_at_most_64_nodes(rt: HostRuntime) -> Result<(), Fail> {
    assert!(rt; is_there(leaves(rt.alloc(), &[(1, 1, 1); 63])?));
    assert!(rt; !is_there(leaves(rt.alloc(), &[(1, 1, 1); 64])?));
    Ok(())
}

const I1: Token = Token::Inserted { t: 1, k: 1, n: 1 };

const I2: Token = Token::Inserted { t: 1, k: 1, n: 2 };

const Q2: Token = Token::Queried { t: 2, k: 1 };

const U3: Token = Token::Updated { t: 3, k: 1 };

/// The product with one more token.
fn times(alloc: Global, product: &Monomial, token: Token) -> Result<Monomial, NoMemory> {
    let once = Monomial::of(alloc, token);
    product.times(alloc, &once)
}

/// The product of the tokens.
fn monomial_of(alloc: Global, tokens: &[Token]) -> Result<Monomial, NoMemory> {
    let mut product = Monomial::one(alloc);
    for token in tokens {
        product = instead(times(alloc, &product, *token), product)?;
    }
    Ok(product)
}

const ORDERED_MONOMIALS: &[&[Token]] = &[
    &[],
    &[I1],
    &[I1, I2, Q2],
    &[I1, Q2],
    &[I1, I1],
    &[I1, I1, Q2],
    &[I2],
    &[Q2],
    &[U3],
];

/// How two monomials that were made compare.
fn compared_monomials(
    left: Result<Monomial, NoMemory>,
    right: Result<Monomial, NoMemory>,
) -> Option<Ordering> {
    match (&left, &right) {
        (Ok(left), Ok(right)) => Some(left.compare(right)),
        _ => None,
    }
}

#[test]
fn monomials_have_an_order(rt: HostRuntime) {
    for (place, left) in ORDERED_MONOMIALS.iter().enumerate() {
        for (other, right) in ORDERED_MONOMIALS.iter().enumerate() {
            let left = monomial_of(rt.alloc(), left);
            let right = monomial_of(rt.alloc(), right);
            assert!(rt; compared_monomials(left, right) == Some(place.cmp(&other)));
        }
    }
}

/// U3 after it is squared so many times.
fn squared(alloc: Global, times: u32) -> Result<Monomial, NoMemory> {
    let mut product = Monomial::of(alloc, U3);
    for _ in 0..times {
        product = instead(product.times(alloc, &product), product)?;
    }
    Ok(product)
}

#[test]
fn counts_stop(rt: HostRuntime) -> Result<(), Fail> {
    assert!(rt; squared(rt.alloc(), 63)?.power(U3) == 1 << 63);
    assert!(rt; squared(rt.alloc(), 63)?.power(Q2) == 0);
    assert!(rt; squared(rt.alloc(), 65)?.power(U3) == u64::MAX);
    Ok(())
}
