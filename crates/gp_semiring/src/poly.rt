//! The semiring of polynomials.

ghost use Rattle.std.specs.Prelude.{◌≡◌, ◌++◌, [], IfOk, IfSome};
ghost use Rattle.gp_base.specs.Tokens.{Monomial};
ghost use Rattle.gp_semiring.specs.PolynomialLaws.{number_in, poly_laws, token_in};
ghost use Rattle.gp_semiring.specs.Polynomials as p;
ghost use Rattle.gp_semiring.specs.Polynomials.{poly_number, poly_one, poly_plus, poly_times, poly_token};
ghost use Rattle.gp_semiring.specs.Adding.{with_terms};
ghost use Rattle.gp_semiring.specs.WitnessForms.{IsPolynomial};

use crate::semiring::Semiring;
use crate::terms::{TermFormat, add_products, add_terms, copied, merged_terms};
use gp_base::{Monomial, NoMemory, Token, write_joined};
use std::alloc::Global;
use std::cmp::Ordering;
use std::marker::Model;

/// A polynomial over the tokens, a finite sum of monomials: provenance itself. Coefficients and exponents stop at 2^64 - 1.
/// Contracts see it as the list of its monomials with their coefficients, in ascending order of the monomials.
#[derive(Drop)]
pub struct Poly {
    terms: Vec<(Monomial, u64)>,
    // Terms that were added to many, and are still to be put among them: one at a time would move those behind it each time.
    recent: Vec<(Monomial, u64)>,
}

/// To fewer terms others are added one at a time, and so many are put among more at once.
const MANY: usize = 1_024;

impl Model for Poly {
    ghost use Rattle.gp_semiring.specs.Adding.{with_terms};
    ghost use Rattle.gp_semiring.specs.PolynomialLaws.{coded_terms};
    ghost use Rattle.gp_semiring.specs.Polynomials.{Terms};
    ghost use Rattle.gp_semiring.specs.WitnessForms.{IsPolynomial};

    ghost Value = { Terms };

    ghost coded = { coded_terms };

    ghost view = { λ a. with_terms a.recent.items a.terms.items };

    ghost invariant = { λ a. IsPolynomial a.terms.items × IsPolynomial a.recent.items };
}

/// The text of terms.
fn poly_text(alloc: Global, terms: &[(Monomial, u64)]) -> Result<Vec<u8>, NoMemory>
    ensures { IfOk result (λ text. text.items ≡ p.poly_text terms.now) }
{
    let mut text = Vec::new(alloc);
    if terms.is_empty() {
        text.push(b'0')?;
        return Ok(text);
    }
    write_joined(alloc, terms, &TermFormat, b" + ", &mut text)?;
    Ok(text)
}

/// Whether terms are added to others one at a time in little time: the others are few, or all before them.
fn is_quick(terms: &[(Monomial, u64)], others: &[(Monomial, u64)]) -> bool {
    if terms.len() < MANY {
        return true;
    }
    match (terms.last(), others.first()) {
        (Some(last), Some(first)) => last.0.compare(&first.0) == Ordering::Less,
        _ => true,
    }
}

/// The sum of terms with recent ones, and of others with more. It is made in the memory of the first two.
fn sum(
    alloc: Global,
    others: &[(Monomial, u64)],
    more: &[(Monomial, u64)],
    terms: Vec<(Monomial, u64)>,
    recent: Vec<(Monomial, u64)>,
) -> Result<Poly, NoMemory>
    requires others { IsPolynomial others.now }
    requires more { IsPolynomial more.now }
    requires terms { IsPolynomial terms.items }
    requires recent { IsPolynomial recent.items }
    ensures { IfOk result (λ sum. sum
        ≡ poly_plus (with_terms more.now others.now) (with_terms recent.items terms.items)) }
{
    if is_quick(&terms, others) {
        let mut terms = terms;
        add_terms(&mut terms, others)?;
        add_terms(&mut terms, more)?;
        return Ok(Poly { terms, recent });
    }
    let mut recent = recent;
    add_terms(&mut recent, others)?;
    add_terms(&mut recent, more)?;
    if recent.len() < MANY {
        return Ok(Poly { terms, recent });
    }
    let terms = merged_terms(alloc, &recent, terms)?;
    Ok(Poly {
        terms,
        recent: Vec::new(alloc),
    })
}

/// A copy of terms with recent ones.
fn copy_of(
    alloc: Global,
    terms: &[(Monomial, u64)],
    recent: &[(Monomial, u64)],
) -> Result<Poly, NoMemory>
    requires terms { IsPolynomial terms.now }
    requires recent { IsPolynomial recent.now }
    ensures { IfOk result (λ copy. copy ≡ with_terms recent.now terms.now) }
{
    let terms = copied(alloc, terms)?;
    let recent = copied(alloc, recent)?;
    Ok(Poly { terms, recent })
}

/// The products of each term of the one and each of the other.
fn products(
    alloc: Global,
    left: &[(Monomial, u64)],
    right: &[(Monomial, u64)],
) -> Result<Poly, NoMemory>
    requires left { IsPolynomial left.now }
    requires right { IsPolynomial right.now }
    ensures { IfOk result (λ product. product ≡ poly_times left.now right.now) }
{
    let mut terms = Vec::new(alloc);
    add_products(alloc, &mut terms, left, right)?;
    Ok(Poly {
        terms,
        recent: Vec::new(alloc),
    })
}

impl Poly {
    /// All terms, where none are still to be put among them.
    fn plain(&self) -> Option<&[(Monomial, u64)]>
        ensures terms { IfSome result (λ terms. terms.now ≡ self.now) }
        ensures polynomial { IsPolynomial self.now }
    {
        if self.recent.is_empty() {
            Some(self.terms.as_slice())
        } else {
            None
        }
    }

    /// Copies of all terms.
    fn whole(&self, alloc: Global) -> Result<Vec<(Monomial, u64)>, NoMemory>
        ensures { IfOk result (λ terms. terms.items ≡ self.now) }
    {
        let terms = copied(alloc, self.terms.as_slice())?;
        Ok(merged_terms(alloc, self.recent.as_slice(), terms)?)
    }

    /// The text.
    fn text(&self, alloc: Global) -> Result<Vec<u8>, NoMemory>
        ensures { IfOk result (λ text. text.items ≡ p.poly_text self.now) }
    {
        match self.plain() {
            Some(terms) => Ok(poly_text(alloc, terms)?),
            None => {
                let terms = self.whole(alloc)?;
                Ok(poly_text(alloc, &terms)?)
            }
        }
    }

    /// The product.
    fn product(&self, alloc: Global, other: &Poly) -> Result<Poly, NoMemory>
        ensures product { IfOk result (λ product. product ≡ poly_times self.now other.now) }
        ensures elements { IsPolynomial self.now × IsPolynomial other.now }
    {
        match (self.plain(), other.plain()) {
            (Some(left), Some(right)) => Ok(products(alloc, left, right)?),
            _ => {
                let left = self.whole(alloc)?;
                let right = other.whole(alloc)?;
                Ok(products(alloc, &left, &right)?)
            }
        }
    }
}

impl Semiring for Poly {
    ghost is_element = { IsPolynomial };

    ghost zero_of = { [] };

    ghost one_of = { poly_one };

    ghost plus_of = { poly_plus };

    ghost times_of = { poly_times };

    ghost number_of = { poly_number };

    ghost itself_of = { poly_token };

    ghost text_of = { p.poly_text };

    fn zero(alloc: Global) -> Poly {
        Poly {
            terms: Vec::new(alloc),
            recent: Vec::new(alloc),
        }
    }

    fn one(alloc: Global) -> Result<Poly, NoMemory> {
        let mut terms = Vec::new(alloc);
        terms.push((Monomial::one(alloc), 1))?;
        Ok(Poly {
            terms,
            recent: Vec::new(alloc),
        })
    }

    fn plus(&self, alloc: Global, other: Poly) -> Result<Poly, NoMemory> {
        sum(
            alloc,
            self.terms.as_slice(),
            self.recent.as_slice(),
            other.terms,
            other.recent,
        )
    }

    fn times(&self, alloc: Global, other: &Poly) -> Result<Poly, NoMemory> {
        self.product(alloc, other)
    }

    fn of_number(alloc: Global, number: u64) -> Result<Option<Poly>, NoMemory> {
        let mut terms = Vec::new(alloc);
        if number > 0 {
            terms.push((Monomial::one(alloc), number))?;
        }
        Ok(Some(Poly {
            terms,
            recent: Vec::new(alloc),
        }))
    }

    fn of_itself(alloc: Global, token: &Token) -> Result<Option<Poly>, NoMemory> {
        let mut terms = Vec::new(alloc);
        terms.push((Monomial::of(alloc, *token), 1))?;
        Ok(Some(Poly {
            terms,
            recent: Vec::new(alloc),
        }))
    }

    fn copy(&self, alloc: Global) -> Result<Poly, NoMemory> {
        copy_of(alloc, self.terms.as_slice(), self.recent.as_slice())
    }

    fn write(&self, out: &mut Vec<u8>) -> Result<(), NoMemory> {
        let text = self.text(*out.allocator())?;
        out.extend_from_slice(&text)?;
        Ok(())
    }

    ghost number_in = { number_in };

    ghost itself_in = { token_in };

    ghost laws = { poly_laws };
}
