//! Copies of terms.

ghost use Rattle.std.specs.Prelude.{◌≡◌, box_value, IfOk};
ghost use Rattle.gp_syntax.specs.Views.{term_view};
ghost use Rattle.gp_grammar.specs.Syntax as y;

use gp_base::{Name, NoMemory};
use gp_syntax::Term;
use std::alloc::Global;

fn copy_column(item: &Option<Name>, col: &Name) -> Result<Term, NoMemory>
    ensures { IfOk result (λ copy. term_view copy ≡ y.col item.now col.now) }
{
    let item = match item {
        None => None,
        Some(item) => Some(item.clone()?),
    };
    Ok(Term::Col {
        item,
        col: col.clone()?,
    })
}

/// A copy of a term in a box.
#[cycle(copying)]
fn copy_boxed(alloc: Global, term: &Term) -> Result<Box<Term>, NoMemory>
    ensures { IfOk result (λ copy. term_view (box_value copy) ≡ term_view term.now) }
{
    Ok(Box::new(alloc, copy_term(alloc, term)?)?)
}

/// Copies of two terms.
#[cycle(copying)]
fn copy_both(alloc: Global, left: &Term, right: &Term) -> Result<(Box<Term>, Box<Term>), NoMemory>
    ensures left { IfOk result (λ r. term_view (box_value r.0) ≡ term_view left.now) }
    ensures right { IfOk result (λ r. term_view (box_value r.1) ≡ term_view right.now) }
{
    let left = copy_boxed(alloc, left)?;
    let right = copy_boxed(alloc, right)?;
    Ok((left, right))
}

#[cycle(copying)]
fn copy_case(alloc: Global, when: &Term, first: &Term, other: &Term) -> Result<Term, NoMemory>
    ensures { IfOk result (λ copy. term_view copy
        ≡ y.case (term_view when.now) (term_view first.now) (term_view other.now)) }
{
    let when = copy_boxed(alloc, when)?;
    let (first, other) = copy_both(alloc, first, other)?;
    Ok(Term::Case { when, first, other })
}

/// A copy of a term. Running out of memory is the only error.
#[cycle(copying)]
pub fn copy_term(alloc: Global, term: &Term) -> Result<Term, NoMemory>
    ensures { IfOk result (λ copy. term_view copy ≡ term_view term.now) }
{
    match term {
        Term::Null => Ok(Term::Null),
        Term::Int(n) => Ok(Term::Int(*n)),
        Term::Text(text) => Ok(Term::Text(text.clone()?)),
        Term::Col { item, col } => copy_column(item, col),
        Term::Binary { op, left, right } => {
            let (left, right) = copy_both(alloc, left, right)?;
            Ok(Term::Binary {
                op: *op,
                left,
                right,
            })
        }
        Term::Neg(term) => Ok(Term::Neg(copy_boxed(alloc, term)?)),
        Term::Not(term) => Ok(Term::Not(copy_boxed(alloc, term)?)),
        Term::IsNull { term, yes } => Ok(Term::IsNull {
            term: copy_boxed(alloc, term)?,
            yes: *yes,
        }),
        Term::IsTrue { term, yes } => Ok(Term::IsTrue {
            term: copy_boxed(alloc, term)?,
            yes: *yes,
        }),
        Term::Case { when, first, other } => copy_case(alloc, when, first, other),
    }
}
