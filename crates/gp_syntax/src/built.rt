//! Terms under construction. A chain of operators is as deep as it is long, and a command in a dump has no limit on its
//! length. So a part with more than [`MAX_NODES`] nodes is kept for the whole of its term: no term is deeper than the
//! limits allow, and nothing that goes down a term runs out of stack. A term within the limit is built as it is, and any
//! other one still passes the limit on nodes, so it is refused.

ghost use Rattle.std.specs.Prelude.{◌≡◌, ◌≤◌, ◌+◌, ◌*◌, IfOk};
ghost use Rattle.gp_grammar.specs.Capping as capping;
ghost use Rattle.gp_grammar.specs.Limits as limits;
ghost use Rattle.gp_grammar.specs.Syntax as y;
ghost use Rattle.gp_grammar.specs.declared.limits.TheConstants.{MAX_NODES};
ghost use Rattle.gp_syntax.specs.Views.{term_view};

use crate::parsed::{Parsed, boxed_pair, boxed_triple, only};
use crate::term::Term;
use gp_base::NoMemory;
use gp_grammar::{MAX_NODES, Op};
use std::alloc::Global;

/// A term with the number of its nodes, which is at most that of a CASE of three terms within the limit.
#[derive(Drop)]
pub(crate) struct Built {
    /// The term.
    pub term: Term,
    /// The number of its nodes.
    pub nodes: usize,
    ghost counted: { nodes ≡ limits.nodes (term_view term) },
    ghost bounded: { nodes ≤ 3 * MAX_NODES + 1 },
}

impl Parsed for Built {
    ghost Tree = { y.Term };

    ghost view = { λ built. term_view built.term };
}

impl Built {
    /// A literal or a column.
    pub fn leaf(term: Term) -> Built
        requires { limits.nodes (term_view term) ≡ 1 }
        ensures { term_view result.term ≡ term_view term }
    {
        Built { term, nodes: 1 }
    }

    /// Two terms with an operator between them.
    #[tactic(auto, unfolding(gp_grammar::specs::Capping::binary))]
    pub fn binary(alloc: Global, op: Op, left: Built, right: Built) -> Result<Built, NoMemory>
        ensures { IfOk result (λ built. term_view built.term
            ≡ capping.binary op (term_view left.term) (term_view right.term)) }
    {
        if left.nodes > MAX_NODES {
            return Ok(only(left, right));
        }
        if right.nodes > MAX_NODES {
            return Ok(only(right, left));
        }
        let nodes = left.nodes + right.nodes + 1;
        let (left, right) = boxed_pair(alloc, left.term, right.term)?;
        let term = Term::Binary { op, left, right };
        Ok(Built { term, nodes })
    }

    /// The term with the sign `-`.
    #[tactic(auto, unfolding(gp_grammar::specs::Capping::neg))]
    pub fn neg(alloc: Global, part: Built) -> Result<Built, NoMemory>
        ensures { IfOk result (λ built. term_view built.term ≡ capping.neg (term_view part.term)) }
    {
        if part.nodes > MAX_NODES {
            return Ok(part);
        }
        let nodes = part.nodes + 1;
        let term = Term::Neg(Box::new(alloc, part.term)?);
        Ok(Built { term, nodes })
    }

    /// The term with NOT.
    #[tactic(auto, unfolding(gp_grammar::specs::Capping::not))]
    pub fn not(alloc: Global, part: Built) -> Result<Built, NoMemory>
        ensures { IfOk result (λ built. term_view built.term ≡ capping.not (term_view part.term)) }
    {
        if part.nodes > MAX_NODES {
            return Ok(part);
        }
        let nodes = part.nodes + 1;
        let term = Term::Not(Box::new(alloc, part.term)?);
        Ok(Built { term, nodes })
    }

    /// The term with `IS NULL` or `IS NOT NULL`.
    #[tactic(auto, unfolding(gp_grammar::specs::Capping::is_null))]
    pub fn is_null(alloc: Global, part: Built, yes: bool) -> Result<Built, NoMemory>
        ensures { IfOk result (λ built. term_view built.term
            ≡ capping.is_null (term_view part.term) yes) }
    {
        if part.nodes > MAX_NODES {
            return Ok(part);
        }
        let nodes = part.nodes + 1;
        let term = Box::new(alloc, part.term)?;
        let term = Term::IsNull { term, yes };
        Ok(Built { term, nodes })
    }

    /// The term with `IS TRUE` or `IS NOT TRUE`.
    #[tactic(auto, unfolding(gp_grammar::specs::Capping::is_true))]
    pub fn is_true(alloc: Global, part: Built, yes: bool) -> Result<Built, NoMemory>
        ensures { IfOk result (λ built. term_view built.term
            ≡ capping.is_true (term_view part.term) yes) }
    {
        if part.nodes > MAX_NODES {
            return Ok(part);
        }
        let nodes = part.nodes + 1;
        let term = Box::new(alloc, part.term)?;
        let term = Term::IsTrue { term, yes };
        Ok(Built { term, nodes })
    }

    /// A CASE.
    #[tactic(auto, unfolding(gp_grammar::specs::Capping::case))]
    pub fn case(alloc: Global, when: Built, first: Built, other: Built) -> Result<Built, NoMemory>
        ensures { IfOk result (λ built. term_view built.term
            ≡ capping.case (term_view when.term) (term_view first.term) (term_view other.term)) }
    {
        if when.nodes > MAX_NODES {
            return Ok(only(when, (first, other)));
        }
        if first.nodes > MAX_NODES {
            return Ok(only(first, (when, other)));
        }
        if other.nodes > MAX_NODES {
            return Ok(only(other, (when, first)));
        }
        let nodes = when.nodes + first.nodes + other.nodes + 1;
        let (when, first, other) = boxed_triple(alloc, when.term, first.term, other.term)?;
        let term = Term::Case { when, first, other };
        Ok(Built { term, nodes })
    }
}
