//! The statement that a command means.

ghost use Rattle.std.specs.Prelude.{◌≡◌, ◌++◌, None, map, box_value, IfOk};
ghost use Rattle.std.specs.Option.{option_map};
ghost use Rattle.gp_expr.specs.Expressions as e;
ghost use Rattle.gp_expr.specs.Views.{expr_view, cond_view};
ghost use Rattle.gp_grammar.specs.Syntax as y;
ghost use Rattle.gp_syntax.specs.Views.{block_view, condition_view, item_view, items_view, set_view, term_view};
ghost use Rattle.gp_algebra.specs.Statements.{columns_behind};
ghost use Rattle.gp_algebra.specs.Views as a;
ghost use Rattle.gp_check.specs.Meaning as m;
ghost use Rattle.gp_check.specs.Scopes.{resolution};
ghost use Rattle.gp_check.specs.Views.{source_view};

use crate::place::Resolution;
use crate::scope::{resolve, scope_of};
use crate::source::Source;
use crate::widths::scope_width;
use gp_algebra::{Branch, Select, SetExpr};
use gp_base::{Catalog, Cell, Name, NoMemory, Sequence, Text};
use gp_expr::{Cmp, Cond, Expr};
use gp_grammar::Op;
use gp_syntax::{Block, Item, Items, SetTerm, Term};
use std::alloc::Global;

/// The number of the table with this name, or 0 if there is none.
pub fn table_number(catalog: &Catalog, table: &Name) -> u32
    ensures { result ≡ m.number_of_table catalog.now table.now }
{
    catalog.find(table).unwrap_or(0)
}

/// The expression of a column, or NULL if it is not there.
fn column(scope: &[Source], item: &Option<Name>, col: &Name) -> Expr
    ensures { expr_view result ≡ m.expr_of (map source_view scope.now) (y.col item.now col.now) }
{
    match resolve(scope, item, col) {
        Resolution::Found(place) => Expr::Col(place.number),
        _ => Expr::Const(Cell::Null),
    }
}

/// A text as an expression.
fn text(text: &Text) -> Result<Expr, NoMemory>
    ensures { IfOk result (λ expr. expr_view expr ≡ e.constant (Cell.Text text.now)) }
{
    Ok(Expr::Const(Cell::Text(text.clone()?)))
}

/// The expressions of two terms.
#[cycle(meaning)]
fn operands(
    alloc: Global,
    scope: &[Source],
    left: &Term,
    right: &Term,
) -> Result<(Box<Expr>, Box<Expr>), NoMemory>
    ensures left { IfOk result (λ r. expr_view (box_value r.0)
        ≡ m.expr_of (map source_view scope.now) (term_view left.now)) }
    ensures right { IfOk result (λ r. expr_view (box_value r.1)
        ≡ m.expr_of (map source_view scope.now) (term_view right.now)) }
{
    let left = Box::new(alloc, expr(alloc, scope, left)?)?;
    let right = Box::new(alloc, expr(alloc, scope, right)?)?;
    Ok((left, right))
}

/// The conditions of two terms.
#[cycle(meaning)]
fn conditions(
    alloc: Global,
    scope: &[Source],
    left: &Term,
    right: &Term,
) -> Result<(Box<Cond>, Box<Cond>), NoMemory>
    ensures left { IfOk result (λ r. cond_view (box_value r.0)
        ≡ m.cond_of (map source_view scope.now) (term_view left.now)) }
    ensures right { IfOk result (λ r. cond_view (box_value r.1)
        ≡ m.cond_of (map source_view scope.now) (term_view right.now)) }
{
    let left = Box::new(alloc, cond(alloc, scope, left)?)?;
    let right = Box::new(alloc, cond(alloc, scope, right)?)?;
    Ok((left, right))
}

/// The expression of two terms with an arithmetic operator between them.
#[cycle(meaning)]
fn arithmetic(
    alloc: Global,
    scope: &[Source],
    op: Op,
    left: &Term,
    right: &Term,
) -> Result<Expr, NoMemory>
    ensures { IfOk result (λ expr. expr_view expr
        ≡ m.expr_of (map source_view scope.now)
        (y.binary op (term_view left.now) (term_view right.now))) }
{
    match op {
        Op::Add => {
            let (left, right) = operands(alloc, scope, left, right)?;
            Ok(Expr::Add(left, right))
        }
        Op::Sub => {
            let (left, right) = operands(alloc, scope, left, right)?;
            Ok(Expr::Sub(left, right))
        }
        Op::Mul => {
            let (left, right) = operands(alloc, scope, left, right)?;
            Ok(Expr::Mul(left, right))
        }
        _ => Ok(Expr::Const(Cell::Null)),
    }
}

/// The expression of a CASE.
#[cycle(meaning)]
fn choice(
    alloc: Global,
    scope: &[Source],
    when: &Term,
    first: &Term,
    other: &Term,
) -> Result<Expr, NoMemory>
    ensures { IfOk result (λ expr. expr_view expr ≡ m.expr_of (map source_view scope.now)
        (y.case (term_view when.now) (term_view first.now) (term_view other.now))) }
{
    let when = Box::new(alloc, cond(alloc, scope, when)?)?;
    let (first, other) = operands(alloc, scope, first, other)?;
    Ok(Expr::Case(when, first, other))
}

/// The expression of a term that is a value.
#[cycle(meaning)]
fn expr(alloc: Global, scope: &[Source], term: &Term) -> Result<Expr, NoMemory>
    ensures { IfOk result (λ expr. expr_view expr
        ≡ m.expr_of (map source_view scope.now) (term_view term.now)) }
{
    match term {
        Term::Int(number) => Ok(Expr::Const(Cell::Int(*number))),
        Term::Text(bytes) => text(bytes),
        Term::Col { item, col } => Ok(column(scope, item, col)),
        Term::Binary { op, left, right } => arithmetic(alloc, scope, *op, left, right),
        Term::Neg(term) => Ok(Expr::Neg(Box::new(alloc, expr(alloc, scope, term)?)?)),
        Term::Case { when, first, other } => choice(alloc, scope, when, first, other),
        _ => Ok(Expr::Const(Cell::Null)),
    }
}

/// The condition of two terms with a comparison operator between them.
#[cycle(meaning)]
fn comparison(
    alloc: Global,
    scope: &[Source],
    cmp: Cmp,
    left: &Term,
    right: &Term,
) -> Result<Cond, NoMemory>
    ensures { IfOk result (λ cond. cond_view cond ≡ e.compare cmp
        (m.expr_of (map source_view scope.now) (term_view left.now))
        (m.expr_of (map source_view scope.now) (term_view right.now))) }
{
    let (left, right) = operands(alloc, scope, left, right)?;
    Ok(Cond::Cmp(cmp, left, right))
}

/// The condition of two terms with an operator between them that gives one.
#[cycle(meaning)]
fn connection(
    alloc: Global,
    scope: &[Source],
    op: Op,
    left: &Term,
    right: &Term,
) -> Result<Cond, NoMemory>
    ensures { IfOk result (λ cond. cond_view cond
        ≡ m.cond_of (map source_view scope.now)
        (y.binary op (term_view left.now) (term_view right.now))) }
{
    match op {
        Op::Eq => comparison(alloc, scope, Cmp::Eq, left, right),
        Op::Ne => comparison(alloc, scope, Cmp::Ne, left, right),
        Op::Lt => comparison(alloc, scope, Cmp::Lt, left, right),
        Op::Le => comparison(alloc, scope, Cmp::Le, left, right),
        Op::Gt => comparison(alloc, scope, Cmp::Gt, left, right),
        Op::Ge => comparison(alloc, scope, Cmp::Ge, left, right),
        Op::And => {
            let (left, right) = conditions(alloc, scope, left, right)?;
            Ok(Cond::And(left, right))
        }
        Op::Or => {
            let (left, right) = conditions(alloc, scope, left, right)?;
            Ok(Cond::Or(left, right))
        }
        _ => Ok(Cond::True),
    }
}

/// The condition of a term that is one.
#[cycle(meaning)]
fn cond(alloc: Global, scope: &[Source], term: &Term) -> Result<Cond, NoMemory>
    ensures { IfOk result (λ cond. cond_view cond
        ≡ m.cond_of (map source_view scope.now) (term_view term.now)) }
{
    match term {
        Term::Binary { op, left, right } => connection(alloc, scope, *op, left, right),
        Term::Not(term) => Ok(Cond::Not(Box::new(alloc, cond(alloc, scope, term)?)?)),
        Term::IsNull { term, yes } => Ok(Cond::IsNull {
            expr: Box::new(alloc, expr(alloc, scope, term)?)?,
            yes: *yes,
        }),
        Term::IsTrue { term, yes } => Ok(Cond::IsTrue {
            cond: Box::new(alloc, cond(alloc, scope, term)?)?,
            yes: *yes,
        }),
        _ => Ok(Cond::True),
    }
}

/// The condition of a WHERE; a missing one is always true.
pub fn where_of(
    alloc: Global,
    scope: &[Source],
    where_term: &Option<Term>,
) -> Result<Cond, NoMemory>
    ensures { IfOk result (λ cond. cond_view cond
        ≡ m.where_of (map source_view scope.now) (condition_view where_term.now)) }
{
    match where_term {
        None => Ok(Cond::True),
        Some(term) => cond(alloc, scope, term),
    }
}

/// The condition of a WHERE, if there is one.
fn optional_where(
    alloc: Global,
    scope: &[Source],
    where_term: &Option<Term>,
) -> Result<Option<Cond>, NoMemory>
    ensures { IfOk result (λ cond. option_map cond_view cond
        ≡ option_map (m.cond_of (map source_view scope.now)) (condition_view where_term.now)) }
{
    match where_term {
        None => Ok(None),
        Some(term) => Ok(Some(cond(alloc, scope, term)?)),
    }
}

/// The columns from the first one, so many.
fn first_columns(alloc: Global, width: u32) -> Result<Sequence<Expr>, NoMemory>
    ensures { IfOk result (λ exprs. map expr_view exprs ≡ columns_behind 0 width) }
{
    let mut exprs = Sequence::new(alloc);
    for before in 0..width {
        exprs.push(Expr::Col(before + 1))?;
    }
    Ok(exprs)
}

/// The expressions of some terms.
fn term_exprs(alloc: Global, scope: &[Source], terms: &[Term]) -> Result<Sequence<Expr>, NoMemory>
    ensures { IfOk result (λ exprs. map expr_view exprs
        ≡ map (m.expr_of (map source_view scope.now)) (map term_view terms.now)) }
{
    let mut exprs = Sequence::new(alloc);
    for term in terms {
        exprs.push(expr(alloc, scope, term)?)?;
    }
    Ok(exprs)
}

/// The expressions of a select list.
fn items_exprs(alloc: Global, scope: &[Source], items: &Items) -> Result<Sequence<Expr>, NoMemory>
    ensures { IfOk result (λ exprs. map expr_view exprs
        ≡ m.exprs_of (map source_view scope.now) (items_view items.now)) }
{
    match items {
        Items::Star => first_columns(alloc, scope_width(scope)),
        Items::List(terms) => term_exprs(alloc, scope, terms.as_slice()),
    }
}

fn table_numbers(alloc: Global, catalog: &Catalog, from: &[Item]) -> Result<Sequence<u32>, NoMemory>
    ensures { IfOk result (λ places. places
        ≡ map (λ (item : y.Item). m.number_of_table catalog.now item.table)
        (map item_view from.now)) }
{
    let mut places = Sequence::new(alloc);
    for item in from {
        places.push(table_number(catalog, &item.table))?;
    }
    Ok(places)
}

/// The branch of a SELECT.
#[tactic(auto, unfolding(crate::specs::Meaning::branch_of))]
fn branch(alloc: Global, catalog: &Catalog, block: &Block) -> Result<Branch, NoMemory>
    ensures { IfOk result (λ branch. a.branch_view branch
        ≡ m.branch_of catalog.now (block_view block.now)) }
{
    let scope = scope_of(alloc, catalog, block.from.as_slice())?;
    let from = table_numbers(alloc, catalog, block.from.as_slice())?;
    let cond = optional_where(alloc, &scope, &block.cond)?;
    let items = items_exprs(alloc, &scope, &block.items)?;
    Ok(Branch { from, cond, items })
}

/// The query of some SELECTs.
pub fn select(alloc: Global, catalog: &Catalog, blocks: &[Block]) -> Result<Select, NoMemory>
    ensures { IfOk result (λ select. a.select_view select
        ≡ m.select_of catalog.now (map block_view blocks.now)) }
{
    let mut branches = Sequence::new(alloc);
    for block in blocks {
        branches.push(branch(alloc, catalog, block)?)?;
    }
    Ok(Select { branches })
}

/// The number of a column that is set.
fn set_number(scope: &[Source], col: &Name) -> u32
    ensures { result ≡ m.column_number (resolution (map source_view scope.now)
        (record { item = None; col = col.now })) }
{
    match resolve(scope, &None, col) {
        Resolution::Found(place) => place.number,
        _ => 0,
    }
}

/// The assignments of an UPDATE.
pub fn set_exprs(
    alloc: Global,
    scope: &[Source],
    sets: &[SetTerm],
) -> Result<Sequence<SetExpr>, NoMemory>
    ensures { IfOk result (λ exprs. map a.set_view exprs
        ≡ map (m.set_expr_of (map source_view scope.now)) (map set_view sets.now)) }
{
    let mut exprs = Sequence::new(alloc);
    for set in sets {
        exprs.push(SetExpr {
            col: set_number(scope, &set.col),
            expr: expr(alloc, scope, &set.term)?,
        })?;
    }
    Ok(exprs)
}
