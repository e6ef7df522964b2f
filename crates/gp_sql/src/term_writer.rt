//! The texts of terms and tests, which are appended piece by piece. If memory runs out, a part is appended.

ghost use Rattle.std.specs.Prelude.{◌≡◌, ◌++◌, ◌∷◌, [], codes, map, OnOk, if◌then◌else◌};
ghost use Rattle.std.specs.List.{concat};
ghost use Rattle.gp_expr.specs.Expressions as e;
ghost use Rattle.gp_expr.specs.Views.{cond_view, expr_view, parts_of};
ghost use Rattle.gp_plantext.specs.Spelling.{cmp_text};
ghost use Rattle.gp_sql.specs.Spelling as p;
ghost use Rattle.gp_sql.specs.Sql as s;
ghost use Rattle.gp_sql.specs.Translation as t;

use crate::cell_type::CellType;
use crate::cell_writer::{push_cell, push_null, push_number, push_quoted};
use crate::types::{expr_type, type_at};
use gp_base::{Catalog, Cell, NoMemory, append_all, text_of_pieces};
use gp_expr::{Cmp, Cond, Expr};
use std::alloc::Global;

/// A comparison, with the blanks around it.
fn cmp_text(cmp: Cmp) -> &'static [u8]
    ensures { result.now ≡ cmp_text cmp }
{
    match cmp {
        Cmp::Eq => b" = ",
        Cmp::Ne => b" <> ",
        Cmp::Lt => b" < ",
        Cmp::Le => b" <= ",
        Cmp::Gt => b" > ",
        Cmp::Ge => b" >= ",
    }
}

fn is_null_type(a: Option<CellType>) -> bool
    ensures { result ≡ t.is_null_type a }
{
    matches!(a, Some(CellType::Null))
}

/// The type, or that of NULL where there is none.
fn type_or_null(a: Option<CellType>) -> CellType
    ensures { result ≡ t.type_or_null a }
{
    a.unwrap_or(CellType::Null)
}

/// Appends a column, or a NULL where its type is NULL's.
fn push_column(
    alloc: Global,
    types: &[CellType],
    due: CellType,
    n: u32,
    out: &mut Vec<u8>,
) -> Result<(), NoMemory>
    ensures { OnOk result
        (out.new.items ≡ out.old.items ++ p.term_text [] (t.expr_term types.now due (e.col n))) }
{
    if is_null_type(type_at(n, types)) {
        return push_null(due, out);
    }
    let n = n.to_string(alloc)?;
    append_all(out, &[b"c", n.as_bytes()])
}

fn number_in(cell: &Cell) -> Option<i64>
    ensures { result ≡ t.literal (e.constant cell.now) }
{
    match cell {
        Cell::Int(number) => Some(*number),
        Cell::Null | Cell::Text(_) | Cell::Id(_) | Cell::Mark(_) | Cell::Mono(_) => None,
    }
}

/// The number that an expression is.
fn literal(expr: &Expr) -> Option<i64>
    ensures { result ≡ t.literal (expr_view expr.now) }
{
    match expr {
        Expr::Const(cell) => number_in(cell),
        _ => None,
    }
}

/// Appends an expression between two words.
#[cycle(terms)]
fn push_enclosed(
    alloc: Global,
    catalog: &Catalog,
    types: &[CellType],
    due: CellType,
    begin: &[u8],
    expr: &Expr,
    end: &[u8],
    out: &mut Vec<u8>,
) -> Result<(), NoMemory>
    ensures { OnOk result (out.new.items ≡ out.old.items
        ++ concat (begin.now
        ∷ p.term_text catalog.now (t.expr_term types.now due (expr_view expr.now))
        ∷ end.now ∷ [])) }
{
    append_all(out, &[begin])?;
    push_expr(alloc, catalog, types, due, expr, out)?;
    append_all(out, &[end])
}

/// Appends an operand, a number without a cast, and a word behind it.
#[cycle(terms)]
fn push_operand(
    alloc: Global,
    catalog: &Catalog,
    types: &[CellType],
    due: CellType,
    expr: &Expr,
    end: &[u8],
    out: &mut Vec<u8>,
) -> Result<(), NoMemory>
    ensures { OnOk result (out.new.items ≡ out.old.items
        ++ concat (p.term_text catalog.now (t.bare (t.literal (expr_view expr.now))
        (t.expr_term types.now due (expr_view expr.now))) ∷ end.now ∷ [])) }
{
    match literal(expr) {
        Some(number) => {
            push_number(alloc, number, out)?;
            append_all(out, &[end])
        }
        None => push_enclosed(alloc, catalog, types, due, b"", expr, end, out),
    }
}

/// Appends an operation on numbers.
#[cycle(terms)]
fn push_arithmetic(
    alloc: Global,
    catalog: &Catalog,
    types: &[CellType],
    left: &Expr,
    op: &[u8],
    right: &Expr,
    out: &mut Vec<u8>,
) -> Result<(), NoMemory>
    ensures { OnOk result (out.new.items ≡ out.old.items
        ++ concat (codes "("
        ∷ p.term_text catalog.now (t.expr_term types.now CellType.Int (expr_view left.now))
        ∷ op.now
        ∷ p.term_text catalog.now (t.bare (t.literal (expr_view right.now))
        (t.expr_term types.now CellType.Int (expr_view right.now)))
        ∷ codes ")" ∷ [])) }
{
    push_enclosed(alloc, catalog, types, CellType::Int, b"(", left, op, out)?;
    push_operand(alloc, catalog, types, CellType::Int, right, b")", out)
}

/// Appends a comparison.
#[cycle(terms)]
fn push_comparison(
    alloc: Global,
    catalog: &Catalog,
    types: &[CellType],
    cmp: Cmp,
    left: &Expr,
    right: &Expr,
    out: &mut Vec<u8>,
) -> Result<(), NoMemory>
    ensures { OnOk result (out.new.items ≡ out.old.items
        ++ p.test_text catalog.now (t.cond_test types.now
        (e.compare cmp (expr_view left.now) (expr_view right.now)))) }
{
    let left_due = type_or_null(expr_type(types, right));
    let right_due = type_or_null(expr_type(types, left));
    append_all(out, &[b"("])?;
    push_operand(alloc, catalog, types, left_due, left, cmp_text(cmp), out)?;
    push_operand(alloc, catalog, types, right_due, right, b")", out)
}

/// Appends a condition between two words.
#[cycle(terms)]
fn push_enclosed_cond(
    alloc: Global,
    catalog: &Catalog,
    types: &[CellType],
    begin: &[u8],
    cond: &Cond,
    end: &[u8],
    out: &mut Vec<u8>,
) -> Result<(), NoMemory>
    ensures { OnOk result (out.new.items ≡ out.old.items
        ++ concat (begin.now
        ∷ p.test_text catalog.now (t.cond_test types.now (cond_view cond.now))
        ∷ end.now ∷ [])) }
{
    append_all(out, &[begin])?;
    push_cond(alloc, catalog, types, cond, out)?;
    append_all(out, &[end])
}

/// Appends a condition in front of an AND: a chain of AND has one bracket.
#[cycle(terms)]
fn push_chain(
    alloc: Global,
    catalog: &Catalog,
    types: &[CellType],
    cond: &Cond,
    out: &mut Vec<u8>,
) -> Result<(), NoMemory>
    ensures { OnOk result (out.new.items ≡ out.old.items
        ++ p.test_text catalog.now (t.in_chain (t.cond_test types.now (cond_view cond.now)))) }
{
    match cond {
        Cond::And(left, right) => {
            push_chain(alloc, catalog, types, left, out)?;
            push_enclosed_cond(alloc, catalog, types, b" AND ", right, b"", out)
        }
        _ => push_cond(alloc, catalog, types, cond, out),
    }
}

/// Appends the conditions of an AND in their bracket.
#[cycle(terms)]
fn push_and(
    alloc: Global,
    catalog: &Catalog,
    types: &[CellType],
    left: &Cond,
    right: &Cond,
    out: &mut Vec<u8>,
) -> Result<(), NoMemory>
    ensures { OnOk result (out.new.items ≡ out.old.items
        ++ p.test_text catalog.now
        (t.cond_test types.now (e.and (cond_view left.now) (cond_view right.now)))) }
{
    append_all(out, &[b"("])?;
    push_chain(alloc, catalog, types, left, out)?;
    push_enclosed_cond(alloc, catalog, types, b" AND ", right, b")", out)
}

/// Appends two conditions in a bracket.
#[cycle(terms)]
fn push_conds(
    alloc: Global,
    catalog: &Catalog,
    types: &[CellType],
    left: &Cond,
    between: &[u8],
    right: &Cond,
    out: &mut Vec<u8>,
) -> Result<(), NoMemory>
    ensures { OnOk result (out.new.items ≡ out.old.items
        ++ concat (codes "("
        ∷ p.test_text catalog.now (t.cond_test types.now (cond_view left.now))
        ∷ between.now
        ∷ p.test_text catalog.now (t.cond_test types.now (cond_view right.now))
        ∷ codes ")" ∷ [])) }
{
    push_enclosed_cond(alloc, catalog, types, b"(", left, between, out)?;
    push_enclosed_cond(alloc, catalog, types, b"", right, b")", out)
}

/// Appends a CASE whose values have a type, or a NULL in its place.
#[cycle(terms)]
fn push_case(
    alloc: Global,
    catalog: &Catalog,
    types: &[CellType],
    due: CellType,
    of_case: Option<CellType>,
    when: &Cond,
    first: &Expr,
    other: &Expr,
    out: &mut Vec<u8>,
) -> Result<(), NoMemory>
    ensures { OnOk result (out.new.items ≡ out.old.items
        ++ p.term_text catalog.now (t.unless_null of_case due
        (s.case (t.cond_test types.now (cond_view when.now))
        (t.expr_term types.now (t.type_or_null of_case) (expr_view first.now))
        (t.expr_term types.now (t.type_or_null of_case) (expr_view other.now))))) }
{
    if is_null_type(of_case) {
        return push_null(due, out);
    }
    let of_case = type_or_null(of_case);
    push_enclosed_cond(alloc, catalog, types, b"CASE WHEN ", when, b" THEN ", out)?;
    push_enclosed(alloc, catalog, types, of_case, b"", first, b" ELSE ", out)?;
    push_enclosed(alloc, catalog, types, of_case, b"", other, b" END", out)
}

/// Appends the identities behind the first one, and the closing bracket.
#[cycle(terms)]
fn push_other_parts(
    alloc: Global,
    catalog: &Catalog,
    types: &[CellType],
    parts: &[Expr],
    out: &mut Vec<u8>,
) -> Result<(), NoMemory>
    ensures { OnOk result (out.new.items ≡ out.old.items
        ++ p.others_joined catalog.now (t.other_parts types.now (parts_of parts.now))) }
{
    for part in parts {
        push_enclosed(
            alloc,
            catalog,
            types,
            CellType::Id,
            b" || ',' || ",
            part,
            b"",
            out,
        )?;
    }
    append_all(out, &[b" || ')'"])
}

/// Appends a new identity with these numbers in front.
#[cycle(terms)]
fn push_parts(
    alloc: Global,
    catalog: &Catalog,
    types: &[CellType],
    prefix: &[u8],
    parts: &[Expr],
    out: &mut Vec<u8>,
) -> Result<(), NoMemory>
    ensures { OnOk result (out.new.items ≡ out.old.items
        ++ p.term_text catalog.now (t.id_term types.now prefix.now (parts_of parts.now))) }
{
    match parts {
        [] => push_quoted(alloc, prefix, out),
        [first, others @ ..] => {
            let opened = text_of_pieces(alloc, &[prefix, b"("])?;
            append_all(out, &[b"("])?;
            push_quoted(alloc, &opened, out)?;
            push_enclosed(
                alloc,
                catalog,
                types,
                CellType::Id,
                b" || ",
                first,
                b"",
                out,
            )?;
            push_other_parts(alloc, catalog, types, others, out)?;
            append_all(out, &[b")"])
        }
    }
}

/// Appends a new identity.
#[cycle(terms)]
fn push_new_id(
    alloc: Global,
    catalog: &Catalog,
    types: &[CellType],
    u: u32,
    k: u32,
    b: u32,
    parts: &[Expr],
    out: &mut Vec<u8>,
) -> Result<(), NoMemory>
    ensures { OnOk result (out.new.items ≡ out.old.items
        ++ p.term_text catalog.now
        (t.id_term types.now (t.id_prefix u k b) (parts_of parts.now))) }
{
    let u = u.to_string(alloc)?;
    let k = k.to_string(alloc)?;
    let b = b.to_string(alloc)?;
    let prefix = text_of_pieces(
        alloc,
        &[u.as_bytes(), b".", k.as_bytes(), b".", b.as_bytes()],
    )?;
    push_parts(alloc, catalog, types, &prefix, parts, out)
}

/// Appends what is always true.
fn push_always(
    alloc: Global,
    catalog: &Catalog,
    types: &[CellType],
    out: &mut Vec<u8>,
) -> Result<(), NoMemory>
    ensures { OnOk result (out.new.items ≡ out.old.items
        ++ p.test_text catalog.now (t.cond_test types.now e.always)) }
{
    append_all(out, &[b"("])?;
    push_number(alloc, 1, out)?;
    append_all(out, &[b" = "])?;
    push_number(alloc, 1, out)?;
    append_all(out, &[b")"])
}

/// Appends an expression over columns of these types. A NULL is one of the type that is due.
#[cycle(terms)]
pub(crate) fn push_expr(
    alloc: Global,
    catalog: &Catalog,
    types: &[CellType],
    due: CellType,
    expr: &Expr,
    out: &mut Vec<u8>,
) -> Result<(), NoMemory>
    ensures { OnOk result (out.new.items ≡ out.old.items
        ++ p.term_text catalog.now (t.expr_term types.now due (expr_view expr.now))) }
{
    match expr {
        Expr::Col(n) => push_column(alloc, types, due, *n, out),
        Expr::Const(cell) => push_cell(alloc, due, cell, out),
        Expr::Add(left, right) => push_arithmetic(alloc, catalog, types, left, b" + ", right, out),
        Expr::Sub(left, right) => push_arithmetic(alloc, catalog, types, left, b" - ", right, out),
        Expr::Mul(left, right) => push_arithmetic(alloc, catalog, types, left, b" * ", right, out),
        Expr::Neg(operand) => push_enclosed(
            alloc,
            catalog,
            types,
            CellType::Int,
            b"(- ",
            operand,
            b")",
            out,
        ),
        Expr::Case(when, first, other) => {
            let of_case = expr_type(types, expr);
            push_case(alloc, catalog, types, due, of_case, when, first, other, out)
        }
        Expr::NewId { t, k, b, parts } => {
            push_new_id(alloc, catalog, types, *t, *k, *b, parts, out)
        }
        Expr::Times(_, _) => push_null(due, out),
    }
}

/// Appends a condition over columns of these types.
#[cycle(terms)]
pub(crate) fn push_cond(
    alloc: Global,
    catalog: &Catalog,
    types: &[CellType],
    cond: &Cond,
    out: &mut Vec<u8>,
) -> Result<(), NoMemory>
    ensures { OnOk result (out.new.items ≡ out.old.items
        ++ p.test_text catalog.now (t.cond_test types.now (cond_view cond.now))) }
{
    match cond {
        Cond::True => push_always(alloc, catalog, types, out),
        Cond::Cmp(cmp, left, right) => {
            push_comparison(alloc, catalog, types, *cmp, left, right, out)
        }
        Cond::IsNull { expr, yes } => {
            let end = if *yes {
                b" IS NULL)".as_slice()
            } else {
                b" IS NOT NULL)"
            };
            push_enclosed(alloc, catalog, types, CellType::Null, b"(", expr, end, out)
        }
        Cond::IsTrue { cond, yes } => {
            let end = if *yes {
                b" IS TRUE)".as_slice()
            } else {
                b" IS NOT TRUE)"
            };
            push_enclosed_cond(alloc, catalog, types, b"(", cond, end, out)
        }
        Cond::And(left, right) => push_and(alloc, catalog, types, left, right, out),
        Cond::Or(left, right) => push_conds(alloc, catalog, types, left, b" OR ", right, out),
        Cond::Not(operand) => {
            push_enclosed_cond(alloc, catalog, types, b"(NOT ", operand, b")", out)
        }
    }
}
