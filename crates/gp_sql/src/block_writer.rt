//! The texts of the queries of FILTER, PROJECT, PRODUCT and UNION, which are appended piece by piece. If memory runs out, a part is
//! appended.

ghost use Rattle.std.specs.Prelude.{◌≡◌, ◌++◌, length, map, OnOk};
ghost use Rattle.gp_expr.specs.Views.{cond_view, expr_view};
ghost use Rattle.gp_sql.specs.NamedQueries as q;
ghost use Rattle.gp_sql.specs.Spelling as w;
ghost use Rattle.gp_sql.specs.Sql as s;
ghost use Rattle.gp_sql.specs.Translation as t;
ghost use Rattle.gp_sql.specs.WrittenQueries.{source_of};

use crate::cell_type::CellType;
use crate::item_writer::{push_columns, push_exprs};
use crate::name::{Name, push_from};
use crate::term_writer::push_cond;
use gp_base::{Catalog, NoMemory, append_all};
use gp_expr::{Cond, Expr};
use std::alloc::Global;

/// Appends the words of all rows of a source.
pub(crate) fn push_all_of(
    alloc: Global,
    catalog: &Catalog,
    source: Name,
    out: &mut Vec<u8>,
) -> Result<(), NoMemory>
    ensures { OnOk result
        (out.new.items ≡ out.old.items ++ w.block_text catalog.now (q.all_of (source_of source))) }
{
    push_from(alloc, catalog, b"SELECT * FROM ", source, b"", out)
}

/// Appends a FILTER of a source, whose columns have these types.
pub(crate) fn push_selected(
    alloc: Global,
    catalog: &Catalog,
    types: &[CellType],
    source: Name,
    cond: &Cond,
    out: &mut Vec<u8>,
) -> Result<(), NoMemory>
    ensures { OnOk result (out.new.items ≡ out.old.items
        ++ w.block_text catalog.now (s.select s.all (q.from s.no_alias (source_of source))
        (s.passing (t.cond_test types.now (cond_view cond.now))))) }
{
    push_from(alloc, catalog, b"SELECT * FROM ", source, b" WHERE ", out)?;
    push_cond(alloc, catalog, types, cond, out)
}

/// Appends a PROJECT of a source, whose columns have these types.
pub(crate) fn push_projected(
    alloc: Global,
    catalog: &Catalog,
    types: &[CellType],
    due: &[CellType],
    source: Name,
    exprs: &[Expr],
    out: &mut Vec<u8>,
) -> Result<(), NoMemory>
    ensures { OnOk result (out.new.items ≡ out.old.items
        ++ w.block_text catalog.now (s.select
        (s.named (t.exprs_terms types.now due.now (map expr_view exprs.now)))
        (q.from s.no_alias (source_of source)) s.everywhere)) }
{
    append_all(out, &[b"SELECT "])?;
    push_exprs(alloc, catalog, types, due, exprs, out)?;
    push_from(alloc, catalog, b" FROM ", source, b"", out)
}

/// Appends the columns of two sources, which have these types.
fn push_crossed_items(
    alloc: Global,
    _catalog: &Catalog,
    types: &[CellType],
    others: &[CellType],
    out: &mut Vec<u8>,
) -> Result<(), NoMemory>
    ensures { OnOk result (out.new.items ≡ out.old.items
        ++ w.named_text _catalog.now 1 (q.columns_of s.x 1 (length types.now)
        (q.columns_of s.y 1 (length others.now) s.no_terms))) }
{
    let width = push_columns(alloc, b"x.", 0, types, out)?;
    push_columns(alloc, b"y.", width, others, out)?;
    Ok(())
}

/// Appends a PRODUCT of sources, whose columns have these types.
pub(crate) fn push_crossed(
    alloc: Global,
    catalog: &Catalog,
    types: &[CellType],
    others: &[CellType],
    left: Name,
    right: Name,
    out: &mut Vec<u8>,
) -> Result<(), NoMemory>
    ensures { OnOk result (out.new.items ≡ out.old.items
        ++ w.block_text catalog.now (q.crossed (length types.now) (length others.now)
        (source_of left) (source_of right))) }
{
    append_all(out, &[b"SELECT "])?;
    push_crossed_items(alloc, catalog, types, others, out)?;
    push_from(alloc, catalog, b" FROM ", left, b" x, ", out)?;
    push_from(alloc, catalog, b"", right, b" y", out)
}

/// Appends both rows of a UNION.
pub(crate) fn push_united(
    alloc: Global,
    catalog: &Catalog,
    left: Name,
    right: Name,
    out: &mut Vec<u8>,
) -> Result<(), NoMemory>
    ensures { OnOk result (out.new.items ≡ out.old.items
        ++ w.query_text catalog.now (s.union_all (q.all_of (source_of left))
        (s.block (q.all_of (source_of right))))) }
{
    push_all_of(alloc, catalog, left, out)?;
    append_all(out, &[b" UNION ALL "])?;
    push_all_of(alloc, catalog, right, out)
}
