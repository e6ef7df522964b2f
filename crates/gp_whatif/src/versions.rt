//! Copies of row versions.

ghost use Rattle.std.specs.Prelude.{◌≡◌, ℕ, IfOk, length};
ghost use Rattle.gp_txn.specs.Transactions.{table_at};

use gp_base::NoMemory;
use gp_versions::{Span, VersionTable};
use std::alloc::Global;

fn copy_span(span: &Span) -> Result<Span, NoMemory>
    ensures { IfOk result (λ copy. copy ≡ span.now) }
{
    Ok(Span {
        id: span.id.clone()?,
        from: span.from,
        to: span.to,
        row: span.row.clone()?,
    })
}

/// A copy of the row versions of a table.
fn copy_table(alloc: Global, table: &VersionTable) -> Result<VersionTable, NoMemory>
    ensures { IfOk result (λ copy. copy.spans ≡ table.now.spans) }
{
    let spans = table.as_slice();
    let mut copy = Vec::with_capacity(alloc, spans.len())?;
    for span in spans {
        copy.push(copy_span(span)?)?;
    }
    Ok(VersionTable::from_spans(copy))
}

/// A copy of the row versions of all tables. Running out of memory is the only error.
pub fn copy_versions(
    alloc: Global,
    versions: &[VersionTable],
) -> Result<Vec<VersionTable>, NoMemory>
    ensures count { IfOk result (λ copies. length copies.items ≡ length versions.now) }
    ensures spans { IfOk result (λ copies. (place : ℕ)
        → (table_at place copies.items).spans ≡ (table_at place versions.now).spans) }
{
    let mut copies = Vec::new(alloc);
    for table in versions {
        copies.push(copy_table(alloc, table)?)?;
    }
    Ok(copies)
}
