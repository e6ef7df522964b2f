//! The rows of past versions, where they lie.

ghost use Rattle.std.specs.Prelude.{◌≡◌, map, IfOk};
ghost use Rattle.gp_base.specs.Annotated.{unannotated};
ghost use Rattle.gp_exec.specs.PastRows.{past_row};
ghost use Rattle.gp_versions.specs.Spans.{rows_at};
ghost use Rattle.gp_reenact.specs.Encoding.{encoded, encoded_row};
ghost use Rattle.gp_reenact.specs.Travel.{past_environment};

use gp_algebra::ScanAt;
use gp_base::NoMemory;
use gp_exec::PastRow;
use gp_versions::VersionTable;
use std::alloc::Global;

/// The rows of a version of a table, in the order in which their spans began.
fn rows_of(alloc: Global, table: &VersionTable, version: u32) -> Result<Vec<PastRow<'_>>, NoMemory>
    ensures { IfOk result (λ rows. map past_row rows.items
        ≡ map encoded_row (rows_at unannotated version table.now.spans)) }
{
    let mut rows = Vec::new(alloc);
    for span in table.as_of(version) {
        let row = &span.row;
        let id = &span.id;
        rows.push(PastRow { row, id })?;
    }
    Ok(rows)
}

/// The rows of a table in a version; none if the table is not there.
pub fn past_rows(
    alloc: Global,
    versions: &[VersionTable],
    at: ScanAt,
) -> Result<Vec<PastRow<'_>>, NoMemory>
    ensures { IfOk result (λ rows. map past_row rows.items
        ≡ encoded (past_environment unannotated versions.now) at.version at.table) }
{
    match versions.get(at.table as usize) {
        Some(table) => rows_of(alloc, table, at.version),
        None => Ok(Vec::new(alloc)),
    }
}
