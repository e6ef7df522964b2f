//! Environments of past versions.

ghost use Rattle.std.specs.Prelude.{◌≡◌, IfOk};
ghost use Rattle.gp_base.specs.Annotated.{unannotated};
ghost use Rattle.gp_algebra.specs.Scans.{AgreeOn};
ghost use Rattle.gp_exec.specs.Running.{environment_view};
ghost use Rattle.gp_reenact.specs.Encoding.{encoded};
ghost use Rattle.gp_reenact.specs.Travel.{past_environment, scanned, scans_at};

use crate::encoding::encoded_rows;
use gp_algebra::ScanAt;
use gp_base::{NoMemory, Sequence};
use gp_exec::{Env, Scanned};
use gp_versions::VersionTable;
use std::alloc::Global;

/// The rows of a table in a version.
fn scanned(alloc: Global, versions: &[VersionTable], at: ScanAt) -> Result<Scanned, NoMemory>
    ensures { IfOk result (λ found. found ≡ scanned versions.now at) }
{
    let rows = match versions.get(at.table as usize) {
        Some(table) => encoded_rows(alloc, table, at.version)?,
        None => Sequence::new(alloc),
    };
    Ok(Scanned { at, rows })
}

/// The rows of these tables in these versions, one list for each scan, in the order of the scans. They are those of the
/// spans that hold the version, in the order in which the spans began, each as the cells of its row, its identity and the
/// mark NO. Tables are numbered by their places in `versions`; a table that is not there has no rows. Running out of memory
/// is the only error.
pub fn env_at(alloc: Global, versions: &[VersionTable], scans: &[ScanAt]) -> Result<Env, NoMemory>
    ensures scans { IfOk result (λ env. env.scans ≡ scans_at versions.now scans.now) }
    ensures agree { IfOk result (λ env. AgreeOn scans.now
        (environment_view env) (encoded (past_environment unannotated versions.now))) }
{
    let mut found = Sequence::new(alloc);
    for at in scans {
        found.push(scanned(alloc, versions, *at)?)?;
    }
    Ok(Env { scans: found })
}
