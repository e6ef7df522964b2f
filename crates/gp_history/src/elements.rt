//! Elements of a semiring as annotations: programs run over them.

ghost use Rattle.std.specs.Prelude.{◌≡◌, map, IfOk};
ghost use Rattle.gp_kexec.specs.Rows.{environment_view, stored_view};
ghost use Rattle.gp_kexec.specs.Valuing.{values_in};
ghost use Rattle.gp_reenact.specs.Reenacting.{spans_of};
ghost use Rattle.gp_history.specs.Images.{values_are_images};
ghost use Rattle.gp_history.specs.Narrowing.{narrow_versions};
ghost use Rattle.gp_history.specs.Scanning.{AgreesOn, IsScanned};
ghost use Rattle.gp_history.specs.SpanAnnotations.{span_row, span_rows, versions_with};

use crate::annotated::Annotated;
use crate::annotator::{Annotator, Publication};
use crate::narrowed::Narrowed;
use gp_algebra::{ScanAt, scans_of};
use gp_base::{NoMemory, Sequence};
use gp_exec::ExecStop;
use gp_kexec::{Held, KEnv, KScanned, KStored, run_k_table};
use gp_log::Log;
use gp_semiring::{Answers, Semiring, Valuation};
use gp_versions::{Span, VersionTable};
use std::alloc::Global;

/// The row of a span with its value.
fn stored<K: Semiring>(alloc: Global, span: &Span, value: &K) -> Result<KStored<K>, NoMemory>
    ensures { IfOk result (λ stored. stored_view stored ≡ span_row value.now span.now) }
{
    let value = value.copy(alloc)?;
    let id = span.id.clone()?;
    let row = span.row.clone()?;
    Ok(KStored { id, row, value })
}

/// The rows of a version, from spans with their values.
fn stored_rows<K: Semiring>(
    alloc: Global,
    spans: &[&Span],
    values: &[&K],
    version: u32,
) -> Result<Sequence<KStored<K>>, NoMemory>
    ensures { IfOk result
        (λ rows. map stored_view rows ≡ span_rows version
        (map (λ span. span.now) spans.now) (map (λ value. value.now) values.now)) }
{
    let mut rows = Sequence::new(alloc);
    for (i, span) in spans.iter().enumerate() {
        let Some(value) = values.get(i) else {
            return Ok(rows);
        };
        if span.holds(version) {
            rows.push(stored(alloc, span, *value)?)?;
        }
    }
    Ok(rows)
}

/// The rows of a table in a version.
fn scanned<K: Semiring>(
    alloc: Global,
    known: &Narrowed<'_, K>,
    at: &ScanAt,
) -> Result<KScanned<K>, NoMemory>
    ensures { IfOk result (λ found. IsScanned (narrow_versions known.now) at.now found) }
{
    let spans = known.spans(at.table);
    let rows = stored_rows(alloc, spans, known.annotations(at.table), at.version)?;
    Ok(KScanned { at: *at, rows })
}

/// The rows of these tables in these versions with their values, one list for each scan, of the row versions that are left.
fn narrow_env<K: Semiring>(
    alloc: Global,
    known: &Narrowed<'_, K>,
    scans: &[ScanAt],
) -> Result<KEnv<K>, NoMemory>
    ensures { IfOk result
        (λ env. AgreesOn scans.now (environment_view env) (narrow_versions known.now)) }
{
    let mut found = Sequence::new(alloc);
    for at in scans {
        found.push(scanned(alloc, known, at)?)?;
    }
    Ok(KEnv { scans: found })
}

/// The rows of these tables in these versions with their values, one list for each scan. The row versions are those that were
/// annotated. Running out of memory is the only error.
pub fn k_env<K: Semiring>(
    alloc: Global,
    versions: &[VersionTable],
    known: &Annotated<K>,
    scans: &[ScanAt],
) -> Result<KEnv<K>, NoMemory>
    ensures { IfOk result (λ env. AgreesOn scans.now (environment_view env)
        (versions_with (spans_of versions.now) known.now)) }
{
    let whole = Narrowed::whole(alloc, versions, known)?;
    narrow_env(alloc, &whole, scans)
}

impl<K: Semiring, F: Answers<K>> Annotator<K> for Valuation<K, F> {
    ghost domain = { λ valuation. values_in K.Semiring valuation };

    fn one(&self, alloc: Global) -> Result<K, NoMemory> {
        K::one(alloc)
    }

    fn copy(&self, alloc: Global, annotation: &K) -> Result<K, NoMemory> {
        annotation.copy(alloc)
    }

    fn rows(
        &self,
        alloc: Global,
        _log: &Log,
        _versions: &[VersionTable],
        known: &Narrowed<'_, K>,
        of: &Publication,
    ) -> Result<Vec<Held<K>>, ExecStop> {
        let asked = scans_of(alloc, &of.program)?;
        let env = narrow_env(alloc, known, &asked)?;
        run_k_table(alloc, &of.program, &env, self, known.most)
    }

    ghost is_image = { λ valuation.
        values_are_images K.laws K.number_of K.itself_of K.number_in K.itself_in valuation };
}
