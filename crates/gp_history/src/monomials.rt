//! Monomials as annotations: programs run as plain ones, whose rows have an identity, a mark and a monomial behind their cells.

ghost use Rattle.std.specs.Prelude.{◌≡◌, true, map, IfOk};
ghost use Rattle.std.specs.Option.{option_map};
ghost use Rattle.gp_algebra.specs.PlainViews.{program_view};
ghost use Rattle.gp_algebra.specs.Scans.{AgreeOn};
ghost use Rattle.gp_algebra.specs.WellBuilt.{is_well_built};
ghost use Rattle.gp_base.specs.Annotated.{monomials};
ghost use Rattle.gp_exec.specs.Running.{environment_view};
ghost use Rattle.gp_prov.specs.Encoding.{encoded, encoded_row};
ghost use Rattle.gp_reenact.specs.Reenacting.{spans_of};
ghost use Rattle.gp_history.specs.Decoded.{cells_of, decoded, decoded_row, identity_of, is_marked, monomial_of};
ghost use Rattle.gp_history.specs.Images.{monomials_are_images};
ghost use Rattle.gp_history.specs.Narrowing.{narrow_versions};
ghost use Rattle.gp_history.specs.Noted.{row_view};
ghost use Rattle.gp_history.specs.Running.{RunsTableOver};
ghost use Rattle.gp_history.specs.Scanning.{scanned, scans_at};
ghost use Rattle.gp_history.specs.SpanAnnotations.{span_row, span_rows, versions_with};

use crate::annotated::Annotated;
use crate::annotator::{Annotator, Publication};
use crate::narrowed::Narrowed;
use gp_algebra::{PProgram, ScanAt, programs_read_their_scans, scans};
use gp_base::{Cell, Monomial, NoMemory, Row, RowId, Sequence};
use gp_exec::{Env, ExecStop, Scanned, run_table};
use gp_kexec::Held;
use gp_log::Log;
use gp_merge::{merge, merged_programs_are_normal, merged_programs_mean_the_same};
use gp_prov::to_plain;
use gp_versions::{Span, VersionTable};
use std::alloc::Global;

// ---- scans

/// The row of a span, with identity, the mark NO and a monomial.
fn encoded_row(alloc: Global, span: &Span, monomial: &Monomial) -> Result<Row, NoMemory>
    ensures { IfOk result (λ row. row ≡ encoded_row true (span_row monomial.now span.now)) }
{
    let cells = span.row.cells();
    let mut row = Row::with_capacity(alloc, cells.len().saturating_add(3))?;
    for cell in cells {
        row.push(cell.clone()?)?;
    }
    row.push(Cell::Id(span.id.clone()?))?;
    row.push(Cell::Mark(false))?;
    row.push(Cell::Mono(monomial.clone()?))?;
    Ok(row)
}

/// The rows of a version, from spans with their monomials.
fn encoded_rows(
    alloc: Global,
    spans: &[&Span],
    monomials: &[&Monomial],
    version: u32,
) -> Result<Sequence<Row>, NoMemory>
    ensures { IfOk result (λ rows.
        rows ≡ map (encoded_row true) (span_rows version (map (λ span. span.now) spans.now)
        (map (λ monomial. monomial.now) monomials.now))) }
{
    let mut rows = Sequence::new(alloc);
    for (i, span) in spans.iter().enumerate() {
        let Some(monomial) = monomials.get(i) else {
            return Ok(rows);
        };
        if span.holds(version) {
            rows.push(encoded_row(alloc, span, monomial)?)?;
        }
    }
    Ok(rows)
}

/// The rows of a table in a version.
fn scanned(alloc: Global, known: &Narrowed<'_, Monomial>, at: ScanAt) -> Result<Scanned, NoMemory>
    ensures { IfOk result
        (λ found. found ≡ scanned (encoded true (narrow_versions known.now)) at) }
{
    let spans = known.spans(at.table);
    let rows = encoded_rows(alloc, spans, known.annotations(at.table), at.version)?;
    Ok(Scanned { at, rows })
}

/// The rows of these tables in these versions, with identity, the mark NO and monomial, one list for each scan, of the row versions
/// that are left.
fn narrow_env(
    alloc: Global,
    known: &Narrowed<'_, Monomial>,
    scans: &[ScanAt],
) -> Result<Env, NoMemory>
    ensures { IfOk result (λ env. AgreeOn scans.now (environment_view env)
        (encoded true (narrow_versions known.now))) }
{
    let mut found = Sequence::new(alloc);
    for at in scans {
        found.push(scanned(alloc, known, *at)?)?;
    }
    Ok(Env { scans: found })
}

/// The rows of these tables in these versions, with identity, the mark NO and monomial, one list for each scan. The row
/// versions are those that were annotated. Running out of memory is the only error.
pub fn env(
    alloc: Global,
    versions: &[VersionTable],
    known: &Annotated<Monomial>,
    scans: &[ScanAt],
) -> Result<Env, NoMemory>
    ensures { IfOk result (λ env. AgreeOn scans.now (environment_view env)
        (encoded true (versions_with (spans_of versions.now) known.now))) }
{
    let whole = Narrowed::whole(alloc, versions, known)?;
    narrow_env(alloc, &whole, scans)
}

// ---- rows

/// The identity of a row with system columns.
fn identity_of(row: &Row) -> Option<&RowId>
    ensures { option_map (λ id. id.now) result ≡ identity_of row.now }
{
    let cells = row.cells();
    match cells.get(cells.len().saturating_sub(3)) {
        Some(Cell::Id(id)) => Some(id),
        _ => None,
    }
}

/// The monomial of a row with system columns.
fn monomial_of(row: &Row) -> Option<&Monomial>
    ensures { option_map (λ monomial. monomial.now) result ≡ monomial_of row.now }
{
    let cells = row.cells();
    match cells.get(cells.len().saturating_sub(1)) {
        Some(Cell::Mono(monomial)) => Some(monomial),
        _ => None,
    }
}

/// Whether the transaction wrote a row with system columns.
fn is_marked(row: &Row) -> bool
    ensures { result ≡ is_marked row.now }
{
    let cells = row.cells();
    match cells.get(cells.len().saturating_sub(2)) {
        Some(Cell::Mark(mark)) => *mark,
        _ => false,
    }
}

/// The cells of a row with system columns, without these.
fn cells_of(alloc: Global, row: &Row) -> Result<Row, NoMemory>
    ensures { IfOk result (λ copy. copy ≡ cells_of row.now) }
{
    let cells = row.cells();
    let count = cells.len().saturating_sub(3);
    let mut copy = Row::with_capacity(alloc, count)?;
    for i in 0..count {
        copy.push(cells[i].clone()?)?;
    }
    Ok(copy)
}

/// A row with system columns that has this identity and this monomial.
fn row_from(
    alloc: Global,
    row: &Row,
    id: &RowId,
    monomial: &Monomial,
) -> Result<Held<Monomial>, NoMemory>
    ensures { IfOk result (λ held. row_view held ≡ record {
      identity = id.now;
      cells = cells_of row.now;
      mark = is_marked row.now;
      annotation = monomial.now;
    }) }
{
    let value = monomial.clone()?;
    let id = id.clone()?;
    let cells = cells_of(alloc, row)?;
    Ok(Held {
        id,
        cells,
        is_marked: is_marked(row),
        value,
    })
}

/// The row that a row with system columns stands for.
fn decoded_row(alloc: Global, row: &Row) -> Result<Option<Held<Monomial>>, NoMemory>
    ensures { IfOk result (λ held. option_map row_view held ≡ decoded_row row.now) }
{
    match identity_of(row) {
        Some(id) => match monomial_of(row) {
            Some(monomial) => Ok(Some(row_from(alloc, row, id, monomial)?)),
            None => Ok(None),
        },
        None => Ok(None),
    }
}

/// The rows that rows with system columns stand for.
fn decoded(alloc: Global, rows: &[Row]) -> Result<Vec<Held<Monomial>>, NoMemory>
    ensures { IfOk result (λ held. map row_view held.items ≡ decoded rows.now) }
{
    let mut held = Vec::new(alloc);
    for row in rows {
        if let Some(one) = decoded_row(alloc, row)? {
            held.push(one)?;
        }
    }
    Ok(held)
}

// ---- programs

/// The rows of a plain program over annotated row versions.
fn plain_rows(
    alloc: Global,
    known: &Narrowed<'_, Monomial>,
    program: &PProgram,
) -> Result<Vec<Row>, ExecStop>
    requires { is_well_built (program_view program.now) ≡ true }
    ensures { RunsTableOver known.now.most (λ found. found.items) result
        (encoded true (narrow_versions known.now)) (program_view program.now) }
{
    programs_read_their_scans();
    merged_programs_mean_the_same();
    merged_programs_are_normal();
    let merged = merge(alloc, program)?;
    let asked = scans(alloc, &merged)?;
    let env = narrow_env(alloc, known, &asked)?;
    run_table(alloc, &merged, &env, known.most)
}

/// The monomials of rows: the ways in which they came to be.
#[derive(Clone, Copy)]
pub struct Monomials;

impl Annotator<Monomial> for Monomials {
    ghost domain = { λ annotator. monomials };

    fn one(&self, alloc: Global) -> Result<Monomial, NoMemory> {
        Ok(Monomial::one(alloc))
    }

    fn copy(&self, _alloc: Global, annotation: &Monomial) -> Result<Monomial, NoMemory> {
        Ok(annotation.clone()?)
    }

    fn rows(
        &self,
        alloc: Global,
        log: &Log,
        _versions: &[VersionTable],
        known: &Narrowed<'_, Monomial>,
        of: &Publication,
    ) -> Result<Vec<Held<Monomial>>, ExecStop> {
        let plain = to_plain(alloc, &of.program, log.catalog(), true)?;
        match plain_rows(alloc, known, &plain) {
            Ok(rows) => Ok(decoded(alloc, &rows)?),
            Err(stop) => Err(stop),
        }
    }

    ghost is_image = { λ annotator. monomials_are_images };
}
