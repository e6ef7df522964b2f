//! The annotations of computed rows, by their identities.

ghost use Rattle.std.specs.Prelude.{◌≡◌, false, is_some, map, true, IfOk, OnOk, unwrap_or};
ghost use Rattle.std.specs.BTreeMap.{get};
ghost use Rattle.std.specs.Option.{option_or};
ghost use Rattle.gp_base.specs.Identities.{Identity, identity_cmp};
ghost use Rattle.gp_history.specs.Changes.{AreNotes, are_noted, is_noted};
ghost use Rattle.gp_history.specs.Noted.{first_noted, first_written, noted, row_view, written_note};

use crate::annotator::Annotator;
use gp_base::{NoMemory, RowId};
use gp_kexec::Held;
use gp_versions::Span;
use std::alloc::Global;
use std::collections::BTreeMap;

/// Whether an identity stands behind all that have an annotation. Rows come in order of identity where row versions are in it, so
/// that this tells it of most of them.
fn is_behind<A>(found: &BTreeMap<RowId, A>, id: &RowId) -> bool
    ensures { result ≡ true → is_some (get identity_cmp found.now id.now) ≡ false }
{
    match found.last_key_value() {
        Some((last, _)) => last.cmp(id).is_lt(),
        None => false,
    }
}

/// Whether an identity has an annotation.
fn has<A>(found: &BTreeMap<RowId, A>, id: &RowId) -> bool
    ensures { result ≡ is_some (get identity_cmp found.now id.now) }
{
    if is_behind(found, id) {
        return false;
    }
    found.contains_key(id)
}

/// Adds the annotation of a row, if its identity has none yet.
fn add<A: Drop, N: Annotator<A>>(
    alloc: Global,
    annotator: &N,
    found: &mut BTreeMap<RowId, A>,
    row: &Held<A>,
) -> Result<(), NoMemory>
    ensures { OnOk result ((other : Identity) → get identity_cmp found.new other
        ≡ option_or (get identity_cmp found.old other) (noted other row.now.id row.now.value)) }
{
    if has(found, &row.id) {
        return Ok(());
    }
    let annotation = annotator.copy(alloc, &row.value)?;
    found.insert(row.id.clone()?, annotation)?;
    Ok(())
}

/// A row that the transaction did not write is not among the found ones.
fn add_written<A: Drop, N: Annotator<A>>(
    alloc: Global,
    annotator: &N,
    found: &mut BTreeMap<RowId, A>,
    row: &Held<A>,
) -> Result<(), NoMemory>
    ensures { OnOk result ((other : Identity) → get identity_cmp found.new other
        ≡ option_or (get identity_cmp found.old other) (written_note other (row_view row.now))) }
{
    if row.is_marked {
        add(alloc, annotator, found, row)
    } else {
        Ok(())
    }
}

/// The annotations of those rows that the transaction wrote. Of rows with one identity the first counts.
fn written_in<A: Drop, N: Annotator<A>>(
    alloc: Global,
    annotator: &N,
    rows: &[Held<A>],
) -> Result<BTreeMap<RowId, A>, NoMemory>
    ensures { IfOk result (λ found. (id : Identity)
        → get identity_cmp found id ≡ first_written id (map row_view rows.now)) }
{
    let mut found = BTreeMap::new(alloc);
    for row in rows {
        add_written(alloc, annotator, &mut found, row)?;
    }
    Ok(found)
}

/// Whether the span begins with another version, or its identity has an annotation.
fn is_noted<A>(notes: &BTreeMap<RowId, A>, span: &Span, version: u32) -> bool
    ensures { result ≡ is_noted version notes.now span.now }
{
    if span.from == version {
        notes.contains_key(&span.id)
    } else {
        true
    }
}

/// Whether each span that begins with the version has an annotation.
fn are_noted<A>(notes: &BTreeMap<RowId, A>, spans: &[&Span], version: u32) -> bool
    ensures { result ≡ are_noted version notes.now (map (λ span. span.now) spans.now) }
{
    for span in spans {
        if !is_noted(notes, span, version) {
            return false;
        }
    }
    true
}

/// The annotations of rows, for the spans that begin with the version. Those are rows that the transaction wrote, so the others are
/// not looked at; only row versions that no transaction of the log made can have it otherwise.
pub fn notes_of<A: Drop, N: Annotator<A>>(
    alloc: Global,
    annotator: &N,
    rows: &[Held<A>],
    spans: &[&Span],
    version: u32,
) -> Result<BTreeMap<RowId, A>, NoMemory>
    ensures { IfOk result
        (λ notes. AreNotes (map row_view rows.now)
        (map (λ span. span.now) spans.now) version notes) }
{
    let written = written_in(alloc, annotator, rows)?;
    if are_noted(&written, spans, version) {
        return Ok(written);
    }
    let found = found_in(alloc, annotator, rows)?;
    Ok(found)
}

/// The annotations of rows. Of rows with one identity the first counts.
fn found_in<A: Drop, N: Annotator<A>>(
    alloc: Global,
    annotator: &N,
    rows: &[Held<A>],
) -> Result<BTreeMap<RowId, A>, NoMemory>
    ensures { IfOk result (λ found. (id : Identity)
        → get identity_cmp found id ≡ first_noted id (map row_view rows.now)) }
{
    let mut found = BTreeMap::new(alloc);
    for row in rows {
        add(alloc, annotator, &mut found, row)?;
    }
    Ok(found)
}

/// The annotation that was found for an identity, or one.
pub fn looked_up<A: Drop, N: Annotator<A>>(
    alloc: Global,
    annotator: &N,
    found: &BTreeMap<RowId, A>,
    id: &RowId,
) -> Result<A, NoMemory>
    ensures { IfOk result (λ annotation.
        annotation ≡ unwrap_or (get identity_cmp found.now id.now) (N.domain annotator.now).one) }
{
    match found.get(id) {
        Some(annotation) => annotator.copy(alloc, annotation),
        None => annotator.one(alloc),
    }
}
