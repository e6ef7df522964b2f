//! Annotations that are kept from one question to the next.

ghost use Rattle.std.specs.Prelude.{◌≡◌, ◌<◌, ◌≤◌, suc, IfOk};
ghost use Rattle.gp_log.specs.Contents.{commits, tables};
ghost use Rattle.gp_history.specs.Annotating.{Annotates};
ghost use Rattle.gp_history.specs.Provenance.{AnnotatesOr};
ghost use Rattle.gp_history.specs.Histories as h;

use crate::annotated::Annotated;
use crate::annotating::next_annotated;
use crate::annotator::Annotator;
use crate::asking::refused;
use crate::error::HistoryStop;
use crate::finders::{enter_commit, finders_of};
use gp_base::{NoMemory, Stop};
use gp_log::Log;
use gp_versions::{Finder, VersionTable};
use std::alloc::Global;

/// For so many versions finders of the row versions are made.
const MANY: u32 = 16;

/// The annotations of the row versions that begin with the versions up to one of them.
#[derive(Drop)]
pub struct Kept<A> {
    /// The version.
    pub version: u32,
    /// The annotations. Those of later row versions are one.
    pub annotated: Annotated<A>,
    /// Finders of the row versions of the tables, or none.
    pub finders: Vec<Finder>,
}

/// One more version.
fn next_kept<A: Drop, N: Annotator<A>>(
    alloc: Global,
    annotator: &N,
    log: &Log,
    versions: &[VersionTable],
    kept: Kept<A>,
) -> Result<Kept<A>, HistoryStop>
    requires sound { h.IsSound log.now versions.now }
    requires kept { h.IsKept (N.domain annotator.now) log.now versions.now kept }
    requires more { kept.version < commits log.now }
    ensures { Annotates (h.GoesOn (N.domain annotator.now) log.now versions.now kept.version)
        (tables log.now) result (h.annotation_stop (N.domain annotator.now) log.now versions.now
        (suc kept.version)) }
{
    log.bounds();
    let version = kept.version;
    let mut finders = kept.finders;
    enter_commit(alloc, log, versions, &mut finders, log.maker(version + 1))?;
    match next_annotated(
        alloc,
        annotator,
        log,
        versions,
        kept.annotated,
        &finders,
        version,
    ) {
        Ok(annotated) => Ok(Kept {
            version: version + 1,
            annotated,
            finders,
        }),
        Err(stop) => Err(stop),
    }
}

/// The annotations that are kept, or those of no version.
fn begun<A: Drop, N: Annotator<A>>(
    alloc: Global,
    annotator: &N,
    log: &Log,
    versions: &[VersionTable],
    kept: Option<Kept<A>>,
) -> Result<Kept<A>, NoMemory>
    requires kept { h.MayBeKept (N.domain annotator.now) log.now versions.now kept }
    ensures { IfOk result (h.IsKept (N.domain annotator.now) log.now versions.now) }
{
    match kept {
        Some(kept) => Ok(kept),
        None => Ok(Kept {
            version: 0,
            annotated: Annotated::new(alloc, annotator, versions)?,
            finders: Vec::new(alloc),
        }),
    }
}

/// The annotations that are kept, with finders of the row versions, if there are many versions up to this one.
fn readied<A: Drop, N: Annotator<A>>(
    alloc: Global,
    annotator: &N,
    log: &Log,
    versions: &[VersionTable],
    kept: Kept<A>,
    v: u32,
) -> Result<Kept<A>, NoMemory>
    requires { h.IsKept (N.domain annotator.now) log.now versions.now kept }
    ensures { IfOk result (h.IsKept (N.domain annotator.now) log.now versions.now) }
{
    if !kept.finders.is_empty() || v.saturating_sub(kept.version) < MANY {
        return Ok(kept);
    }
    let finders = finders_of(alloc, versions)?;
    Ok(Kept {
        version: kept.version,
        annotated: kept.annotated,
        finders,
    })
}

/// The annotations of the row versions of a log that begin with the versions up to v, or up to a later version, from those that are kept.
/// Those of later versions are one.
///
/// For each version in turn, the run of its transaction is tested first: Rows if a statement leaves more rows in its table than a
/// statement may, Ancestry if it makes an identity of too many nodes, by the first such statement, and in one statement the rows
/// first. Then Inconsistent, if the identities and cells of the rows that the commit publishes are not those of the row versions in
/// some table, by the first such table in order of creation. The log and row versions of a history never stop.
///
/// One commit takes the time of its transaction's programs on the tables that it writes, over the row versions that its statements
/// write, make rows of or join. Where all their conditions on a table ask for a cell, the others are not looked at; else each is
/// looked at once. No program is made for a table that it has no statement on and none of whose spans begins or ends there.
fn annotate_on<A: Drop, N: Annotator<A>>(
    alloc: Global,
    annotator: &N,
    log: &Log,
    versions: &[VersionTable],
    kept: Option<Kept<A>>,
    v: u32,
) -> Result<Kept<A>, HistoryStop>
    requires sound { h.IsSound log.now versions.now }
    requires within { v ≤ commits log.now }
    requires kept { h.MayBeKept (N.domain annotator.now) log.now versions.now kept }
    ensures { Annotates (h.Reaches (N.domain annotator.now) log.now versions.now v) (tables log.now)
        result (h.annotation_stop (N.domain annotator.now) log.now versions.now v) }
{
    let known = begun(alloc, annotator, log, versions, kept)?;
    let mut known = readied(alloc, annotator, log, versions, known, v)?;
    while known.version < v {
        known = match next_kept(alloc, annotator, log, versions, known) {
            Ok(next) => next,
            Err(stop) => return Err(stop),
        };
    }
    Ok(known)
}

/// The annotations of the versions up to v, from those that are kept, or the refusal of a question that needs them.
pub fn annotated_to<A: Drop, N: Annotator<A>>(
    alloc: Global,
    annotator: &N,
    log: &Log,
    versions: &[VersionTable],
    kept: Option<Kept<A>>,
    v: u32,
) -> Result<Kept<A>, Stop>
    requires sound { h.IsSound log.now versions.now }
    requires within { v ≤ commits log.now }
    requires kept { h.MayBeKept (N.domain annotator.now) log.now versions.now kept }
    ensures { AnnotatesOr (h.Reaches (N.domain annotator.now) log.now versions.now v) result
        (h.annotation_stop (N.domain annotator.now) log.now versions.now v) }
{
    match annotate_on(alloc, annotator, log, versions, kept, v) {
        Ok(known) => Ok(known),
        Err(stop) => Err(refused(log, stop)),
    }
}
