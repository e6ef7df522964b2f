//! Whether the rows of a dump are those that its log makes.

ghost use Rattle.std.specs.Prelude.{◌≡◌, ◌<◌, ◌≤◌, ◌^◌, ℕ, length, map, false, not, true, None, Some, IfOk};
ghost use Rattle.std.specs.Cmp.Lexicographic.{slice_cmp};
ghost use Rattle.std.specs.List.{All, slice_get};
ghost use Rattle.std.specs.List.Sorted.{IsPermutation};
ghost use Rattle.std.specs.Ordering.{is_eq};
ghost use Rattle.gp_base.specs.Annotated.{unannotated};
ghost use Rattle.gp_base.specs.declared.refusal.Refusal.TheVariants.{E24};
ghost use Rattle.gp_base.specs.Order.{row_cmp};
ghost use Rattle.gp_dump.specs.WholeDumps.{IsDump};
ghost use Rattle.gp_dump.specs.Views.{dump_view};
ghost use Rattle.gp_history.specs.Agreement.{agree, key_of};
ghost use Rattle.gp_history.specs.Matching.{keys_of, span_key};
ghost use Rattle.gp_log.specs.Contents as c;
ghost use Rattle.gp_reenact.specs.Reenacting.{spans_of};
ghost use Rattle.gp_machine.specs.Entries.{versions_in};
ghost use Rattle.gp_machine.specs.Event.{name_at};
ghost use Rattle.gp_machine.specs.HistorySpans.{as_of};
ghost use Rattle.gp_versions.specs.Spans.{rows_at};
ghost use Rattle.gp_ask.specs.Made as s;
ghost use Rattle.gp_ask.specs.MadeForms.{AreDiffering, HaveSameRows, HaveTables, has_none};
ghost use Rattle.gp_ask.specs.Hypothetical.{replayed_dump};
ghost use Rattle.gp_ask.specs.Keeping.{AreKept, IsFound};
ghost use Rattle.gp_ask.specs.Printed.{query_to};
ghost use Rattle.gp_syntax.specs.Views.{query_view, subject_view};
ghost use Rattle.gp_whatif.specs.Replays.{IsMade};

use crate::answered::Answered;
use crate::changes::is_same_id;
use crate::hypothetical::{remade_history_answer, remaking_refusal};
use crate::keeping::KeptAnnotations;
use crate::laws::changed_histories_answer_their_questions;
use crate::states::ask_answer;
use crate::valid::ValidQuery;
use gp_base::{Cell, NoMemory, Refusal, Row, sort_rows};
use gp_dump::Dump;
use gp_log::Log;
use gp_syntax::Subject;
use gp_versions::{Span, VersionTable};
use gp_whatif::replay;
use std::alloc::Global;
use std::cmp::Ordering;

// ---- the rows of a version

/// The cells of a row, and its identity behind them.
fn key_of(span: &Span) -> Result<Row, NoMemory>
    ensures { IfOk result (λ key. key ≡ span_key span.now) }
{
    let mut key = span.row.clone()?;
    key.push(Cell::Id(span.id.clone()?))?;
    Ok(key)
}

/// Those of the rows of a version.
fn keys_at(alloc: Global, table: &VersionTable, version: u32) -> Result<Vec<Row>, NoMemory>
    ensures { IfOk result (λ keys. keys.items ≡ keys_of version table.now.spans) }
{
    let mut keys = Vec::new(alloc);
    for span in table.as_of(version) {
        keys.push(key_of(span)?)?;
    }
    Ok(keys)
}

/// Whether two rows are equal.
fn is_same_row(row: &Row, other: &Row) -> bool
    ensures { result ≡ is_eq (row_cmp row.now other.now) }
{
    row.cmp(other) == Ordering::Equal
}

/// Whether two lists of rows are equal.
pub(crate) fn are_equal(rows: &[Row], others: &[Row]) -> bool
    ensures { result ≡ is_eq (slice_cmp row_cmp rows.now others.now) }
{
    if rows.len() != others.len() {
        return false;
    }
    for (place, row) in rows.iter().enumerate() {
        if !is_same_row(row, &others[place]) {
            return false;
        }
    }
    true
}

/// Whether two tables have the same rows in a version, each as often.
fn agree(
    alloc: Global,
    table: &VersionTable,
    other: &VersionTable,
    version: u32,
) -> Result<bool, NoMemory>
    ensures { IfOk result (λ yes. yes ≡ agree (rows_at unannotated version table.now.spans)
        (rows_at unannotated version other.now.spans)) }
{
    let mut keys = keys_at(alloc, table, version)?;
    let mut others = keys_at(alloc, other, version)?;
    sort_rows(&mut keys)?;
    sort_rows(&mut others)?;
    Ok(are_equal(keys.as_slice(), others.as_slice()))
}

// ---- the rows of all versions

/// Whether two row versions end alike.
fn is_same_end(to: Option<u32>, other: Option<u32>) -> bool
    ensures { result ≡ true → to ≡ other }
{
    match (to, other) {
        (None, None) => true,
        (Some(first), Some(second)) => first == second,
        _ => false,
    }
}

/// Whether two row versions are equal.
fn is_same_span(span: &Span, other: &Span) -> bool
    ensures { result ≡ true → span.now ≡ other.now }
{
    if span.from != other.from {
        return false;
    }
    if !is_same_end(span.to, other.to) {
        return false;
    }
    if !is_same_id(&span.id, &other.id) {
        return false;
    }
    is_same_row(&span.row, &other.row)
}

/// Whether the row versions at these places are equal, each to the one at its place of the others.
fn are_same_at(table: &VersionTable, other: &VersionTable, places: &[u32], others: &[u32]) -> bool
    requires within { All (λ place. place < length table.now.spans) places.now }
    requires others { All (λ place. place < length other.now.spans) others.now }
    requires same { length places.now ≡ length others.now }
    ensures { result ≡ true → map (slice_get table.now.spans) places.now
        ≡ map (slice_get other.now.spans) others.now }
{
    for (at, place) in places.iter().enumerate() {
        if !is_same_span(table.span(*place), other.span(others[at])) {
            return false;
        }
    }
    true
}

/// Whether two tables have the same row versions, in whatever order.
fn have_same_spans(
    alloc: Global,
    table: &VersionTable,
    other: &VersionTable,
) -> Result<bool, NoMemory>
    ensures { IfOk result
        (λ yes. yes ≡ true → IsPermutation table.now.spans other.now.spans) }
{
    if table.len() != other.len() {
        return Ok(false);
    }
    // The spans are apart, so no two of them tie, and there is one order.
    let _spans = table.as_slice();
    let _others = other.as_slice();
    let places = table.spans(alloc)?;
    let others = other.spans(alloc)?;
    Ok(are_same_at(table, other, &places, &others))
}

/// For each table, whether its row versions are others.
fn differing_tables(
    alloc: Global,
    tables: &[VersionTable],
    others: &[VersionTable],
) -> Result<Vec<bool>, NoMemory>
    requires { length others.now ≡ length tables.now }
    ensures { IfOk result (λ flags. AreDiffering tables.now others.now flags.items) }
{
    let mut flags = Vec::new(alloc);
    for (place, table) in tables.iter().enumerate() {
        let is_same = have_same_spans(alloc, table, &others[place])?;
        flags.push(!is_same)?;
    }
    Ok(flags)
}

/// Whether no table has a flag.
fn has_none(flags: &[bool]) -> bool
    ensures { result ≡ has_none flags.now }
{
    for flag in flags {
        if *flag {
            return false;
        }
    }
    true
}

/// Whether two tables have other rows in a version. They can, if there is a flag.
fn differ(
    alloc: Global,
    table: &VersionTable,
    other: &VersionTable,
    flag: bool,
    version: u32,
) -> Result<bool, NoMemory>
    requires { flag ≡ false → HaveSameRows table.now.spans other.now.spans }
    ensures { IfOk result (λ yes. agree (rows_at unannotated version table.now.spans)
        (rows_at unannotated version other.now.spans) ≡ not yes) }
{
    if !flag {
        return Ok(false);
    }
    let is_same = agree(alloc, table, other, version)?;
    Ok(!is_same)
}

/// The refusal of a version in which a table has other rows.
fn refusal_at(log: &Log, version: u32, table: u32) -> Result<Refusal, NoMemory>
    requires { table < length (c.tables log.now) }
    ensures { IfOk result
        (λ refusal. refusal ≡ E24 version (name_at table (c.tables log.now))) }
{
    Ok(Refusal::E24 {
        version,
        table: log.catalog().table(table).name.clone()?,
    })
}

/// The refusal of a version whose rows differ in a table; only these tables can.
fn version_refusal(
    alloc: Global,
    log: &Log,
    tables: &[VersionTable],
    others: &[VersionTable],
    flags: &[bool],
    version: u32,
) -> Result<Option<Refusal>, NoMemory>
    requires tables { HaveTables (c.tables log.now) tables.now others.now }
    requires flags { AreDiffering tables.now others.now flags.now }
    ensures { IfOk result (λ refusal. refusal ≡ s.version_refusal (c.tables log.now) version
        (as_of unannotated (spans_of tables.now) version)
        (as_of unannotated (spans_of others.now) version)) }
{
    for (place, table) in tables.iter().enumerate() {
        if differ(alloc, table, &others[place], flags[place], version)? {
            return Ok(Some(refusal_at(log, version, place as u32)?));
        }
    }
    Ok(None)
}

/// The refusal of the first version whose rows differ, and of its first such table.
fn differing_refusal(
    alloc: Global,
    log: &Log,
    tables: &[VersionTable],
    others: &[VersionTable],
    flags: &[bool],
) -> Result<Option<Refusal>, NoMemory>
    requires tables { HaveTables (c.tables log.now) tables.now others.now }
    requires flags { AreDiffering tables.now others.now flags.now }
    ensures { IfOk result (λ refusal. refusal ≡ s.differing_refusal (c.tables log.now)
        (c.commits log.now) (as_of unannotated (spans_of tables.now))
        (as_of unannotated (spans_of others.now))) }
{
    log.bounds();
    for before in 0..log.commits() {
        let found = version_refusal(alloc, log, tables, others, flags, before + 1)?;
        if found.is_some() {
            return Ok(found);
        }
    }
    Ok(None)
}

// ---- a dump

/// The refusal of the first version whose rows differ from those that the log makes, or else none, and whether the row versions are those
/// that it makes; only tables with a flag have others.
fn decided(
    alloc: Global,
    dump: &Dump,
    made: &[VersionTable],
    flags: &[bool],
    is_made: &mut Option<bool>,
) -> Result<Option<Refusal>, NoMemory>
    requires rules { IsDump (dump_view dump.now) }
    requires made { IsMade (dump_view dump.now).entries (versions_in (dump_view dump.now).entries)
        made.now }
    requires flags { AreDiffering dump.now.versions made.now flags.now }
    requires kept { IsFound dump.now is_made.old }
    ensures kept { IsFound dump.now is_made.new }
    ensures refusal { IfOk result (λ refusal. refusal ≡ s.unmade_refusal (dump_view dump.now)) }
{
    dump.log.bounds();
    match differing_refusal(alloc, &dump.log, dump.versions.as_slice(), made, flags)? {
        Some(refusal) => Ok(Some(refusal)),
        None => {
            *is_made = Some(has_none(flags));
            Ok(None)
        }
    }
}

/// Compares the rows of a dump with those that its log makes.
fn compared(
    alloc: Global,
    dump: &Dump,
    made: &[VersionTable],
    is_made: &mut Option<bool>,
) -> Result<Option<Refusal>, NoMemory>
    requires rules { IsDump (dump_view dump.now) }
    requires made { IsMade (dump_view dump.now).entries (versions_in (dump_view dump.now).entries)
        made.now }
    requires kept { IsFound dump.now is_made.old }
    ensures kept { IsFound dump.now is_made.new }
    ensures refusal { IfOk result (λ refusal. refusal ≡ s.unmade_refusal (dump_view dump.now)) }
{
    let flags = differing_tables(alloc, dump.versions.as_slice(), made)?;
    decided(alloc, dump, made, &flags, is_made)
}

/// Why the rows of a dump are not those that its log makes: the refusal of the first commit that cannot be made again (E25, E26, E31, E14), or
/// of the least version in which they differ, and its first table (E24). None if they are, as those of the dump of a history: then the
/// commits are made again only for the first question.
pub fn unmade_refusal(
    alloc: Global,
    dump: &Dump,
    is_made: &mut Option<bool>,
) -> Result<Option<Refusal>, NoMemory>
    requires rules { IsDump (dump_view dump.now) }
    requires kept { IsFound dump.now is_made.old }
    ensures kept { IsFound dump.now is_made.new }
    ensures refusal { IfOk result (λ refusal. refusal ≡ s.unmade_refusal (dump_view dump.now)) }
{
    if is_made.is_some() {
        return Ok(None);
    }
    match replay(alloc, &dump.log) {
        Ok(versions) => compared(alloc, dump, &versions, is_made),
        Err(stop) => Ok(Some(remaking_refusal(&dump.log, stop)?)),
    }
}

/// Whether it was found that the row versions are those that the log makes.
fn was_found(is_made: Option<bool>) -> bool
    ensures { result ≡ true → is_made ≡ Some true }
{
    match is_made {
        Some(same) => same,
        None => false,
    }
}

/// The answer from the dump that the log makes, where the rows of the dump are those that its log makes. If its row versions are, the dump
/// itself is asked.
pub fn made_answer(
    alloc: Global,
    dump: &Dump,
    subject: &Subject,
    query: ValidQuery<'_>,
    kept: &mut KeptAnnotations,
) -> Result<Answered, NoMemory>
    requires rules { IsDump (dump_view dump.now) }
    requires made { s.unmade_refusal (dump_view dump.now) ≡ None }
    requires kept { AreKept dump.now kept.old }
    ensures kept { AreKept dump.now kept.new }
    ensures answered { IfOk result (λ answered. answered
        ≡ query_to (replayed_dump (dump_view dump.now).entries) (subject_view subject.now)
        (query_view query.entry.read.now)) }
{
    // The order of the row versions changes no answer. The call does nothing.
    changed_histories_answer_their_questions();
    if was_found(kept.is_made) {
        return ask_answer(alloc, dump, subject, query, &mut kept.own);
    }
    remade_history_answer(alloc, dump, subject, query)
}
