//! The rules of single lines.

ghost use Rattle.std.specs.Prelude.{◌≡◌, ◌+◌, ◌≤◌, true, length, reverse, IfOk, MatchOption, MatchResult, Ok, Err};
ghost use Rattle.gp_base.specs.declared.limit.TheConstants.{MAX_SPANS};
ghost use Rattle.gp_log.specs.Contents.{entries};
ghost use Rattle.gp_base.specs.CellForms.{AreInRange, IsInRange};
ghost use Rattle.gp_log.specs.Discipline as d;
ghost use Rattle.gp_log.specs.Kinds.{IsAddable};
ghost use Rattle.gp_log.specs.Logs.{entry_view};
ghost use Rattle.gp_dump.specs.declared.dump.TheConstants.{MAX_DUMP_LENGTH};
ghost use Rattle.gp_dump.specs.Dumps as r;
ghost use Rattle.gp_dump.specs.Reading.{CreatesValid, GivesLine, line_view};
ghost use Rattle.gp_dump.specs.Rules.{Count};
ghost use Rattle.gp_dump.specs.Verdicts.{header_line, log_rule, nothing_line, row_rule, section_rule};

use crate::discipline::next_entry;
use crate::error::LineStop;
use crate::lines::DumpLine;
use gp_base::{Cell, Column, Kind, MAX_SPANS, Table, is_user_text, is_utf8};
use gp_dumpline::{parse_header, parse_log_line, parse_said, parse_section, parse_span};
use gp_log::{Entry, Log};
use gp_versions::Span;
use std::alloc::Global;
use std::cmp::Ordering;

/// Whether the format that the first line names is the second one, or the rule that fails.
pub fn format(line: DumpLine<'_>) -> Result<bool, u8>
    ensures { MatchResult result (λ second. header_line (line_view line.entry) ≡ Ok (Count second))
        (λ f. header_line (line_view line.entry) ≡ Err f) }
{
    match line {
        DumpLine::Missing => Err(3),
        DumpLine::Whole(text) => {
            if !is_utf8(text) {
                Err(1)
            } else {
                match parse_header(text) {
                    Some(second) => Ok(second),
                    None => Err(2),
                }
            }
        }
        DumpLine::Cut(text) => {
            if !is_utf8(text) {
                Err(1)
            } else {
                match parse_header(text) {
                    Some(_) => Err(3),
                    None => Err(2),
                }
            }
        }
    }
}

/// The rule that fails behind the last line, if one does.
pub fn nothing_fault(line: DumpLine<'_>) -> Option<u8>
    ensures { MatchOption result (nothing_line (line_view line.entry) ≡ Ok tt)
        (λ f. nothing_line (line_view line.entry) ≡ Err f) }
{
    match line {
        DumpLine::Missing => None,
        DumpLine::Whole(text) => Some(if is_utf8(text) { 14 } else { 1 }),
        DumpLine::Cut(text) => Some(if is_utf8(text) { 3 } else { 1 }),
    }
}

/// The number of the newest line of a log, or 0 if there is none.
fn last_line(log: &Log) -> u32
    ensures { result ≡ d.last_line (entries log.now) }
{
    let count = log.len();
    if count == 0 {
        0
    } else {
        log.entry(count - 1).line
    }
}

/// The entry of a log line, in the first format or in the second.
#[tactic(auto, using(crate::proofs::RuleLemmas::said_steps), unfolding(crate::specs::Verdicts::log_rule))]
pub fn log_line(alloc: Global, second: bool, log: &Log, text: &[u8]) -> Result<Entry, LineStop>
    requires { length text.now ≤ MAX_DUMP_LENGTH }
    ensures value { GivesLine entry_view result (log_rule second (entries log.now) text.now) }
    ensures new { IfOk result (λ entry. IsAddable (entries log.now) entry) }
    ensures valid { IfOk result (λ entry. CreatesValid entry.what) }
{
    let Some(line) = parse_log_line(text) else {
        return Err(LineStop::Rule(5));
    };
    if last_line(log) >= line.line {
        return Err(LineStop::Rule(6));
    }
    match parse_said(alloc, line.said) {
        Ok(Some(said)) => {
            if said.is_in(second) {
                match next_entry(alloc, log, line.line, line.session, said) {
                    Ok(entry) => Ok(entry),
                    Err(stop) => Err(stop.to_line()),
                }
            } else {
                Err(LineStop::Rule(7))
            }
        }
        Ok(None) => Err(LineStop::Rule(7)),
        Err(_) => Err(LineStop::NoMemory),
    }
}

/// The number of rows in the first line of a table, given how many rows there are in the tables before.
#[tactic(auto, unfolding(crate::specs::Verdicts::section_rule))]
pub fn section_line(before: u32, table: &Table, text: &[u8]) -> Result<u32, LineStop>
    requires { before ≤ MAX_SPANS }
    ensures value { GivesLine (λ rows. rows) result (section_rule before table.now text.now) }
    ensures few { IfOk result (λ rows. before + rows ≤ MAX_SPANS) }
{
    let Some(rows) = parse_section(table.name.as_bytes(), text) else {
        return Err(LineStop::Rule(10));
    };
    if rows > MAX_SPANS - before {
        return Err(LineStop::Rule(10));
    }
    Ok(rows)
}

/// Whether a column of this kind can hold the cell.
fn is_of_kind(kind: Kind, cell: &Cell) -> bool
    requires { IsInRange cell.now }
    ensures { result ≡ r.is_of_kind kind cell.now }
{
    match cell {
        Cell::Null => true,
        Cell::Int(_) => match kind {
            Kind::Int => true,
            Kind::Text => false,
        },
        Cell::Text(text) => match kind {
            Kind::Int => false,
            Kind::Text => is_user_text(text.as_bytes()),
        },
        Cell::Id(_) | Cell::Mark(_) | Cell::Mono(_) => false,
    }
}

/// Whether the columns can hold the cells.
fn fits_columns(cols: &[Column], cells: &[Cell]) -> bool
    requires { AreInRange cells.now }
    ensures { result ≡ r.fits_columns cols.now cells.now }
{
    match cols {
        [] => cells.is_empty(),
        [col, cols @ ..] => match cells {
            [] => false,
            [cell, cells @ ..] => is_of_kind(col.kind, cell) && fits_columns(cols, cells),
        },
    }
}

/// Whether a span has ended, at this version or before.
fn has_ended_by(to: Option<u32>, version: u32) -> bool
    ensures { result ≡ r.has_ended_by to version }
{
    match to {
        None => false,
        Some(to) => to <= version,
    }
}

/// Whether a span ends behind its beginning, at a version that there is, or has not ended.
fn ends_within(versions: u32, from: u32, to: Option<u32>) -> bool
    ensures { result ≡ r.ends_within versions from to }
{
    match to {
        None => true,
        Some(to) => from < to && to <= versions,
    }
}

/// Whether a span can be behind another one.
#[tactic(auto, using(crate::proofs::RowLemmas::orders))]
fn is_after(last: &Span, span: &Span) -> bool
    ensures { result ≡ r.is_after last.now span.now }
{
    match last.id.compare(&span.id) {
        Ordering::Less => true,
        Ordering::Equal => last.from < span.from && has_ended_by(last.to, span.from),
        Ordering::Greater => false,
    }
}

/// Whether a span can be behind these.
fn is_next(before: &[Span], span: &Span) -> bool
    ensures { result ≡ r.is_next (reverse before.now) span.now }
{
    match before {
        [] => true,
        [.., last] => is_after(last, span),
    }
}

/// Whether a span is in its place.
fn is_in_place(versions: u32, before: &[Span], span: &Span) -> bool
    ensures { result ≡ r.is_in_place versions (reverse before.now) span.now }
{
    1 <= span.from
        && span.from <= versions
        && ends_within(versions, span.from, span.to)
        && is_next(before, span)
}

/// The span of a row line, given the columns of its table, the number of versions, and the spans before.
#[tactic(auto, unfolding(crate::specs::Verdicts::row_rule))]
pub fn row_line(
    alloc: Global,
    cols: &[Column],
    versions: u32,
    before: &[Span],
    text: &[u8],
) -> Result<Span, LineStop>
    ensures value { GivesLine (λ span. span) result
        (row_rule cols.now versions (reverse before.now) text.now) }
    ensures place { IfOk result
        (λ span. r.is_in_place versions (reverse before.now) span ≡ true) }
{
    match parse_span(alloc, text) {
        Ok(Some(span)) => {
            if !fits_columns(cols, span.row.cells()) {
                Err(LineStop::Rule(12))
            } else if is_in_place(versions, before, &span) {
                Ok(span)
            } else {
                Err(LineStop::Rule(13))
            }
        }
        Ok(None) => Err(LineStop::Rule(11)),
        Err(_) => Err(LineStop::NoMemory),
    }
}
