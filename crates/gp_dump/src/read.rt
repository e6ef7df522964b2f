//! The reader of a dump.

ghost use Rattle.std.specs.Prelude.{◌≡◌, ◌<◌, ◌≤◌, ◌+◌, ◌∷◌, [], ℕ, Bool, true, List, length, reverse, IfOk, Ok, Err};
ghost use Rattle.gp_check.specs.Valid.{tables_are_valid};
ghost use Rattle.gp_log.specs.Contents.{entries, tables};
ghost use Rattle.gp_log.specs.declared.limit.TheConstants.{MAX_ENTRIES};
ghost use Rattle.gp_log.specs.Kinds.{IsAddable};
ghost use Rattle.gp_log.specs.LogFacts.{tables_in};
ghost use Rattle.gp_log.specs.Logs.{entry_view};
ghost use Rattle.gp_machine.specs.Entries as m;
ghost use Rattle.gp_base.specs.declared.limit.TheConstants.{MAX_SPANS};
ghost use Rattle.gp_versions.specs.declared.span.Span as spec;
ghost use Rattle.gp_versions.specs.TableSpans.{AreWhole, NoOverlap};
ghost use Rattle.gp_dump.specs.declared.dump.TheConstants.{MAX_DUMP_LENGTH};
ghost use Rattle.gp_dump.specs.Answerable.{as_dump};
ghost use Rattle.gp_dump.specs.Dumps as d;
ghost use Rattle.gp_dump.specs.Dumps.{is_in_place, spans_in};
ghost use Rattle.gp_dump.specs.WholeDumps.{IsDump};
ghost use Rattle.gp_dump.specs.Reading.{AreDue, Continues, CreatesValid, tables_before, takes_text, verdict_from};
ghost use Rattle.gp_dump.specs.Rules.{Due, Header, Count, Logs, Sections, Rows, Nothing};
ghost use Rattle.gp_dump.specs.Verdicts.{Holds, after_text, then_verdict, verdict_on};
ghost use Rattle.gp_dump.specs.Views.{dump_view};

use crate::dump::{Dump, MAX_DUMP_LENGTH};
use crate::error::DumpStop;
use crate::lines::{DumpLine, first_line, is_end};
use crate::rules::{format, log_line, nothing_fault, row_line, section_line};
use gp_base::{Column, Sequence, is_utf8};
use gp_dumpline::parse_count;
use gp_log::{Entry, Log};
use gp_versions::{Span, VersionTable};
use std::alloc::Global;

/// What is left of a dump.
#[derive(Clone, Copy)]
struct Rest<'a> {
    bytes: &'a [u8],
    /// The number of the next line.
    number: u32,
}

/// The text of the next line, where one is due.
#[tactic(auto, using(crate::proofs::ReadLemmas::text_steps))]
fn next_text(rest: Rest<'_>) -> Result<(&[u8], Rest<'_>), DumpStop>
    requires { rest.number + length rest.bytes.now ≤ MAX_DUMP_LENGTH + 1 }
    ensures verdict { (due : Due) → takes_text due ≡ true → Continues result
        (λ x. then_verdict (after_text due x.0.now) rest.entry.number
        (λ next. verdict_from x.1.bytes.now next x.1.number))
        (verdict_from rest.entry.bytes.now due rest.entry.number) }
    ensures short { IfOk result (λ x. length x.0.now ≤ MAX_DUMP_LENGTH) }
    ensures room { IfOk result (λ x. x.1.number + length x.1.bytes.now ≤ MAX_DUMP_LENGTH + 1) }
{
    let (line, bytes) = first_line(rest.bytes);
    match line {
        DumpLine::Whole(text) => {
            if is_utf8(text) {
                Ok((
                    text,
                    Rest {
                        bytes,
                        number: rest.number + 1,
                    },
                ))
            } else {
                Err(DumpStop::Fault {
                    f: 1,
                    line: rest.number,
                })
            }
        }
        DumpLine::Cut(text) => Err(DumpStop::Fault {
            f: if is_utf8(text) { 3 } else { 1 },
            line: rest.number,
        }),
        DumpLine::Missing => Err(DumpStop::Fault {
            f: 3,
            line: rest.number,
        }),
    }
}

/// The first line: whether the format is the second one.
#[tactic(auto, using(crate::proofs::ReadLemmas::end_steps))]
fn read_header(rest: Rest<'_>) -> Result<(bool, Rest<'_>), DumpStop>
    requires { rest.number + length rest.bytes.now ≤ MAX_DUMP_LENGTH + 1 }
    ensures verdict { Continues result
        (λ x. verdict_from x.1.bytes.now (Count x.0) x.1.number)
        (verdict_from rest.entry.bytes.now Header rest.entry.number) }
    ensures room { IfOk result (λ x. x.1.number + length x.1.bytes.now ≤ MAX_DUMP_LENGTH + 1) }
{
    let (line, bytes) = first_line(rest.bytes);
    match format(line) {
        Ok(second) => Ok((
            second,
            Rest {
                bytes,
                number: rest.number + 1,
            },
        )),
        Err(f) => Err(DumpStop::Fault {
            f,
            line: rest.number,
        }),
    }
}

/// The number of log lines.
fn read_count(rest: Rest<'_>) -> Result<(u32, Rest<'_>), DumpStop>
    requires { rest.number + length rest.bytes.now ≤ MAX_DUMP_LENGTH + 1 }
    ensures verdict { (second : Bool) → Continues result
        (λ x. verdict_from x.1.bytes.now (Logs second x.0 []) x.1.number)
        (verdict_from rest.entry.bytes.now (Count second) rest.entry.number) }
    ensures room { IfOk result (λ x. x.1.number + length x.1.bytes.now ≤ MAX_DUMP_LENGTH + 1) }
    ensures few { IfOk result (λ x. x.0 ≤ MAX_ENTRIES) }
{
    let (text, behind) = next_text(rest)?;
    match parse_count(text) {
        Some(count) => Ok((count, behind)),
        None => Err(DumpStop::Fault {
            f: 4,
            line: rest.number,
        }),
    }
}

/// The next log line.
fn next_entry<'a>(
    alloc: Global,
    second: bool,
    log: &Log,
    rest: Rest<'a>,
) -> Result<(Entry, Rest<'a>), DumpStop>
    requires { rest.number + length rest.bytes.now ≤ MAX_DUMP_LENGTH + 1 }
    ensures verdict { (left next : ℕ) → left ≡ next + 1 → Continues result
        (λ x. verdict_from x.1.bytes.now
        (Logs second next (entry_view x.0 ∷ entries log.now)) x.1.number)
        (verdict_from rest.entry.bytes.now (Logs second left (entries log.now)) rest.entry.number) }
    ensures new { IfOk result (λ x. IsAddable (entries log.now) x.0) }
    ensures valid { IfOk result (λ x. CreatesValid x.0.what) }
    ensures room { IfOk result (λ x. x.1.number + length x.1.bytes.now ≤ MAX_DUMP_LENGTH + 1) }
{
    let (text, behind) = next_text(rest)?;
    match log_line(alloc, second, log, text) {
        Ok(entry) => Ok((entry, behind)),
        Err(stop) => Err(stop.at(rest.number)),
    }
}

#[tactic(auto, using(crate::proofs::GrowthLemmas::entry_steps))]
fn read_log(
    alloc: Global,
    second: bool,
    count: u32,
    rest: Rest<'_>,
) -> Result<(Log, Rest<'_>), DumpStop>
    requires room { rest.number + length rest.bytes.now ≤ MAX_DUMP_LENGTH + 1 }
    requires few { count ≤ MAX_ENTRIES }
    ensures verdict { Continues result
        (λ x. verdict_from x.1.bytes.now (Sections (entries x.0) []) x.1.number)
        (verdict_from rest.entry.bytes.now (Logs second count []) rest.entry.number) }
    ensures room { IfOk result (λ x. x.1.number + length x.1.bytes.now ≤ MAX_DUMP_LENGTH + 1) }
    ensures valid { IfOk result (λ x. tables_are_valid (tables x.0) ≡ true) }
{
    let mut log = Log::new(alloc);
    let mut rest = rest;
    let mut left = count;
    while left > 0 {
        let (entry, behind) = next_entry(alloc, second, &log, rest)?;
        log.append(entry)?;
        rest = behind;
        left -= 1;
    }
    Ok((log, rest))
}

/// The next row line of a table.
fn next_row<'a>(
    alloc: Global,
    cols: &[Column],
    versions: u32,
    before: &[Span],
    rest: Rest<'a>,
) -> Result<(Span, Rest<'a>), DumpStop>
    requires { rest.number + length rest.bytes.now ≤ MAX_DUMP_LENGTH + 1 }
    ensures verdict { (left next : ℕ) (log : List m.Entry) (tables : List (List spec.Span))
        → left ≡ next + 1 → AreDue cols.now versions log tables → Continues result
        (λ x. verdict_from x.1.bytes.now (Rows next log tables (x.0 ∷ reverse before.now))
        x.1.number)
        (verdict_from rest.entry.bytes.now (Rows left log tables (reverse before.now))
        rest.entry.number) }
    ensures place { IfOk result
        (λ x. is_in_place versions (reverse before.now) x.0 ≡ true) }
    ensures room { IfOk result (λ x. x.1.number + length x.1.bytes.now ≤ MAX_DUMP_LENGTH + 1) }
{
    let (text, behind) = next_text(rest)?;
    match row_line(alloc, cols, versions, before, text) {
        Ok(span) => Ok((span, behind)),
        Err(stop) => Err(stop.at(rest.number)),
    }
}

/// The row lines of a table.
#[tactic(auto, using(crate::proofs::RowLemmas::row_steps))]
fn read_rows<'a>(
    alloc: Global,
    cols: &[Column],
    versions: u32,
    count: u32,
    rest: Rest<'a>,
) -> Result<(Vec<Span>, Rest<'a>), DumpStop>
    requires { rest.number + length rest.bytes.now ≤ MAX_DUMP_LENGTH + 1 }
    ensures verdict { (log : List m.Entry) (tables : List (List spec.Span))
        → AreDue cols.now versions log tables → Continues result
        (λ x. verdict_from x.1.bytes.now (Sections log (x.0.items ∷ tables)) x.1.number)
        (verdict_from rest.entry.bytes.now (Rows count log tables []) rest.entry.number) }
    ensures apart { IfOk result (λ x. NoOverlap x.0.items) }
    ensures whole { IfOk result (λ x. AreWhole x.0.items) }
    ensures count { IfOk result (λ x. length x.0.items ≡ count) }
    ensures room { IfOk result (λ x. x.1.number + length x.1.bytes.now ≤ MAX_DUMP_LENGTH + 1) }
{
    let mut spans = Vec::new(alloc);
    let mut rest = rest;
    let mut left = count;
    while left > 0 {
        let (span, behind) = next_row(alloc, cols, versions, &spans, rest)?;
        spans.push(span)?;
        rest = behind;
        left -= 1;
    }
    Ok((spans, rest))
}

/// The next table, the one at this place, given how many spans the tables before have.
fn next_table<'a>(
    alloc: Global,
    log: &Log,
    place: u32,
    before: u32,
    rest: Rest<'a>,
) -> Result<(VersionTable, Rest<'a>), DumpStop>
    requires room { rest.number + length rest.bytes.now ≤ MAX_DUMP_LENGTH + 1 }
    requires few { before ≤ MAX_SPANS }
    requires due { place < length (tables log.now) }
    ensures verdict { (tables : List (List spec.Span)) → length tables ≡ place
        → before ≡ spans_in tables → Continues result (λ x. verdict_from x.1.bytes.now
        (Sections (entries log.now) (x.0.spans ∷ tables)) x.1.number)
        (verdict_from rest.entry.bytes.now (Sections (entries log.now) tables) rest.entry.number) }
    ensures few { IfOk result (λ x. before + length x.0.spans ≤ MAX_SPANS) }
    ensures room { IfOk result (λ x. x.1.number + length x.1.bytes.now ≤ MAX_DUMP_LENGTH + 1) }
{
    let (text, behind) = next_text(rest)?;
    let table = log.catalog().table(place);
    match section_line(before, table, text) {
        Ok(count) => {
            let cols = table.cols.as_slice();
            let (spans, behind) = read_rows(alloc, cols, log.commits(), count, behind)?;
            Ok((VersionTable::from_spans(spans), behind))
        }
        Err(stop) => Err(stop.at(rest.number)),
    }
}

#[tactic(auto, using(crate::proofs::GrowthLemmas::table_steps))]
fn read_tables<'a>(
    alloc: Global,
    log: &Log,
    rest: Rest<'a>,
) -> Result<(Vec<VersionTable>, Rest<'a>), DumpStop>
    requires { rest.number + length rest.bytes.now ≤ MAX_DUMP_LENGTH + 1 }
    ensures verdict { Continues result (λ x. verdict_from x.1.bytes.now
        (Sections (entries log.now) (tables_before x.0.items)) x.1.number)
        (verdict_from rest.entry.bytes.now (Sections (entries log.now) []) rest.entry.number) }
    ensures all { IfOk result (λ x. length x.0.items ≡ length (tables log.now)) }
    ensures room { IfOk result (λ x. x.1.number + length x.1.bytes.now ≤ MAX_DUMP_LENGTH + 1) }
{
    let mut tables = Vec::new(alloc);
    let mut rest = rest;
    let mut before: u32 = 0;
    for place in 0..log.catalog().len() {
        let (table, behind) = next_table(alloc, log, place, before, rest)?;
        before += table.len() as u32;
        tables.push(table)?;
        rest = behind;
    }
    Ok((tables, rest))
}

/// Nothing, which is due behind the last line.
#[tactic(auto, using(crate::proofs::ReadLemmas::end_steps))]
fn read_nothing(rest: Rest<'_>) -> Result<(), DumpStop>
    ensures { (dump : d.Dump) → Continues result (λ _. Holds dump)
        (verdict_from rest.entry.bytes.now (Nothing dump) rest.entry.number) }
{
    let (line, _) = first_line(rest.bytes);
    match nothing_fault(line) {
        None => Ok(()),
        Some(f) => Err(DumpStop::Fault {
            f,
            line: rest.number,
        }),
    }
}

/// The last line, and nothing behind it.
fn read_end(rest: Rest<'_>) -> Result<(), DumpStop>
    requires { rest.number + length rest.bytes.now ≤ MAX_DUMP_LENGTH + 1 }
    ensures { (log : List m.Entry) (tables : List (List spec.Span))
        → length (tables_in log) ≤ length tables → Continues result
        (λ _. Holds (record { entries = log; tables = reverse tables }))
        (verdict_from rest.entry.bytes.now (Sections log tables) rest.entry.number) }
{
    let (text, behind) = next_text(rest)?;
    if !is_end(text) {
        return Err(DumpStop::Fault {
            f: 14,
            line: rest.number,
        });
    }
    read_nothing(behind)
}

/// The lines of a dump in order: the log, then the tables.
fn read_lines(alloc: Global, bytes: &[u8]) -> Result<(Log, Vec<VersionTable>), DumpStop>
    requires { length bytes.now ≤ MAX_DUMP_LENGTH }
    ensures exact { Continues result (λ x. Holds (as_dump x.0 x.1.items)) (verdict_on bytes.now) }
    ensures valid { IfOk result (λ x. tables_are_valid (tables x.0) ≡ true) }
{
    let (second, rest) = read_header(Rest { bytes, number: 1 })?;
    let (count, rest) = read_count(rest)?;
    let (log, rest) = read_log(alloc, second, count, rest)?;
    let (tables, rest) = read_tables(alloc, &log, rest)?;
    read_end(rest)?;
    Ok((log, tables))
}

/// Reads a dump, or gives its first fault: the number of the rule that fails first, and the number of its line. Rules are
/// tested line by line, and on one line in the order of their numbers. What was read keeps the rules of a dump.
pub fn read_dump(alloc: Global, bytes: &[u8]) -> Result<Dump, DumpStop>
    requires { length bytes.now ≤ MAX_DUMP_LENGTH }
    ensures exact { Continues result (λ dump. Holds (dump_view dump)) (verdict_on bytes.now) }
    ensures rules { IfOk result (λ dump. IsDump (dump_view dump)) }
{
    let (log, tables) = read_lines(alloc, bytes)?;
    let versions = Sequence::from_vec(tables);
    Ok(Dump { log, versions })
}
