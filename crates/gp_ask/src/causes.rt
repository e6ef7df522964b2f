//! The statements that an answer depends on: without each of them, the commits of the log are made again, from the version that its
//! transaction made. Versions before it are made once for all.

ghost use Rattle.std.specs.Prelude.{◌≡◌, ◌<◌, ◌+◌, ◌^◌, ◌++◌, ℕ, None, Some, replicate, suc, map, IfOk, OnOk};
ghost use Rattle.std.specs.List.{flat_map};
ghost use Rattle.std.specs.Option.{option_or, option_to_list};
ghost use Rattle.gp_algebra.specs.Views.{statement_view};
ghost use Rattle.gp_dump.specs.WholeDumps.{IsDump};
ghost use Rattle.gp_dump.specs.Views.{dump_view};
ghost use Rattle.gp_grammar.specs.Syntax as y;
ghost use Rattle.gp_log.specs.Contents.{entries};
ghost use Rattle.gp_machine.specs.Entries.{version_of, versions_in};
ghost use Rattle.gp_syntax.specs.Views.{change_view, query_view, subject_view};
ghost use Rattle.gp_whatif.specs.Replays.{IsMade};
ghost use Rattle.gp_ask.specs.Hypothetical.{asking_refusal, replayed_dump};
ghost use Rattle.gp_ask.specs.Keeping.{AreKept, IsFound};
ghost use Rattle.gp_ask.specs.Made.{unmade_refusal};
ghost use Rattle.gp_ask.specs.Printed.{query_to};
ghost use Rattle.gp_ask.specs.DifferenceForms as f;
ghost use Rattle.gp_ask.specs.Differences as d;
ghost use Rattle.gp_ask.specs.Computed.{what_if_answer};
ghost use Rattle.gp_ask.specs.Writes.{ArePut, AreWrites, IsLine, committed_write, listed_line, write_of, write_view};

use crate::answered::{Answered, Heading};
use crate::deltas::{Sizes, delta_sizes};
use crate::differences::rows_in;
use crate::hypothetical::{asking_refusal, what_if_answer, what_if_from};
use crate::keeping::KeptAnnotations;
use crate::made::{made_answer, unmade_refusal};
use crate::valid::ValidQuery;
use gp_algebra::Stmt;
use gp_base::{NoMemory, Refusal, Row, Sequence, Text, append_all, text_of_pieces, write_refusal};
use gp_dump::Dump;
use gp_log::{Entry, Log, What};
use gp_syntax::{LogChange, Query, Subject};
use gp_versions::VersionTable;
use gp_whatif::{
    Made, ReplayStop, changes_keep_earlier_versions, copy_versions, make_version, none_made,
};
use std::alloc::Global;

/// A statement that writes, of a transaction that committed.
#[derive(Clone, Copy)]
pub(crate) struct Write {
    /// The transaction.
    pub t: u32,
    /// The number of the statement in it, from 1.
    pub k: u32,
    /// The version that the transaction made.
    pub version: u32,
}

/// A question whose answer depends on statements, and the answer.
#[derive(Clone, Copy)]
pub(crate) struct Asked<'a> {
    /// The dump.
    pub dump: &'a Dump,
    /// What it is asked of.
    pub subject: &'a Subject,
    /// The query.
    pub query: ValidQuery<'a>,
    /// The rows of the answer, in row order.
    pub rows: &'a [Row],
}

// ---- the statements

/// A statement, if it writes and its transaction committed.
fn write_of(log: &Log, t: u32, k: u32, stmt: &Stmt) -> Option<Write>
    ensures { result ≡ write_of (entries log.now) t k (statement_view stmt.now) }
{
    match stmt.target() {
        Some(_) => match log.version_of(t) {
            Some(version) => Some(Write { t, k, version }),
            None => None,
        },
        None => None,
    }
}

/// A statement that writes, if this entry is one and its transaction committed.
fn committed_write(log: &Log, entry: &Entry) -> Option<Write>
    ensures { result ≡ committed_write (entries log.now) entry.now }
{
    match &entry.what {
        What::Statement { k, stmt, .. } => write_of(log, entry.t, *k, stmt.as_ref()),
        _ => None,
    }
}

/// Adds a statement, if there is one.
fn push_write(writes: &mut Vec<Write>, write: Option<Write>) -> Result<(), NoMemory>
    ensures { OnOk result (writes.new.items ≡ writes.old.items ++ option_to_list write) }
{
    if let Some(write) = write {
        writes.push(write)?;
    }
    Ok(())
}

/// The statements that write, of transactions that committed, in the order of their lines.
fn committed_writes(alloc: Global, log: &Log) -> Result<Vec<Write>, NoMemory>
    ensures statements { IfOk result (λ writes. map write_view writes.items
        ≡ f.committed_writes (entries log.now)) }
    ensures versions { IfOk result (λ writes. AreWrites (entries log.now) writes.items) }
{
    let mut writes = Vec::new(alloc);
    for place in 0..log.len() {
        push_write(&mut writes, committed_write(log, log.entry(place)))?;
    }
    Ok(writes)
}

// ---- texts

/// A statement by its transaction and its number.
fn statement_text(alloc: Global, write: Write) -> Result<Vec<u8>, NoMemory>
    ensures { IfOk result (λ text. text.items ≡ d.statement_text (write_view write)) }
{
    let t = write.t.to_string(alloc)?;
    let k = write.k.to_string(alloc)?;
    text_of_pieces(alloc, &[t.as_bytes(), b".", k.as_bytes()])
}

/// The line of a statement without which the answer would lose and gain so many rows.
fn cause_text(alloc: Global, write: Write, found: Sizes) -> Result<Text, NoMemory>
    ensures { IfOk result (λ text. text
        ≡ f.sizes_text (write_view write) found.removed found.added) }
{
    let statement = statement_text(alloc, write)?;
    let removed = found.removed.to_string(alloc)?;
    let added = found.added.to_string(alloc)?;
    let text = text_of_pieces(
        alloc,
        &[
            &statement,
            b" -",
            removed.as_bytes(),
            b" +",
            added.as_bytes(),
        ],
    )?;
    Text::from_bytes(alloc, &text)
}

/// The line of a statement without which the question would be refused.
fn refused_text(alloc: Global, write: Write, refusal: &Refusal) -> Result<Text, NoMemory>
    ensures { IfOk result (λ text. text ≡ f.refused_text (write_view write) refusal.now) }
{
    let mut text = statement_text(alloc, write)?;
    append_all(&mut text, &[b" : "])?;
    write_refusal(alloc, refusal, &mut text)?;
    Text::from_bytes(alloc, &text)
}

// ---- answers

/// The line of a statement, given the answer and the one without the statement, both with rows in row order; none if they are the same.
fn cause_line(
    alloc: Global,
    rows: &[Row],
    write: Write,
    without: Result<Sequence<Row>, Refusal>,
) -> Result<Option<Text>, NoMemory>
    ensures { IfOk result (λ line. listed_line line
        ≡ d.cause_of rows.now (write_view write) without) }
{
    match without {
        Err(refusal) => Ok(Some(refused_text(alloc, write, &refusal)?)),
        Ok(others) => {
            let found = delta_sizes(rows, others.as_slice());
            if found.removed > 0 || found.added > 0 {
                Ok(Some(cause_text(alloc, write, found)?))
            } else {
                Ok(None)
            }
        }
    }
}

/// The change that drops a statement.
fn dropping(write: Write) -> LogChange
    ensures { change_view result ≡ y.drop write.t write.k }
{
    LogChange::Drop {
        t: u64::from(write.t),
        k: u64::from(write.k),
    }
}

/// The answer without a statement of the transaction that made the version after these. They are made again as they were, so the replay
/// goes on behind them.
fn answer_without(
    alloc: Global,
    asked: &Asked<'_>,
    write: Write,
    before: u32,
    versions: &[VersionTable],
) -> Result<Answered, NoMemory>
    requires rules { IsDump (dump_view asked.now.dump.now) }
    requires version { version_of write.t (dump_view asked.now.dump.now).entries ≡ Some (suc before) }
    requires made { IsMade (dump_view asked.now.dump.now).entries before versions.now }
    ensures { IfOk result (λ answered. answered ≡ f.without_in
        (what_if_answer (dump_view asked.now.dump.now).entries) (subject_view asked.now.subject.now)
        (query_view asked.now.query.read.now) (write_view write)) }
{
    // Earlier versions are kept. The call does nothing.
    changes_keep_earlier_versions();
    let copies = copy_versions(alloc, versions)?;
    let made = Made {
        count: before,
        versions: copies,
    };
    let changes = [dropping(write)];
    what_if_from(
        alloc,
        asked.dump,
        &changes,
        made,
        asked.subject,
        asked.query,
    )
}

/// The line of a statement of the transaction that made the version after these.
fn line_without(
    alloc: Global,
    asked: &Asked<'_>,
    write: Write,
    before: u32,
    versions: &[VersionTable],
) -> Result<Option<Text>, NoMemory>
    requires rules { IsDump (dump_view asked.now.dump.now) }
    requires version { version_of write.t (dump_view asked.now.dump.now).entries ≡ Some (suc before) }
    requires made { IsMade (dump_view asked.now.dump.now).entries before versions.now }
    ensures { IfOk result (IsLine asked.now write) }
{
    let without = answer_without(alloc, asked, write, before, versions)?;
    cause_line(alloc, asked.rows, write, rows_in(alloc, without))
}

/// The line of a statement, with all versions made again from nothing.
fn line_alone(alloc: Global, asked: &Asked<'_>, write: Write) -> Result<Option<Text>, NoMemory>
    requires rules { IsDump (dump_view asked.now.dump.now) }
    ensures { IfOk result (IsLine asked.now write) }
{
    let changes = [dropping(write)];
    let without = what_if_answer(alloc, asked.dump, &changes, asked.subject, asked.query)?;
    cause_line(alloc, asked.rows, write, rows_in(alloc, without))
}

/// Puts the lines of the statements of the transaction that made the version after these, in their places.
fn put_version(
    alloc: Global,
    asked: &Asked<'_>,
    writes: &[Write],
    before: u32,
    versions: &[VersionTable],
    lines: &mut [Option<Text>],
) -> Result<(), NoMemory>
    requires rules { IsDump (dump_view asked.now.dump.now) }
    requires writes { AreWrites (dump_view asked.now.dump.now).entries writes.now }
    requires few { before + 1 < 2 ^ 32 }
    requires made { IsMade (dump_view asked.now.dump.now).entries before versions.now }
    requires lines { ArePut asked.now writes.now before lines.old }
    ensures { OnOk result (ArePut asked.now writes.now (suc before) lines.new) }
{
    for (place, write) in writes.iter().enumerate() {
        if write.version != before + 1 {
            continue;
        }
        let line = line_without(alloc, asked, *write, before, versions)?;
        lines[place] = line;
    }
    Ok(())
}

/// Puts the lines of the statements of transactions that made versions after these, this many, each on its own.
fn put_later(
    alloc: Global,
    asked: &Asked<'_>,
    writes: &[Write],
    before: u32,
    lines: &mut [Option<Text>],
) -> Result<(), NoMemory>
    requires rules { IsDump (dump_view asked.now.dump.now) }
    requires lines { ArePut asked.now writes.now before lines.old }
    ensures { OnOk result ((versions : ℕ) → ArePut asked.now writes.now versions lines.new) }
{
    for (place, write) in writes.iter().enumerate() {
        if write.version <= before {
            continue;
        }
        let line = line_alone(alloc, asked, *write)?;
        lines[place] = line;
    }
    Ok(())
}

/// The lines of the statements in their places: versions are made again one after another, and the statements of each one are left out in
/// turn. Where a version stops, each later statement is left out on its own: that stops early too.
fn put_all(
    alloc: Global,
    asked: &Asked<'_>,
    writes: &[Write],
    lines: &mut [Option<Text>],
) -> Result<(), NoMemory>
    requires rules { IsDump (dump_view asked.now.dump.now) }
    requires writes { AreWrites (dump_view asked.now.dump.now).entries writes.now }
    requires lines { ArePut asked.now writes.now 0 lines.old }
    ensures { OnOk result (ArePut asked.now writes.now
        (versions_in (dump_view asked.now.dump.now).entries) lines.new) }
{
    let log = &asked.dump.log;
    log.bounds();
    let Made { mut versions, .. } = none_made(alloc, log)?;
    for before in 0..log.commits() {
        put_version(alloc, asked, writes, before, &versions, lines)?;
        match make_version(alloc, log, before, &mut versions) {
            Ok(()) => {}
            Err(ReplayStop::NoMemory) => return Err(NoMemory),
            Err(_) => return put_later(alloc, asked, writes, before + 1, lines),
        }
    }
    Ok(())
}

/// As many places for lines as there are statements.
fn places(alloc: Global, count: usize) -> Result<Vec<Option<Text>>, NoMemory>
    ensures { IfOk result (λ places. places.items ≡ replicate count None) }
{
    let mut places = Vec::with_capacity(alloc, count)?;
    for _ in 0..count {
        places.push(None)?;
    }
    Ok(places)
}

/// The lines of the statements, each in its place.
fn lines_in_places(
    alloc: Global,
    asked: &Asked<'_>,
    writes: &[Write],
) -> Result<Vec<Option<Text>>, NoMemory>
    requires rules { IsDump (dump_view asked.now.dump.now) }
    requires writes { AreWrites (dump_view asked.now.dump.now).entries writes.now }
    ensures { IfOk result (λ lines. ArePut asked.now writes.now
        (versions_in (dump_view asked.now.dump.now).entries) lines.items) }
{
    let mut lines = places(alloc, writes.len())?;
    put_all(alloc, asked, writes, &mut lines)?;
    Ok(lines)
}

/// Adds a line, if there is one.
fn push_line(lines: &mut Sequence<Text>, line: Option<Text>) -> Result<(), NoMemory>
    ensures { OnOk result (lines.new ≡ lines.old ++ listed_line line) }
{
    if let Some(line) = line {
        lines.push(line)?;
    }
    Ok(())
}

/// The lines that are there, in order.
fn all_lines(alloc: Global, found: Vec<Option<Text>>) -> Result<Sequence<Text>, NoMemory>
    ensures { IfOk result (λ lines. lines ≡ flat_map listed_line found.items) }
{
    let mut lines = Sequence::new(alloc);
    for line in found {
        push_line(&mut lines, line)?;
    }
    Ok(lines)
}

/// The lines of the statements that the rows depend on.
fn cause_lines(alloc: Global, asked: &Asked<'_>) -> Result<Sequence<Text>, NoMemory>
    requires rules { IsDump (dump_view asked.now.dump.now) }
    ensures { IfOk result (λ lines. lines ≡ f.all_cause_lines (f.without_in
        (what_if_answer (dump_view asked.now.dump.now).entries) (subject_view asked.now.subject.now)
        (query_view asked.now.query.read.now))
        (f.committed_writes (dump_view asked.now.dump.now).entries) asked.now.rows.now) }
{
    let writes = committed_writes(alloc, &asked.dump.log)?;
    let found = lines_in_places(alloc, asked, &writes)?;
    all_lines(alloc, found)
}

/// What refuses the question for causes before its rows: what refuses the question itself, whatever the rows are, and then rows of the
/// history that are not those that its log makes.
fn causes_refusal(
    alloc: Global,
    dump: &Dump,
    subject: &Subject,
    query: &Query,
    is_made: &mut Option<bool>,
) -> Result<Option<Refusal>, NoMemory>
    requires rules { IsDump (dump_view dump.now) }
    requires kept { IsFound dump.now is_made.old }
    ensures kept { IsFound dump.now is_made.new }
    ensures refusal { IfOk result (λ refusal. refusal ≡ option_or (asking_refusal
        (dump_view dump.now).entries (subject_view subject.now) (query_view query.now))
        (unmade_refusal (dump_view dump.now))) }
{
    if let Some(refusal) = asking_refusal(alloc, &dump.log, subject, query)? {
        return Ok(Some(refusal));
    }
    unmade_refusal(alloc, dump, is_made)
}

/// The statements that the rows of a query depend on, once nothing refuses the question for causes before its rows: they are those of the
/// dump that the log makes.
fn caused_answer(
    alloc: Global,
    dump: &Dump,
    subject: &Subject,
    query: ValidQuery<'_>,
    kept: &mut KeptAnnotations,
) -> Result<Answered, NoMemory>
    requires rules { IsDump (dump_view dump.now) }
    requires made { unmade_refusal (dump_view dump.now) ≡ None }
    requires kept { AreKept dump.now kept.old }
    ensures kept { AreKept dump.now kept.new }
    ensures answered { IfOk result (λ answered. answered ≡ f.causes_of
        (f.without_in (what_if_answer (dump_view dump.now).entries) (subject_view subject.now)
        (query_view query.entry.read.now)) (f.committed_writes (dump_view dump.now).entries)
        (d.rows_in (query_to (replayed_dump (dump_view dump.now).entries)
        (subject_view subject.now) (query_view query.entry.read.now)))) }
{
    let answered = made_answer(alloc, dump, subject, query, kept)?;
    match rows_in(alloc, answered) {
        Err(refusal) => Ok(Answered::Refused(refusal)),
        Ok(rows) => {
            let asked = Asked {
                dump,
                subject,
                query,
                rows: rows.as_slice(),
            };
            let lines = cause_lines(alloc, &asked)?;
            Ok(Answered::Lines(Heading::Causes, lines))
        }
    }
}

/// The statements that the rows of a query over a state depend on: for each that writes, of a transaction that committed, how many rows the
/// answer would lose and how many it would gain without it, or what would refuse the question. A statement without which the answer would be
/// the same has no line. Refused as the question itself is, but behind what refuses it whatever the rows are the rows of the dump have to be
/// those that its log makes, and then it is asked of the dump that the log makes. Running out of memory is the only error.
pub fn causes_answer(
    alloc: Global,
    dump: &Dump,
    subject: &Subject,
    query: ValidQuery<'_>,
    kept: &mut KeptAnnotations,
) -> Result<Answered, NoMemory>
    requires rules { IsDump (dump_view dump.now) }
    requires kept { AreKept dump.now kept.old }
    ensures kept { AreKept dump.now kept.new }
    ensures answered { IfOk result (λ answered. answered ≡ d.causes_answer
        (query_to (replayed_dump (dump_view dump.now).entries))
        (what_if_answer (dump_view dump.now).entries) (unmade_refusal (dump_view dump.now)) (dump_view dump.now).entries
        (subject_view subject.now) (query_view query.entry.read.now)) }
{
    match causes_refusal(alloc, dump, subject, query.read, &mut kept.is_made)? {
        Some(refusal) => Ok(Answered::Refused(refusal)),
        None => caused_answer(alloc, dump, subject, query, kept),
    }
}
