//! The versions in which rows are in an answer.

ghost use Rattle.std.specs.Prelude.{◌≡◌, ◌++◌, ◌<◌, ◌≤◌, ◌∷◌, [], true, IfOk, OnOk, length, map};
ghost use Rattle.std.specs.List.{list_any, zip};
ghost use Rattle.gp_algebra.specs.Fitting.{select_fits};
ghost use Rattle.gp_algebra.specs.Views.{select_view};
ghost use Rattle.gp_dump.specs.Views.{dump_view};
ghost use Rattle.gp_log.specs.LogFacts.{tables_in};
ghost use Rattle.gp_machine.specs.Entries as m;
ghost use Rattle.gp_syntax.specs.Views.{query_view};
ghost use Rattle.gp_ask.specs.IntervalForms as f;
ghost use Rattle.gp_ask.specs.Intervals as s;

use crate::answered::{Answered, Heading};
use crate::changes::ends_at;
use crate::deltas::add_cells;
use crate::row_lines::listed;
use crate::row_versions::spans_of;
use crate::valid::ValidQuery;
use gp_algebra::Select;
use gp_base::{
    Cell, MAX_ANSWER_ROWS, NoMemory, Refusal, Row, Stop, Text, sort_rows, text_of_pieces, write_row,
};
use gp_check::check_query;
use gp_dump::Dump;
use gp_reenact::reenact;
use gp_syntax::Point;
use gp_versions::Span;
use std::alloc::Global;
use std::cmp::Ordering;

// ---- versions that wrote a table of the query

/// Whether a span begins or ends at a version.
fn is_touched(version: u32, span: &Span) -> bool
    ensures { result ≡ f.is_touched version span.now }
{
    span.from == version || ends_at(span, version)
}

/// Whether one of the spans begins or ends at a version.
fn are_touched(version: u32, spans: &[Span]) -> bool
    ensures { result ≡ list_any (f.is_touched version) spans.now }
{
    for span in spans {
        if is_touched(version, span) {
            return true;
        }
    }
    false
}

/// Whether a version wrote one of some tables.
fn is_any_written(dump: &Dump, version: u32, tables: &[u32]) -> bool
    ensures { result ≡ list_any (f.is_written (dump_view dump.now) version) tables.now }
{
    for table in tables {
        if are_touched(version, spans_of(dump, *table)) {
            return true;
        }
    }
    false
}

/// Whether a version wrote one of the tables of a query.
fn is_changed(dump: &Dump, select: &Select, version: u32) -> bool
    ensures { result ≡ f.is_changed (dump_view dump.now) (select_view select.now) version }
{
    for branch in select.branches.as_slice() {
        if is_any_written(dump, version, branch.from.as_slice()) {
            return true;
        }
    }
    false
}

// ---- lines

/// The end of an interval, and a dash where it has none.
fn end_text(alloc: Global, to: Option<u32>) -> Result<Text, NoMemory>
    ensures { IfOk result (λ text. text ≡ f.end_text to) }
{
    match to {
        Some(version) => {
            let text = version.to_string(alloc)?;
            Text::from_bytes(alloc, text.as_bytes())
        }
        None => Text::from_bytes(alloc, b"-"),
    }
}

/// The line of an interval.
fn interval_text(alloc: Global, row: &Row, from: u32, to: Option<u32>) -> Result<Text, NoMemory>
    ensures { IfOk result (λ text. text
        ≡ s.interval_text (record { row = row.now; from = from; to = to })) }
{
    let mut cells = Vec::new(alloc);
    write_row(alloc, row, &mut cells)?;
    let from = from.to_string(alloc)?;
    let to = end_text(alloc, to)?;
    let text = text_of_pieces(
        alloc,
        &[&cells, b" : ", from.as_bytes(), b" ", to.as_bytes()],
    )?;
    Text::from_bytes(alloc, &text)
}

/// The end of an interval as a cell. A dash is behind each number.
fn end_cell(alloc: Global, to: Option<u32>) -> Result<Cell, NoMemory>
    ensures { IfOk result (λ cell. cell ≡ f.end_cell to) }
{
    match to {
        Some(version) => Ok(Cell::Int(i64::from(version))),
        None => Ok(Cell::Text(Text::from_bytes(alloc, b"-")?)),
    }
}

/// Adds an interval: the row with both ends and its line behind it.
fn push_interval(
    alloc: Global,
    row: &Row,
    from: u32,
    to: Option<u32>,
    rows: &mut Vec<Row>,
) -> Result<(), NoMemory>
    ensures { OnOk result (rows.new.items ≡ rows.old.items
        ++ f.interval_row (record { row = row.now; from = from; to = to }) ∷ []) }
{
    let mut interval = Row::new(alloc);
    add_cells(&mut interval, row.cells())?;
    interval.push(Cell::Int(i64::from(from)))?;
    interval.push(end_cell(alloc, to)?)?;
    interval.push(Cell::Text(interval_text(alloc, row, from, to)?))?;
    rows.push(interval)?;
    Ok(())
}

// ---- from one version to the next

/// The rows of an answer, in row order, and the version at which the interval of each began.
#[derive(Drop)]
pub(crate) struct Open {
    /// The rows.
    pub rows: Vec<Row>,
    /// The versions.
    pub froms: Vec<u32>,
}

/// Ends the intervals that do not go on in the rows of a version, which are in order. Gives the versions at which those of these rows
/// began. Of equal rows those go on that began first.
fn carried(
    alloc: Global,
    version: u32,
    open: &Open,
    rows: &[Row],
    ended: &mut Vec<Row>,
) -> Result<Vec<u32>, NoMemory>
    requires { length open.now.froms.items ≡ length open.now.rows.items }
    ensures froms { IfOk result (λ froms. froms.items
        ≡ f.carried version (zip open.now.rows.items open.now.froms.items) rows.now) }
    ensures ended { OnOk result (ended.new.items ≡ ended.old.items ++ map f.interval_row
        (f.closed version (zip open.now.rows.items open.now.froms.items) rows.now)) }
{
    let mut froms = Vec::new(alloc);
    let mut i = 0usize;
    let mut j = 0usize;
    'both: while i < open.rows.len() && j < rows.len() {
        match open.rows[i].cmp(&rows[j]) {
            Ordering::Less => {
                push_interval(alloc, &open.rows[i], open.froms[i], Some(version), ended)?;
                i += 1;
            }
            Ordering::Greater => {
                froms.push(version)?;
                j += 1;
            }
            Ordering::Equal => {
                froms.push(open.froms[i])?;
                i += 1;
                j += 1;
            }
        }
    }
    'left: while i < open.rows.len() {
        push_interval(alloc, &open.rows[i], open.froms[i], Some(version), ended)?;
        i += 1;
    }
    'right: while j < rows.len() {
        froms.push(version)?;
        j += 1;
    }
    Ok(froms)
}

// ---- over the versions

/// The rows of a checked query over a version, in row order.
fn rows_at(alloc: Global, dump: &Dump, version: u32, select: &Select) -> Result<Vec<Row>, Stop>
    requires fits { select_fits (tables_in (dump_view dump.now).entries) (select_view select.now)
        ≡ true }
    requires within { version ≤ m.versions_in (dump_view dump.now).entries }
    ensures { f.AreRowsAt (dump_view dump.now) (select_view select.now) (λ rows. rows.items)
        version result }
{
    let state = Point::AsOf {
        v: u64::from(version),
    };
    let mut rows = reenact(alloc, &dump.log, dump.versions.as_slice(), state, select)?;
    sort_rows(&mut rows)?;
    Ok(rows)
}

/// Goes on to a version that wrote a table of the query.
fn step(
    alloc: Global,
    dump: &Dump,
    version: u32,
    select: &Select,
    open: &mut Open,
    ended: &mut Vec<Row>,
) -> Result<(), Stop>
    requires fits { select_fits (tables_in (dump_view dump.now).entries) (select_view select.now)
        ≡ true }
    requires within { version ≤ m.versions_in (dump_view dump.now).entries }
    requires beside { length open.old.froms.items ≡ length open.old.rows.items }
    ensures steps { f.StepsTo (dump_view dump.now) (select_view select.now) version
        (zip open.old.rows.items open.old.froms.items) ended.old.items result
        (zip open.new.rows.items open.new.froms.items) ended.new.items }
    ensures beside { OnOk result (length open.new.froms.items ≡ length open.new.rows.items) }
{
    let rows = rows_at(alloc, dump, version, select)?;
    let froms = carried(alloc, version, open, &rows, ended)?;
    *open = Open { rows, froms };
    Ok(())
}

/// Goes on to the next version. One that wrote no table of the query has the answer of the version before. So many intervals that end are
/// refused, whatever else there is.
fn go_on(
    alloc: Global,
    dump: &Dump,
    before: u32,
    select: &Select,
    open: &mut Open,
    ended: &mut Vec<Row>,
) -> Result<(), Stop>
    requires fits { select_fits (tables_in (dump_view dump.now).entries) (select_view select.now)
        ≡ true }
    requires within { before < m.versions_in (dump_view dump.now).entries }
    requires beside { length open.old.froms.items ≡ length open.old.rows.items }
    requires known { f.IsSwept (dump_view dump.now) (select_view select.now) before
        (zip open.old.rows.items open.old.froms.items) ended.old.items }
    ensures next { f.GoesOn (dump_view dump.now) (select_view select.now) before result
        (zip open.new.rows.items open.new.froms.items) ended.new.items }
    ensures beside { OnOk result (length open.new.froms.items ≡ length open.new.rows.items) }
{
    dump.log.bounds();
    if !is_changed(dump, select, before + 1) {
        return Ok(());
    }
    step(alloc, dump, before + 1, select, open, ended)?;
    if ended.len() > MAX_ANSWER_ROWS {
        return Err(Stop::Refused(Refusal::E27));
    }
    Ok(())
}

/// Adds the intervals that are open at the last version.
fn push_open(alloc: Global, open: &Open, ended: &mut Vec<Row>) -> Result<(), NoMemory>
    requires { length open.now.froms.items ≡ length open.now.rows.items }
    ensures { OnOk result (ended.new.items ≡ ended.old.items ++ map f.interval_row
        (map f.still_open (zip open.now.rows.items open.now.froms.items))) }
{
    let mut i = 0usize;
    'left: while i < open.rows.len() {
        push_interval(alloc, &open.rows[i], open.froms[i], None, ended)?;
        i += 1;
    }
    Ok(())
}

/// All intervals, those that ended first, as rows with their ends and their lines.
fn interval_rows(alloc: Global, dump: &Dump, select: &Select) -> Result<Vec<Row>, Stop>
    requires fits { select_fits (tables_in (dump_view dump.now).entries) (select_view select.now)
        ≡ true }
    ensures { f.AreIntervals (dump_view dump.now) (select_view select.now) (λ rows. rows.items)
        result }
{
    let mut ended = Vec::new(alloc);
    let mut open = Open {
        rows: Vec::new(alloc),
        froms: Vec::new(alloc),
    };
    step(alloc, dump, 0, select, &mut open, &mut ended)?;
    for before in 0..dump.log.commits() {
        go_on(alloc, dump, before, select, &mut open, &mut ended)?;
    }
    push_open(alloc, &open, &mut ended)?;
    Ok(ended)
}

/// The intervals of a checked query.
fn selected_intervals(alloc: Global, dump: &Dump, select: &Select) -> Result<Answered, NoMemory>
    requires fits { select_fits (tables_in (dump_view dump.now).entries) (select_view select.now)
        ≡ true }
    ensures { IfOk result (λ answered. answered
        ≡ f.checked_when (dump_view dump.now) (select_view select.now)) }
{
    match interval_rows(alloc, dump, select) {
        Ok(rows) => listed(alloc, Heading::When, rows),
        Err(Stop::Refused(refusal)) => Ok(Answered::Refused(refusal)),
        Err(Stop::NoMemory) => Err(NoMemory),
    }
}

/// In which versions each row of a query is there: for each number of times a row, the first version, and the first one behind it, of
/// each longest interval of versions whose answers have the row so often. In the order of the rows, of the first versions and of the ends,
/// those without an end last. Refused by the check of the query (E04 to E07, E15), and where the answer over a version, or the lines, are
/// more than [`MAX_ANSWER_ROWS`] (E27).
///
/// The query is asked of version 0 and of each version that wrote one of its tables; over the others its answer is the one before.
pub fn when_answer(alloc: Global, dump: &Dump, query: ValidQuery<'_>) -> Result<Answered, NoMemory>
    ensures { IfOk result (λ answered. answered
        ≡ f.when_to (dump_view dump.now) (query_view query.entry.read.now)) }
{
    match check_query(alloc, dump.log.catalog(), query.read) {
        Ok(select) => selected_intervals(alloc, dump, &select),
        Err(Stop::Refused(refusal)) => Ok(Answered::Refused(refusal)),
        Err(Stop::NoMemory) => Err(NoMemory),
    }
}
