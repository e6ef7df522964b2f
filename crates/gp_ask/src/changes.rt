//! The rows that a statement or a commit changed.

ghost use Rattle.std.specs.Prelude.{◌≡◌, ◌++◌, ◌-◌, ◌<◌, ◌≤◌, Some, None, true, drop, IfOk, OnOk};
ghost use Rattle.std.specs.Option.{option_map};
ghost use Rattle.gp_base.specs.Identities.{same_identity};
ghost use Rattle.gp_algebra.specs.Statements.{target};
ghost use Rattle.gp_algebra.specs.Views.{statement_view};
ghost use Rattle.gp_compose.specs.Seen.{is_changed_by};
ghost use Rattle.gp_dump.specs.Views.{dump_view};
ghost use Rattle.gp_grammar.specs.Syntax as y;
ghost use Rattle.gp_log.specs.Contents.{entries};
ghost use Rattle.gp_log.specs.LogFacts.{tables_in};
ghost use Rattle.gp_machine.specs.Entries as m;
ghost use Rattle.gp_machine.specs.Questions.{is_known};
ghost use Rattle.gp_ask.specs.ChangeForms as f;
ghost use Rattle.gp_ask.specs.Changes as s;
ghost use Rattle.gp_ask.specs.Computed.{computed_answer};
ghost use Rattle.gp_ask.specs.Keyed as c;

use crate::answered::{Answered, Heading};
use gp_algebra::Stmt;
use gp_base::{
    Cell, Name, NoMemory, Row, RowId, Sequence, Stop, Text, sort_rows, text_of_pieces, write_id,
    write_row,
};
use gp_dump::Dump;
use gp_log::Log;
use gp_reenact::{changes_refusal, log_refusal, looked};
use gp_syntax::Point;
use gp_txn::assigned;
use gp_versions::Span;
use std::alloc::Global;

// ---- texts

/// A side of a change: a space and the row, or nothing if there is none.
pub(crate) fn side_text(alloc: Global, side: Option<&Row>) -> Result<Vec<u8>, NoMemory>
    ensures { IfOk result (λ text. text.items
        ≡ s.side_text (option_map (λ row. row.now) side.entry)) }
{
    match side {
        None => Ok(Vec::new(alloc)),
        Some(row) => {
            let mut text = text_of_pieces(alloc, &[b" "])?;
            write_row(alloc, row, &mut text)?;
            Ok(text)
        }
    }
}

/// The line of a change: the table, the identity, and the row before and after it.
fn change_line(
    alloc: Global,
    name: &Name,
    id: &RowId,
    before: Option<&Row>,
    after: Option<&Row>,
) -> Result<Text, NoMemory>
    ensures { IfOk result (λ text. text ≡ s.change_text name.now id.now
        (option_map (λ row. row.now) before.entry) (option_map (λ row. row.now) after.entry)) }
{
    let mut identity = Vec::new(alloc);
    write_id(alloc, id, &mut identity)?;
    let before = side_text(alloc, before)?;
    let after = side_text(alloc, after)?;
    let text = text_of_pieces(
        alloc,
        &[
            name.as_bytes(),
            b" ",
            &identity,
            b" :",
            &before,
            b" ->",
            &after,
        ],
    )?;
    Text::from_bytes(alloc, &text)
}

// ---- the rows of a statement

/// The identity of a row that has its identity and its mark behind its cells.
pub(crate) fn identity_of(row: &Row) -> Option<&RowId>
    ensures { option_map (λ id. id.now) result ≡ c.identity_of row.now }
{
    let cells = row.cells();
    match cells.get(cells.len().saturating_sub(2)) {
        Some(Cell::Id(id)) => Some(id),
        _ => None,
    }
}

/// A place as a number of 32 bits. One that is larger counts as running out of memory, which so many rows take.
pub(crate) fn numbered(place: usize) -> Result<u32, NoMemory>
    ensures { IfOk result (λ n. n ≡ place) }
{
    u32::try_from(place).ok().ok_or(NoMemory)
}

/// A row behind its identity and its place, of one that has its identity and its mark behind its cells.
fn keyed_row(alloc: Global, place: u32, row: &Row, id: &RowId) -> Result<Row, NoMemory>
    ensures { IfOk result (λ keyed. keyed ≡ c.keyed place row.now id.now) }
{
    let cells = row.cells();
    let count = cells.len().saturating_sub(2);
    let mut keyed = Row::with_capacity(alloc, count + 2)?;
    keyed.push(Cell::Id(id.clone()?))?;
    keyed.push(Cell::Int(i64::from(place)))?;
    for i in 0..count {
        keyed.push(cells[i].clone()?)?;
    }
    Ok(keyed)
}

/// Whether the statement changed a row of those by which one looks at it.
pub(crate) fn is_changed(t: u32, k: u32, stmt: &Stmt, id: &RowId) -> bool
    ensures { result ≡ is_changed_by t k (statement_view stmt.now) id.now }
{
    match stmt {
        Stmt::Insert { .. } | Stmt::InsertSelect { .. } => id.t() == t && id.k() == k,
        _ => true,
    }
}

/// Adds the row of this place, if the statement changed it.
fn push_keyed(
    alloc: Global,
    t: u32,
    k: u32,
    stmt: &Stmt,
    place: usize,
    row: &Row,
    keyed: &mut Vec<Row>,
) -> Result<(), NoMemory>
    ensures { OnOk result (keyed.new.items ≡ keyed.old.items
        ++ c.keyed_if t k (statement_view stmt.now) place row.now (c.identity_of row.now)) }
{
    if let Some(id) = identity_of(row) {
        if is_changed(t, k, stmt, id) {
            keyed.push(keyed_row(alloc, numbered(place)?, row, id)?)?;
        }
    }
    Ok(())
}

/// The rows that the statement changed, behind their identities and their places.
fn keyed_rows(
    alloc: Global,
    t: u32,
    k: u32,
    stmt: &Stmt,
    rows: &[Row],
) -> Result<Vec<Row>, NoMemory>
    ensures { IfOk result (λ keyed. keyed.items
        ≡ c.keyed_from t k (statement_view stmt.now) 0 rows.now) }
{
    let mut keyed = Vec::new(alloc);
    for (place, row) in rows.iter().enumerate() {
        push_keyed(alloc, t, k, stmt, place, row, &mut keyed)?;
    }
    Ok(keyed)
}

/// The identity that a row begins with.
fn key_of(row: &Row) -> Option<&RowId>
    ensures { option_map (λ id. id.now) result ≡ c.key_of row.now }
{
    match row.cells().get(0) {
        Some(Cell::Id(id)) => Some(id),
        _ => None,
    }
}

/// The cells of a row without its key.
pub(crate) fn own_cells(alloc: Global, row: &Row) -> Result<Row, NoMemory>
    ensures { IfOk result (λ copy. copy ≡ drop 2 row.now) }
{
    let cells = row.cells();
    let mut copy = Row::with_capacity(alloc, cells.len())?;
    for i in 2..cells.len() {
        copy.push(cells[i].clone()?)?;
    }
    Ok(copy)
}

/// The line of a row that the statement changed.
fn statement_line(
    alloc: Global,
    name: &Name,
    stmt: &Stmt,
    id: &RowId,
    row: &Row,
) -> Result<Text, NoMemory>
    requires fits { c.sets_are_simple (statement_view stmt.now) ≡ true }
    ensures { IfOk result (λ text. text ≡ s.change_text name.now id.now
        (f.before_of (statement_view stmt.now) row.now)
        (f.after_of (statement_view stmt.now) row.now)) }
{
    match stmt {
        Stmt::Update { sets, .. } => {
            let new = assigned(alloc, sets.as_slice(), row)?;
            change_line(alloc, name, id, Some(row), Some(&new))
        }
        Stmt::Delete { .. } => change_line(alloc, name, id, Some(row), None),
        _ => change_line(alloc, name, id, None, Some(row)),
    }
}

/// Adds the line of a row that the statement changed, which stands behind its key.
fn push_line(
    alloc: Global,
    name: &Name,
    stmt: &Stmt,
    row: &Row,
    lines: &mut Sequence<Text>,
) -> Result<(), NoMemory>
    requires fits { c.sets_are_simple (statement_view stmt.now) ≡ true }
    ensures { OnOk result (lines.new
        ≡ lines.old ++ c.keyed_lines name.now (statement_view stmt.now) row.now) }
{
    if let Some(id) = key_of(row) {
        let cells = own_cells(alloc, row)?;
        lines.push(statement_line(alloc, name, stmt, id, &cells)?)?;
    }
    Ok(())
}

/// The lines of the rows that the statement changed, by the rows by which one looks at it.
fn shown_lines(
    alloc: Global,
    name: &Name,
    t: u32,
    k: u32,
    stmt: &Stmt,
    rows: &[Row],
) -> Result<Sequence<Text>, NoMemory>
    requires fits { c.sets_are_simple (statement_view stmt.now) ≡ true }
    ensures { IfOk result (λ lines. lines
        ≡ c.shown_texts name.now t k (statement_view stmt.now) rows.now) }
{
    let mut keyed = keyed_rows(alloc, t, k, stmt, rows)?;
    sort_rows(&mut keyed)?;
    let mut lines = Sequence::new(alloc);
    for row in &keyed {
        push_line(alloc, name, stmt, row, &mut lines)?;
    }
    Ok(lines)
}

/// What a statement of the log changed in the table that it writes.
fn written_changes(
    alloc: Global,
    dump: &Dump,
    t: u32,
    k: u32,
    stmt: &Stmt,
    table: u32,
) -> Result<Answered, NoMemory>
    requires known { is_known t (dump_view dump.now).entries ≡ true }
    requires first { 0 < k }
    requires most { k ≤ m.statement_count t (dump_view dump.now).entries }
    requires here { m.statement_at t k (dump_view dump.now).entries ≡ Some (statement_view stmt.now) }
    requires target { target (statement_view stmt.now) ≡ Some table }
    ensures { IfOk result (λ answered. answered
        ≡ f.dump_changes (dump_view dump.now) t (k - 1) (statement_view stmt.now)) }
{
    match looked(alloc, &dump.log, dump.versions.as_slice(), t, k - 1, stmt) {
        Ok(rows) => {
            let name = &dump.log.catalog().table(table).name;
            let lines = shown_lines(alloc, name, t, k, stmt, &rows)?;
            Ok(Answered::Lines(Heading::Changes, lines))
        }
        Err(Stop::Refused(refusal)) => Ok(Answered::Refused(refusal)),
        Err(Stop::NoMemory) => Err(NoMemory),
    }
}

/// What a statement of the log changed. A SELECT changes nothing, and is not run.
fn known_changes(
    alloc: Global,
    dump: &Dump,
    t: u32,
    k: u32,
    stmt: &Stmt,
) -> Result<Answered, NoMemory>
    requires known { is_known t (dump_view dump.now).entries ≡ true }
    requires first { 0 < k }
    requires most { k ≤ m.statement_count t (dump_view dump.now).entries }
    requires here { m.statement_at t k (dump_view dump.now).entries ≡ Some (statement_view stmt.now) }
    ensures { IfOk result (λ answered. answered
        ≡ f.dump_changes (dump_view dump.now) t (k - 1) (statement_view stmt.now)) }
{
    match stmt.target() {
        Some(table) => written_changes(alloc, dump, t, k, stmt, table),
        None => Ok(Answered::Lines(Heading::Changes, Sequence::new(alloc))),
    }
}

/// What the statement of a number in a transaction changed.
fn statement_changes(alloc: Global, dump: &Dump, t: u32, k: u32) -> Result<Answered, NoMemory>
    requires known { is_known t (dump_view dump.now).entries ≡ true }
    requires first { 0 < k }
    requires most { k ≤ m.statement_count t (dump_view dump.now).entries }
    ensures { IfOk result (λ answered. answered ≡ f.if_any (f.dump_changes (dump_view dump.now) t (k - 1))
        (m.statement_at t k (dump_view dump.now).entries)) }
{
    match dump.log.statement(t, k) {
        Some(stmt) => known_changes(alloc, dump, t, k, stmt),
        None => Ok(Answered::Lines(Heading::Changes, Sequence::new(alloc))),
    }
}

/// The number of a transaction that the log has.
pub(crate) fn transaction_number(log: &Log, t: u64) -> u32
    requires { is_known t (entries log.now) ≡ true }
    ensures { result ≡ t }
{
    log.bounds();
    t as u32
}

/// The number of a statement that the transaction has.
fn statement_number(log: &Log, t: u32, k: u64) -> u32
    requires { k ≤ m.statement_count t (entries log.now) }
    ensures { result ≡ k }
{
    let _count = log.statement_count(t);
    k as u32
}

/// What a statement changed, whatever became of its transaction: each row that it inserted, updated or deleted, before and after it, in
/// the order of the identities. E20 if no transaction has the number, E22 if it has no such statement; then E25 and E26 of the statements
/// up to this one. A SELECT changes nothing. The number of rows is not limited.
pub fn changes_answer(alloc: Global, dump: &Dump, t: u64, k: u64) -> Result<Answered, NoMemory>
    ensures { IfOk result (λ answered. answered ≡ computed_answer (dump_view dump.now) (y.bare (y.changes t k))) }
{
    match changes_refusal(&dump.log, t, k) {
        Some(refusal) => Ok(Answered::Refused(refusal)),
        None => {
            let number = transaction_number(&dump.log, t);
            let statement = statement_number(&dump.log, number, k);
            statement_changes(alloc, dump, number, statement)
        }
    }
}

// ---- commits

/// Whether a span ends at a version.
pub(crate) fn ends_at(span: &Span, version: u32) -> bool
    ensures { result ≡ f.ends_at version span.now }
{
    match span.to {
        Some(to) => to == version,
        None => false,
    }
}

/// Whether two identities are one.
pub(crate) fn is_same_id(id: &RowId, other: &RowId) -> bool
    ensures { result ≡ same_identity id.now other.now }
{
    id == other
}

/// Whether a span goes on in another one at a version.
fn goes_on(span: &Span, next: Option<&Span>, version: u32) -> bool
    ensures { result ≡ f.goes_on version span.now (option_map (λ other. other.now) next.entry) }
{
    match next {
        Some(next) => next.from == version && is_same_id(&next.id, &span.id),
        None => false,
    }
}

/// The row before a span that begins at a version, by the span before it.
fn row_before<'a>(last: Option<&'a Span>, span: &Span, version: u32) -> Option<&'a Row>
    ensures { option_map (λ row. row.now) result
        ≡ f.row_before version (option_map (λ other. other.now) last.entry) span.now }
{
    match last {
        Some(last) => {
            if ends_at(last, version) && is_same_id(&last.id, &span.id) {
                Some(&last.row)
            } else {
                None
            }
        }
        None => None,
    }
}

/// Adds the lines of a span whose row a version changed.
fn push_span(
    alloc: Global,
    name: &Name,
    version: u32,
    last: Option<&Span>,
    span: &Span,
    next: Option<&Span>,
    lines: &mut Sequence<Text>,
) -> Result<(), NoMemory>
    ensures { OnOk result (lines.new ≡ lines.old
        ++ f.span_texts name.now version (option_map (λ other. other.now) last.entry) span.now
        (option_map (λ other. other.now) next.entry)) }
{
    if span.from == version {
        let before = row_before(last, span, version);
        lines.push(change_line(alloc, name, &span.id, before, Some(&span.row))?)?;
    }
    if ends_at(span, version) && !goes_on(span, next, version) {
        lines.push(change_line(alloc, name, &span.id, Some(&span.row), None)?)?;
    }
    Ok(())
}

/// Adds the lines of the rows of a table that a version changed.
fn push_table(
    alloc: Global,
    name: &Name,
    version: u32,
    spans: &[Span],
    lines: &mut Sequence<Text>,
) -> Result<(), NoMemory>
    ensures { OnOk result (lines.new
        ≡ lines.old ++ f.spans_texts name.now version None spans.now) }
{
    let mut last = None;
    for (i, span) in spans.iter().enumerate() {
        push_span(alloc, name, version, last, span, spans.get(i + 1), lines)?;
        last = Some(span);
    }
    Ok(())
}

/// The lines of the rows that a version changed.
fn commit_lines(alloc: Global, dump: &Dump, version: u32) -> Result<Sequence<Text>, NoMemory>
    ensures { IfOk result (λ lines. lines ≡ f.tables_texts version
        (tables_in (dump_view dump.now).entries) (dump_view dump.now).tables) }
{
    dump.log.bounds();
    let mut lines = Sequence::new(alloc);
    for (place, versions) in dump.versions.as_slice().iter().enumerate() {
        let name = &dump.log.catalog().table(place as u32).name;
        push_table(alloc, name, version, versions.as_slice(), &mut lines)?;
    }
    Ok(lines)
}

/// What the commit of a transaction changed, if it made a version.
fn made_changes(alloc: Global, dump: &Dump, t: u32) -> Result<Answered, NoMemory>
    ensures { IfOk result (λ answered. answered ≡ f.version_changes (dump_view dump.now)
        (m.version_of t (dump_view dump.now).entries)) }
{
    match dump.log.version_of(t) {
        Some(version) => Ok(Answered::Lines(Heading::Changes, commit_lines(alloc, dump, version)?)),
        None => Ok(Answered::Lines(Heading::Changes, Sequence::new(alloc))),
    }
}

/// What the commit of a transaction changed: each row that it inserted, updated or deleted, in the version before and in the version that it
/// made, by table and then by identity. E20 if no transaction has the number, E21 if it did not commit.
pub fn commit_changes_answer(alloc: Global, dump: &Dump, t: u64) -> Result<Answered, NoMemory>
    ensures { IfOk result (λ answered. answered ≡ f.commit_changes_to (dump_view dump.now) t) }
{
    match log_refusal(&dump.log, Point::Commit { t }) {
        Some(refusal) => Ok(Answered::Refused(refusal)),
        None => made_changes(alloc, dump, transaction_number(&dump.log, t)),
    }
}
