//! What became of rows.

ghost use Rattle.std.specs.Prelude.{◌≡◌, ◌∷◌, ◌<◌, ◌≤◌, ◌&&◌, ◌||◌, [], None, Some, true, IfOk, OnOk, map};
ghost use Rattle.std.specs.BTreeMap.{get};
ghost use Rattle.std.specs.List.{list_any};
ghost use Rattle.std.specs.Option.{is_some, option_map};
ghost use Rattle.gp_base.specs.Identities.{Identity, identity_cmp, same_identity};
ghost use Rattle.gp_algebra.specs.Fitting.{select_fits};
ghost use Rattle.gp_algebra.specs.Views.{branch_view, select_view, statement_view};
ghost use Rattle.gp_check.specs.Valid.{condition_is_valid};
ghost use Rattle.gp_compose.specs.Seen.{is_changed_by};
ghost use Rattle.gp_dump.specs.Views.{dump_view};
ghost use Rattle.gp_log.specs.LogFacts.{tables_in};
ghost use Rattle.gp_machine.specs.Entries as m;
ghost use Rattle.gp_machine.specs.Questions.{given, is_known};
ghost use Rattle.gp_reenact.specs.LookingForms.{Looks, system_row};
ghost use Rattle.gp_reenact.specs.Reenacting.{spans_of};
ghost use Rattle.gp_syntax.specs.Views.{condition_view, query_view};
ghost use Rattle.gp_ask.specs.Asking.{table_spans};
ghost use Rattle.gp_ask.specs.ChangeForms.{after_of, before_of};
ghost use Rattle.gp_ask.specs.HistoryForms as f;
ghost use Rattle.gp_ask.specs.Keyed.{cells_of, identity_of, sets_are_simple};
ghost use Rattle.gp_ask.specs.Looked as l;
ghost use Rattle.gp_ask.specs.RowHistories as s;
ghost use Rattle.gp_ask.specs.RowLines.{few, keyed_from};

use crate::answered::{Answered, Heading};
use crate::changes::{identity_of, is_changed, side_text};
use crate::copying::copy_term;
use crate::looking::{WritingStmt, rows_of, stop_of, writing};
use crate::narrowing::{are_by_identity, narrowed};
use crate::row_lines::{listed, push_line};
use crate::row_versions::spans_of;
use gp_algebra::{Branch, Select, Stmt};
use gp_base::{
    MAX_ANSWER_ROWS, Name, NoMemory, Refusal, Row, RowId, Sequence, Stop, text_of_pieces, write_id,
};
use gp_check::check_query;
use gp_dump::Dump;
use gp_expr::truth;
use gp_reenact::looked;
use gp_syntax::{Block, Item, Items, Query, Term};
use gp_txn::assigned;
use gp_versions::{Span, VersionTable};
use std::alloc::Global;
use std::collections::BTreeMap;

// ---- the rows that are asked for

/// SELECT * FROM the table WHERE the condition.
fn all_of(alloc: Global, table: &Name, cond: &Option<Term>) -> Result<Query, NoMemory>
    ensures { IfOk result (λ query. query_view query
        ≡ s.all_of table.now (condition_view cond.now)) }
{
    let cond = match cond {
        None => None,
        Some(cond) => Some(copy_term(alloc, cond)?),
    };
    let name = table.clone()?;
    let mut from = Sequence::new(alloc);
    from.push(Item {
        table: table.clone()?,
        name,
    })?;
    let mut blocks = Sequence::new(alloc);
    blocks.push(Block {
        items: Items::Star,
        from,
        cond,
    })?;
    Ok(Query { blocks })
}

/// Whether the condition of a branch is true of a row.
fn branch_meets(branch: &Branch, row: &Row) -> bool
    requires { f.is_simple_branch (branch_view branch.now) ≡ true }
    ensures { result ≡ f.branch_meets (branch_view branch.now) row.now }
{
    match &branch.cond {
        Some(cond) => truth(cond, row).holds(),
        None => true,
    }
}

/// Whether the condition of a query is true of a row.
fn meets(select: &Select, row: &Row) -> bool
    requires { f.is_simple_select (select_view select.now) ≡ true }
    ensures { result ≡ s.meets (select_view select.now) row.now }
{
    for branch in select.branches.as_slice() {
        if !branch_meets(branch, row) {
            return false;
        }
    }
    true
}

/// Adds an identity.
fn note(asked: &mut BTreeMap<RowId, bool>, id: &RowId) -> Result<(), NoMemory>
    ensures { OnOk result ((other : Identity) → is_some (get identity_cmp asked.new other)
        ≡ (is_some (get identity_cmp asked.old other) || same_identity id.now other)) }
{
    asked.insert(id.clone()?, true)?;
    Ok(())
}

/// Adds the identity of a span, if its row is asked for.
fn note_span(
    asked: &mut BTreeMap<RowId, bool>,
    select: &Select,
    span: &Span,
) -> Result<(), NoMemory>
    requires { f.is_simple_select (select_view select.now) ≡ true }
    ensures { OnOk result ((id : Identity) → is_some (get identity_cmp asked.new id)
        ≡ (is_some (get identity_cmp asked.old id) || f.span_asks (select_view select.now) id span.now)) }
{
    if !meets(select, &span.row) {
        return Ok(());
    }
    note(asked, &span.id)
}

/// The identities of the spans whose rows are asked for.
fn asked_rows(
    alloc: Global,
    select: &Select,
    spans: &[Span],
) -> Result<BTreeMap<RowId, bool>, NoMemory>
    requires { f.is_simple_select (select_view select.now) ≡ true }
    ensures { IfOk result (λ asked. (id : Identity) → is_some (get identity_cmp asked id)
        ≡ list_any (f.span_asks (select_view select.now) id) spans.now) }
{
    let mut asked = BTreeMap::new(alloc);
    for span in spans {
        note_span(&mut asked, select, span)?;
    }
    Ok(asked)
}

// ---- lines

/// A statement of a transaction that made a version.
#[derive(Clone, Copy)]
pub(crate) struct Changing<'a> {
    /// The version.
    pub version: u32,
    /// The statement.
    pub own: WritingStmt<'a>,
    /// The identities that are asked for.
    pub asked: &'a BTreeMap<RowId, bool>,
}

/// The line of a change.
fn history_text(
    alloc: Global,
    changing: &Changing<'_>,
    id: &RowId,
    before: Option<&Row>,
    after: Option<&Row>,
) -> Result<Vec<u8>, NoMemory>
    ensures { IfOk result (λ text. text.items
        ≡ s.history_text changing.now.version changing.now.own.t changing.now.own.k (
          id.now,
          (option_map (λ row. row.now) before.entry, option_map (λ row. row.now) after.entry),
        )) }
{
    let mut identity = Vec::new(alloc);
    write_id(alloc, id, &mut identity)?;
    let version = changing.version.to_string(alloc)?;
    let t = changing.own.t.to_string(alloc)?;
    let k = changing.own.k.to_string(alloc)?;
    let before = side_text(alloc, before)?;
    let after = side_text(alloc, after)?;
    text_of_pieces(
        alloc,
        &[
            &identity,
            b" at ",
            version.as_bytes(),
            b" by ",
            t.as_bytes(),
            b".",
            k.as_bytes(),
            b" :",
            &before,
            b" ->",
            &after,
        ],
    )
}

/// The cells of a row that has its identity and its mark behind them.
fn cells_of(alloc: Global, row: &Row) -> Result<Row, NoMemory>
    ensures { IfOk result (λ copy. copy ≡ cells_of row.now) }
{
    let cells = row.cells();
    let count = cells.len().saturating_sub(2);
    let mut copy = Row::with_capacity(alloc, count)?;
    for i in 0..count {
        copy.push(cells[i].clone()?)?;
    }
    Ok(copy)
}

/// The line of a row that a statement changed, of its cells by which one looks at it.
fn change_text(
    alloc: Global,
    changing: &Changing<'_>,
    id: &RowId,
    row: &Row,
) -> Result<Vec<u8>, NoMemory>
    requires fits { sets_are_simple (statement_view changing.now.own.stmt.now) ≡ true }
    ensures { IfOk result (λ text. text.items
        ≡ s.history_text changing.now.version changing.now.own.t changing.now.own.k (
          id.now,
          (
            before_of (statement_view changing.now.own.stmt.now) row.now,
            after_of (statement_view changing.now.own.stmt.now) row.now,
          ),
        )) }
{
    match changing.own.stmt {
        Stmt::Update { sets, .. } => {
            let new = assigned(alloc, sets.as_slice(), row)?;
            history_text(alloc, changing, id, Some(row), Some(&new))
        }
        Stmt::Delete { .. } => history_text(alloc, changing, id, Some(row), None),
        _ => history_text(alloc, changing, id, None, Some(row)),
    }
}

/// Adds the line of a row that the statement changed. More than an answer has rows are not kept: one more tells that they are too many.
fn push_change(
    alloc: Global,
    changing: &Changing<'_>,
    id: &RowId,
    row: &Row,
    lines: &mut Vec<Row>,
) -> Result<(), NoMemory>
    requires fits { sets_are_simple (statement_view changing.now.own.stmt.now) ≡ true }
    ensures { OnOk result (f.Pushes (f.change_line changing.now.version changing.now.own.t
        changing.now.own.k (statement_view changing.now.own.stmt.now) changing.now.own.table
        id.now (cells_of row.now) ∷ []) lines.old.items lines.new.items) }
{
    if lines.len() > MAX_ANSWER_ROWS {
        return Ok(());
    }
    let cells = cells_of(alloc, row)?;
    let text = change_text(alloc, changing, id, &cells)?;
    push_line(alloc, changing.own.table, id, &text, lines)
}

/// Whether a statement changed the row of an identity that is asked for.
fn is_told(changing: &Changing<'_>, id: &RowId) -> bool
    ensures { result ≡ (is_changed_by changing.now.own.t changing.now.own.k
        (statement_view changing.now.own.stmt.now) id.now
        && is_some (get identity_cmp changing.now.asked.now id.now)) }
{
    is_changed(changing.own.t, changing.own.k, changing.own.stmt, id)
        && changing.asked.contains_key(id)
}

/// Adds the line of a row by which one looks at the statement, if it is told.
fn push_told(
    alloc: Global,
    changing: &Changing<'_>,
    id: &RowId,
    row: &Row,
    lines: &mut Vec<Row>,
) -> Result<(), NoMemory>
    requires fits { sets_are_simple (statement_view changing.now.own.stmt.now) ≡ true }
    ensures { OnOk result (f.Pushes (f.row_change
        (λ id. is_some (get identity_cmp changing.now.asked.now id)) changing.now.version
        changing.now.own.t changing.now.own.k (statement_view changing.now.own.stmt.now)
        changing.now.own.table row.now (Some id.now)) lines.old.items lines.new.items) }
{
    if !is_told(changing, id) {
        return Ok(());
    }
    push_change(alloc, changing, id, row, lines)
}

/// Adds the line of a row by which one looks at the statement, if it has an identity, and is told.
fn push_row(
    alloc: Global,
    changing: &Changing<'_>,
    row: &Row,
    lines: &mut Vec<Row>,
) -> Result<(), NoMemory>
    requires fits { sets_are_simple (statement_view changing.now.own.stmt.now) ≡ true }
    ensures { OnOk result (f.Pushes (f.row_change
        (λ id. is_some (get identity_cmp changing.now.asked.now id)) changing.now.version
        changing.now.own.t changing.now.own.k (statement_view changing.now.own.stmt.now)
        changing.now.own.table row.now (identity_of row.now)) lines.old.items lines.new.items) }
{
    match identity_of(row) {
        Some(id) => push_told(alloc, changing, id, row, lines),
        None => Ok(()),
    }
}

/// Adds the lines of the rows by which one looks at a statement.
fn push_rows(
    alloc: Global,
    changing: &Changing<'_>,
    rows: &[Row],
    lines: &mut Vec<Row>,
) -> Result<(), NoMemory>
    requires fits { sets_are_simple (statement_view changing.now.own.stmt.now) ≡ true }
    ensures { OnOk result (f.Pushes (f.rows_changes
        (λ id. is_some (get identity_cmp changing.now.asked.now id)) changing.now.version
        changing.now.own.t changing.now.own.k (statement_view changing.now.own.stmt.now)
        changing.now.own.table rows.now) lines.old.items lines.new.items) }
{
    for row in rows {
        push_row(alloc, changing, row, lines)?;
    }
    Ok(())
}

/// The rows by which one looks at a statement that writes the table, over the row versions of the identities that are asked for alone where
/// these tell all of their rows, and over the whole dump else: of such identities, the same rows. A limit that fewer rows pass would say
/// nothing of all rows.
fn told_rows(
    alloc: Global,
    dump: &Dump,
    narrow: &[VersionTable],
    changing: &Changing<'_>,
) -> Result<Vec<Row>, NoMemory>
    requires narrow { spans_of narrow.now ≡ f.narrowed (table_spans (dump_view dump.now).tables)
        changing.now.own.table (λ id. is_some (get identity_cmp changing.now.asked.now id)) }
    requires logged { l.IsWriting (dump_view dump.now).entries changing.now.own }
    requires runs { l.stop_of (dump_view dump.now) changing.now.own.t ≡ None }
    ensures { IfOk result (λ rows. f.rows_changes
        (λ id. is_some (get identity_cmp changing.now.asked.now id)) changing.now.version
        changing.now.own.t changing.now.own.k (statement_view changing.now.own.stmt.now)
        changing.now.own.table rows.items
        ≡ f.rows_changes (λ id. is_some (get identity_cmp changing.now.asked.now id))
        changing.now.version changing.now.own.t changing.now.own.k
        (statement_view changing.now.own.stmt.now) changing.now.own.table
        (map system_row (l.rows_of (dump_view dump.now) changing.now.own.t changing.now.own.k
        (statement_view changing.now.own.stmt.now)))) }
{
    let statement = &changing.own;
    if !are_by_identity(&dump.log, statement.t, statement.k, statement.table) {
        return rows_of(alloc, dump, statement);
    }
    match looked(
        alloc,
        &dump.log,
        narrow,
        statement.t,
        statement.k - 1,
        statement.stmt,
    ) {
        Ok(rows) => Ok(rows),
        Err(Stop::Refused(_)) => rows_of(alloc, dump, statement),
        Err(Stop::NoMemory) => Err(NoMemory),
    }
}

/// Adds the lines of a statement that writes the table.
fn push_writing(
    alloc: Global,
    dump: &Dump,
    narrow: &[VersionTable],
    changing: &Changing<'_>,
    lines: &mut Vec<Row>,
) -> Result<(), NoMemory>
    requires narrow { spans_of narrow.now ≡ f.narrowed (table_spans (dump_view dump.now).tables)
        changing.now.own.table (λ id. is_some (get identity_cmp changing.now.asked.now id)) }
    requires logged { l.IsWriting (dump_view dump.now).entries changing.now.own }
    requires runs { l.stop_of (dump_view dump.now) changing.now.own.t ≡ None }
    ensures { OnOk result (f.Pushes (f.statement_changes (dump_view dump.now) changing.now.own.table
        (λ id. is_some (get identity_cmp changing.now.asked.now id)) changing.now.version
        changing.now.own.t changing.now.own.k (Some (statement_view changing.now.own.stmt.now)))
        lines.old.items lines.new.items) }
{
    let rows = told_rows(alloc, dump, narrow, changing)?;
    push_rows(alloc, changing, &rows, lines)
}

/// What is asked for: the rows of a table with some identities.
#[derive(Clone, Copy)]
pub(crate) struct Rows<'a> {
    /// The table.
    pub table: u32,
    /// The identities.
    pub asked: &'a BTreeMap<RowId, bool>,
    /// The row versions of these rows, and no others.
    pub narrow: &'a [VersionTable],
}

/// Adds the lines of a statement that writes a table, if this is asked for.
fn push_own(
    alloc: Global,
    dump: &Dump,
    rows: &Rows<'_>,
    version: u32,
    statement: WritingStmt<'_>,
    lines: &mut Vec<Row>,
) -> Result<(), NoMemory>
    requires narrow { spans_of rows.now.narrow.now ≡ f.narrowed (table_spans (dump_view dump.now).tables)
        rows.now.table (λ id. is_some (get identity_cmp rows.now.asked.now id)) }
    requires logged { l.IsWriting (dump_view dump.now).entries statement }
    requires runs { l.stop_of (dump_view dump.now) statement.t ≡ None }
    ensures { OnOk result (f.Pushes (f.statement_changes (dump_view dump.now) rows.now.table
        (λ id. is_some (get identity_cmp rows.now.asked.now id)) version statement.entry.t
        statement.entry.k (Some (statement_view statement.entry.stmt.now))) lines.old.items lines.new.items) }
{
    if statement.table != rows.table {
        return Ok(());
    }
    let changing = Changing {
        version,
        own: statement,
        asked: rows.asked,
    };
    push_writing(alloc, dump, rows.narrow, &changing, lines)
}

/// Adds the lines of statement k of the transaction that made a version, if it writes the table. A SELECT is not run, nor is a statement
/// that writes another table.
fn push_statement(
    alloc: Global,
    dump: &Dump,
    rows: &Rows<'_>,
    version: u32,
    t: u32,
    k: u32,
    lines: &mut Vec<Row>,
) -> Result<(), NoMemory>
    requires narrow { spans_of rows.now.narrow.now ≡ f.narrowed (table_spans (dump_view dump.now).tables)
        rows.now.table (λ id. is_some (get identity_cmp rows.now.asked.now id)) }
    requires known { is_known t (dump_view dump.now).entries ≡ true }
    requires first { 0 < k }
    requires most { k ≤ m.statement_count t (dump_view dump.now).entries }
    requires runs { l.stop_of (dump_view dump.now) t ≡ None }
    ensures { OnOk result (f.Pushes (f.statement_changes (dump_view dump.now) rows.now.table
        (λ id. is_some (get identity_cmp rows.now.asked.now id)) version t k
        (m.statement_at t k (dump_view dump.now).entries)) lines.old.items lines.new.items) }
{
    match writing(&dump.log, t, k) {
        Some(statement) => push_own(alloc, dump, rows, version, statement, lines),
        None => Ok(()),
    }
}

/// Adds the lines of a transaction that made a version, and that does not stop.
fn push_transaction(
    alloc: Global,
    dump: &Dump,
    rows: &Rows<'_>,
    version: u32,
    t: u32,
    lines: &mut Vec<Row>,
) -> Result<(), NoMemory>
    requires narrow { spans_of rows.now.narrow.now ≡ f.narrowed (table_spans (dump_view dump.now).tables)
        rows.now.table (λ id. is_some (get identity_cmp rows.now.asked.now id)) }
    requires known { is_known t (dump_view dump.now).entries ≡ true }
    requires runs { l.stop_of (dump_view dump.now) t ≡ None }
    ensures { OnOk result (f.Pushes (f.first_changes (dump_view dump.now) rows.now.table
        (λ id. is_some (get identity_cmp rows.now.asked.now id)) version t
        (m.statement_count t (dump_view dump.now).entries)) lines.old.items lines.new.items) }
{
    for before in 0..dump.log.statement_count(t) {
        push_statement(alloc, dump, rows, version, t, before + 1, lines)?;
    }
    Ok(())
}

/// The lines of all transactions that made versions, in the order of these, or the first stop of one of them.
fn history_lines(alloc: Global, dump: &Dump, rows: &Rows<'_>) -> Result<Vec<Row>, Stop>
    requires narrow { spans_of rows.now.narrow.now ≡ f.narrowed (table_spans (dump_view dump.now).tables)
        rows.now.table (λ id. is_some (get identity_cmp rows.now.asked.now id)) }
    ensures { Looks (λ lines. lines.items) result
        (given (f.stop_upto (dump_view dump.now) (m.versions_in (dump_view dump.now).entries))
        (keyed_from 0 (few (f.versions_changes (dump_view dump.now) rows.now.table
        (λ id. is_some (get identity_cmp rows.now.asked.now id))
        (m.versions_in (dump_view dump.now).entries))))) }
{
    dump.log.bounds();
    let mut lines = Vec::new(alloc);
    for before in 0..dump.log.commits() {
        let t = dump.log.maker(before + 1);
        match stop_of(alloc, dump, t)? {
            Some(refusal) => return Err(Stop::Refused(refusal)),
            None => push_transaction(alloc, dump, rows, before + 1, t, &mut lines)?,
        }
    }
    Ok(lines)
}

/// The history of the rows of a table that a checked query asks for.
fn selected_history(
    alloc: Global,
    dump: &Dump,
    table: u32,
    select: &Select,
) -> Result<Answered, NoMemory>
    requires fits { select_fits (tables_in (dump_view dump.now).entries) (select_view select.now)
        ≡ true }
    ensures { IfOk result (λ answered. answered
        ≡ f.dump_history (dump_view dump.now) table (select_view select.now)) }
{
    let asked = asked_rows(alloc, select, spans_of(dump, table))?;
    let narrow = narrowed(alloc, dump.versions.as_slice(), table, &asked)?;
    let rows = Rows {
        table,
        asked: &asked,
        narrow: &narrow,
    };
    match history_lines(alloc, dump, &rows) {
        Ok(lines) => listed(alloc, Heading::History, lines),
        Err(Stop::Refused(refusal)) => Ok(Answered::Refused(refusal)),
        Err(Stop::NoMemory) => Err(NoMemory),
    }
}

/// What became of the rows of a table: of each identity of which some row version meets the condition, if there is one, each change by a
/// statement of a transaction that committed, with the version, the transaction and the statement, and the row before and after it. By
/// identity, and of each identity in the order of versions and statements. Refused first by the check of the table and the condition, as
/// of SELECT * FROM the table WHERE the condition (E04 to E07); then by E25 and E26 of the transactions that committed, in the order of
/// their versions; then by more than [`MAX_ANSWER_ROWS`] lines (E27).
///
/// One run for each such transaction, up to its last INSERT, and one up to each statement that writes the table: over the rows that are
/// asked for alone, unless the transaction has inserted what a query gives into the table.
pub fn history_answer(
    alloc: Global,
    dump: &Dump,
    table: &Name,
    cond: &Option<Term>,
) -> Result<Answered, NoMemory>
    requires cond { condition_is_valid (condition_view cond.now) ≡ true }
    ensures { IfOk result (λ answered. answered
        ≡ f.history_to (dump_view dump.now) table.now (condition_view cond.now)) }
{
    let query = all_of(alloc, table, cond)?;
    match check_query(alloc, dump.log.catalog(), &query) {
        Ok(select) => match dump.log.catalog().find(table) {
            Some(place) => selected_history(alloc, dump, place, &select),
            None => Ok(Answered::Refused(Refusal::E04 {
                table: table.clone()?,
            })),
        },
        Err(Stop::Refused(refusal)) => Ok(Answered::Refused(refusal)),
        Err(Stop::NoMemory) => Err(NoMemory),
    }
}
