//! Changed logs: statements of transactions that committed are dropped, replaced and added, one change after another.

ghost use Rattle.std.specs.Prelude.{◌≡◌, ◌<◌, ◌≤◌, ◌+◌, ◌∷◌, [], ℕ, true, IfOk, OnOk, Ok, filter, length, map, suc, take};
ghost use Rattle.gp_algebra.specs.Views.{statement_view};
ghost use Rattle.gp_check.specs.Checking.{checked};
ghost use Rattle.gp_check.specs.Valid.{changes_are_valid, tables_are_valid};
ghost use Rattle.gp_check.specs.Views.{Checks};
ghost use Rattle.gp_grammar.specs.Laws.{has_statement, have_statements};
ghost use Rattle.gp_grammar.specs.Syntax as y;
ghost use Rattle.gp_grammar.specs.Syntax.{is_statement};
ghost use Rattle.gp_machine.specs.Entries as m;
ghost use Rattle.gp_machine.specs.Questions.{statement_refusal, transaction_refusal};
ghost use Rattle.gp_syntax.specs.Views.{change_view, changes_view, command_view};
ghost use Rattle.gp_log.specs.Contents.{entries, tables};
ghost use Rattle.gp_log.specs.Finding.{is_own};
ghost use Rattle.gp_log.specs.Parameters.{parameters};
ghost use Rattle.gp_log.specs.LogFacts.{tables_in};
ghost use Rattle.gp_log.specs.Logs.{entry_view, log_view, what_view};
ghost use Rattle.gp_whatif.specs.Changed as c;
ghost use Rattle.gp_whatif.specs.Changed.{dropped_command, dropped_of, dropped_statement, is_step_of, spread, steps_refusal, tables_before, with_added, with_other};
ghost use Rattle.gp_whatif.specs.Changing.{Changes, IsLastStep, IsRefused, Numbers, SameStep, edited, is_last, step_of};
ghost use Rattle.gp_whatif.specs.Remaking as r;

use crate::entries::{copied, copy_run, spread};
use gp_algebra::{Branch, Select, Stmt};
use gp_base::{Catalog, Cell, Limit, Name, NoMemory, Refusal, Sequence, Stop};
use gp_check::check;
use gp_expr::Expr;
use gp_grammar::MAX_CHANGES;
use gp_log::{Entry, Log, MAX_STEPS, What, add_created, is_own};
use gp_syntax::{Block, Command, Item, Items, LogChange, Query, Term};
use std::alloc::Global;
use std::rc::Rc;

// ---- refusals by the log

/// The transaction of this number, which has to be one that committed.
fn committed(log: &Log, t: u64) -> Result<u32, Refusal>
    ensures refusal { IsRefused result (transaction_refusal t (entries log.now)) }
    ensures same { IfOk result (λ number. number ≡ t) }
{
    if t == 0 || t > u64::from(log.transactions()) {
        return Err(Refusal::E20 { t });
    }
    let number = t as u32;
    match log.version_of(number) {
        Some(_) => Ok(number),
        None => Err(Refusal::E21 {
            t,
            fate: log.fate(number),
        }),
    }
}

/// The statement of this number, which the transaction has to have.
fn numbered(log: &Log, t: u32, k: u64) -> Result<u32, Refusal>
    ensures refusal { IsRefused result (statement_refusal t k (entries log.now)) }
    ensures same { IfOk result (λ number. number ≡ k) }
    ensures first { IfOk result (λ number. 0 < number) }
    ensures most { IfOk result (λ number. number ≤ m.statement_count t (entries log.now)) }
{
    let count = u64::from(log.statement_count(t));
    if k == 0 || k > count {
        return Err(Refusal::E22 {
            t: u64::from(t),
            count,
        });
    }
    Ok(k as u32)
}

/// Stops where the transaction has as many statements as it may have.
fn check_steps(log: &Log, t: u32) -> Result<(), Refusal>
    ensures refusal { IsRefused result (steps_refusal parameters (entries log.now) t) }
    ensures few { OnOk result (m.statement_count t (entries log.now) < MAX_STEPS) }
{
    if log.statement_count(t) >= MAX_STEPS {
        return Err(Refusal::E14 {
            limit: Limit::Steps,
        });
    }
    Ok(())
}

// ---- places

/// Whether an entry is the BEGIN or a statement of a transaction.
fn is_step(entry: &Entry, t: u32) -> bool
    ensures { result ≡ is_step_of t (entry_view entry.now) }
{
    match entry.what {
        What::Begin { .. } | What::Statement { .. } => entry.t == t,
        _ => false,
    }
}

/// The place of statement k of a transaction.
fn place_of(log: &Log, t: u32, k: u32) -> u32
    requires first { 0 < k }
    requires most { k ≤ m.statement_count t (entries log.now) }
    ensures within { result ≤ length log.now.entries }
    ensures tables { tables_before t k (entries log.now)
        ≡ tables_in (log_view (take result log.now.entries)) }
{
    for place in 0..log.len() {
        if is_own(log.entry(place), t, k) {
            return place;
        }
    }
    0
}

/// The tables created before a place of the log.
fn tables_upto(alloc: Global, log: &Log, place: u32) -> Result<Catalog, NoMemory>
    requires { place ≤ length log.now.entries }
    ensures { IfOk result (λ catalog. catalog ≡ tables_in (log_view (take place log.now.entries))) }
{
    log.bounds();
    let mut catalog = Catalog::new(alloc);
    for before in 0..place {
        add_created(&mut catalog, &log.entry(before).what)?;
    }
    Ok(catalog)
}

// ---- a statement that is dropped

/// SELECT NULL FROM a table.
fn nothing_from(alloc: Global, table: &Name) -> Result<Command, NoMemory>
    ensures { IfOk result (λ command. command_view command ≡ c.nothing_from table.now) }
{
    let mut items = Sequence::new(alloc);
    items.push(Term::Null)?;
    let mut from = Sequence::new(alloc);
    let name = table.clone()?;
    from.push(Item {
        table: table.clone()?,
        name,
    })?;
    let mut blocks = Sequence::new(alloc);
    blocks.push(Block {
        items: Items::List(items),
        from,
        cond: None,
    })?;
    Ok(Command::Select {
        query: Query { blocks },
    })
}

/// `nothing_from` as a checked statement.
fn nothing_at(alloc: Global, table: u32) -> Result<Stmt, NoMemory>
    ensures { IfOk result (λ stmt. statement_view stmt ≡ c.nothing_at table) }
{
    let mut from = Sequence::new(alloc);
    from.push(table)?;
    let mut items = Sequence::new(alloc);
    items.push(Expr::Const(Cell::Null))?;
    let mut branches = Sequence::new(alloc);
    branches.push(Branch {
        from,
        cond: None,
        items,
    })?;
    Ok(Stmt::Read {
        select: Select { branches },
    })
}

/// What stands in the place of a command that is dropped.
fn dropped_command(alloc: Global, command: &Rc<Command>) -> Result<Rc<Command>, NoMemory>
    ensures { IfOk result (λ copy. command_view copy.value
        ≡ dropped_command (command_view command.now.value)) }
{
    match command.as_ref() {
        Command::Insert { table, .. }
        | Command::InsertSelect { table, .. }
        | Command::Update { table, .. }
        | Command::Delete { table, .. } => Ok(Rc::new(alloc, nothing_from(alloc, table)?)?),
        _ => Ok(command.clone()?),
    }
}

/// What stands in the place of a statement that is dropped.
fn dropped_stmt(alloc: Global, stmt: &Rc<Stmt>) -> Result<Rc<Stmt>, NoMemory>
    ensures { IfOk result (λ copy. statement_view copy.value
        ≡ dropped_statement (statement_view stmt.now.value)) }
{
    match stmt.as_ref() {
        Stmt::Insert { table, .. }
        | Stmt::InsertSelect { table, .. }
        | Stmt::Update { table, .. }
        | Stmt::Delete { table, .. } => Ok(Rc::new(alloc, nothing_at(alloc, *table)?)?),
        Stmt::Read { .. } => Ok(stmt.clone()?),
    }
}

// ---- the entries of the changed log

/// The entry of a statement in the place of another.
fn put(entry: &Entry, what: What) -> Entry
    ensures line { result.line ≡ entry.now.line }
    ensures session { result.session ≡ entry.now.session }
    ensures t { result.t ≡ entry.now.t }
    ensures what { result.what ≡ what }
{
    Entry {
        line: entry.line,
        session: entry.session,
        t: entry.t,
        what,
    }
}

/// A statement that is dropped.
fn dropped_run(
    alloc: Global,
    k: u32,
    command: &Rc<Command>,
    stmt: &Rc<Stmt>,
) -> Result<What, NoMemory>
    ensures view { IfOk result (λ copy. (line session t : ℕ) → what_view line session t copy
        ≡ m.Ran line session (dropped_command (command_view command.now.value)) t
        (dropped_statement (statement_view stmt.now.value))) }
    ensures step { IfOk result (λ copy. step_of copy ≡ Numbers k) }
{
    let command = dropped_command(alloc, command)?;
    let stmt = dropped_stmt(alloc, stmt)?;
    Ok(What::Statement { k, command, stmt })
}

/// A copy of an entry. A statement k of the transaction is dropped.
fn copy_dropped(alloc: Global, entry: &Entry, t: u32, k: u32) -> Result<Entry, NoMemory>
    ensures view { IfOk result (λ copy. entry_view copy
        ≡ edited (is_own t k entry.now) dropped_command dropped_statement (entry_view entry.now)) }
    ensures same { IfOk result (λ copy. SameStep copy entry.now) }
{
    match &entry.what {
        What::Statement {
            k: number,
            command,
            stmt,
        } if entry.t == t && *number == k => {
            let what = dropped_run(alloc, *number, command, stmt)?;
            Ok(put(entry, what))
        }
        _ => copied(entry),
    }
}

/// A copy of an entry. Every statement of the transaction is dropped.
fn copy_all_dropped(alloc: Global, entry: &Entry, t: u32) -> Result<Entry, NoMemory>
    ensures view { IfOk result (λ copy. entry_view copy ≡ dropped_of t (entry_view entry.now)) }
    ensures same { IfOk result (λ copy. SameStep copy entry.now) }
{
    match &entry.what {
        What::Statement { k, command, stmt } if entry.t == t => {
            let what = dropped_run(alloc, *k, command, stmt)?;
            Ok(put(entry, what))
        }
        _ => copied(entry),
    }
}

/// A copy of an entry. A statement k of the transaction is replaced by this one.
fn copy_replaced(
    entry: &Entry,
    t: u32,
    k: u32,
    command: &Rc<Command>,
    stmt: &Rc<Stmt>,
) -> Result<Entry, NoMemory>
    ensures view { IfOk result (λ copy. entry_view copy
        ≡ edited (is_own t k entry.now) (λ replaced. command_view command.now.value)
        (λ replaced. statement_view stmt.now.value) (entry_view entry.now)) }
    ensures same { IfOk result (λ copy. SameStep copy entry.now) }
{
    match entry.what {
        What::Statement { k: number, .. } if entry.t == t && number == k => {
            let what = copy_run(number, command, stmt)?;
            Ok(put(entry, what))
        }
        _ => copied(entry),
    }
}

/// The log with statement k of a transaction dropped.
fn with_dropped(alloc: Global, log: &Log, t: u32, k: u32) -> Result<Log, NoMemory>
    ensures { IfOk result (λ new. entries new ≡ with_other t k dropped_command dropped_statement
        (entries log.now)) }
{
    log.bounds();
    let mut new = Log::new(alloc);
    for place in 0..log.len() {
        let entry = copy_dropped(alloc, log.entry(place), t, k)?;
        new.append(entry)?;
    }
    Ok(new)
}

/// The log with every statement of a transaction dropped.
fn with_all_dropped(alloc: Global, log: &Log, t: u32) -> Result<Log, NoMemory>
    ensures { IfOk result (λ new. entries new ≡ map (dropped_of t) (entries log.now)) }
{
    log.bounds();
    let mut new = Log::new(alloc);
    for place in 0..log.len() {
        let entry = copy_all_dropped(alloc, log.entry(place), t)?;
        new.append(entry)?;
    }
    Ok(new)
}

/// The log with statement k of a transaction replaced.
fn with_replaced(
    alloc: Global,
    log: &Log,
    t: u32,
    k: u32,
    command: &Rc<Command>,
    stmt: &Rc<Stmt>,
) -> Result<Log, NoMemory>
    ensures { IfOk result (λ new. entries new ≡ with_other t k (λ replaced. command_view command.now.value)
        (λ replaced. statement_view stmt.now.value) (entries log.now)) }
{
    log.bounds();
    let mut new = Log::new(alloc);
    for place in 0..log.len() {
        let entry = copy_replaced(log.entry(place), t, k, command, stmt)?;
        new.append(entry)?;
    }
    Ok(new)
}

// ---- a statement that is added

/// The place of the last BEGIN or statement of a transaction, if it has one.
fn last_step(log: &Log, t: u32) -> Option<u32>
    ensures { IsLastStep t log.now.entries (length log.now.entries) result }
{
    let mut last = None;
    for place in 0..log.len() {
        if is_step(log.entry(place), t) {
            last = Some(place);
        }
    }
    last
}

/// Whether a place is that of the last step.
fn is_last(last: Option<u32>, place: u32) -> bool
    ensures { result ≡ is_last last place }
{
    match last {
        Some(found) => found == place,
        None => false,
    }
}

/// The entry of a statement that is added behind this one, at the line after it.
fn added(entry: &Entry, k: u32, command: &Rc<Command>, stmt: &Rc<Stmt>) -> Result<Entry, NoMemory>
    ensures view { IfOk result (λ copy. entry_view copy
        ≡ m.Ran (suc entry.now.line) entry.now.session
        (command_view command.now.value) entry.now.t (statement_view stmt.now.value)) }
    ensures t { IfOk result (λ copy. copy.t ≡ entry.now.t) }
    ensures step { IfOk result (λ copy. step_of copy.what ≡ Numbers k) }
{
    if entry.line == u32::MAX {
        // The line after it could not be numbered.
        return Err(NoMemory);
    }
    Ok(Entry {
        line: entry.line + 1,
        session: entry.session,
        t: entry.t,
        what: copy_run(k, command, stmt)?,
    })
}

/// The log with a statement added behind the last step of a transaction.
fn with_extra(
    alloc: Global,
    log: &Log,
    t: u32,
    last: Option<u32>,
    command: &Rc<Command>,
    stmt: &Rc<Stmt>,
) -> Result<Log, NoMemory>
    requires few { m.statement_count t (entries log.now) < MAX_STEPS }
    requires last { IsLastStep t log.now.entries (length log.now.entries) last }
    ensures { IfOk result (λ new. entries new ≡ with_added t (command_view command.now.value)
        (statement_view stmt.now.value) (entries log.now)) }
{
    if log.len() == u32::MAX {
        // One entry more could not be counted.
        return Err(NoMemory);
    }
    log.bounds();
    let k = log.statement_count(t) + 1;
    let mut new = Log::new(alloc);
    for place in 0..log.len() {
        let old = log.entry(place);
        let entry = copied(old)?;
        new.append(entry)?;
        if is_last(last, place) {
            let extra = added(old, k, command, stmt)?;
            new.append(extra)?;
        }
    }
    Ok(new)
}

// ---- one change

/// Checks a statement against the tables created before a place of the log.
fn checked_at(alloc: Global, log: &Log, place: u32, command: &Command) -> Result<Rc<Stmt>, Stop>
    requires within { place ≤ length log.now.entries }
    requires statement { is_statement (command_view command.now) ≡ true }
    ensures { Checks (λ stmt. statement_view stmt.value) result
        (checked (tables_in (log_view (take place log.now.entries))) (command_view command.now)) }
{
    let catalog = tables_upto(alloc, log, place)?;
    match check(alloc, &catalog, command) {
        Ok(stmt) => Ok(Rc::new(alloc, stmt)?),
        Err(Stop::Refused(refusal)) => Err(Stop::Refused(refusal)),
        Err(Stop::NoMemory) => Err(Stop::NoMemory),
    }
}

/// The log with statement k of a transaction dropped, if they are there.
fn drop_statement(alloc: Global, log: &Log, t: u64, k: u64) -> Result<Log, Stop>
    ensures { Changes result (r.changed log.now (y.drop t k)) }
{
    let t = committed(log, t)?;
    let k = numbered(log, t, k)?;
    Ok(with_dropped(alloc, log, t, k)?)
}

/// The log with every statement of a transaction dropped, if it is there.
fn drop_statements(alloc: Global, log: &Log, t: u64) -> Result<Log, Stop>
    ensures { Changes result (r.changed log.now (y.drop_all t)) }
{
    let t = committed(log, t)?;
    Ok(with_all_dropped(alloc, log, t)?)
}

/// The log with statement k of a transaction replaced, if they are there and the check takes the new one.
fn replace_statement(
    alloc: Global,
    log: &Log,
    t: u64,
    k: u64,
    command: &Rc<Command>,
) -> Result<Log, Stop>
    requires { is_statement (command_view command.now.value) ≡ true }
    ensures { Changes result (r.changed log.now (y.replace t k (command_view command.now.value))) }
{
    let t = committed(log, t)?;
    let k = numbered(log, t, k)?;
    let stmt = checked_at(alloc, log, place_of(log, t, k), command.as_ref())?;
    Ok(with_replaced(alloc, log, t, k, command, &stmt)?)
}

/// The log with a statement added to a transaction, if it is there and has room, and the check takes the statement.
fn add_statement(alloc: Global, log: &Log, t: u64, command: &Rc<Command>) -> Result<Log, Stop>
    requires { is_statement (command_view command.now.value) ≡ true }
    ensures { Changes result (r.changed log.now (y.add t (command_view command.now.value))) }
{
    let t = committed(log, t)?;
    check_steps(log, t)?;
    let last = last_step(log, t);
    let stmt = checked_at(alloc, log, last.unwrap_or(0), command.as_ref())?;
    Ok(with_extra(alloc, log, t, last, command, &stmt)?)
}

/// The log with one change.
fn changed(alloc: Global, log: &Log, change: &LogChange) -> Result<Log, Stop>
    requires { has_statement (change_view change.now) ≡ true }
    ensures { Changes result (r.changed log.now (change_view change.now)) }
{
    match change {
        LogChange::Drop { t, k } => drop_statement(alloc, log, *t, *k),
        LogChange::DropAll { t } => drop_statements(alloc, log, *t),
        LogChange::Replace { t, k, command } => replace_statement(alloc, log, *t, *k, command),
        LogChange::Add { t, command } => add_statement(alloc, log, *t, command),
    }
}

// ---- one change after another

/// The line that a change needs: one if it adds a statement.
fn line_for(change: &LogChange) -> u32
    ensures count { result ≡ length (filter c.adds (change_view change.now ∷ [])) }
    ensures few { result ≤ 1 }
{
    match change {
        LogChange::Add { .. } => 1,
        _ => 0,
    }
}

/// How many lines there have to be for each: one more than the changes that add a statement.
fn lines_for(changes: &[LogChange]) -> u32
    requires { length changes.now ≤ MAX_CHANGES }
    ensures count { result ≡ c.lines_for (changes_view changes.now) }
    ensures few { result ≤ MAX_CHANGES + 1 }
{
    let mut lines = 1;
    for change in changes {
        lines += line_for(change);
    }
    lines
}

/// The log with each line number so many times as great.
fn spread_log(alloc: Global, log: &Log, times: u32) -> Result<Log, NoMemory>
    requires lines { r.AreLines log.now }
    requires times { times ≤ MAX_CHANGES + 1 }
    ensures { IfOk result (λ new. entries new ≡ map (spread times) (entries log.now)) }
{
    log.bounds();
    let mut new = Log::new(alloc);
    for place in 0..log.len() {
        let entry = spread(log.entry(place), times)?;
        new.append(entry)?;
    }
    Ok(new)
}

/// The log with its lines so many times as great, and with one change. Where no line is to be another one, the log is not copied first.
fn first_changed(alloc: Global, log: &Log, times: u32, change: &LogChange) -> Result<Log, Stop>
    requires lines { r.AreLines log.now }
    requires times { times ≤ MAX_CHANGES + 1 }
    requires statement { has_statement (change_view change.now) ≡ true }
    ensures { Changes result
        (c.changed parameters (map (spread times) (entries log.now)) (change_view change.now)) }
{
    if times == 1 {
        return changed(alloc, log, change);
    }
    let new = spread_log(alloc, log, times)?;
    changed(alloc, &new, change)
}

/// The log with all changes, from the first on.
fn all_changed(alloc: Global, log: Log, changes: &[LogChange]) -> Result<Log, Stop>
    requires { have_statements (changes_view changes.now) ≡ true }
    ensures { Changes result
        (c.all_changed parameters (Ok (entries log)) (changes_view changes.now)) }
{
    let mut new = log;
    for change in changes {
        new = changed(alloc, &new, change)?;
    }
    Ok(new)
}

/// The log with its lines so many times as great as the changes need, and with all of them.
fn all_made(alloc: Global, log: &Log, changes: &[LogChange]) -> Result<Log, Stop>
    requires lines { r.AreLines log.now }
    requires few { length changes.now ≤ MAX_CHANGES }
    requires statements { have_statements (changes_view changes.now) ≡ true }
    ensures { Changes result (r.changed_log log.now (changes_view changes.now)) }
{
    match changes {
        [] => Ok(spread_log(alloc, log, 1)?),
        [first, others @ ..] => {
            let new = first_changed(alloc, log, lines_for(changes), first)?;
            all_changed(alloc, new, others)
        }
    }
}

/// The log with changes, made one after another, each on the log that the one before left. Its line numbers are multiplied by one more
/// than the number of changes that add a statement.
///
/// - A dropped statement that writes a table leaves `SELECT NULL FROM` that table in its place, so that no other statement
///   gets another number; a SELECT stays as it is. A transaction that is dropped loses each of its statements so.
/// - A statement in the place of another has its number, session and line.
/// - An added statement has the number after the last one of its transaction, and the session of the last entry before the
///   COMMIT and the line after it: with multiplied lines, no entry has that line.
///
/// Refused by the first change that is, each in this order: E20 if there is no such transaction; E21 if it did not commit; E22 if it
/// does not have the statement that is dropped or replaced, E14 if it has [`gp_log::MAX_STEPS`] statements where one is added; and
/// then the first refusal of the [check](gp_check::check) of the new statement against the tables that were created before its line.
pub fn change(alloc: Global, log: &Log, changes: &[LogChange]) -> Result<Log, Stop>
    requires lines { r.AreLines log.now }
    requires statements { have_statements (changes_view changes.now) ≡ true }
    ensures changed { Changes result (r.changed_log log.now (changes_view changes.now)) }
    ensures replayable { r.IsReplayable log.now → tables_are_valid (tables log.now) ≡ true
        → changes_are_valid (changes_view changes.now) ≡ true → IfOk result r.IsReplayable }
{
    if changes.len() > MAX_CHANGES {
        // The lines could not be numbered by 32 bits.
        return Err(Stop::NoMemory);
    }
    all_made(alloc, log, changes)
}
