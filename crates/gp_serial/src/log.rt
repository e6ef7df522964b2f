//! The log in which transactions run one after another.

ghost use Rattle.std.specs.Prelude.{◌≡◌, ◌<◌, ◌+◌, ◌^◌, suc, true, length, IfOk, OnOk};
ghost use Rattle.gp_log.specs.Contents.{entries, tables};
ghost use Rattle.gp_log.specs.Logs.{entry_view};
ghost use Rattle.gp_algebra.specs.Views.{statement_view};
ghost use Rattle.gp_machine.specs.Entries.{statement_at, statement_count, statement_of};
ghost use Rattle.std.specs.Option.{option_map};
ghost use Rattle.gp_serial.specs.SerialLogs as s;

use gp_algebra::Stmt;
use gp_base::NoMemory;
use gp_log::{Entry, Log, What, is_own};
use gp_syntax::Command;
use std::alloc::Global;
use std::rc::Rc;

/// Adds the tables of a log.
fn push_tables(log: &Log, new: &mut Log) -> Result<(), NoMemory>
    requires { s.IsEmpty (entries new.old) }
    ensures { OnOk result (entries new.new ≡ s.created (tables log.now)) }
{
    log.bounds();
    let catalog = log.catalog();
    for place in 0..catalog.len() {
        let table = catalog.table(place).clone()?;
        new.append(Entry {
            line: 0,
            session: 0,
            t: 0,
            what: What::Create(table),
        })?;
    }
    Ok(())
}

/// Begins every transaction, read committed, so that each statement reads what was committed before it.
fn push_begins(count: u32, new: &mut Log) -> Result<(), NoMemory>
    requires { length (entries new.old) + count < 2 ^ 32 }
    ensures { OnOk result (entries new.new ≡ s.begun count (entries new.old)) }
{
    for before in 0..count {
        new.append(Entry {
            line: 0,
            session: before + 1,
            t: before + 1,
            what: What::Begin {
                read_committed: true,
            },
        })?;
    }
    Ok(())
}

/// The checked statement of an entry, if it is of one.
fn statement_of(entry: &Entry) -> Option<&Rc<Stmt>>
    ensures { option_map (λ stmt. statement_view stmt.now.value) result
        ≡ statement_of (entry_view entry.now) }
{
    match &entry.what {
        What::Statement { stmt, .. } => Some(stmt),
        _ => None,
    }
}

/// The checked statement of this number in a transaction, as the log shares it; None if there is none.
fn shared_statement(log: &Log, t: u32, k: u32) -> Option<&Rc<Stmt>>
    ensures { option_map (λ stmt. statement_view stmt.now.value) result
        ≡ statement_at t k (entries log.now) }
{
    log.bounds();
    for place in 0..log.len() {
        let entry = log.entry(place);
        if is_own(entry, t, k) {
            return statement_of(entry);
        }
    }
    None
}

/// Adds a statement of a transaction, in the session of the number of the transaction.
fn push_statement(alloc: Global, log: &Log, t: u32, k: u32, new: &mut Log) -> Result<(), NoMemory>
    requires next { k ≡ suc (statement_count t (entries new.old)) }
    requires room { length (entries new.old) + 1 < 2 ^ 32 }
    ensures { OnOk result (entries new.new ≡ s.with_statement (entries log.now) t k (entries new.old)) }
{
    match shared_statement(log, t, k) {
        Some(shared) => {
            let stmt = shared.clone()?;
            // A replay runs checked statements, and reads no command.
            let what = What::Statement {
                k,
                command: Rc::new(alloc, Command::Commit)?,
                stmt,
            };
            new.append(Entry {
                line: 0,
                session: t,
                t,
                what,
            })
        }
        None => Ok(()),
    }
}

/// Adds the statements of a transaction, and its COMMIT.
fn push_transaction(alloc: Global, log: &Log, t: u32, new: &mut Log) -> Result<(), NoMemory>
    requires new { statement_count t (entries new.old) ≡ 0 }
    requires room { length (entries new.old) + statement_count t (entries log.now) + 1 < 2 ^ 32 }
    ensures { OnOk result (entries new.new ≡ s.with_transaction (entries log.now) t (entries new.old)) }
{
    for before in 0..log.statement_count(t) {
        push_statement(alloc, log, t, before + 1, new)?;
    }
    new.append(Entry {
        line: 0,
        session: t,
        t,
        what: What::Commit,
    })
}

/// The log in which these transactions of a log run one after another, and no other commits. They keep their numbers: all transactions begin before
/// the first statement, read committed, each in a session of its own. So each reads what the one before it committed, as if it began behind it.
/// The log is made to be replayed: it has the checked statements, and neither commands nor lines.
pub fn serial_log(alloc: Global, log: &Log, order: &[u32]) -> Result<Log, NoMemory>
    requires order { s.AreFew (entries log.now) order.now }
    ensures entries { IfOk result (λ new. entries new ≡ s.serial_entries (tables log.now) (entries log.now) order.now) }
{
    let mut new = Log::new(alloc);
    push_tables(log, &mut new)?;
    push_begins(log.transactions(), &mut new)?;
    for t in order {
        push_transaction(alloc, log, *t, &mut new)?;
    }
    Ok(new)
}
