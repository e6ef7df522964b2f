//! Copies of entries, and entries with other line numbers. They share the statements of the log.

ghost use Rattle.std.specs.Prelude.{◌≡◌, ◌<◌, ◌*◌, ◌^◌, ℕ, IfOk};
ghost use Rattle.gp_algebra.specs.Views.{statement_view};
ghost use Rattle.gp_syntax.specs.Views.{command_view};
ghost use Rattle.gp_machine.specs.Entries as m;
ghost use Rattle.gp_log.specs.Logs.{entry_view, what_view};
ghost use Rattle.gp_whatif.specs.Changed.{spread};
ghost use Rattle.gp_whatif.specs.Changing.{Numbers, SameStep, step_of};

use gp_algebra::Stmt;
use gp_base::NoMemory;
use gp_log::{Entry, What};
use gp_syntax::Command;
use std::rc::Rc;

/// A statement of the log.
pub fn copy_run(k: u32, command: &Rc<Command>, stmt: &Rc<Stmt>) -> Result<What, NoMemory>
    ensures view { IfOk result (λ copy. (line session t : ℕ) → what_view line session t copy
        ≡ m.Ran line session (command_view command.now.value) t (statement_view stmt.now.value)) }
    ensures step { IfOk result (λ copy. step_of copy ≡ Numbers k) }
{
    let command = command.clone()?;
    let stmt = stmt.clone()?;
    Ok(What::Statement { k, command, stmt })
}

/// A copy of what an entry did.
fn copy_what(what: &What) -> Result<What, NoMemory>
    ensures view { IfOk result (λ copy. (line session t : ℕ) → what_view line session t copy
        ≡ what_view line session t what.now) }
    ensures step { IfOk result (λ copy. step_of copy ≡ step_of what.now) }
{
    match what {
        What::Create(table) => Ok(What::Create(table.clone()?)),
        What::Begin { read_committed } => Ok(What::Begin {
            read_committed: *read_committed,
        }),
        What::Statement { k, command, stmt } => copy_run(*k, command, stmt),
        What::Commit => Ok(What::Commit),
        What::Lost => Ok(What::Lost),
        What::Rollback => Ok(What::Rollback),
    }
}

/// A copy of an entry. Running out of memory is the only error.
pub fn copied(entry: &Entry) -> Result<Entry, NoMemory>
    ensures view { IfOk result (λ copy. entry_view copy ≡ entry_view entry.now) }
    ensures same { IfOk result (λ copy. SameStep copy entry.now) }
{
    Ok(Entry {
        line: entry.line,
        session: entry.session,
        t: entry.t,
        what: copy_what(&entry.what)?,
    })
}

/// A copy of an entry, with its line number so many times as great. Running out of memory is the only error.
pub fn spread(entry: &Entry, times: u32) -> Result<Entry, NoMemory>
    requires { entry.now.line * times < 2 ^ 32 }
    ensures view { IfOk result (λ copy. entry_view copy ≡ spread times (entry_view entry.now)) }
    ensures same { IfOk result (λ copy. SameStep copy entry.now) }
{
    Ok(Entry {
        line: entry.line * times,
        session: entry.session,
        t: entry.t,
        what: copy_what(&entry.what)?,
    })
}
