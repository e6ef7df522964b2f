//! Which transactions come before which others.

ghost use Rattle.std.specs.Prelude.{◌≡◌, ◌<◌, ◌+◌, suc, length, map, IfOk, OnOk};
ghost use Rattle.gp_log.specs.Contents.{StatementsFit, entries, tables};
ghost use Rattle.gp_machine.specs.Entries.{statement_count, transactions_in};
ghost use Rattle.gp_machine.specs.Precedence as m;
ghost use Rattle.gp_serial.specs.Changes.{AreMade, change_view};
ghost use Rattle.gp_serial.specs.LookViews.{look_view};
ghost use Rattle.gp_serial.specs.Meetings.{AreReady, IsReady};
ghost use Rattle.gp_serial.specs.Preceding as p;
ghost use Rattle.gp_serial.specs.Preceding.{AreGrouped, Gains, IsMadeBy, IsPrecedence};
ghost use Rattle.gp_serial.specs.Relations.{is_edge};

use crate::changes::{RowChange, is_same_id};
use crate::graph::Graph;
use crate::looks::{Look, looks_of};
use crate::meeting::meets;
use gp_base::NoMemory;
use gp_log::Log;
use std::alloc::Global;

// ---- what statements look at

/// Puts a transaction before another one if a look meets a change. What is known already is not looked at again.
fn link(a: u32, b: u32, look: &Look<'_>, change: &RowChange<'_>, graph: &mut Graph)
    requires { IsReady look.now }
    ensures { Gains (p.one_link a b (m.meets (change_view change.now) (look_view look.now)))
        graph.old graph.new }
{
    if !graph.has(a, b) && meets(look, change) {
        graph.add(a, b);
    }
}

/// Puts a transaction whose statement looks so before the one that wrote a row that it looks at, if that is in a version above the one that the
/// statement read, else behind it.
fn add_change(t: u32, version: u32, look: &Look<'_>, change: &RowChange<'_>, graph: &mut Graph)
    requires { IsReady look.now }
    ensures { Gains (p.links t version (look_view look.now) change.now) graph.old graph.new }
{
    if change.t != t {
        if version < change.version {
            link(t, change.t, look, change, graph);
        } else {
            link(change.t, t, look, change, graph);
        }
    }
}

/// Adds what one look of a statement orders, by all changes.
fn add_look(t: u32, version: u32, look: &Look<'_>, changes: &[RowChange<'_>], graph: &mut Graph)
    requires { IsReady look.now }
    ensures { Gains (p.linked_by t version changes.now (look_view look.now))
        graph.old graph.new }
{
    for change in changes {
        add_change(t, version, look, change, graph);
    }
}

/// Adds what all looks of a statement order.
fn add_looks(t: u32, version: u32, looks: &[Look<'_>], changes: &[RowChange<'_>], graph: &mut Graph)
    requires { AreReady looks.now }
    ensures { Gains (p.looks_links t version changes.now (map look_view looks.now))
        graph.old graph.new }
{
    for look in looks {
        add_look(t, version, look, changes, graph);
    }
}

/// Adds what a statement of a transaction orders by what it looks at.
fn add_statement(
    alloc: Global,
    log: &Log,
    t: u32,
    k: u32,
    changes: &[RowChange<'_>],
    graph: &mut Graph,
) -> Result<(), NoMemory>
    requires { StatementsFit log.now }
    ensures { OnOk result (Gains (p.statement_links (entries log.now) (tables log.now) changes.now t k)
        graph.old graph.new) }
{
    if let Some(stmt) = log.statement(t, k) {
        let version = log.version_read_by(t, k);
        let looks = looks_of(alloc, log.catalog(), stmt)?;
        add_looks(t, version, &looks, changes, graph);
    }
    Ok(())
}

/// Adds what all statements of a transaction order.
fn add_transaction(
    alloc: Global,
    log: &Log,
    t: u32,
    changes: &[RowChange<'_>],
    graph: &mut Graph,
) -> Result<(), NoMemory>
    requires { StatementsFit log.now }
    ensures { OnOk result (Gains (p.transaction_links (entries log.now) (tables log.now) changes.now
        t (statement_count t (entries log.now))) graph.old graph.new) }
{
    for before in 0..log.statement_count(t) {
        add_statement(alloc, log, t, before + 1, changes, graph)?;
    }
    Ok(())
}

/// Adds what the statements of all these transactions order.
fn add_transactions(
    alloc: Global,
    log: &Log,
    committers: &[u32],
    changes: &[RowChange<'_>],
    graph: &mut Graph,
) -> Result<(), NoMemory>
    requires { StatementsFit log.now }
    ensures { OnOk result (Gains (p.all_links (entries log.now) (tables log.now) changes.now
        committers.now) graph.old graph.new) }
{
    for t in committers {
        add_transaction(alloc, log, *t, changes, graph)?;
    }
    Ok(())
}

// ---- what they wrote

/// Whether two changes are of one row.
pub(crate) fn is_same_row(change: &RowChange<'_>, other: &RowChange<'_>) -> bool
    ensures { result ≡ m.same_row (change_view change.now) (change_view other.now) }
{
    change.table == other.table && is_same_id(change.id, other.id)
}

/// Puts the transaction of a change of a row before that of another one, if that came later, else behind it.
fn add_pair(change: &RowChange<'_>, other: &RowChange<'_>, graph: &mut Graph)
    ensures { Gains (p.write_links change.now other.now) graph.old graph.new }
{
    if change.t != other.t {
        if change.version < other.version {
            graph.add(change.t, other.t);
        } else {
            graph.add(other.t, change.t);
        }
    }
}

/// Orders the writer of a change and those of the changes behind it up to the first one of another row.
fn add_writes(change: &RowChange<'_>, others: &[RowChange<'_>], graph: &mut Graph)
    ensures { Gains (p.first_links change.now others.now) graph.old graph.new }
{
    for other in others {
        if !is_same_row(change, other) {
            return;
        }
        add_pair(change, other, graph);
    }
}

/// Orders the writers of each row, the changes of which stand together.
fn add_rows(changes: &[RowChange<'_>], graph: &mut Graph)
    ensures { Gains (p.row_links changes.now) graph.old graph.new }
{
    for (place, change) in changes.iter().enumerate() {
        add_writes(change, &changes[place + 1..], graph);
    }
}

// ---- both

/// Which of the transactions that committed come before which others, for any [`Reason`](crate::Reason). Each changed row is looked at by each statement
/// that looks at its table; the changes of a row stand together.
pub fn precedence(
    alloc: Global,
    log: &Log,
    committers: &[u32],
    changes: &[RowChange<'_>],
) -> Result<Graph, NoMemory>
    requires fits { StatementsFit log.now }
    requires made { AreMade (entries log.now) changes.now }
    requires grouped { AreGrouped (map change_view changes.now) }
    requires committers { IsMadeBy (entries log.now) committers.now }
    ensures count { IfOk result (λ graph. length graph ≡ suc (transactions_in (entries log.now))) }
    ensures relation { IfOk result (λ graph. IsPrecedence (tables log.now) (entries log.now)
        (map change_view changes.now) committers.now (is_edge graph)) }
{
    let mut graph = Graph::new(alloc, log.transactions() as usize + 1)?;
    add_transactions(alloc, log, committers, changes, &mut graph)?;
    add_rows(changes, &mut graph);
    Ok(graph)
}
