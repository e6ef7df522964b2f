//! The check of statements, queries and new tables.

ghost use Rattle.std.specs.Prelude.{◌≡◌, true, map, IfOk};
ghost use Rattle.gp_algebra.specs.Fitting.{select_fits, statement_fits};
ghost use Rattle.gp_algebra.specs.Views.{select_view, statement_view};
ghost use Rattle.gp_grammar.specs.Syntax as y;
ghost use Rattle.gp_grammar.specs.Syntax.{is_statement};
ghost use Rattle.gp_syntax.specs.Views.{block_view, command_view, condition_view, query_view, set_view};
ghost use Rattle.gp_check.specs.Checking.{checked, checked_query};
ghost use Rattle.gp_check.specs.Faults as f;
ghost use Rattle.gp_check.specs.Valid.{is_valid, query_is_valid, tables_are_valid};
ghost use Rattle.gp_check.specs.Views.{Checks, Finds};

use crate::columns::{known_query_columns, known_set_columns, known_where_columns};
use crate::meaning::{select, set_exprs, table_number, where_of};
use crate::names::first_repeated;
use crate::scope::{columns_of, target_scope};
use crate::tables::{different_names, known_table, known_tables};
use crate::typing::{
    agree_with, blocks_are_typed, kind_types, query_types, rows_are_typed, sets_are_typed,
    where_is_typed,
};
use crate::widths::{have_one_width, have_width, rows_have_width};
use gp_algebra::{Select, Stmt};
use gp_base::{Catalog, Name, Refusal, Row, Sequence, Stop, Table};
use gp_syntax::{Block, Command, Query, SetTerm, Term};
use std::alloc::Global;

/// Refuses by this refusal unless the fact holds.
fn require(holds: bool, refusal: Refusal) -> Result<(), Stop>
    ensures { Finds result (f.unless holds refusal) }
{
    if holds {
        return Ok(());
    }
    Err(Stop::Refused(refusal))
}

/// Refuses a query that is not well typed.
fn typed_query(alloc: Global, catalog: &Catalog, blocks: &[Block]) -> Result<(), Stop>
    ensures { Finds result
        (f.unless (f.query_is_typed catalog.now (map block_view blocks.now)) Refusal.E07) }
{
    let types = query_types(alloc, catalog, blocks)?;
    let typed = blocks_are_typed(alloc, catalog, blocks, types.as_slice())?;
    require(typed, Refusal::E07)
}

/// Refuses an INSERT with a query that is not well typed.
fn typed_insert(
    alloc: Global,
    catalog: &Catalog,
    table: &Name,
    blocks: &[Block],
) -> Result<(), Stop>
    ensures { Finds result (f.unless
        (f.is_typed catalog.now
        (y.insert_select table.now (map block_view blocks.now))) Refusal.E07) }
{
    let kinds = kind_types(alloc, columns_of(catalog, table))?;
    let types = query_types(alloc, catalog, blocks)?;
    let typed = blocks_are_typed(alloc, catalog, blocks, types.as_slice())?;
    require(
        typed && agree_with(kinds.as_slice(), types.as_slice()),
        Refusal::E07,
    )
}

/// Refuses an assignment to a column that is set before.
fn different_sets(sets: &[SetTerm]) -> Result<(), Stop>
    ensures { Finds result (f.repeated_set (map set_view sets.now)) }
{
    match first_repeated(sets) {
        None => Ok(()),
        Some(col) => Err(Stop::Refused(Refusal::E08 { name: col.clone()? })),
    }
}

/// Checks an INSERT with VALUES.
fn check_insert(catalog: &Catalog, table: &Name, rows: &Sequence<Row>) -> Result<Stmt, Stop>
    ensures { Checks statement_view result (checked catalog.now (y.insert table.now rows.now)) }
{
    known_table(catalog, table)?;
    let columns = columns_of(catalog, table);
    require(
        rows_have_width(rows.as_slice(), columns.len()),
        Refusal::E15,
    )?;
    require(rows_are_typed(columns, rows.as_slice()), Refusal::E07)?;
    Ok(Stmt::Insert {
        table: table_number(catalog, table),
        rows: rows.clone()?,
    })
}

/// Checks an INSERT with a query.
fn check_insert_select(
    alloc: Global,
    catalog: &Catalog,
    table: &Name,
    blocks: &[Block],
) -> Result<Stmt, Stop>
    ensures { Checks statement_view result
        (checked catalog.now (y.insert_select table.now (map block_view blocks.now))) }
{
    known_table(catalog, table)?;
    known_tables(catalog, blocks)?;
    different_names(blocks)?;
    known_query_columns(alloc, catalog, blocks)?;
    let width = have_width(alloc, catalog, blocks, columns_of(catalog, table).len())?;
    require(width, Refusal::E15)?;
    typed_insert(alloc, catalog, table, blocks)?;
    Ok(Stmt::InsertSelect {
        table: table_number(catalog, table),
        select: select(alloc, catalog, blocks)?,
    })
}

fn check_update(
    alloc: Global,
    catalog: &Catalog,
    table: &Name,
    sets: &[SetTerm],
    cond: &Option<Term>,
) -> Result<Stmt, Stop>
    ensures { Checks statement_view result
        (checked catalog.now
        (y.update table.now (map set_view sets.now) (condition_view cond.now))) }
{
    known_table(catalog, table)?;
    let scope = target_scope(alloc, catalog, table)?;
    known_set_columns(&scope, sets)?;
    known_where_columns(&scope, cond)?;
    different_sets(sets)?;
    require(
        sets_are_typed(&scope, sets) && where_is_typed(&scope, cond),
        Refusal::E07,
    )?;
    Ok(Stmt::Update {
        table: table_number(catalog, table),
        sets: set_exprs(alloc, &scope, sets)?,
        cond: where_of(alloc, &scope, cond)?,
    })
}

fn check_delete(
    alloc: Global,
    catalog: &Catalog,
    table: &Name,
    cond: &Option<Term>,
) -> Result<Stmt, Stop>
    ensures { Checks statement_view result
        (checked catalog.now (y.delete table.now (condition_view cond.now))) }
{
    known_table(catalog, table)?;
    let scope = target_scope(alloc, catalog, table)?;
    known_where_columns(&scope, cond)?;
    require(where_is_typed(&scope, cond), Refusal::E07)?;
    Ok(Stmt::Delete {
        table: table_number(catalog, table),
        cond: where_of(alloc, &scope, cond)?,
    })
}

/// Checks some SELECTs.
fn check_blocks(alloc: Global, catalog: &Catalog, blocks: &[Block]) -> Result<Select, Stop>
    ensures { Checks select_view result (checked_query catalog.now (map block_view blocks.now)) }
{
    known_tables(catalog, blocks)?;
    different_names(blocks)?;
    known_query_columns(alloc, catalog, blocks)?;
    let width = have_one_width(alloc, catalog, blocks)?;
    require(width, Refusal::E15)?;
    typed_query(alloc, catalog, blocks)?;
    Ok(select(alloc, catalog, blocks)?)
}

fn check_statement(alloc: Global, catalog: &Catalog, command: &Command) -> Result<Stmt, Stop>
    requires { is_statement (command_view command.now) ≡ true }
    ensures { Checks statement_view result (checked catalog.now (command_view command.now)) }
{
    match command {
        Command::Insert { table, rows } => check_insert(catalog, table, rows),
        Command::InsertSelect { table, query } => {
            check_insert_select(alloc, catalog, table, query.blocks.as_slice())
        }
        Command::Update { table, sets, cond } => {
            check_update(alloc, catalog, table, sets.as_slice(), cond)
        }
        Command::Delete { table, cond } => check_delete(alloc, catalog, table, cond),
        Command::Select { query } => Ok(Stmt::Read {
            select: check_blocks(alloc, catalog, query.blocks.as_slice())?,
        }),
        _ => unreachable!(),
    }
}

/// Checks a statement against the tables of the catalogue: the statement with tables and columns by number, or the refusal
/// of the first fault. A refusal is E04 to E08 or E15. The faults are looked for phase by phase, each over the whole
/// statement before the next: tables that are not there (E04), FROM names that are repeated (E06), columns that are not
/// there or ambiguous (E05, E06), columns that are set twice (E08), numbers of columns (E15), and types (E07).
///
/// The statement of a valid command fits a catalogue of valid tables. A command that was read is valid
/// ([`crate::read_commands_are_valid`]), and so is a table that such a command creates ([`crate::created_tables_are_valid`]).
pub fn check(alloc: Global, catalog: &Catalog, command: &Command) -> Result<Stmt, Stop>
    requires { is_statement (command_view command.now) ≡ true }
    ensures checked { Checks statement_view result
        (checked catalog.now (command_view command.now)) }
    ensures fits { IfOk result (λ stmt. tables_are_valid catalog.now ≡ true
        → is_valid (command_view command.now) ≡ true
        → statement_fits catalog.now (statement_view stmt) ≡ true) }
{
    check_statement(alloc, catalog, command)
}

/// Checks the query of a question, as [`check`] checks a SELECT. The query of a question that was read is valid
/// ([`crate::read_questions_are_valid`]).
pub fn check_query(alloc: Global, catalog: &Catalog, query: &Query) -> Result<Select, Stop>
    ensures checked { Checks select_view result (checked_query catalog.now (query_view query.now)) }
    ensures fits { IfOk result (λ select. tables_are_valid catalog.now ≡ true
        → query_is_valid (query_view query.now) ≡ true
        → select_fits catalog.now (select_view select) ≡ true) }
{
    check_blocks(alloc, catalog, query.blocks.as_slice())
}

/// Checks a new table. The refusal is E08 exactly if its name is that of a table, or the name of a column is repeated: it
/// names the table, or else the first column with the name of an earlier one.
pub fn check_table(catalog: &Catalog, table: &Table) -> Result<(), Stop>
    ensures { Finds result (f.table_refusal catalog.now table.now) }
{
    if catalog.find(&table.name).is_some() {
        return Err(Stop::Refused(Refusal::E08 {
            name: table.name.clone()?,
        }));
    }
    match first_repeated(table.cols.as_slice()) {
        None => Ok(()),
        Some(name) => Err(Stop::Refused(Refusal::E08 {
            name: name.clone()?,
        })),
    }
}
