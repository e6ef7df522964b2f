//! The choices of a query: their order, the identities that an INSERT gives them, and their limit. Replies and answers are in row order, so the
//! program does not show it.

use crate::cases::{inspect, pair, with_made};
use crate::provenance::id_of;
use gp_algebra::{Select, Stmt, select_is_simple};
use gp_base::{Catalog, NoMemory, Row, RowId, Sequence, Stop, Stored, write_id, write_row};
use gp_check::check;
use gp_exec::{ChooseStop, Chosen, Views, choose};
use gp_syntax::{Command, read_command};
use std::alloc::Global;
use std::test::Fail;

fn copy_of(row: &Row) -> Result<Row, NoMemory> {
    Ok(row.clone()?)
}

/// The row with the identity 1.1.n.
fn stored(alloc: Global, n: u32, row: &Row) -> Result<Stored, NoMemory> {
    let (id, row) = pair(id_of(alloc, (1, 1, n), &[]), copy_of(row))?;
    Ok(Stored { id, row })
}

/// The rows with the identities 1.1.1, 1.1.2 and so on.
fn stored_rows(alloc: Global, rows: &[Row]) -> Result<Sequence<Stored>, NoMemory> {
    let mut all = Sequence::new(alloc);
    let mut n: u32 = 0;
    for row in rows {
        n = n.saturating_add(1);
        all.push(stored(alloc, n, row)?)?;
    }
    Ok(all)
}

/// The command of a short text.
fn command_of(alloc: Global, text: &[u8]) -> Option<Command> {
    if text.len() < 10_000 {
        read_command(alloc, text).ok()
    } else {
        None
    }
}

/// Adds the table of a CREATE TABLE to the catalogue, and answers whether it was added.
fn creates(alloc: Global, catalog: &mut Catalog, text: &str) -> bool {
    match command_of(alloc, text.as_bytes()) {
        Some(Command::Create { table }) => catalog.add(table).is_ok(),
        _ => false,
    }
}

/// The rows of an INSERT with VALUES that passed the check.
fn rows_of_stmt(alloc: Global, stmt: &Result<Stmt, Stop>) -> Result<Sequence<Stored>, NoMemory> {
    match stmt {
        Ok(Stmt::Insert { rows, .. }) => stored_rows(alloc, rows.as_slice()),
        _ => Ok(Sequence::new(alloc)),
    }
}

/// The rows of an INSERT with VALUES.
fn rows_of_command(
    alloc: Global,
    catalog: &Catalog,
    command: &Option<Command>,
) -> Result<Sequence<Stored>, NoMemory> {
    match command {
        Some(command @ Command::Insert { .. }) => {
            inspect(check(alloc, catalog, command), |stmt| {
                rows_of_stmt(alloc, stmt)
            })
        }
        _ => Ok(Sequence::new(alloc)),
    }
}

/// One table with the rows of an INSERT with VALUES.
fn inserted(alloc: Global, catalog: &Catalog, insert: &str) -> Result<Views, NoMemory> {
    let rows = inspect(command_of(alloc, insert.as_bytes()), |command| {
        rows_of_command(alloc, catalog, command)
    })?;
    let mut tables = Sequence::new(alloc);
    tables.push(rows)?;
    Ok(Views { tables })
}

/// One table, made by a CREATE TABLE, with the rows of an INSERT.
#[derive(Drop)]
struct OneTable {
    catalog: Catalog,
    views: Views,
}

/// The catalogue of the table.
fn catalog_of(alloc: Global, create: &str) -> Catalog {
    let mut catalog = Catalog::new(alloc);
    creates(alloc, &mut catalog, create);
    catalog
}

/// The table with the rows.
fn table_of(alloc: Global, create: &str, insert: &str) -> Result<OneTable, NoMemory> {
    let (catalog, views) = with_made(catalog_of(alloc, create), |catalog| {
        inserted(alloc, catalog, insert)
    })?;
    Ok(OneTable { catalog, views })
}

/// What is expected of an answer.
#[derive(Clone, Copy)]
enum Expected<'a> {
    /// The texts of its rows in order, each with a semicolon.
    Rows(&'a str),
    /// The identities that an INSERT of the answer gives its rows, as statement 1 of transaction 2, each with a semicolon.
    Identities(&'a str),
    /// The number of its rows.
    Count(usize),
    /// It has too many rows.
    TooMany,
}

/// Writes the identity that an INSERT gives the row.
fn write_new_id(alloc: Global, one: &Chosen, out: &mut Vec<u8>) -> Result<(), NoMemory> {
    let sources = one.ids.clone()?;
    match RowId::new(2, 1, one.branch, sources.into_vec()) {
        Some(id) => write_id(alloc, &id, out),
        None => Ok(()),
    }
}

/// Writes the rows, or else the identities that an INSERT gives them, each with a semicolon.
fn write_all(
    alloc: Global,
    answer: &[Chosen],
    are_rows: bool,
    out: &mut Vec<u8>,
) -> Result<(), NoMemory> {
    for one in answer {
        if are_rows {
            write_row(alloc, &one.row, out)?;
        } else {
            write_new_id(alloc, one, out)?;
        }
        out.push(b';')?;
    }
    Ok(())
}

/// Whether these are the texts of the rows, or else of the identities.
fn have_texts(alloc: Global, answer: &[Chosen], are_rows: bool, texts: &str) -> bool {
    let mut out = Vec::new(alloc);
    write_all(alloc, answer, are_rows, &mut out).is_ok() && out.as_slice() == texts.as_bytes()
}

fn is_expected(
    alloc: Global,
    answer: &Result<Vec<Chosen>, ChooseStop>,
    expected: Expected<'_>,
) -> bool {
    match answer {
        Ok(answer) => match expected {
            Expected::Rows(texts) => have_texts(alloc, answer, true, texts),
            Expected::Identities(texts) => have_texts(alloc, answer, false, texts),
            Expected::Count(count) => answer.len() == count,
            Expected::TooMany => false,
        },
        Err(ChooseStop::TooMany) => matches!(expected, Expected::TooMany),
        Err(ChooseStop::NoMemory) => false,
    }
}

/// Whether the query has the expected answer, of at most this many rows.
fn select_answers(
    alloc: Global,
    views: &Views,
    select: &Select,
    most: usize,
    expected: Expected<'_>,
) -> bool {
    select_is_simple(select)
        && inspect(choose(alloc, select, views, most), |answer| {
            is_expected(alloc, answer, expected)
        })
}

/// Whether it is a query with the expected answer.
fn stmt_answers(
    alloc: Global,
    views: &Views,
    stmt: &Result<Stmt, Stop>,
    most: usize,
    expected: Expected<'_>,
) -> bool {
    match stmt {
        Ok(Stmt::Read { select }) => select_answers(alloc, views, select, most, expected),
        _ => false,
    }
}

/// Whether it is a SELECT with the expected answer.
fn command_answers(
    alloc: Global,
    table: &OneTable,
    command: &Option<Command>,
    most: usize,
    expected: Expected<'_>,
) -> bool {
    match command {
        Some(command @ Command::Select { .. }) => {
            inspect(check(alloc, &table.catalog, command), |stmt| {
                stmt_answers(alloc, &table.views, stmt, most, expected)
            })
        }
        _ => false,
    }
}

/// Whether the query has the expected answer, of at most this many rows.
fn answers(
    alloc: Global,
    table: &OneTable,
    query: &[u8],
    most: usize,
    expected: Expected<'_>,
) -> bool {
    inspect(command_of(alloc, query), |command| {
        command_answers(alloc, table, command, most, expected)
    })
}

/// Queries over the rows 1 and 2, and their answers.
const IDENTITIES: &[(&str, Expected<'static>)] = &[
    (
        "SELECT x.a + y.a FROM r x, r y",
        Expected::Identities(
            "2.1.1(1.1.1,1.1.1);2.1.1(1.1.1,1.1.2);2.1.1(1.1.2,1.1.1);2.1.1(1.1.2,1.1.2);",
        ),
    ),
    (
        "SELECT a FROM r WHERE a = 2 UNION ALL SELECT a FROM r",
        Expected::Identities("2.1.1(1.1.2);2.1.2(1.1.1);2.1.2(1.1.2);"),
    ),
];

/// Joins of a table with itself, and their answers in the order of nested loops. Its rows are (1, 2, 'x'), (2, 1, '1'), (1, NULL, NULL),
/// (NULL, 1, '2') and (2, 2, 'x').
const JOINS: &[(&str, Expected<'static>)] = &[
    // Keys that occur twice on both sides. NULL joins nothing.
    (
        "SELECT x.b, y.b FROM r x, r y WHERE x.a = y.a",
        Expected::Rows("2, 2;2, NULL;1, 1;1, 2;NULL, 2;NULL, NULL;2, 1;2, 2;"),
    ),
    (
        "SELECT x.a, y.a FROM r x, r y WHERE x.b = y.a",
        Expected::Rows("1, 2;1, 2;2, 1;2, 1;NULL, 1;NULL, 1;2, 2;2, 2;"),
    ),
    // Texts.
    (
        "SELECT x.a, y.a FROM r x, r y WHERE x.c = y.c",
        Expected::Rows("1, 1;1, 2;2, 2;NULL, NULL;2, 1;2, 2;"),
    ),
    // Two equalities of one pair, and one that is a condition beside another.
    (
        "SELECT x.b, y.b FROM r x, r y WHERE x.a = y.a AND x.b = y.b",
        Expected::Rows("2, 2;1, 1;2, 2;"),
    ),
    (
        "SELECT x.b, y.b FROM r x, r y WHERE x.a = y.a AND y.b > 1",
        Expected::Rows("2, 2;1, 2;NULL, 2;2, 2;"),
    ),
    // An equality of a column and an expression, and one that is not a condition of its own.
    (
        "SELECT x.a, y.a FROM r x, r y WHERE x.a = y.a + 1",
        Expected::Rows("2, 1;2, 1;2, 1;2, 1;"),
    ),
    (
        "SELECT x.c, y.c FROM r x, r y WHERE x.a = 1 AND (x.a = y.b OR y.a = 2)",
        Expected::Rows("'x', '1';'x', '2';'x', 'x';NULL, '1';NULL, '2';NULL, 'x';"),
    ),
    (
        "SELECT x.c, y.c FROM r x, r y WHERE NOT x.a = y.a",
        Expected::Rows(
            "'x', '1';'x', 'x';'1', 'x';'1', NULL;NULL, '1';NULL, 'x';'x', 'x';'x', NULL;",
        ),
    ),
    // Three and four items, chained, and joined to the first.
    (
        "SELECT x.b, y.a, z.b FROM r x, r y, r z WHERE x.a = y.b AND y.a = z.a",
        Expected::Rows(
            "2, 2, 1;2, 2, 2;1, 1, 2;1, 1, NULL;1, 2, 1;1, 2, 2;NULL, 2, 1;NULL, 2, 2;2, 1, 2;2, 1, NULL;2, 2, 1;2, 2, 2;",
        ),
    ),
    (
        "SELECT w.c, z.c FROM r w, r x, r y, r z WHERE w.c = x.c AND x.b = y.b AND w.a = z.a AND y.c = z.c",
        Expected::Rows(
            "'x', 'x';'x', 'x';'x', 'x';'x', 'x';'1', '1';'x', 'x';'x', 'x';'x', 'x';'x', 'x';",
        ),
    ),
];

/// The first query that does not have its answer.
fn first_wrong(
    alloc: Global,
    table: &OneTable,
    queries: &[(&'static str, Expected<'static>)],
) -> Option<&'static str> {
    queries
        .iter()
        .find(|case| !answers(alloc, table, case.0.as_bytes(), 100, case.1))
        .map(|case| case.0)
}

#[test]
fn answers_have_identities(rt: HostRuntime) -> Result<(), Fail> {
    let table = table_of(
        rt.alloc(),
        "CREATE TABLE r (a INT)",
        "INSERT INTO r VALUES (1), (2)",
    )?;
    assert_eq!(rt; first_wrong(rt.alloc(), &table, IDENTITIES), None);
    Ok(())
}

#[test]
fn joins_are_in_the_order_of_nested_loops(rt: HostRuntime) -> Result<(), Fail> {
    let table = table_of(
        rt.alloc(),
        "CREATE TABLE r (a INT, b INT, c TEXT)",
        "INSERT INTO r VALUES (1, 2, 'x'), (2, 1, '1'), (1, NULL, NULL), (NULL, 1, '2'), (2, 2, 'x')",
    )?;
    assert_eq!(rt; first_wrong(rt.alloc(), &table, JOINS), None);
    Ok(())
}

const FOUR_ITEMS: &str = "SELECT w.a FROM r w, r x, r y, r z";

const EIGHT_BRANCHES: &str =
    "SELECT a FROM r UNION ALL SELECT a FROM r UNION ALL SELECT a FROM r UNION ALL SELECT a FROM r UNION ALL SELECT a FROM r UNION ALL SELECT a FROM r UNION ALL SELECT a FROM r UNION ALL SELECT a FROM r";

#[test]
fn answers_have_a_limit(rt: HostRuntime) -> Result<(), Fail> {
    let table = table_of(
        rt.alloc(),
        "CREATE TABLE r (a INT)",
        "INSERT INTO r VALUES (1), (2)",
    )?;
    for query in [FOUR_ITEMS.as_bytes(), EIGHT_BRANCHES.as_bytes()] {
        assert!(rt; answers(rt.alloc(), &table, query, 16, Expected::Count(16)));
        assert!(rt; answers(rt.alloc(), &table, query, 15, Expected::TooMany));
    }
    Ok(())
}
