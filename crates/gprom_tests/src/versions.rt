//! Row versions: the rows of each version of a table, and later writes.
//!
//! Two histories are worked out by hand. In the first, a row with the identity 2.1.1 is inserted in version 1, updated in
//! version 2 and deleted in version 4; a row with the identity 1.1.1 is inserted in version 3. In the second, the identities
//! of three rows differ only in how their sources nest, so that a table looks them up by the same key.

ghost use Rattle.std.specs.Prelude.{◌+◌, ◌≤◌, IfOk, OnOk};
ghost use Rattle.gp_versions.specs.Commits.{AreBelow};

use crate::cases::pair;
use crate::provenance::{id_of, id_with};
use crate::values::{Given, row_of};
use gp_base::{MAX_NODES, NoMemory, Row, RowId, write_id, write_row};
use gp_versions::{
    Span, VersionTable, Write, Writes, a_span_ends_at_the_next_write,
    a_version_has_one_row_of_an_identity, written_after_is_the_least,
};
use std::alloc::Global;
use std::test::Fail;

/// The identity of the first row that the first statement of a transaction inserts.
fn first_id(alloc: Global, t: u32) -> Result<RowId, NoMemory> {
    id_of(alloc, (t, 1, 1), &[])
}

/// The row of one number, or None for a deletion.
fn row_after(alloc: Global, number: Option<i64>) -> Result<Option<Row>, NoMemory> {
    match number {
        Some(number) => Ok(Some(row_of(alloc, &[Given::Int(number)])?)),
        None => Ok(None),
    }
}

/// The write of a row of one number, or its deletion.
fn write_of(alloc: Global, t: u32, number: Option<i64>) -> Result<Write, NoMemory> {
    let (id, row) = pair(first_id(alloc, t), row_after(alloc, number))?;
    Ok(Write { id, row })
}

/// A version with one write that was made.
fn commit(
    alloc: Global,
    table: &mut VersionTable,
    version: u32,
    write: Result<Write, NoMemory>,
) -> Result<(), NoMemory>
    requires first { 1 ≤ version }
    requires above { AreBelow version table.old.spans }
    ensures below { OnOk result (AreBelow (version + 1) table.new.spans) }
{
    let mut list = Vec::new(alloc);
    list.push(write?)?;
    let writes = Writes::from_vec(alloc, list)?;
    table.reserve(1)?;
    table.append_commit(version, writes);
    Ok(())
}

/// The table after the four versions.
fn history(alloc: Global) -> Result<VersionTable, NoMemory> {
    let mut table = VersionTable::new(alloc);
    commit(alloc, &mut table, 1, write_of(alloc, 2, Some(10)))?;
    commit(alloc, &mut table, 2, write_of(alloc, 2, Some(11)))?;
    commit(alloc, &mut table, 3, write_of(alloc, 1, Some(30)))?;
    commit(alloc, &mut table, 4, write_of(alloc, 2, None))?;
    Ok(table)
}

/// Writes a row with its identity on a line.
fn write_span(alloc: Global, span: &Span, out: &mut Vec<u8>) -> Result<(), NoMemory> {
    write_id(alloc, &span.id, out)?;
    out.push(b' ')?;
    write_row(alloc, &span.row, out)?;
    out.push(b'\n')?;
    Ok(())
}

/// Writes the rows of a version with their identities, one on each line.
fn write_version(
    alloc: Global,
    table: &VersionTable,
    v: u32,
    out: &mut Vec<u8>,
) -> Result<(), NoMemory> {
    for span in table.as_of(v) {
        write_span(alloc, span, out)?;
    }
    Ok(())
}

fn has_rows(alloc: Global, table: &VersionTable, v: u32, text: &str) -> bool {
    let mut out = Vec::new(alloc);
    write_version(alloc, table, v, &mut out).is_ok() && out.as_slice() == text.as_bytes()
}

const VERSIONS: &[(u32, &str)] = &[
    (0, ""),
    (1, "2.1.1 10\n"),
    (2, "2.1.1 11\n"),
    (3, "2.1.1 11\n1.1.1 30\n"),
    (4, "1.1.1 30\n"),
    (9, "1.1.1 30\n"),
];

#[test]
fn each_version_has_its_rows(rt: HostRuntime) -> Result<(), Fail> {
    a_version_has_one_row_of_an_identity();
    let table = history(rt.alloc())?;
    assert!(rt; table.len() == 3);
    for (v, text) in VERSIONS {
        assert!(rt; has_rows(rt.alloc(), &table, *v, text), "version {v}");
    }
    Ok(())
}

const LATER_WRITES: &[(u32, u32, Option<u32>)] = &[
    (2, 0, Some(1)),
    (2, 1, Some(2)),
    (2, 2, Some(4)),
    (2, 3, Some(4)),
    (2, 4, None),
    (1, 0, Some(3)),
    (1, 2, Some(3)),
    (1, 3, None),
    (3, 0, None),
];

/// Whether this version wrote the row of the identity next.
fn is_later(table: &VersionTable, id: Result<RowId, NoMemory>, v: u32, later: Option<u32>) -> bool {
    matches!(&id, Ok(id) if table.written_after(id, v) == later)
}

#[test]
fn rows_are_written_later(rt: HostRuntime) -> Result<(), Fail> {
    written_after_is_the_least();
    a_span_ends_at_the_next_write();
    let table = history(rt.alloc())?;
    for (t, v, later) in LATER_WRITES {
        let id = first_id(rt.alloc(), *t);
        assert!(rt; is_later(&table, id, *v, *later), "{t}.1.1 after {v}");
    }
    Ok(())
}

/// How many nodes an identity has, each of them 1.1.1, and how many of them are one in the other: the innermost of those has
/// the rest as its sources.
type Shape = (u32, u32);

const WIDE: Shape = (MAX_NODES, 1);

const MIXED: Shape = (MAX_NODES, 2);

const TALL: Shape = (MAX_NODES, MAX_NODES);

const SMALL: Shape = (1, 1);

/// The identity 1.1.1 with as many sources 1.1.1.
fn wide_id(alloc: Global, count: u32) -> Result<RowId, NoMemory> {
    let mut sources = Vec::new(alloc);
    for _ in 0..count {
        sources.push(first_id(alloc, 1)?)?;
    }
    id_with((1, 1, 1), sources)
}

/// The identity 1.1.1 with one source.
fn id_over(alloc: Global, id: RowId) -> Result<RowId, NoMemory> {
    let mut sources = Vec::new(alloc);
    sources.push(id)?;
    id_with((1, 1, 1), sources)
}

/// The identity of this shape.
fn shaped_id(alloc: Global, shape: Shape) -> Result<RowId, NoMemory> {
    let (nodes, depth) = shape;
    let mut id = wide_id(alloc, nodes.saturating_sub(depth))?;
    for _ in 1..depth {
        id = id_over(alloc, id)?;
    }
    Ok(id)
}

/// The write of a row of one number with an identity of this shape, or its deletion.
fn shaped_write(alloc: Global, shape: Shape, number: Option<i64>) -> Result<Write, NoMemory> {
    let (id, row) = pair(shaped_id(alloc, shape), row_after(alloc, number))?;
    Ok(Write { id, row })
}

/// The table after five versions, which wrote rows of three shapes.
fn shaped_history(alloc: Global) -> Result<VersionTable, NoMemory>
    ensures below { IfOk result (λ table. AreBelow 6 table.spans) }
{
    let mut table = VersionTable::new(alloc);
    commit(alloc, &mut table, 1, shaped_write(alloc, WIDE, Some(10)))?;
    commit(alloc, &mut table, 2, shaped_write(alloc, TALL, Some(20)))?;
    commit(alloc, &mut table, 3, shaped_write(alloc, WIDE, Some(11)))?;
    commit(alloc, &mut table, 4, shaped_write(alloc, TALL, None))?;
    commit(alloc, &mut table, 5, shaped_write(alloc, MIXED, Some(30)))?;
    Ok(table)
}

const FIVE_VERSIONS: &[(Shape, u32, Option<u32>)] = &[
    (WIDE, 0, Some(1)),
    (WIDE, 1, Some(3)),
    (WIDE, 2, Some(3)),
    (WIDE, 3, None),
    (TALL, 0, Some(2)),
    (TALL, 2, Some(4)),
    (TALL, 3, Some(4)),
    (TALL, 4, None),
    (MIXED, 0, Some(5)),
    (MIXED, 4, Some(5)),
    (MIXED, 5, None),
    (SMALL, 0, None),
];

/// Two versions more.
fn commit_twice(alloc: Global, table: &mut VersionTable) -> Result<(), NoMemory>
    requires { AreBelow 6 table.old.spans }
{
    commit(alloc, table, 6, shaped_write(alloc, MIXED, Some(31)))?;
    commit(alloc, table, 7, shaped_write(alloc, WIDE, None))?;
    Ok(())
}

const SEVEN_VERSIONS: &[(Shape, u32, Option<u32>)] = &[
    (WIDE, 0, Some(1)),
    (WIDE, 1, Some(3)),
    (WIDE, 3, Some(7)),
    (WIDE, 6, Some(7)),
    (WIDE, 7, None),
    (TALL, 0, Some(2)),
    (TALL, 2, Some(4)),
    (TALL, 4, None),
    (MIXED, 0, Some(5)),
    (MIXED, 5, Some(6)),
    (MIXED, 6, None),
    (SMALL, 0, None),
];

/// Whether each of these rows is written next by its version.
fn are_later(alloc: Global, table: &VersionTable, all: &[(Shape, u32, Option<u32>)]) -> bool {
    all.iter().all(|case| is_later(table, shaped_id(alloc, case.0), case.1, case.2))
}

#[test]
fn rows_with_one_key_are_told_apart(rt: HostRuntime) -> Result<(), Fail> {
    let mut table = shaped_history(rt.alloc())?;
    assert!(rt;
        are_later(rt.alloc(), &table, FIVE_VERSIONS),
        "no span is entered"
    );
    table.enter()?;
    assert!(rt;
        are_later(rt.alloc(), &table, FIVE_VERSIONS),
        "all are entered"
    );
    commit_twice(rt.alloc(), &mut table)?;
    assert!(rt;
        are_later(rt.alloc(), &table, SEVEN_VERSIONS),
        "some are entered"
    );
    table.enter()?;
    assert!(rt;
        are_later(rt.alloc(), &table, SEVEN_VERSIONS),
        "all are entered again"
    );
    Ok(())
}

/// The first version of the span at a place, or None if there is no such place.
fn from_of(table: &VersionTable, place: u32) -> Option<u32> {
    if (place as usize) < table.len() {
        Some(table.span(place).from)
    } else {
        None
    }
}

#[test]
fn spans_are_ordered_by_identity(rt: HostRuntime) -> Result<(), Fail> {
    let table = history(rt.alloc())?;
    let places = table.spans(rt.alloc())?;
    assert!(rt; places.as_slice() == [2, 0, 1].as_slice());
    assert!(rt; from_of(&table, 2) == Some(3));
    assert!(rt; from_of(&table, 3).is_none());
    Ok(())
}

/// The writes of rows of one number, or their deletions.
fn writes_of(alloc: Global, all: &[(u32, Option<i64>)]) -> Result<Writes, NoMemory> {
    let mut list = Vec::new(alloc);
    for (t, number) in all {
        list.push(write_of(alloc, *t, *number)?)?;
    }
    Writes::from_vec(alloc, list)
}

/// Whether there is a write of the identity, or none.
fn has(writes: &Writes, id: Result<RowId, NoMemory>, written: bool) -> bool {
    matches!(&id, Ok(id) if writes.has(id) == written)
}

#[test]
fn deletions_are_writes(rt: HostRuntime) -> Result<(), Fail> {
    let writes = writes_of(rt.alloc(), &[(3, Some(1)), (1, None), (2, Some(7))])?;
    for (t, written) in [(0, false), (1, true), (2, true), (3, true), (4, false)] {
        let id = first_id(rt.alloc(), t);
        assert!(rt; has(&writes, id, written), "{t}.1.1");
    }
    assert!(rt; writes.as_slice().len() == 3);
    assert!(rt; writes.into_vec().len() == 3);
    Ok(())
}
