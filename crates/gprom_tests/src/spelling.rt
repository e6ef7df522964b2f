//! The texts of programs, read again.

use gp_algebra::PProgram;
use gp_base::{Catalog, Name, NoMemory, Sequence, Table};
use gp_plantext::{PlanStop, is_spellable, read, write};
use std::alloc::{AllocError, Global};
use std::test::Fail;

/// Programs over the table r, as they are printed for questions.
const PROGRAMS: &[&[u8]] = &[
    b"QUERY PROJECT(PUBLISH(3, SCAN(r, 1), PROJECT(SCAN(r, 1), #1, CASE WHEN (#1 = 2) THEN (#2 + 5) ELSE #2 END, #3, CASE WHEN (#1 = 2) THEN YES ELSE #4 END), SCAN(r, 2)), #1, #2)\n",
    b"QUERY PROJECT(FILTER(SCAN(r, 1), ((#1 > 5) IS NOT TRUE)), #1, #2)\n",
    b"\
STEP 1 r := UNION(SCAN(r, 1), PROJECT(PRODUCT(SCAN(r, 1), SCAN(r, 1)), (#1 + #5), ID(2, 1, 1, #2, #6), YES, TIMES(TIMES([q2.1], #4), #8)))
QUERY PROJECT(STEP(1), #1, #4)
",
    b"QUERY PROJECT(SCAN(r, 1), CASE WHEN TRUE THEN (CASE WHEN TRUE THEN (#1 + 1) ELSE #1 END + 1) ELSE CASE WHEN TRUE THEN (#1 + 1) ELSE #1 END END)\n",
    b"QUERY PROJECT(SCAN(r, 1), CASE WHEN TRUE THEN (CASE WHEN TRUE THEN (CASE WHEN TRUE THEN (#1 + 1) ELSE #1 END + 1) ELSE CASE WHEN TRUE THEN (#1 + 1) ELSE #1 END END + 1) ELSE CASE WHEN TRUE THEN (CASE WHEN TRUE THEN (#1 + 1) ELSE #1 END + 1) ELSE CASE WHEN TRUE THEN (#1 + 1) ELSE #1 END END END)\n",
    b"QUERY PROJECT(PROJECT(SCAN(r, 1), CASE WHEN TRUE THEN (CASE WHEN TRUE THEN (CASE WHEN TRUE THEN (CASE WHEN TRUE THEN (CASE WHEN TRUE THEN (#1 + 1) ELSE #1 END + 1) ELSE CASE WHEN TRUE THEN (#1 + 1) ELSE #1 END END + 1) ELSE CASE WHEN TRUE THEN (CASE WHEN TRUE THEN (#1 + 1) ELSE #1 END + 1) ELSE CASE WHEN TRUE THEN (#1 + 1) ELSE #1 END END END + 1) ELSE CASE WHEN TRUE THEN (CASE WHEN TRUE THEN (CASE WHEN TRUE THEN (#1 + 1) ELSE #1 END + 1) ELSE CASE WHEN TRUE THEN (#1 + 1) ELSE #1 END END + 1) ELSE CASE WHEN TRUE THEN (CASE WHEN TRUE THEN (#1 + 1) ELSE #1 END + 1) ELSE CASE WHEN TRUE THEN (#1 + 1) ELSE #1 END END END END + 1) ELSE CASE WHEN TRUE THEN (CASE WHEN TRUE THEN (CASE WHEN TRUE THEN (CASE WHEN TRUE THEN (#1 + 1) ELSE #1 END + 1) ELSE CASE WHEN TRUE THEN (#1 + 1) ELSE #1 END END + 1) ELSE CASE WHEN TRUE THEN (CASE WHEN TRUE THEN (#1 + 1) ELSE #1 END + 1) ELSE CASE WHEN TRUE THEN (#1 + 1) ELSE #1 END END END + 1) ELSE CASE WHEN TRUE THEN (CASE WHEN TRUE THEN (CASE WHEN TRUE THEN (#1 + 1) ELSE #1 END + 1) ELSE CASE WHEN TRUE THEN (#1 + 1) ELSE #1 END END + 1) ELSE CASE WHEN TRUE THEN (CASE WHEN TRUE THEN (#1 + 1) ELSE #1 END + 1) ELSE CASE WHEN TRUE THEN (#1 + 1) ELSE #1 END END END END END, #2, CASE WHEN TRUE THEN YES ELSE CASE WHEN TRUE THEN YES ELSE CASE WHEN TRUE THEN YES ELSE CASE WHEN TRUE THEN YES ELSE CASE WHEN TRUE THEN YES ELSE #3 END END END END END), CASE WHEN TRUE THEN (CASE WHEN TRUE THEN (CASE WHEN TRUE THEN (#1 + 1) ELSE #1 END + 1) ELSE CASE WHEN TRUE THEN (#1 + 1) ELSE #1 END END + 1) ELSE CASE WHEN TRUE THEN (CASE WHEN TRUE THEN (#1 + 1) ELSE #1 END + 1) ELSE CASE WHEN TRUE THEN (#1 + 1) ELSE #1 END END END)\n",
    b"QUERY PROJECT(FILTER(SCAN(r, 1), (((#1 = 1) IS NOT TRUE) AND ((#1 = 2) IS NOT TRUE))), #1)\n",
    b"\
STEP 3 r := UNION(SCAN(r, 0), VALUES((-5, 'it''s', {2.1.1(1.1.1,1.1.2)}, YES, [i1.1.1^2*q2.1]), (NULL, '', {1.3.2}, NO, [])))
QUERY UNION(STEP(3), PROJECT(SCAN(r, 0), NEG(#1), (#1 * #2), #3, #4, #5))
",
];

/// Texts of no program: a bracket that is not closed, numbers and blanks that are written otherwise, an unknown table, no line feed.
const OTHERS: &[&[u8]] = &[
    b"QUERY PROJECT(FILTER(SCAN(r, 1), (#1 > 5)), #1\n",
    b"QUERY PROJECT(FILTER(SCAN(r, 1), (#1 > 5), #1)\n",
    b"QUERY FILTER(SCAN(r, 1)\n",
    b"QUERY PROJECT(SCAN(r, 1), -0)\n",
    b"QUERY PROJECT(SCAN(r, 01), #1)\n",
    b"QUERY PROJECT(SCAN(r, 1),  #1)\n",
    b"QUERY PROJECT(SCAN(r, 1), #1 )\n",
    b"QUERY SCAN(s, 1)\n",
    b"QUERY SCAN(r, 1)",
    b"QUERY SCAN(r, 1)\n\n",
    b"QUERY PROJECT(SCAN(r, 1))\n",
    b"QUERY PROJECT(SCAN(r, 1), 9223372036854775808)\n",
    b"query SCAN(r, 1)\n",
    b"",
];

/// Adds a table without columns.
fn add(alloc: Global, catalog: &mut Catalog, name: Name) -> Result<(), NoMemory> {
    let cols = Sequence::new(alloc);
    match catalog.add(Table { name, cols }) {
        Ok(_) => Ok(()),
        Err(_) => Err(NoMemory),
    }
}

/// The catalogue of the tables r and q. The texts of programs name tables, and no columns.
pub(crate) fn catalog(alloc: Global) -> Result<Catalog, NoMemory> {
    let mut catalog = Catalog::new(alloc);
    add(alloc, &mut catalog, Name::new(alloc, b"r")?)?;
    add(alloc, &mut catalog, Name::new(alloc, b"q")?)?;
    Ok(catalog)
}

fn is_written(
    alloc: Global,
    catalog: &Catalog,
    program: &PProgram,
    text: &[u8],
) -> Result<bool, NoMemory> {
    Ok(is_spellable(program, catalog) && write(alloc, program, catalog)?.as_slice() == text)
}

/// Whether a text is that of a program, which is written as the same text.
fn is_read(alloc: Global, catalog: &Catalog, text: &[u8]) -> Result<bool, NoMemory> {
    match read(alloc, text, catalog) {
        Ok(program) => is_written(alloc, catalog, &program, text),
        Err(_) => Ok(false),
    }
}

/// Whether a text is that of no program.
fn is_other(alloc: Global, catalog: &Catalog, text: &[u8]) -> bool {
    matches!(read(alloc, text, catalog), Err(PlanStop::NotSpelled))
}

/// Whether a text has too many open brackets.
fn is_too_deep(alloc: Global, catalog: &Catalog, text: &[u8]) -> bool {
    matches!(read(alloc, text, catalog), Err(PlanStop::TooDeep))
}

#[test]
fn printed_programs_are_read_again(rt: HostRuntime) -> Result<(), Fail> {
    let catalog = catalog(rt.alloc())?;
    for text in PROGRAMS {
        assert!(rt; is_read(rt.alloc(), &catalog, *text)?, "{text:?}");
    }
    Ok(())
}

#[test]
fn other_texts_are_not_spelled(rt: HostRuntime) -> Result<(), Fail> {
    let catalog = catalog(rt.alloc())?;
    for text in OTHERS {
        assert!(rt; is_other(rt.alloc(), &catalog, *text), "{text:?}");
    }
    Ok(())
}

/// A selection whose condition is in this many `NOT(`, which stand in two brackets more.
fn negated(alloc: Global, count: usize) -> Result<Vec<u8>, AllocError> {
    let mut text = Vec::from_slice(alloc, b"QUERY PROJECT(FILTER(SCAN(r, 1), ")?;
    for _ in 0..count {
        text.extend_from_slice(b"NOT(")?;
    }
    text.extend_from_slice(b"TRUE")?;
    for _ in 0..count {
        text.push(b')')?;
    }
    text.extend_from_slice(b"), #1)\n")?;
    Ok(text)
}

/// Up to 1,000 brackets may be open at one place.
#[test]
fn brackets_are_counted(rt: HostRuntime) -> Result<(), Fail> {
    let catalog = catalog(rt.alloc())?;
    assert!(rt; is_read(rt.alloc(), &catalog, &negated(rt.alloc(), 998)?)?);
    for count in [999, 1001, 100_000] {
        assert!(rt;
            is_too_deep(rt.alloc(), &catalog, &negated(rt.alloc(), count)?),
            "{count}"
        );
    }
    Ok(())
}
