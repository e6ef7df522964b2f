//! Plain programs, from their texts: whether they are well built, their rows and where they stop.

use crate::cases::inspect;
use crate::spelling::catalog;
use crate::values::have_texts;
use gp_algebra::{PProgram, ScanAt, is_well_built, scans};
use gp_base::{Catalog, MAX_TABLE_ROWS, NoMemory, Row, Sequence, sort_rows, text_of_pieces};
use gp_exec::{Env, ExecStop, Scanned, run, run_table};
use gp_plantext::{PlanStop, read};
use std::alloc::Global;
use std::test::Fail;

/// The text of a program, in pieces.
type Text = &'static [&'static [u8]];

/// How a program ends.
#[derive(Clone, Copy, PartialEq, Eq)]
enum End {
    /// With this many rows.
    Count(usize),
    /// A step leaves too many rows.
    Rows(u32),
    /// A step makes an identity of too many nodes.
    Ancestry(u32),
    /// The last query has too many rows.
    Answer,
    /// Memory runs out.
    NoMemory,
}

/// What is expected of a program.
#[derive(Clone, Copy)]
enum Outcome {
    /// Its rows in ascending order have these texts, each with a line feed.
    Rows(&'static str),
    /// How it ends, and how it ends in a table.
    Ends(End, End),
    /// Whether it is well built.
    Built(bool),
    /// What it scans.
    Scans(&'static [ScanAt]),
}

/// The rows of r in version 1, as a program of their own.
const TWO_ROWS: Text = &[b"QUERY VALUES((1, {1.1.1}, NO), (2, {1.1.2}, NO))\n"];

/// Programs and their rows in ascending order.
const PROGRAMS: &[(Text, Outcome)] = &[
    (
        &[b"QUERY SCAN(r, 1)\n"],
        Outcome::Rows("1, {1.1.1}, NO\n2, {1.1.2}, NO\n"),
    ),
    (&[b"QUERY SCAN(r, 0)\n"], Outcome::Rows("")),
    (&[b"QUERY SCAN(q, 1)\n"], Outcome::Rows("")),
    // `INSERT INTO r SELECT x.a + y.a FROM r x, r y` as statement 1 of transaction 2.
    (
        &[
            b"STEP 1 r := ",
            PAIRS,
            b"\nQUERY PROJECT(STEP(1), #1, #2)\n",
        ],
        Outcome::Rows(
            "1, {1.1.1}\n2, {1.1.2}\n2, {2.1.1(1.1.1,1.1.1)}\n3, {2.1.1(1.1.1,1.1.2)}\n3, {2.1.1(1.1.2,1.1.1)}\n4, {2.1.1(1.1.2,1.1.2)}\n",
        ),
    ),
    // A step that is read again keeps its rows, though an INSERT appends to them.
    (
        &[
            b"STEP 1 r := SCAN(r, 1)\n",
            b"STEP 2 r := UNION(STEP(1), VALUES((9, {2.1.1}, YES)))\n",
            b"STEP 3 r := UNION(STEP(2), STEP(1))\n",
            b"QUERY UNION(STEP(3), STEP(2))\n",
        ],
        Outcome::Rows(
            "1, {1.1.1}, NO\n1, {1.1.1}, NO\n1, {1.1.1}, NO\n2, {1.1.2}, NO\n2, {1.1.2}, NO\n2, {1.1.2}, NO\n9, {2.1.1}, YES\n9, {2.1.1}, YES\n",
        ),
    ),
    // An INSERT may read the rows that it appends to.
    (
        &[
            b"STEP 1 r := SCAN(r, 1)\n",
            b"STEP 2 r := UNION(STEP(1), PROJECT(STEP(1), #1, ID(2, 1, 1, #2), YES))\n",
            b"QUERY PROJECT(STEP(2), #1, #2)\n",
        ],
        Outcome::Rows("1, {1.1.1}\n1, {2.1.1(1.1.1)}\n2, {1.1.2}\n2, {2.1.1(1.1.2)}\n"),
    ),
    (
        &[b"QUERY FILTER(SCAN(r, 1), (#1 = 1))\n"],
        Outcome::Rows("1, {1.1.1}, NO\n"),
    ),
    (
        &[b"QUERY FILTER(SCAN(r, 1), (#1 = NULL))\n"],
        Outcome::Rows(""),
    ),
    (
        &[b"QUERY FILTER(SCAN(r, 1), ((#1 = NULL) IS NOT TRUE))\n"],
        Outcome::Rows("1, {1.1.1}, NO\n2, {1.1.2}, NO\n"),
    ),
    (
        &[b"QUERY FILTER(SCAN(r, 1), ((#1 = 1) IS NOT TRUE))\n"],
        Outcome::Rows("2, {1.1.2}, NO\n"),
    ),
    // A number and the text that spells it join nothing, and NULL joins nothing, not even NULL.
    (
        &[
            b"QUERY FILTER(PRODUCT(VALUES((NULL), (1), ('1')), VALUES(('1'), (1), (NULL), (1))), (#1 = #2))\n",
        ],
        Outcome::Rows("1, 1\n1, 1\n'1', '1'\n"),
    ),
    (
        &[
            b"QUERY PUBLISH(2, SCAN(r, 1), VALUES((7, {1.1.1}, YES)), VALUES((1, {1.1.1}, NO), (2, {1.1.2}, NO), (3, {5.1.1}, NO)))\n",
        ],
        Outcome::Rows("3, {5.1.1}, NO\n7, {1.1.1}, YES\n"),
    ),
];

/// A row for each pair of rows of r, behind those.
const PAIRS: &[u8] =
    b"UNION(SCAN(r, 1), PROJECT(PRODUCT(SCAN(r, 1), SCAN(r, 1)), (#1 + #4), ID(2, 1, 1, #2, #5), YES))";

/// As many rows as a table may have after an INSERT.
const TEN_THOUSAND: &[u8] = b"PRODUCT(\
    PRODUCT(VALUES((1), (2), (3), (4), (5), (6), (7), (8), (9), (10)), VALUES((1), (2), (3), (4), (5), (6), (7), (8), (9), (10))), \
    PRODUCT(VALUES((1), (2), (3), (4), (5), (6), (7), (8), (9), (10)), VALUES((1), (2), (3), (4), (5), (6), (7), (8), (9), (10))))";

/// As many rows as an answer may have, before the rows above and a bracket.
const FIVE_TIMES: &[u8] = b"PRODUCT(VALUES((1), (2), (3), (4), (5)), ";

const NOTHING: &[u8] = b"FILTER(VALUES((1)), (#1 = 2))";

/// A last query without rows.
const NO_QUERY: &[u8] = b"\nQUERY FILTER(VALUES((1)), (#1 = 2))\n";

/// An INSERT into a table without rows, up to what it appends.
const TO_NOTHING: &[u8] = b"STEP 3 r := UNION(FILTER(VALUES((1)), (#1 = 2)), ";

const ONE: &[u8] = b"VALUES((1))";

/// Sources of sixty nodes, with a comma behind.
const SIXTY_NODES: &[u8] = b"\
    1.1.1(1.1.1,1.1.1,1.1.1,1.1.1,1.1.1,1.1.1,1.1.1,1.1.1,1.1.1),\
    1.1.1(1.1.1,1.1.1,1.1.1,1.1.1,1.1.1,1.1.1,1.1.1,1.1.1,1.1.1),\
    1.1.1(1.1.1,1.1.1,1.1.1,1.1.1,1.1.1,1.1.1,1.1.1,1.1.1,1.1.1),\
    1.1.1(1.1.1,1.1.1,1.1.1,1.1.1,1.1.1,1.1.1,1.1.1,1.1.1,1.1.1),\
    1.1.1(1.1.1,1.1.1,1.1.1,1.1.1,1.1.1,1.1.1,1.1.1,1.1.1,1.1.1),\
    1.1.1(1.1.1,1.1.1,1.1.1,1.1.1,1.1.1,1.1.1,1.1.1,1.1.1,1.1.1),";

/// Sixty times the first column, with a comma behind.
const SIXTY_COLUMNS: &[u8] = b"\
    #1, #1, #1, #1, #1, #1, #1, #1, #1, #1, #1, #1, #1, #1, #1, #1, #1, #1, #1, #1, \
    #1, #1, #1, #1, #1, #1, #1, #1, #1, #1, #1, #1, #1, #1, #1, #1, #1, #1, #1, #1, \
    #1, #1, #1, #1, #1, #1, #1, #1, #1, #1, #1, #1, #1, #1, #1, #1, #1, #1, #1, #1, ";

/// Programs, how they end and how they end in a table.
const ENDS: &[(Text, Outcome)] = &[
    (
        &[
            b"STEP 3 r := UNION(",
            TEN_THOUSAND,
            b", ",
            NOTHING,
            b")",
            NO_QUERY,
        ],
        Outcome::Ends(End::Count(0), End::Count(0)),
    ),
    (
        &[
            b"STEP 3 r := UNION(",
            TEN_THOUSAND,
            b", ",
            ONE,
            b")",
            NO_QUERY,
        ],
        Outcome::Ends(End::Rows(3), End::Rows(3)),
    ),
    // Only an INSERT step is limited.
    (
        &[b"STEP 3 r := ", FIVE_TIMES, TEN_THOUSAND, b")", NO_QUERY],
        Outcome::Ends(End::Count(0), End::Count(0)),
    ),
    // A new identity of 64 nodes, whose only source has 63, and one that would have 65.
    (
        &[
            TO_NOTHING,
            b"PROJECT(VALUES(({1.1.1(",
            SIXTY_NODES,
            b"1.1.1,1.1.1)})), ID(2, 1, 1, #1)))\nQUERY STEP(3)\n",
        ],
        Outcome::Ends(End::Count(1), End::Count(1)),
    ),
    (
        &[
            TO_NOTHING,
            b"PROJECT(VALUES(({1.1.1(",
            SIXTY_NODES,
            b"1.1.1,1.1.1,1.1.1)})), ID(2, 1, 1, #1)))",
            NO_QUERY,
        ],
        Outcome::Ends(End::Ancestry(3), End::Ancestry(3)),
    ),
    // A new identity of 64 nodes, whose 63 sources have one each, and one that would have 65.
    (
        &[
            TO_NOTHING,
            b"PROJECT(VALUES(({1.1.1})), ID(2, 1, 1, ",
            SIXTY_COLUMNS,
            b"#1, #1, #1)))\nQUERY STEP(3)\n",
        ],
        Outcome::Ends(End::Count(1), End::Count(1)),
    ),
    (
        &[
            TO_NOTHING,
            b"PROJECT(VALUES(({1.1.1})), ID(2, 1, 1, ",
            SIXTY_COLUMNS,
            b"#1, #1, #1, #1)))",
            NO_QUERY,
        ],
        Outcome::Ends(End::Ancestry(3), End::Ancestry(3)),
    ),
    // A step that passes both limits.
    (
        &[
            b"STEP 3 r := UNION(PROJECT(VALUES(({1.1.1(",
            SIXTY_NODES,
            b"1.1.1,1.1.1,1.1.1)})), ID(2, 1, 1, #1)), ",
            TEN_THOUSAND,
            b")",
            NO_QUERY,
        ],
        Outcome::Ends(End::Rows(3), End::Rows(3)),
    ),
    // The first step that stops decides, whatever the later ones do.
    (
        &[
            TO_NOTHING,
            b"PROJECT(VALUES(({1.1.1(",
            SIXTY_NODES,
            b"1.1.1,1.1.1,1.1.1)})), ID(2, 1, 1, #1)))\nSTEP 4 r := UNION(",
            TEN_THOUSAND,
            b", ",
            ONE,
            b")",
            NO_QUERY,
        ],
        Outcome::Ends(End::Ancestry(3), End::Ancestry(3)),
    ),
    (
        &[b"QUERY ", FIVE_TIMES, TEN_THOUSAND, b")\n"],
        Outcome::Ends(End::Count(50_000), End::Count(50_000)),
    ),
    (
        &[
            b"QUERY UNION(",
            FIVE_TIMES,
            TEN_THOUSAND,
            b"), ",
            ONE,
            b")\n",
        ],
        Outcome::Ends(End::Answer, End::Count(50_001)),
    ),
];

/// Programs, and whether they are well built.
const BUILT: &[(Text, Outcome)] = &[
    (
        &[
            b"STEP 1 r := ",
            PAIRS,
            b"\nSTEP 2 r := STEP(1)\nQUERY STEP(2)\n",
        ],
        Outcome::Built(true),
    ),
    // A step is read before it is there.
    (
        &[b"STEP 1 r := STEP(2)\nSTEP 2 r := SCAN(r, 1)\nQUERY STEP(2)\n"],
        Outcome::Built(false),
    ),
    (
        &[b"STEP 1 r := STEP(1)\nQUERY SCAN(r, 1)\n"],
        Outcome::Built(false),
    ),
    (
        &[b"STEP 1 r := SCAN(r, 1)\nQUERY STEP(2)\n"],
        Outcome::Built(false),
    ),
    // Steps do not rise.
    (
        &[b"STEP 2 r := SCAN(r, 1)\nSTEP 1 r := SCAN(r, 1)\nQUERY SCAN(r, 1)\n"],
        Outcome::Built(false),
    ),
    (
        &[b"STEP 1 r := SCAN(r, 1)\nSTEP 1 r := SCAN(r, 1)\nQUERY SCAN(r, 1)\n"],
        Outcome::Built(false),
    ),
    // Only an INSERT makes identities.
    (&[b"QUERY ", PAIRS, b"\n"], Outcome::Built(false)),
    (
        &[
            b"STEP 1 r := PROJECT(VALUES(({1.1.1})), ID(2, 1, 1, ",
            SIXTY_COLUMNS,
            b"#1, #1, #1))\nQUERY SCAN(r, 1)\n",
        ],
        Outcome::Built(false),
    ),
];

/// A program that scans one table twice. What it scans is ascending.
const SCANS: &[(Text, Outcome)] = &[(
    &[b"STEP 1 r := SCAN(q, 0)\nQUERY UNION(SCAN(r, 2), SCAN(q, 0))\n"],
    Outcome::Scans(&[
        ScanAt {
            table: 0,
            version: 2,
        },
        ScanAt {
            table: 1,
            version: 0,
        },
    ]),
)];

fn program_of(alloc: Global, catalog: &Catalog, text: Text) -> Result<PProgram, PlanStop> {
    let bytes = text_of_pieces(alloc, text)?;
    read(alloc, &bytes, catalog)
}

/// The rows of a program that scans nothing.
fn rows_of(alloc: Global, program: &Result<PProgram, PlanStop>) -> Result<Vec<Row>, ExecStop> {
    let env = Env {
        scans: Sequence::new(alloc),
    };
    match program {
        Ok(program) if is_well_built(program) => run(alloc, program, &env),
        _ => Err(ExecStop::NoMemory),
    }
}

/// The rows of r in version 1.
fn scanned(alloc: Global, catalog: &Catalog) -> Result<Scanned, NoMemory> {
    let at = ScanAt {
        table: 0,
        version: 1,
    };
    match inspect(program_of(alloc, catalog, TWO_ROWS), |program| {
        rows_of(alloc, program)
    }) {
        Ok(rows) => Ok(Scanned {
            at,
            rows: Sequence::from_vec(rows),
        }),
        Err(_) => Err(NoMemory),
    }
}

/// The rows of the tables: those of r in version 1.
fn tables(alloc: Global, catalog: &Catalog) -> Result<Env, NoMemory> {
    let mut scans = Sequence::new(alloc);
    scans.push(scanned(alloc, catalog)?)?;
    Ok(Env { scans })
}

/// Whether there are rows, and in ascending order they have these texts, each with a line feed.
fn have_sorted_texts(alloc: Global, outcome: Result<Vec<Row>, ExecStop>, texts: &str) -> bool {
    match outcome {
        Ok(mut rows) => sort_rows(&mut rows).is_ok() && have_texts(alloc, &rows, texts),
        Err(_) => false,
    }
}

fn end_of(outcome: Result<Vec<Row>, ExecStop>) -> End {
    match &outcome {
        Ok(rows) => End::Count(rows.len()),
        Err(ExecStop::Rows { j }) => End::Rows(*j),
        Err(ExecStop::Ancestry { j }) => End::Ancestry(*j),
        Err(ExecStop::Answer) => End::Answer,
        Err(ExecStop::NoMemory) => End::NoMemory,
    }
}

fn is_outcome(alloc: Global, env: &Env, program: &PProgram, expected: Outcome) -> bool {
    match expected {
        Outcome::Rows(texts) => {
            is_well_built(program) && have_sorted_texts(alloc, run(alloc, program, env), texts)
        }
        Outcome::Ends(answer, table) => {
            is_well_built(program)
                && end_of(run(alloc, program, env)) == answer
                && end_of(run_table(alloc, program, env, MAX_TABLE_ROWS)) == table
        }
        Outcome::Built(built) => is_well_built(program) == built,
        Outcome::Scans(expected) => {
            matches!(scans(alloc, program), Ok(found) if found.as_slice() == expected)
        }
    }
}

/// Whether the text is that of a program with the expected outcome.
fn has_outcome(alloc: Global, catalog: &Catalog, env: &Env, text: Text, expected: Outcome) -> bool {
    inspect(program_of(alloc, catalog, text), |program| {
        matches!(program, Ok(program) if is_outcome(alloc, env, program, expected))
    })
}

/// The place of the first program that does not have its outcome.
fn first_wrong(
    alloc: Global,
    catalog: &Catalog,
    env: &Env,
    cases: &[(Text, Outcome)],
) -> Option<usize> {
    for (place, (text, expected)) in cases.iter().enumerate() {
        if !has_outcome(alloc, catalog, env, *text, *expected) {
            return Some(place);
        }
    }
    None
}

#[test]
fn programs_have_outcomes(rt: HostRuntime) -> Result<(), Fail> {
    let catalog = catalog(rt.alloc())?;
    let env = tables(rt.alloc(), &catalog)?;
    for cases in [PROGRAMS, ENDS, BUILT, SCANS] {
        assert_eq!(rt; first_wrong(rt.alloc(), &catalog, &env, cases), None);
    }
    Ok(())
}
