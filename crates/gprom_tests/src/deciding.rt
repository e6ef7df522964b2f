//! Questions about rows, decided by a backend alone.

ghost use Rattle.gp_dump.specs.WholeDumps.{IsDump};
ghost use Rattle.gp_dump.specs.Views.{dump_view};

use crate::backend::fixed_answer;
use crate::scans::DUMP;
use gp_ask::write_answer;
use gp_base::NoMemory;
use gp_dump::{Dump, read_dump};
use std::alloc::Global;
use std::test::Fail;

/// Whether the fixed backend gives this answer to a line.
fn has_answer(alloc: Global, dump: &Dump, line: &[u8], answer: &[u8]) -> Result<bool, NoMemory>
    requires rules { IsDump (dump_view dump.now) }
{
    let mut out = Vec::new(alloc);
    write_answer(alloc, 1, fixed_answer(alloc, dump, line)?, &mut out)?;
    Ok(out.as_slice() == answer)
}

/// Whether the dump gives this answer to a line over the fixed backend.
fn gives(alloc: Global, line: &[u8], answer: &[u8]) -> Result<bool, NoMemory> {
    match read_dump(alloc, DUMP) {
        Ok(dump) => has_answer(alloc, &dump, line, answer),
        Err(_) => Ok(false),
    }
}

/// Questions, and their answers: the rows of the backend in row order, unless the question is refused first.
const ANSWERS: &[(&[u8], &[u8])] = &[
    (
        b"REENACT 2 AFTER 2 SELECT * FROM r",
        b"1 rows 2\n  3\n  7\n",
    ),
    (b"REENACT 2 COMMIT SELECT * FROM r", b"1 rows 2\n  3\n  7\n"),
    (b"AS OF 0 SELECT a FROM r", b"1 rows 2\n  3\n  7\n"),
    (
        b"REENACT 3 COMMIT SELECT * FROM r",
        b"1 E21 transaction 3 is lost\n",
    ),
    (b"AS OF 2 SELECT * FROM t", b"1 E04 no table t\n"),
];

#[test]
fn the_backend_decides(rt: HostRuntime) -> Result<(), Fail> {
    for (line, answer) in ANSWERS {
        assert!(rt; gives(rt.alloc(), line, answer)?, "{line:?}");
    }
    Ok(())
}
