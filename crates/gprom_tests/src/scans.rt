//! The rows of past versions, as a plain program scans them.

use gp_algebra::ScanAt;
use gp_base::{NoMemory, write_row};
use gp_dump::{Dump, read_dump};
use gp_reenact::env_at;
use std::alloc::Global;
use std::test::Fail;

/// Transaction 2 changes a row and deletes another, and transaction 3 is lost to it.
pub(crate) const DUMP: &[u8] = b"\
gprom-dump 1
log 11
1 s1 CREATE TABLE r (a INT)
2 s1 BEGIN
3 s1 INSERT INTO r VALUES (1), (2)
4 s1 COMMIT
5 s1 BEGIN
6 s2 BEGIN
7 s1 UPDATE r SET a = 5 WHERE (a = 1)
8 s2 UPDATE r SET a = 6
9 s1 DELETE FROM r WHERE (a = 2)
10 s1 COMMIT
11 s2 LOST
table r 3
1.1.1 1 2 1
1.1.1 2 - 5
1.1.2 1 2 2
end
";

/// A table, a version, and the rows of the table there: the cells, the identity and the mark of each.
type Scan = (u32, u32, &'static [u8]);

const SCANS: &[Scan] = &[
    (0, 0, b""),
    (0, 1, b"1, {1.1.1}, NO\n2, {1.1.2}, NO\n"),
    (0, 2, b"5, {1.1.1}, NO\n"),
    (0, 3, b"5, {1.1.1}, NO\n"),
    // There is no such table.
    (1, 1, b""),
];

fn rows_text(alloc: Global, dump: &Dump, at: ScanAt) -> Result<Vec<u8>, NoMemory> {
    let env = env_at(alloc, dump.versions.as_slice(), &[at])?;
    let mut out = Vec::new(alloc);
    for scan in env.scans.as_slice() {
        for row in scan.rows.as_slice() {
            write_row(alloc, row, &mut out)?;
            out.push(b'\n')?;
        }
    }
    Ok(out)
}

/// Whether a table has these rows in a version.
fn has_rows(alloc: Global, at: ScanAt, rows: &[u8]) -> Result<bool, NoMemory> {
    match read_dump(alloc, DUMP) {
        Ok(dump) => Ok(rows_text(alloc, &dump, at)?.as_slice() == rows),
        Err(_) => Ok(false),
    }
}

#[test]
fn past_versions_are_scanned(rt: HostRuntime) -> Result<(), Fail> {
    for (table, version, rows) in SCANS {
        let at = ScanAt {
            table: *table,
            version: *version,
        };
        assert!(rt; has_rows(rt.alloc(), at, *rows)?, "at {table} in {version}");
    }
    Ok(())
}
