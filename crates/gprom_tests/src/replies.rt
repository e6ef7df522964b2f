//! The texts of replies.

use gp_base::{Catalog, Cell, NoMemory, Refusal, Row, Sequence, Text};
use gp_machine::Reply;
use gp_script::{replies_have_no_annotations, write_reply};
use std::alloc::Global;
use std::test::Fail;

fn row_with(alloc: Global, cell: Cell) -> Result<Row, NoMemory> {
    let mut row = Row::new(alloc);
    row.push(cell)?;
    Ok(row)
}

/// The rows of these numbers, of two NULLs and of this text.
fn rows_of(alloc: Global, numbers: &[i64], text: &[u8]) -> Result<Reply, NoMemory> {
    let mut rows = Sequence::new(alloc);
    rows.push(row_with(alloc, Cell::Text(Text::from_bytes(alloc, text)?))?)?;
    for number in numbers {
        rows.push(row_with(alloc, Cell::Int(*number))?)?;
        rows.push(row_with(alloc, Cell::Null)?)?;
    }
    Ok(Reply::Rows(rows))
}

/// Whether the reply of this line is appended to the text `before`, line feed included, so.
fn appends(alloc: Global, number: u32, reply: Reply, expected: &[u8]) -> bool {
    let mut out = Vec::new(alloc);
    out.extend_from_slice(b"before\n").is_ok()
        && write_reply(alloc, number, &Catalog::new(alloc), reply, &mut out).is_ok()
        && out.as_slice() == expected
}

#[test]
fn rows_are_appended(rt: HostRuntime) -> Result<(), Fail> {
    replies_have_no_annotations::<u64>();
    let rows = rows_of(rt.alloc(), &[i64::MAX, i64::MIN], b"-1")?;
    assert!(rt; !rows.is_refusal());
    let expected = b"\
before
3 rows 5
  NULL
  NULL
  -9223372036854775808
  9223372036854775807
  '-1'
";
    assert!(rt; appends(rt.alloc(), 3, rows, expected));
    Ok(())
}

#[test]
fn refusals_are_appended(rt: HostRuntime) {
    assert!(rt; Reply::Refused(Refusal::E10).is_refusal());
    let expected = b"before\n40 E10 no transaction\n";
    assert!(rt; appends(rt.alloc(), 40, Reply::Refused(Refusal::E10), expected));
}
