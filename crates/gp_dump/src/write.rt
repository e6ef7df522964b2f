//! The writer of dumps. It appends line by line to one output, and sorts the row versions of each table once.

ghost use Rattle.std.specs.Prelude.{◌≡◌, ◌++◌, ◌<◌, IfOk, OnOk, length};
ghost use Rattle.std.specs.List.{All, flat_map};
ghost use Rattle.gp_base.specs.Order.{sorted_by};
ghost use Rattle.gp_versions.specs.Spans.{span_cmp};
ghost use Rattle.gp_dumpline.specs.Texts.{count_text, end_text, header};
ghost use Rattle.gp_dump.specs.Dumps.{has_read_committed, with_newline, sections_texts, written_text};
ghost use Rattle.gp_dump.specs.WholeDumps.{dump_with};
ghost use Rattle.gp_dump.specs.Views.{tables_view};
ghost use Rattle.gp_dump.specs.Writing.{log_line_text, ordered, place_text, row_line_text, section_texts};
ghost use Rattle.gp_log.specs.Contents.{entries, tables};

use gp_base::{Catalog, NoMemory, Table};
use gp_dumpline::{
    END, append_entry, append_span, begins_read_committed, header, write_count, write_section,
};
use gp_log::{Entry, Log};
use gp_versions::{Span, VersionTable};
use std::alloc::Global;

/// Whether BEGIN READ COMMITTED is in the log.
#[tactic(auto, using(crate::proofs::FormatLemmas::format_steps))]
fn has_read_committed(log: &Log) -> bool
    ensures { result ≡ has_read_committed (entries log.now) }
{
    let mut place = log.len();
    while place > 0 {
        place -= 1;
        if begins_read_committed(log.entry(place)) {
            return true;
        }
    }
    false
}

/// Appends the first two lines.
fn write_head(alloc: Global, second: bool, lines: u32, out: &mut Vec<u8>) -> Result<(), NoMemory>
    ensures ok { OnOk result (out.new.items
        ≡ out.old.items ++ (with_newline (header second) ++ with_newline (count_text lines))) }
{
    out.extend_from_slice(header(second))?;
    out.push(b'\n')?;
    write_count(alloc, lines, out)?;
    out.push(b'\n')?;
    Ok(())
}

/// Appends the log line of an entry.
fn write_log_line(alloc: Global, entry: &Entry, out: &mut Vec<u8>) -> Result<(), NoMemory>
    ensures ok { OnOk result (out.new.items ≡ out.old.items ++ log_line_text entry.now) }
{
    append_entry(alloc, entry, out)?;
    out.push(b'\n')?;
    Ok(())
}

/// Appends the log lines, the oldest entry first.
fn write_log(alloc: Global, log: &Log, out: &mut Vec<u8>) -> Result<(), NoMemory>
    ensures ok { OnOk result (out.new.items
        ≡ out.old.items ++ flat_map log_line_text log.now.entries) }
{
    for place in 0..log.len() {
        write_log_line(alloc, log.entry(place), out)?;
    }
    Ok(())
}

/// Appends the row line of a span.
fn write_row_line(alloc: Global, span: &Span, out: &mut Vec<u8>) -> Result<(), NoMemory>
    ensures ok { OnOk result (out.new.items ≡ out.old.items ++ row_line_text span.now) }
{
    append_span(alloc, span, out)?;
    out.push(b'\n')?;
    Ok(())
}

/// Appends the row lines of the spans at these places.
fn write_row_lines(
    alloc: Global,
    versions: &VersionTable,
    places: &[u32],
    out: &mut Vec<u8>,
) -> Result<(), NoMemory>
    requires within { All (λ place. place < length versions.now.spans) places.now }
    ensures ok { OnOk result (out.new.items
        ≡ out.old.items ++ flat_map (place_text versions.now.spans) places.now) }
{
    for place in places {
        write_row_line(alloc, versions.span(*place), out)?;
    }
    Ok(())
}

/// Appends the row lines of a table, in order of identity, and for one identity in order of their beginning.
fn write_rows(alloc: Global, versions: &VersionTable, out: &mut Vec<u8>) -> Result<(), NoMemory>
    ensures ok { OnOk result (out.new.items
        ≡ out.old.items ++ flat_map row_line_text (sorted_by span_cmp versions.now.spans)) }
{
    // The spans are apart, so no two of them tie, and there is one order.
    let _spans = versions.as_slice();
    let places = versions.spans(alloc)?;
    write_row_lines(alloc, versions, &places, out)?;
    Ok(())
}

/// Appends the lines of a table. Row versions that 32 bits cannot count run out of memory.
fn write_table(
    alloc: Global,
    table: &Table,
    versions: &VersionTable,
    out: &mut Vec<u8>,
) -> Result<(), NoMemory>
    ensures ok { OnOk result (out.new.items ≡ out.old.items
        ++ flat_map with_newline
        (section_texts table.now (sorted_by span_cmp versions.now.spans))) }
{
    let Ok(rows) = u32::try_from(versions.len()) else {
        return Err(NoMemory);
    };
    write_section(alloc, table.name.as_bytes(), rows, out)?;
    out.push(b'\n')?;
    write_rows(alloc, versions, out)?;
    Ok(())
}

/// Appends the lines of all tables, in order of creation.
fn write_tables(
    alloc: Global,
    tables: &Catalog,
    versions: &[VersionTable],
    out: &mut Vec<u8>,
) -> Result<(), NoMemory>
    requires same { length versions.now ≡ length tables.now }
    ensures ok { OnOk result (out.new.items ≡ out.old.items
        ++ flat_map with_newline (sections_texts tables.now (ordered versions.now))) }
{
    for place in 0..tables.len() {
        write_table(alloc, tables.table(place), &versions[place as usize], out)?;
    }
    Ok(())
}

/// Appends the last line.
fn write_end(out: &mut Vec<u8>) -> Result<(), NoMemory>
    ensures ok { OnOk result (out.new.items ≡ out.old.items ++ with_newline end_text) }
{
    out.extend_from_slice(END)?;
    out.push(b'\n')?;
    Ok(())
}

/// The dump of a log and of the row versions of its tables: the text that [`crate::read_dump`] reads, in the second format only
/// if BEGIN READ COMMITTED is in the log. The only error is to run out of memory.
pub fn write_dump(alloc: Global, log: &Log, versions: &[VersionTable]) -> Result<Vec<u8>, NoMemory>
    requires same { length versions.now ≡ length (tables log.now) }
    ensures text { IfOk result (λ text. text.items
        ≡ written_text (dump_with (entries log.now) (tables_view versions.now))) }
{
    let mut out = Vec::new(alloc);
    write_head(alloc, has_read_committed(log), log.len(), &mut out)?;
    write_log(alloc, log, &mut out)?;
    write_tables(alloc, log.catalog(), versions, &mut out)?;
    write_end(&mut out)?;
    Ok(out)
}
