//! The lines of a dump as texts.

ghost use Rattle.std.specs.Prelude.{◌≡◌, ◌++◌, IfOk, OnOk, OnErr, ℕ};
ghost use Rattle.gp_base.specs.DirectWriting.{AppendsPrefix};
ghost use Rattle.gp_base.specs.Identities.{identity_text};
ghost use Rattle.gp_log.specs.Discipline.{said_by};
ghost use Rattle.gp_log.specs.Logs.{entry_view, what_view};
ghost use Rattle.gp_dumpline.specs.Said.{begins_read_committed};
ghost use Rattle.gp_dumpline.specs.Texts.{count_text, entry_text, said_text, section_text, span_text};
ghost use Rattle.gp_dumpline.specs.Writing.{numbers_text, versions_text};

use crate::said::{LOST, begins};
use gp_base::{NoMemory, RowId, append_all, text_of_pieces, write_id, write_row};
use gp_log::{Entry, What};
use gp_syntax::{Command, write_command};
use gp_versions::Span;
use itoa::Buffer;
use std::alloc::Global;

/// Appends `log N`, which announces this many log lines. If memory runs out, `out` is unchanged.
pub fn write_count(alloc: Global, lines: u32, out: &mut Vec<u8>) -> Result<(), NoMemory>
    ensures ok { OnOk result (out.new.items ≡ out.old.items ++ count_text lines) }
    ensures unchanged { OnErr result (out.new.items ≡ out.old.items) }
{
    let lines = lines.to_string(alloc)?;
    let text = text_of_pieces(alloc, &[b"log ", lines.as_bytes()])?;
    out.extend_from_slice(&text)?;
    Ok(())
}

/// Appends `table NAME N`, which announces this many row lines of the table of this name. If memory runs out, `out` is
/// unchanged.
pub fn write_section(
    alloc: Global,
    name: &[u8],
    rows: u32,
    out: &mut Vec<u8>,
) -> Result<(), NoMemory>
    ensures ok { OnOk result (out.new.items ≡ out.old.items ++ section_text name.now rows) }
    ensures unchanged { OnErr result (out.new.items ≡ out.old.items) }
{
    let rows = rows.to_string(alloc)?;
    let text = text_of_pieces(alloc, &[b"table ", name, b" ", rows.as_bytes()])?;
    out.extend_from_slice(&text)?;
    Ok(())
}

/// Whether the line of an entry says BEGIN READ COMMITTED, which only the second format has.
pub fn begins_read_committed(entry: &Entry) -> bool
    ensures { result ≡ begins_read_committed (said_by (entry_view entry.now)) }
{
    match &entry.what {
        What::Begin { read_committed } => *read_committed,
        What::Statement { command, .. } => begins(command.as_ref()),
        What::Create(_) => false,
        What::Commit => false,
        What::Lost => false,
        What::Rollback => false,
    }
}

/// What the line of an entry says.
fn said(alloc: Global, what: &What) -> Result<Vec<u8>, NoMemory>
    ensures { IfOk result (λ text. (line session t : ℕ)
        → text.items ≡ said_text (said_by (what_view line session t what.now))) }
{
    match what {
        What::Create(table) => {
            let table = table.clone()?;
            write_command(alloc, &Command::Create { table })
        }
        What::Begin { read_committed } => {
            let read_committed = *read_committed;
            write_command(alloc, &Command::Begin { read_committed })
        }
        What::Statement { command, .. } => write_command(alloc, command.as_ref()),
        What::Commit => write_command(alloc, &Command::Commit),
        What::Lost => text_of_pieces(alloc, &[LOST]),
        What::Rollback => write_command(alloc, &Command::Rollback),
    }
}

/// Appends the log line of an entry: its line, its session, and the canonical text of its command, or `LOST`. If memory
/// runs out, a prefix of that line has been appended.
pub fn append_entry(alloc: Global, entry: &Entry, out: &mut Vec<u8>) -> Result<(), NoMemory>
    ensures ok { OnOk result (out.new.items ≡ out.old.items ++ entry_text (entry_view entry.now)) }
    ensures err { OnErr result
        (AppendsPrefix out.old.items out.new.items (entry_text (entry_view entry.now))) }
{
    let said = said(alloc, &entry.what)?;
    let mut buffers = (Buffer::new(), Buffer::new());
    let line = buffers.0.format(entry.line).as_bytes();
    let session = buffers.1.format(entry.session).as_bytes();
    append_all(out, &[line, b" s", session, b" ", &said])
}

/// Appends the log line of an entry, as [`append_entry`]. If memory runs out, `out` is unchanged.
pub fn write_entry(alloc: Global, entry: &Entry, out: &mut Vec<u8>) -> Result<(), NoMemory>
    ensures ok { OnOk result (out.new.items ≡ out.old.items ++ entry_text (entry_view entry.now)) }
    ensures unchanged { OnErr result (out.new.items ≡ out.old.items) }
{
    let mut text = Vec::new(alloc);
    append_entry(alloc, entry, &mut text)?;
    out.extend_from_slice(&text)?;
    Ok(())
}

/// Appends the three numbers of an identity.
fn append_numbers(t: u32, k: u32, n: u32, out: &mut Vec<u8>) -> Result<(), NoMemory>
    ensures ok { OnOk result (out.new.items ≡ out.old.items ++ numbers_text t k n) }
    ensures err { OnErr result
        (AppendsPrefix out.old.items out.new.items (numbers_text t k n)) }
{
    let mut buffers = (Buffer::new(), Buffer::new(), Buffer::new());
    let t = buffers.0.format(t).as_bytes();
    let k = buffers.1.format(k).as_bytes();
    let n = buffers.2.format(n).as_bytes();
    append_all(out, &[t, b".", k, b".", n])
}

/// Appends an identity. One without sources, as most are, takes no text of its own.
fn append_id(alloc: Global, id: &RowId, out: &mut Vec<u8>) -> Result<(), NoMemory>
    ensures ok { OnOk result (out.new.items ≡ out.old.items ++ identity_text id.now) }
    ensures err { OnErr result
        (AppendsPrefix out.old.items out.new.items (identity_text id.now)) }
{
    if id.sources().is_empty() {
        append_numbers(id.t(), id.k(), id.n(), out)?;
        return Ok(());
    }
    write_id(alloc, id, out)?;
    Ok(())
}

/// Appends the versions at which a span begins and ends, in spaces.
fn append_versions(from: u32, to: Option<u32>, out: &mut Vec<u8>) -> Result<(), NoMemory>
    ensures ok { OnOk result (out.new.items ≡ out.old.items ++ versions_text from to) }
    ensures err { OnErr result
        (AppendsPrefix out.old.items out.new.items (versions_text from to)) }
{
    let mut buffers = (Buffer::new(), Buffer::new());
    let from = buffers.0.format(from).as_bytes();
    match to {
        None => append_all(out, &[b" ", from, b" - "]),
        Some(version) => {
            let to = buffers.1.format(version).as_bytes();
            append_all(out, &[b" ", from, b" ", to, b" "])
        }
    }
}

/// Appends the row line of a span: its identity, the versions at which it begins and ends (`-` where it has not ended),
/// and its cells. If memory runs out, a prefix of that line has been appended.
pub fn append_span(alloc: Global, span: &Span, out: &mut Vec<u8>) -> Result<(), NoMemory>
    ensures ok { OnOk result (out.new.items ≡ out.old.items ++ span_text span.now) }
    ensures err { OnErr result (AppendsPrefix out.old.items out.new.items (span_text span.now)) }
{
    append_id(alloc, &span.id, out)?;
    append_versions(span.from, span.to, out)?;
    write_row(alloc, &span.row, out)?;
    Ok(())
}

/// Appends the row line of a span, as [`append_span`]. If memory runs out, `out` is unchanged.
pub fn write_span(alloc: Global, span: &Span, out: &mut Vec<u8>) -> Result<(), NoMemory>
    ensures ok { OnOk result (out.new.items ≡ out.old.items ++ span_text span.now) }
    ensures unchanged { OnErr result (out.new.items ≡ out.old.items) }
{
    let mut text = Vec::new(alloc);
    append_span(alloc, span, &mut text)?;
    out.extend_from_slice(&text)?;
    Ok(())
}
