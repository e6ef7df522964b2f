//! The texts of replies.

ghost use Rattle.std.specs.Prelude.{◌≡◌, ◌++◌, IfOk, OnOk, OnErr, List};
ghost use Rattle.gp_base.specs.declared.table.Table.{Table};
ghost use Rattle.gp_script.specs.Replies.{line_text};
ghost use Rattle.gp_machine.specs.Event.{name_at};

use gp_base::{Catalog, NoMemory, refused_text, rows_text, short_text};
use gp_machine::Reply;
use std::alloc::Global;

/// The name of the table at a place, or nothing if there is none.
fn name_at(catalog: &Catalog, place: u32) -> &[u8]
    ensures { result.now ≡ name_at place catalog.now }
{
    if place < catalog.len() {
        catalog.table(place).name.as_bytes()
    } else {
        &[]
    }
}

fn created_text(
    alloc: Global,
    number: u32,
    catalog: &Catalog,
    table: u32,
) -> Result<Vec<u8>, NoMemory>
    ensures { IfOk result (λ text. text.items
        ≡ line_text number catalog.now (Reply.Created table)) }
{
    let mut text = short_text(alloc, format_args!("{number} created "))?.into_bytes();
    text.extend_from_slice(name_at(catalog, table))?;
    text.push(b'\n')?;
    Ok(text)
}

fn began_text(alloc: Global, number: u32, t: u32, version: u32) -> Result<Vec<u8>, NoMemory>
    ensures { IfOk result (λ text. (tables : List Table)
        → text.items ≡ line_text number tables (Reply.Began t version)) }
{
    let text = short_text(alloc, format_args!("{number} begin {t} at {version}\n"))?;
    Ok(text.into_bytes())
}

fn wrote_text(alloc: Global, number: u32, rows: u32) -> Result<Vec<u8>, NoMemory>
    ensures { IfOk result (λ text. (tables : List Table)
        → text.items ≡ line_text number tables (Reply.Wrote rows)) }
{
    let text = short_text(alloc, format_args!("{number} wrote {rows}\n"))?;
    Ok(text.into_bytes())
}

fn committed_text(alloc: Global, number: u32, t: u32, version: u32) -> Result<Vec<u8>, NoMemory>
    ensures { IfOk result (λ text. (tables : List Table)
        → text.items ≡ line_text number tables (Reply.Committed t version)) }
{
    let text = short_text(alloc, format_args!("{number} committed {t} as {version}\n"))?;
    Ok(text.into_bytes())
}

fn rolled_back_text(alloc: Global, number: u32, t: u32) -> Result<Vec<u8>, NoMemory>
    ensures { IfOk result (λ text. (tables : List Table)
        → text.items ≡ line_text number tables (Reply.RolledBack t)) }
{
    let text = short_text(alloc, format_args!("{number} rolled back {t}\n"))?;
    Ok(text.into_bytes())
}

/// The reply to a line, with the line's number.
fn line_text(
    alloc: Global,
    number: u32,
    catalog: &Catalog,
    reply: Reply,
) -> Result<Vec<u8>, NoMemory>
    ensures { IfOk result (λ text. text.items ≡ line_text number catalog.now reply) }
{
    match reply {
        Reply::Created { table } => created_text(alloc, number, catalog, table),
        Reply::Began { t, version } => began_text(alloc, number, t, version),
        Reply::Wrote { rows } => wrote_text(alloc, number, rows),
        Reply::Rows(rows) => rows_text(alloc, number, rows),
        Reply::Committed { t, version } => committed_text(alloc, number, t, version),
        Reply::RolledBack { t } => rolled_back_text(alloc, number, t),
        Reply::Refused(refusal) => refused_text(alloc, number, &refusal),
    }
}

/// Appends the reply to a line: the line's number, a space and the reply's text, with rows in row order. `catalog` has the tables after
/// the line. If memory runs out, `out` is unchanged.
pub fn write_reply(
    alloc: Global,
    number: u32,
    catalog: &Catalog,
    reply: Reply,
    out: &mut Vec<u8>,
) -> Result<(), NoMemory>
    ensures ok { OnOk result
        (out.new.items ≡ out.old.items ++ line_text number catalog.now reply) }
    ensures err { OnErr result (out.new.items ≡ out.old.items) }
{
    let text = line_text(alloc, number, catalog, reply)?;
    out.extend_from_slice(&text)?;
    Ok(())
}
