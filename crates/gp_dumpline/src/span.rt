//! Row lines.

ghost use Rattle.std.specs.Prelude.{◌≡◌, IfOk};
ghost use Rattle.std.specs.Option.{option_map};
ghost use Rattle.gp_dumpline.specs.Forms.{row_line_of, span_in, span_of, to_of};
ghost use Rattle.gp_dumpline.specs.Views.{row_line_view};

use crate::cells::parse_row;
use crate::identity::parse_identity;
use crate::number::parse_version;
use crate::part::cut_at;
use gp_base::NoMemory;
use gp_versions::Span;
use std::alloc::Global;

/// The version at which a span ends, or a hyphen where it has not ended.
fn parse_to(text: &[u8]) -> Option<Option<u32>>
    ensures { result ≡ to_of text.now }
{
    if text == b"-".as_slice() {
        return Some(None);
    }
    let version = parse_version(text)?;
    Some(Some(version))
}

/// A row line, cut into its parts.
#[derive(Clone, Copy)]
struct RowLine<'a> {
    id: &'a [u8],
    from: u32,
    to: Option<u32>,
    cells: &'a [u8],
}

/// The parts of a row line: `ID FROM TO CELLS`.
#[tactic(auto, unfolding(crate::specs::Forms::row_line_of))]
fn parse_row_line(text: &[u8]) -> Option<RowLine<'_>>
    ensures { option_map row_line_view result ≡ row_line_of text.now }
{
    let (id, rest) = cut_at(b' ', text)?;
    let (from, rest) = cut_at(b' ', rest)?;
    let (to, cells) = cut_at(b' ', rest)?;
    let from = parse_version(from)?;
    let to = parse_to(to)?;
    Some(RowLine {
        id,
        from,
        to,
        cells,
    })
}

/// The span of these parts.
fn span_in(alloc: Global, line: RowLine<'_>) -> Result<Option<Span>, NoMemory>
    ensures { IfOk result (λ found. found ≡ span_in (row_line_view line.entry)) }
{
    let Some(id) = parse_identity(alloc, line.id)? else {
        return Ok(None);
    };
    let Some(row) = parse_row(alloc, line.cells)? else {
        return Ok(None);
    };
    Ok(Some(Span {
        id,
        from: line.from,
        to: line.to,
        row,
    }))
}

/// The span of a row line: the identity of the row, the versions at which its span begins and ends (`-` where it has not
/// ended), and its cells. None if the text is not of this form, if a cell is `-0` or a number outside 64 bits, or if the
/// identity has a number that is 0 or above [`MAX_PART`](crate::MAX_PART), or more than
/// [`MAX_NODES`](gp_base::MAX_NODES) nodes. A version of more than 32 bits counts as the greatest of 32 bits.
pub fn parse_span(alloc: Global, text: &[u8]) -> Result<Option<Span>, NoMemory>
    ensures { IfOk result (λ found. found ≡ span_of text.now) }
{
    match parse_row_line(text) {
        Some(line) => span_in(alloc, line),
        None => Ok(None),
    }
}
