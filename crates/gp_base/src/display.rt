//! The texts of cells and rows, as replies and dumps print them. Dumps have many rows, so a row is appended to the output
//! cell by cell, without a text of its own.

ghost use Rattle.std.specs.Prelude.{◌≡◌, ◌++◌, OnOk, OnErr, IfOk};
ghost use Rattle.std.specs.Fmt.{signed_decimal};
ghost use Rattle.std.specs.List.{flat_map};
ghost use Rattle.gp_base.specs.Texts.{cell_text, row_text, quoted_byte};
ghost use Rattle.gp_base.specs.Identities.{identity_text, others_text, sources_text};
ghost use Rattle.gp_base.specs.IdentityForms.{sources_of};
ghost use Rattle.gp_base.specs.Tokens.{monomial_text, power_text, token_text};
ghost use Rattle.gp_base.specs.DirectWriting.{AppendsPrefix};

use crate::cell::Cell;
use crate::error::NoMemory;
use crate::join::{TextFormat, append_all, text_of_pieces, write_joined};
use crate::monomial::Monomial;
use crate::row::Row;
use crate::row_id::RowId;
use crate::text::Text;
use crate::token::Token;
use itoa::Buffer;
use std::alloc::Global;

/// The quote around a text value.
const QUOTE: u8 = b'\'';

/// The text with each quote doubled.
fn quoted(alloc: Global, text: &[u8]) -> Result<Vec<u8>, NoMemory>
    ensures { IfOk result (λ bytes. bytes.items ≡ flat_map quoted_byte text.now) }
{
    let mut bytes = Vec::new(alloc);
    for byte in text {
        if *byte == QUOTE {
            bytes.push(QUOTE)?;
        }
        bytes.push(*byte)?;
    }
    Ok(bytes)
}

/// Appends a number in decimal.
fn write_number(number: i64, out: &mut Vec<u8>) -> Result<(), NoMemory>
    ensures ok { OnOk result (out.new.items ≡ out.old.items ++ signed_decimal number) }
    ensures err { OnErr result
        (AppendsPrefix out.old.items out.new.items (signed_decimal number)) }
{
    let mut buffer = Buffer::new();
    append_all(out, &[buffer.format(number).as_bytes()])
}

/// Appends a text in quotes.
fn write_quoted(alloc: Global, text: &Text, out: &mut Vec<u8>) -> Result<(), NoMemory>
    ensures ok { OnOk result (out.new.items ≡ out.old.items ++ cell_text (Cell.Text text.now)) }
    ensures err { OnErr result
        (AppendsPrefix out.old.items out.new.items (cell_text (Cell.Text text.now))) }
{
    let bytes = text.as_bytes();
    if bytes.contains(&QUOTE) {
        let inside = quoted(alloc, bytes)?;
        return append_all(out, &[b"'", &inside, b"'"]);
    }
    append_all(out, &[b"'", bytes, b"'"])
}

/// Appends an identity.
#[cycle(id_text)]
fn push_id(alloc: Global, id: &RowId, out: &mut Vec<u8>) -> Result<(), NoMemory>
    ensures { OnOk result (out.new.items ≡ out.old.items ++ identity_text id.now) }
{
    let mut buffers = (Buffer::new(), Buffer::new(), Buffer::new());
    let t = buffers.0.format(id.t()).as_bytes();
    let k = buffers.1.format(id.k()).as_bytes();
    let n = buffers.2.format(id.n()).as_bytes();
    append_all(out, &[t, b".", k, b".", n])?;
    push_sources(alloc, id.sources(), out)
}

/// Appends the sources of an identity in brackets, if it has some.
#[cycle(id_text)]
fn push_sources(alloc: Global, ids: &[RowId], out: &mut Vec<u8>) -> Result<(), NoMemory>
    ensures { OnOk result
        (out.new.items ≡ out.old.items ++ sources_text (sources_of ids.now)) }
{
    match ids {
        [] => Ok(()),
        [first, others @ ..] => {
            out.push(b'(')?;
            push_id(alloc, first, out)?;
            push_others(alloc, others, out)
        }
    }
}

/// Appends the sources after the first one, and the closing bracket.
#[cycle(id_text)]
fn push_others(alloc: Global, ids: &[RowId], out: &mut Vec<u8>) -> Result<(), NoMemory>
    ensures { OnOk result
        (out.new.items ≡ out.old.items ++ others_text (sources_of ids.now)) }
{
    match ids {
        [] => {
            out.push(b')')?;
            Ok(())
        }
        [first, others @ ..] => {
            out.push(b',')?;
            push_id(alloc, first, out)?;
            push_others(alloc, others, out)
        }
    }
}

/// The text of an identity.
pub fn id_text(alloc: Global, id: &RowId) -> Result<Vec<u8>, NoMemory>
    ensures { IfOk result (λ text. text.items ≡ identity_text id.now) }
{
    let mut text = Vec::new(alloc);
    push_id(alloc, id, &mut text)?;
    Ok(text)
}

/// Appends the text of an identity: `t.k.n`, and in brackets the identities of its sources, separated by commas. If memory
/// runs out, `out` is unchanged.
pub fn write_id(alloc: Global, id: &RowId, out: &mut Vec<u8>) -> Result<(), NoMemory>
    ensures ok { OnOk result (out.new.items ≡ out.old.items ++ identity_text id.now) }
    ensures unchanged { OnErr result (out.new.items ≡ out.old.items) }
{
    let text = id_text(alloc, id)?;
    out.extend_from_slice(&text)?;
    Ok(())
}

/// The text of a token: `i`, `q` or `u` and its numbers.
fn token_text(alloc: Global, token: &Token) -> Result<Vec<u8>, NoMemory>
    ensures { IfOk result (λ text. text.items ≡ token_text token.now) }
{
    match token {
        Token::Inserted { t, k, n } => {
            let t = t.to_string(alloc)?;
            let k = k.to_string(alloc)?;
            let n = n.to_string(alloc)?;
            text_of_pieces(
                alloc,
                &[b"i", t.as_bytes(), b".", k.as_bytes(), b".", n.as_bytes()],
            )
        }
        Token::Queried { t, k } => {
            let t = t.to_string(alloc)?;
            let k = k.to_string(alloc)?;
            text_of_pieces(alloc, &[b"q", t.as_bytes(), b".", k.as_bytes()])
        }
        Token::Updated { t, k } => {
            let t = t.to_string(alloc)?;
            let k = k.to_string(alloc)?;
            text_of_pieces(alloc, &[b"u", t.as_bytes(), b".", k.as_bytes()])
        }
    }
}

/// Prints a token with its count, which is an exponent if it is above 1.
pub struct PowerFormat;

impl TextFormat<(Token, u64)> for PowerFormat {
    ghost text = { power_text };

    fn write(
        &self,
        alloc: Global,
        power: &(Token, u64),
        out: &mut Vec<u8>,
    ) -> Result<(), NoMemory> {
        let (token, count) = power;
        let token = token_text(alloc, token)?;
        if *count == 1 {
            return append_all(out, &[&token]);
        }
        let count = count.to_string(alloc)?;
        append_all(out, &[&token, b"^", count.as_bytes()])
    }
}

fn monomial_text(alloc: Global, monomial: &Monomial) -> Result<Vec<u8>, NoMemory>
    ensures { IfOk result (λ text. text.items ≡ monomial_text monomial.now) }
{
    let mut text = Vec::new(alloc);
    write_joined(alloc, monomial.powers(), &PowerFormat, b"*", &mut text)?;
    Ok(text)
}

/// Appends the text of a monomial: its tokens with their exponents, joined by `*`. If memory runs out, `out` is unchanged.
pub fn write_monomial(alloc: Global, monomial: &Monomial, out: &mut Vec<u8>) -> Result<(), NoMemory>
    ensures ok { OnOk result (out.new.items ≡ out.old.items ++ monomial_text monomial.now) }
    ensures unchanged { OnErr result (out.new.items ≡ out.old.items) }
{
    let text = monomial_text(alloc, monomial)?;
    out.extend_from_slice(&text)?;
    Ok(())
}

/// Appends an identity in braces.
fn write_id_cell(alloc: Global, id: &RowId, out: &mut Vec<u8>) -> Result<(), NoMemory>
    ensures ok { OnOk result (out.new.items ≡ out.old.items ++ cell_text (Cell.Id id.now)) }
    ensures err { OnErr result
        (AppendsPrefix out.old.items out.new.items (cell_text (Cell.Id id.now))) }
{
    let inside = id_text(alloc, id)?;
    append_all(out, &[b"{", &inside, b"}"])
}

/// Appends a monomial in brackets.
fn write_monomial_cell(
    alloc: Global,
    monomial: &Monomial,
    out: &mut Vec<u8>,
) -> Result<(), NoMemory>
    ensures ok { OnOk result
        (out.new.items ≡ out.old.items ++ cell_text (Cell.Mono monomial.now)) }
    ensures err { OnErr result
        (AppendsPrefix out.old.items out.new.items (cell_text (Cell.Mono monomial.now))) }
{
    let inside = monomial_text(alloc, monomial)?;
    append_all(out, &[b"[", &inside, b"]"])
}

/// Appends YES or NO.
fn write_mark(mark: bool, out: &mut Vec<u8>) -> Result<(), NoMemory>
    ensures ok { OnOk result (out.new.items ≡ out.old.items ++ cell_text (Cell.Mark mark)) }
    ensures err { OnErr result
        (AppendsPrefix out.old.items out.new.items (cell_text (Cell.Mark mark))) }
{
    if mark {
        append_all(out, &[b"YES"])
    } else {
        append_all(out, &[b"NO"])
    }
}

/// Prints a cell: `NULL`, a decimal number, or a text as a character string literal of SQL (ISO/IEC 9075-2), in quotes
/// with each quote inside doubled. Of the cells of system columns, an identity is in braces, a monomial in brackets, and
/// a mark is `YES` or `NO`.
pub struct CellFormat;

impl TextFormat<Cell> for CellFormat {
    ghost text = { cell_text };

    fn write(&self, alloc: Global, cell: &Cell, out: &mut Vec<u8>) -> Result<(), NoMemory> {
        match cell {
            Cell::Null => append_all(out, &[b"NULL"]),
            Cell::Int(number) => write_number(*number, out),
            Cell::Text(text) => write_quoted(alloc, text, out),
            Cell::Id(id) => write_id_cell(alloc, id, out),
            Cell::Mark(mark) => write_mark(*mark, out),
            Cell::Mono(monomial) => write_monomial_cell(alloc, monomial, out),
        }
    }
}

/// Appends the text of a row: its cells, separated by a comma and a space. If memory runs out, a prefix of that text has
/// been appended.
pub fn write_row(alloc: Global, row: &Row, out: &mut Vec<u8>) -> Result<(), NoMemory>
    ensures ok { OnOk result (out.new.items ≡ out.old.items ++ row_text row.now) }
    ensures err { OnErr result (AppendsPrefix out.old.items out.new.items (row_text row.now)) }
{
    write_joined(alloc, row.cells(), &CellFormat, b", ", out)
}
