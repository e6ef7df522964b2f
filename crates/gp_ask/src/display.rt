//! The texts of answers.

ghost use Rattle.std.specs.Prelude.{◌≡◌, ◌++◌, ◌∷◌, [], IfOk, OnErr, OnOk, codes, length, map};
ghost use Rattle.std.specs.Fmt.{decimal};
ghost use Rattle.std.specs.List.{concat, flat_map};
ghost use Rattle.gp_base.specs.Numbered as n;
ghost use Rattle.gp_base.specs.Numbered.{numbered};
ghost use Rattle.gp_base.specs.Tokens.{monomial_text};
ghost use Rattle.gp_ask.specs.Formats as f;
ghost use Rattle.gp_ask.specs.Texts.{answer_text, listed_line, listed_text};
ghost use Rattle.gp_ask.specs.Texts as t;

use crate::answered::{AnomalyText, Answered, Valued};
use gp_base::{
    Cell, CellFormat, Monomial, NoMemory, Refusal, Row, Sequence, Text, TextFormat, append_all,
    refused_text, rows_text, short_text, text_of_pieces, write_joined, write_monomial, write_row,
};
use gp_semiring::Listed;
use std::alloc::Global;

/// Appends the texts, each on a line of its own.
fn append_lines(texts: &[Text], out: &mut Vec<u8>) -> Result<(), NoMemory>
    ensures { OnOk result (out.new.items ≡ out.old.items ++ flat_map listed_line texts.now) }
{
    for text in texts {
        append_all(out, &[b"  ", text.as_bytes(), b"\n"])?;
    }
    Ok(())
}

/// An answer of lines, after a word and their number.
fn listed_text(alloc: Global, number: u32, word: &[u8], texts: &[Text]) -> Result<Vec<u8>, NoMemory>
    ensures { IfOk result (λ text. text.items ≡ listed_text number word.now texts.now) }
{
    let number = number.to_string(alloc)?;
    let count = texts.len().to_string(alloc)?;
    let mut text = text_of_pieces(
        alloc,
        &[number.as_bytes(), b" ", word, b" ", count.as_bytes(), b"\n"],
    )?;
    append_lines(texts, &mut text)?;
    Ok(text)
}

/// Appends an answer of lines. If memory runs out, `out` is unchanged.
fn write_listed(
    alloc: Global,
    number: u32,
    word: &[u8],
    texts: &[Text],
    out: &mut Vec<u8>,
) -> Result<(), NoMemory>
    ensures ok { OnOk result
        (out.new.items ≡ out.old.items ++ listed_text number word.now texts.now) }
    ensures err { OnErr result (out.new.items ≡ out.old.items) }
{
    let text = listed_text(alloc, number, word, texts)?;
    out.extend_from_slice(&text)?;
    Ok(())
}

/// Prints a monomial.
pub struct MonomialFormat;

impl TextFormat<Monomial> for MonomialFormat {
    ghost text = { monomial_text };

    fn write(&self, alloc: Global, monomial: &Monomial, out: &mut Vec<u8>) -> Result<(), NoMemory> {
        let mut text = Vec::new(alloc);
        write_monomial(alloc, monomial, &mut text)?;
        append_all(out, &[&text])
    }
}

/// A row with its polynomial.
fn provenance_text(alloc: Global, listed: &Listed) -> Result<Text, NoMemory>
    ensures { IfOk result (λ text. text ≡ t.provenance_text listed.now) }
{
    let mut row = Vec::new(alloc);
    write_row(alloc, &listed.row, &mut row)?;
    let mut sum = Vec::new(alloc);
    write_joined(
        alloc,
        listed.monomials.as_slice(),
        &MonomialFormat,
        b" + ",
        &mut sum,
    )?;
    let text = text_of_pieces(alloc, &[&row, b" : ", &sum])?;
    Text::from_bytes(alloc, &text)
}

/// Rows with their polynomials.
fn provenance_texts(alloc: Global, rows: &[Listed]) -> Result<Sequence<Text>, NoMemory>
    ensures { IfOk result (λ texts. texts ≡ map t.provenance_text rows.now) }
{
    let mut texts = Sequence::new(alloc);
    for listed in rows {
        texts.push(provenance_text(alloc, listed)?)?;
    }
    Ok(texts)
}

/// A row with its value.
fn value_text(alloc: Global, valued: &Valued) -> Result<Text, NoMemory>
    ensures { IfOk result (λ text. text ≡ t.value_text valued.now) }
{
    let mut row = Vec::new(alloc);
    write_row(alloc, &valued.row, &mut row)?;
    let text = text_of_pieces(alloc, &[&row, b" : ", valued.text.as_bytes()])?;
    Text::from_bytes(alloc, &text)
}

/// Rows with their values.
fn value_texts(alloc: Global, rows: &[Valued]) -> Result<Sequence<Text>, NoMemory>
    ensures { IfOk result (λ texts. texts ≡ map t.value_text rows.now) }
{
    let mut texts = Sequence::new(alloc);
    for valued in rows {
        texts.push(value_text(alloc, valued)?)?;
    }
    Ok(texts)
}

/// Appends an answer of rows with their values. If memory runs out, `out` is unchanged.
fn write_values(
    alloc: Global,
    number: u32,
    rows: &[Valued],
    out: &mut Vec<u8>,
) -> Result<(), NoMemory>
    ensures ok { OnOk result (out.new.items
        ≡ out.old.items ++ listed_text number (codes "rows") (map t.value_text rows.now)) }
    ensures err { OnErr result (out.new.items ≡ out.old.items) }
{
    let texts = value_texts(alloc, rows)?;
    write_listed(alloc, number, b"rows", texts.as_slice(), out)
}

/// Appends an answer of rows with their polynomials. If memory runs out, `out` is unchanged.
fn write_provenance(
    alloc: Global,
    number: u32,
    rows: &[Listed],
    out: &mut Vec<u8>,
) -> Result<(), NoMemory>
    ensures ok { OnOk result (out.new.items
        ≡ out.old.items ++ listed_text number (codes "rows") (map t.provenance_text rows.now)) }
    ensures err { OnErr result (out.new.items ≡ out.old.items) }
{
    let texts = provenance_texts(alloc, rows)?;
    write_listed(alloc, number, b"rows", texts.as_slice(), out)
}

/// A row of a difference.
fn signed_text(alloc: Global, row: &Row) -> Result<Text, NoMemory>
    ensures { IfOk result (λ text. text ≡ t.signed_text row.now) }
{
    let mut text = Vec::new(alloc);
    match row.cells() {
        [Cell::Text(sign), cells @ ..] => {
            append_all(&mut text, &[sign.as_bytes(), b" "])?;
            write_joined(alloc, cells, &CellFormat, b", ", &mut text)?;
        }
        _ => write_row(alloc, row, &mut text)?,
    }
    Text::from_bytes(alloc, &text)
}

/// The rows of a difference.
fn signed_texts(alloc: Global, rows: &[Row]) -> Result<Sequence<Text>, NoMemory>
    ensures { IfOk result (λ texts. texts ≡ map t.signed_text rows.now) }
{
    let mut texts = Sequence::new(alloc);
    for row in rows {
        texts.push(signed_text(alloc, row)?)?;
    }
    Ok(texts)
}

/// Appends a difference. If memory runs out, `out` is unchanged.
fn write_difference(
    alloc: Global,
    number: u32,
    rows: &[Row],
    out: &mut Vec<u8>,
) -> Result<(), NoMemory>
    ensures ok { OnOk result (out.new.items
        ≡ out.old.items ++ listed_text number (codes "diff") (map t.signed_text rows.now)) }
    ensures err { OnErr result (out.new.items ≡ out.old.items) }
{
    let texts = signed_texts(alloc, rows)?;
    write_listed(alloc, number, b"diff", texts.as_slice(), out)
}

/// Appends the steps of a cycle.
fn append_steps(steps: &[Text], out: &mut Vec<u8>) -> Result<(), NoMemory>
    ensures { OnOk result (out.new.items ≡ out.old.items ++ flat_map t.step_line steps.now) }
{
    for text in steps {
        append_all(out, &[b"    ", text.as_bytes(), b"\n"])?;
    }
    Ok(())
}

/// Appends a cycle.
fn append_anomaly(anomaly: &AnomalyText, out: &mut Vec<u8>) -> Result<(), NoMemory>
    ensures { OnOk result (out.new.items ≡ out.old.items ++ t.anomaly_lines anomaly.now) }
{
    append_all(out, &[b"  ", anomaly.title.as_bytes(), b"\n"])?;
    append_steps(anomaly.steps.as_slice(), out)
}

/// Appends cycles.
fn append_anomalies(anomalies: &[AnomalyText], out: &mut Vec<u8>) -> Result<(), NoMemory>
    ensures { OnOk result (out.new.items ≡ out.old.items ++ flat_map t.anomaly_lines anomalies.now) }
{
    for anomaly in anomalies {
        append_anomaly(anomaly, out)?;
    }
    Ok(())
}

/// The line before cycles.
fn anomalies_heading(alloc: Global, number: u32, count: usize) -> Result<Vec<u8>, NoMemory>
    ensures { IfOk result (λ text. text.items ≡ t.anomalies_heading number count) }
{
    let number = number.to_string(alloc)?;
    let count = count.to_string(alloc)?;
    text_of_pieces(
        alloc,
        &[number.as_bytes(), b" anomalies ", count.as_bytes(), b"\n"],
    )
}

/// An answer of cycles.
fn anomalies_text(
    alloc: Global,
    number: u32,
    anomalies: &[AnomalyText],
) -> Result<Vec<u8>, NoMemory>
    ensures { IfOk result (λ text. text.items ≡ t.anomalies_text number anomalies.now) }
{
    let mut text = anomalies_heading(alloc, number, anomalies.len())?;
    append_anomalies(anomalies, &mut text)?;
    Ok(text)
}

/// Appends an answer of cycles. If memory runs out, `out` is unchanged.
fn write_anomalies(
    alloc: Global,
    number: u32,
    anomalies: &[AnomalyText],
    out: &mut Vec<u8>,
) -> Result<(), NoMemory>
    ensures ok { OnOk result
        (out.new.items ≡ out.old.items ++ t.anomalies_text number anomalies.now) }
    ensures err { OnErr result (out.new.items ≡ out.old.items) }
{
    let text = anomalies_text(alloc, number, anomalies)?;
    out.extend_from_slice(&text)?;
    Ok(())
}

/// Appends an answer of rows. If memory runs out, `out` is unchanged.
fn write_rows(
    alloc: Global,
    number: u32,
    rows: Sequence<Row>,
    out: &mut Vec<u8>,
) -> Result<(), NoMemory>
    ensures ok { OnOk result (out.new.items ≡ out.old.items ++ numbered number (n.rows_text rows)) }
    ensures err { OnErr result (out.new.items ≡ out.old.items) }
{
    let text = rows_text(alloc, number, rows)?;
    out.extend_from_slice(&text)?;
    Ok(())
}

/// Appends a refusal. If memory runs out, `out` is unchanged.
fn write_refused(
    alloc: Global,
    number: u32,
    refusal: &Refusal,
    out: &mut Vec<u8>,
) -> Result<(), NoMemory>
    ensures ok { OnOk result
        (out.new.items ≡ out.old.items ++ numbered number (n.refused_text refusal.now)) }
    ensures err { OnErr result (out.new.items ≡ out.old.items) }
{
    let text = refused_text(alloc, number, refusal)?;
    out.extend_from_slice(&text)?;
    Ok(())
}

/// Whether the dump is that of a history, or its first line that differs.
fn checked_text(alloc: Global, number: u32, line: Option<u64>) -> Result<Vec<u8>, NoMemory>
    ensures { IfOk result (λ text. text.items ≡ numbered number (t.checked_text line)) }
{
    let text = match line {
        None => short_text(alloc, format_args!("{number} history\n"))?,
        Some(line) => short_text(alloc, format_args!("{number} differs at line {line}\n"))?,
    };
    Ok(text.into_bytes())
}

/// Appends the answer to CHECK. If memory runs out, `out` is unchanged.
fn write_checked(
    alloc: Global,
    number: u32,
    line: Option<u64>,
    out: &mut Vec<u8>,
) -> Result<(), NoMemory>
    ensures ok { OnOk result
        (out.new.items ≡ out.old.items ++ numbered number (t.checked_text line)) }
    ensures err { OnErr result (out.new.items ≡ out.old.items) }
{
    let text = checked_text(alloc, number, line)?;
    out.extend_from_slice(&text)?;
    Ok(())
}

/// Appends the texts, each with a line feed behind it.
fn append_ended(texts: &[Text], out: &mut Vec<u8>) -> Result<(), NoMemory>
    ensures { OnOk result (out.new.items
        ≡ out.old.items ++ flat_map (λ line. line ++ n.newline) texts.now) }
{
    for text in texts {
        append_all(out, &[text.as_bytes(), b"\n"])?;
    }
    Ok(())
}

/// The lines of a query of SQL behind its number.
fn query_text(alloc: Global, number: u32, lines: &[Text]) -> Result<Vec<u8>, NoMemory>
    ensures { IfOk result (λ text. text.items ≡ concat (codes "-- " ∷ decimal number ∷ n.newline
        ∷ flat_map (λ line. line ++ n.newline) lines.now ∷ [])) }
{
    let digits = number.to_string(alloc)?;
    let mut text = text_of_pieces(alloc, &[b"-- ", digits.as_bytes(), b"\n"])?;
    append_ended(lines, &mut text)?;
    Ok(text)
}

/// A refusal behind its number, in a comment of SQL.
fn refusal_comment(alloc: Global, number: u32, refusal: &Refusal) -> Result<Vec<u8>, NoMemory>
    ensures { IfOk result (λ text. text.items ≡ f.sql_refusal number refusal.now) }
{
    let refused = refused_text(alloc, number, refusal)?;
    text_of_pieces(alloc, &[b"-- ", &refused])
}

/// The text of an answer in SQL. Only queries and refusals are answers there.
fn sql_text(alloc: Global, number: u32, answered: &Answered) -> Result<Vec<u8>, NoMemory>
    ensures { IfOk result (λ text. text.items ≡ f.sql_answer_text number answered.now) }
{
    match answered {
        Answered::Program(lines) => query_text(alloc, number, lines.as_slice()),
        Answered::Refused(refusal) => refusal_comment(alloc, number, refusal),
        _ => refusal_comment(alloc, number, &Refusal::E30),
    }
}

/// Appends an answer in SQL. If memory runs out, `out` is unchanged.
pub(crate) fn write_sql(
    alloc: Global,
    number: u32,
    answered: &Answered,
    out: &mut Vec<u8>,
) -> Result<(), NoMemory>
    ensures ok { OnOk result (out.new.items ≡ out.old.items ++ f.sql_answer_text number answered.now) }
    ensures err { OnErr result (out.new.items ≡ out.old.items) }
{
    let text = sql_text(alloc, number, answered)?;
    out.extend_from_slice(&text)?;
    Ok(())
}

/// Appends the answer to a question: the number of its line, a space and the answer's text. Rows are in row order, each as often as
/// it occurs. If memory runs out, `out` is unchanged.
pub fn write_answer(
    alloc: Global,
    number: u32,
    answered: Answered,
    out: &mut Vec<u8>,
) -> Result<(), NoMemory>
    ensures ok { OnOk result (out.new.items ≡ out.old.items ++ answer_text number answered) }
    ensures err { OnErr result (out.new.items ≡ out.old.items) }
{
    match answered {
        Answered::Rows(rows) => write_rows(alloc, number, rows, out),
        Answered::Sheet(sheet) => write_rows(alloc, number, sheet.rows, out),
        Answered::Listed(rows) => write_provenance(alloc, number, rows.as_slice(), out),
        Answered::Values(rows) => write_values(alloc, number, rows.as_slice(), out),
        Answered::Program(texts) => write_listed(alloc, number, b"program", texts.as_slice(), out),
        Answered::Lines(heading, texts) => {
            write_listed(alloc, number, heading.word(), texts.as_slice(), out)
        }
        Answered::Anomalies(found) => write_anomalies(alloc, number, found.as_slice(), out),
        Answered::Diff(rows) => write_difference(alloc, number, rows.as_slice(), out),
        Answered::Checked(line) => write_checked(alloc, number, line, out),
        Answered::Refused(refusal) => write_refused(alloc, number, &refusal, out),
    }
}
