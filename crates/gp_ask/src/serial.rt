//! Whether the transactions of a dump could have run one after another.

ghost use Rattle.std.specs.Prelude.{◌≡◌, map, IfOk};
ghost use Rattle.std.specs.Fmt.{decimal};
ghost use Rattle.gp_dump.specs.Views.{dump_view};
ghost use Rattle.gp_dump.specs.WholeDumps.{IsDump};
ghost use Rattle.gp_log.specs.Contents.{entries, tables};
ghost use Rattle.gp_machine.specs.Event.{name_at};
ghost use Rattle.gp_serial.specs.Changes.{change_view};
ghost use Rattle.gp_serial.specs.Reasons.{reason_view};
ghost use Rattle.gp_serial.specs.SerialViews.{serial_view, step_view};
ghost use Rattle.gp_ask.specs.SerialAnswers as s;
ghost use Rattle.gp_ask.specs.SerialStops.{IsUnserialized};

use crate::answered::{Answered, Heading};
use gp_base::{NoMemory, Sequence, Text, text_of_pieces, write_id};
use gp_dump::Dump;
use gp_log::Log;
use gp_serial::{Reason, RowChange, Serial, SerialStop, Step, serialize};
use std::alloc::Global;

/// The name of a table, or nothing where there is none.
fn table_name(log: &Log, table: u32) -> &[u8]
    ensures { result.now ≡ name_at table (tables log.now) }
{
    let catalog = log.catalog();
    if table < catalog.len() {
        catalog.table(table).name.as_bytes()
    } else {
        b""
    }
}

/// The name of a table and the identity of a row of it.
fn row_text(alloc: Global, log: &Log, change: &RowChange<'_>) -> Result<Vec<u8>, NoMemory>
    ensures { IfOk result (λ text. text.items ≡ s.changed_row_text (tables log.now) (change_view change.now)) }
{
    let mut id = Vec::new(alloc);
    write_id(alloc, change.id, &mut id)?;
    text_of_pieces(alloc, &[table_name(log, change.table), b" ", &id])
}

/// A statement that read a row, and the transaction that wrote it.
fn reading_text(
    alloc: Global,
    log: &Log,
    reader: u32,
    k: u32,
    writer: u32,
    change: &RowChange<'_>,
) -> Result<Vec<u8>, NoMemory>
    ensures { IfOk result (λ text. text.items
        ≡ s.reading_text (tables log.now) (entries log.now) reader k writer (change_view change.now)) }
{
    let row = row_text(alloc, log, change)?;
    let version = log.version_read_by(reader, k).to_string(alloc)?;
    let reader = reader.to_string(alloc)?;
    let k = k.to_string(alloc)?;
    let writer = writer.to_string(alloc)?;
    let made = change.version.to_string(alloc)?;
    text_of_pieces(
        alloc,
        &[
            reader.as_bytes(),
            b".",
            k.as_bytes(),
            b" read ",
            &row,
            b" at ",
            version.as_bytes(),
            b", ",
            writer.as_bytes(),
            b" wrote it as ",
            made.as_bytes(),
        ],
    )
}

/// Two transactions that wrote a row.
fn writing_text(
    alloc: Global,
    log: &Log,
    first: u32,
    next: u32,
    change: &RowChange<'_>,
    other: &RowChange<'_>,
) -> Result<Vec<u8>, NoMemory>
    ensures { IfOk result (λ text. text.items
        ≡ s.writing_text (tables log.now) first next (change_view change.now) (change_view other.now)) }
{
    let row = row_text(alloc, log, change)?;
    let first = first.to_string(alloc)?;
    let next = next.to_string(alloc)?;
    let made = change.version.to_string(alloc)?;
    let later = other.version.to_string(alloc)?;
    text_of_pieces(
        alloc,
        &[
            first.as_bytes(),
            b" wrote ",
            &row,
            b" as ",
            made.as_bytes(),
            b", ",
            next.as_bytes(),
            b" as ",
            later.as_bytes(),
        ],
    )
}

/// Why a transaction comes before the next one.
fn reason_text(
    alloc: Global,
    log: &Log,
    first: u32,
    next: u32,
    reason: &Reason<'_>,
) -> Result<Vec<u8>, NoMemory>
    ensures { IfOk result (λ text. text.items
        ≡ s.reason_text (tables log.now) (entries log.now) first next (reason_view reason.now)) }
{
    match reason {
        Reason::ReadBefore { k, change } => reading_text(alloc, log, first, *k, next, change),
        Reason::ReadAfter { k, change } => reading_text(alloc, log, next, *k, first, change),
        Reason::Wrote { change, other } => writing_text(alloc, log, first, next, change, other),
    }
}

/// The line of a step of a cycle.
fn step_line(alloc: Global, log: &Log, step: &Step<'_>) -> Result<Text, NoMemory>
    ensures { IfOk result (λ text. text ≡ s.step_text (tables log.now) (entries log.now) (step_view step.now)) }
{
    let reason = match &step.reason {
        Some(reason) => reason_text(alloc, log, step.first, step.next, reason)?,
        None => Vec::new(alloc),
    };
    let first = step.first.to_string(alloc)?;
    let next = step.next.to_string(alloc)?;
    let text = text_of_pieces(
        alloc,
        &[
            first.as_bytes(),
            b" before ",
            next.as_bytes(),
            b" : ",
            &reason,
        ],
    )?;
    Text::from_bytes(alloc, &text)
}

/// The lines of a cycle.
pub fn cycle_lines(alloc: Global, log: &Log, steps: &[Step<'_>]) -> Result<Sequence<Text>, NoMemory>
    ensures { IfOk result (λ lines. lines
        ≡ map (s.step_text (tables log.now) (entries log.now)) (map step_view steps.now)) }
{
    let mut lines = Sequence::new(alloc);
    for step in steps {
        lines.push(step_line(alloc, log, step)?)?;
    }
    Ok(lines)
}

/// The lines of an order: the number of each transaction.
fn order_lines(alloc: Global, order: &[u32]) -> Result<Sequence<Text>, NoMemory>
    ensures { IfOk result (λ lines. lines ≡ map decimal order.now) }
{
    let mut lines = Sequence::new(alloc);
    for t in order {
        let number = t.to_string(alloc)?;
        lines.push(Text::from_bytes(alloc, number.as_bytes())?)?;
    }
    Ok(lines)
}

/// The answer that was found.
fn serial_lines(alloc: Global, log: &Log, found: &Serial<'_>) -> Result<Answered, NoMemory>
    ensures { IfOk result (λ answered. answered
        ≡ s.answered_serial (tables log.now) (entries log.now) (serial_view found.now)) }
{
    match found {
        Serial::Order(order) => Ok(Answered::Lines(Heading::Serial, order_lines(alloc, order)?)),
        Serial::Cycle(steps) => Ok(Answered::Lines(
            Heading::Cycle,
            cycle_lines(alloc, log, steps)?,
        )),
        Serial::Undecided => Ok(Answered::Lines(Heading::Undecided, Sequence::new(alloc))),
    }
}

/// The refusal, if there is no answer.
pub fn unserialized(stop: SerialStop) -> Result<Answered, NoMemory>
    ensures { IsUnserialized stop result }
{
    match stop {
        SerialStop::Refused(refusal) => Ok(Answered::Refused(refusal)),
        SerialStop::NoMemory => Err(NoMemory),
    }
}

/// Whether the transactions that committed could have run one after another: their order, or the first of the shortest cycles of transactions each of which comes
/// before the next one, or neither ([`serialize`]). Refused by E25 and E26 of these transactions, in the order of their versions. Running out of memory is the only
/// error.
pub fn serial_answer(alloc: Global, dump: &Dump) -> Result<Answered, NoMemory>
    requires rules { IsDump (dump_view dump.now) }
    ensures { IfOk result (λ answered. answered ≡ s.serial_answer (dump_view dump.now)) }
{
    match serialize(alloc, &dump.log, dump.versions.as_slice()) {
        Ok(found) => serial_lines(alloc, &dump.log, &found),
        Err(stop) => unserialized(stop),
    }
}
