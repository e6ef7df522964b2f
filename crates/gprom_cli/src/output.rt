//! Writing what a call has to say.

ghost use Rattle.std.specs.Prelude.{◌≡◌, IfOk, string_bytes};
ghost use Rattle.gprom_cli.specs.Call.{WritesOutput, damage_message, loaded_message, message, rule_prefix, sheet_message};
ghost use Rattle.gprom_cli.specs.Steps.{stop_status};

use crate::status::Status;
use gp_base::NoMemory;
use gp_io::{Sink, SinkStop};
use std::alloc::Global;

/// The status of a call whose output was not written.
pub(crate) fn stop_status(stop: SinkStop) -> Status
    ensures { result ≡ stop_status stop }
{
    match stop {
        SinkStop::Failed => Status::Unwritten,
        SinkStop::NoMemory => Status::OutOfMemory,
    }
}

/// Writes `text` and returns `status`, or the status of the error.
pub(crate) fn write_output<K: Sink>(out: &mut K, text: &[u8], status: Status) -> Status
    ensures { WritesOutput text.now status (K.state out.old) (K.state out.new) result }
{
    match out.write_all(text) {
        Ok(()) => status,
        Err(stop) => stop_status(stop),
    }
}

/// A message about a file.
fn message(alloc: Global, words: &str, name: &str) -> Result<String, NoMemory>
    ensures { IfOk result (λ text. string_bytes text ≡ message words.now name.now) }
{
    Ok(format!(in alloc; "{words} {name}\n")?)
}

/// Writes a message about a file and returns `status`, or the status of the error.
pub(crate) fn write_message<K: Sink>(
    alloc: Global,
    out: &mut K,
    words: &str,
    name: &str,
    status: Status,
) -> Status
    ensures { WritesOutput (message words.now name.now) status
        (K.state out.old) (K.state out.new) result }
{
    match message(alloc, words, name) {
        Ok(text) => write_output(out, text.as_bytes(), status),
        Err(NoMemory) => Status::OutOfMemory,
    }
}

/// The letter of the rules of dumps, and the zero before a number of one digit.
fn rule_prefix(f: u8) -> &'static str
    ensures { result.now ≡ rule_prefix f }
{
    if f < 10 { "F0" } else { "F" }
}

/// A message about a dump that is not well formed.
fn damage_message(alloc: Global, f: u8, line: u32) -> Result<String, NoMemory>
    ensures { IfOk result (λ text. string_bytes text ≡ damage_message f line) }
{
    let rule = rule_prefix(f);
    Ok(format!(in alloc; "dump refused: {rule}{f} at line {line}\n")?)
}

/// Writes that a dump is not well formed: the number of the rule that fails first, and the number of its line.
pub(crate) fn write_damage<K: Sink>(alloc: Global, out: &mut K, f: u8, line: u32) -> Status
    ensures { WritesOutput (damage_message f line) Status.Damaged
        (K.state out.old) (K.state out.new) result }
{
    match damage_message(alloc, f, line) {
        Ok(text) => write_output(out, text.as_bytes(), Status::Damaged),
        Err(NoMemory) => Status::OutOfMemory,
    }
}

/// A message about a sheet that has a fault.
fn sheet_message(alloc: Global, c: u8, number: u32) -> Result<String, NoMemory>
    ensures { IfOk result (λ text. string_bytes text ≡ sheet_message c number) }
{
    Ok(format!(in alloc; "csv refused: C0{c} at record {number}\n")?)
}

/// Writes that a sheet has a fault: the number of the fault, and that of its record.
pub(crate) fn write_sheet_fault<K: Sink>(alloc: Global, out: &mut K, c: u8, number: u32) -> Status
    ensures { WritesOutput (sheet_message c number) Status.SheetRefused
        (K.state out.old) (K.state out.new) result }
{
    match sheet_message(alloc, c, number) {
        Ok(text) => write_output(out, text.as_bytes(), Status::SheetRefused),
        Err(NoMemory) => Status::OutOfMemory,
    }
}

/// A message about a sheet that was loaded.
fn loaded_message(alloc: Global, rows: usize) -> Result<String, NoMemory>
    ensures { IfOk result (λ text. string_bytes text ≡ loaded_message rows) }
{
    Ok(format!(in alloc; "loaded {rows}\n")?)
}

/// Writes how many rows a sheet has that was loaded.
pub(crate) fn write_loaded<K: Sink>(alloc: Global, out: &mut K, rows: usize) -> Status
    ensures { WritesOutput (loaded_message rows) Status.Done
        (K.state out.old) (K.state out.new) result }
{
    match loaded_message(alloc, rows) {
        Ok(text) => write_output(out, text.as_bytes(), Status::Done),
        Err(NoMemory) => Status::OutOfMemory,
    }
}
