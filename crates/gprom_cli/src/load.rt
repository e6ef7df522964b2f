//! `load CSV TABLE SCRIPT`: replaces the script by one that loads a sheet, then writes the number of its rows.

ghost use Rattle.std.specs.Prelude.{◌≡◌, ◌≤◌, ℕ, List, [], ◌∷◌, ◌++◌, Ok, length, Some};
ghost use Rattle.gp_io.specs.Events.{Event};
ghost use Rattle.gp_load.specs.Loading.{LoadsText, loaded_of};
ghost use Rattle.gprom_cli.specs.Args.{Load};
ghost use Rattle.gprom_cli.specs.Call.{read_of};
ghost use Rattle.gprom_cli.specs.Steps.{Ends};

use crate::output::{write_loaded, write_message, write_sheet_fault};
use crate::read::read_file;
use crate::status::Status;
use gp_base::Name;
use gp_csv::CsvStop;
use gp_io::{Shelf, ShelfStop, Sink};
use gp_load::{LoadScript, load_script};
use std::alloc::Global;

/// The greatest number of bytes of a sheet.
pub const MAX_SHEET_LENGTH: usize = 16_777_216;

/// Replaces the script by that of a sheet, then writes how many rows the sheet has.
fn write_results<H: Shelf, K: Sink>(
    alloc: Global,
    bytes: &[u8],
    table: &Name,
    made: &LoadScript,
    script: &str,
    shelf: &mut H,
    out: &mut K,
) -> Status
    requires short { length bytes.now ≤ MAX_SHEET_LENGTH }
    requires exact { loaded_of table.now bytes.now ≡ Ok (made.now.text.items, made.now.rows) }
    requires loads { LoadsText table.now bytes.now made.now.text.items }
    ensures { (name : List ℕ) (before : List Event)
        → H.events shelf.old ≡ before ++ read_of name MAX_SHEET_LENGTH bytes.now ∷ []
        → Ends (Some (Load name table.now script.now)) before (H.events shelf.new) (K.state out.old) (K.state out.new) result }
{
    match shelf.replace(script, &made.text) {
        Ok(()) => write_loaded(alloc, out, made.rows),
        Err(ShelfStop::Failed) => write_message(
            alloc,
            out,
            "cannot write",
            script,
            Status::Unwritten,
        ),
        Err(ShelfStop::NoMemory) => Status::OutOfMemory,
        Err(ShelfStop::Absent) => unreachable!(),
    }
}

/// Loads a sheet that was read.
fn load_bytes<H: Shelf, K: Sink>(
    alloc: Global,
    bytes: &[u8],
    table: &Name,
    script: &str,
    shelf: &mut H,
    out: &mut K,
) -> Status
    requires { length bytes.now ≤ MAX_SHEET_LENGTH }
    ensures { (name : List ℕ) (before : List Event)
        → H.events shelf.old ≡ before ++ read_of name MAX_SHEET_LENGTH bytes.now ∷ []
        → Ends (Some (Load name table.now script.now)) before (H.events shelf.new) (K.state out.old) (K.state out.new) result }
{
    match load_script(alloc, table, bytes) {
        Ok(made) => write_results(alloc, bytes, table, &made, script, shelf, out),
        Err(CsvStop::Refused { c, number }) => write_sheet_fault(alloc, out, c, number),
        Err(CsvStop::NoMemory) => Status::OutOfMemory,
    }
}

/// Reads the sheet, makes the script that creates the table with its rows, replaces the script, then writes how many rows the sheet has.
pub(crate) fn load<H: Shelf, K: Sink>(
    alloc: Global,
    csv: &str,
    table: &Name,
    script: &str,
    shelf: &mut H,
    out: &mut K,
) -> Status
    ensures { Ends (Some (Load csv.now table.now script.now)) (H.events shelf.old) (H.events shelf.new)
        (K.state out.old) (K.state out.new) result }
{
    match read_file(alloc, csv, MAX_SHEET_LENGTH, shelf, out) {
        Ok(bytes) => load_bytes(alloc, &bytes, table, script, shelf, out),
        Err(status) => status,
    }
}
