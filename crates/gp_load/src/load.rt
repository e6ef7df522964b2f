//! Sheets loaded: the script of a CSV text.

ghost use Rattle.std.specs.Prelude.{◌<◌, ◌-◌, ◌^◌, IfOk, length};
ghost use Rattle.gp_csv.specs.SheetForms.{Returns};
ghost use Rattle.gp_load.specs.Loading.{LoadsText, loaded_of};

use gp_base::Name;
use gp_csv::{CsvStop, read_sheet, write_script};
use std::alloc::Global;

/// The script of a sheet.
#[derive(Drop)]
pub struct LoadScript {
    /// The text of the script.
    pub text: Vec<u8>,
    /// The number of rows of the sheet, which are its data records.
    pub rows: usize,
}

/// The script that creates a table of this name with the rows of the sheet of a CSV text. No line of it is refused, and the last version
/// of its history has these rows. The sheet is refused for the first fault of its records, and then for the first row that no line or
/// no table can have.
pub fn load_script(alloc: Global, name: &Name, csv: &[u8]) -> Result<LoadScript, CsvStop>
    requires { length csv.now < 2 ^ 32 - 1 }
    ensures exact { Returns (λ script. (script.text.items, script.rows)) result
        (loaded_of name.now csv.now) }
    ensures loads { IfOk result (λ script. LoadsText name.now csv.now script.text.items) }
{
    // That its bytes are a name is known of a name whose bytes were seen. The law of what a script does asks for it.
    let _bytes = name.as_bytes();
    let sheet = read_sheet(alloc, csv)?;
    let text = write_script(alloc, name, &sheet)?;
    let rows = sheet.rows.as_slice().len();
    Ok(LoadScript { text, rows })
}
