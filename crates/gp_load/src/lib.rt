//! Sheets as histories: the script that loads a sheet, and what its history has.
//!
//! In reading order: [`load_script`] makes the script of a CSV text, from the calls of gp_csv. `specs/Loading` says what a script that
//! loads a sheet does, and the law [`scripts_load_sheets`] that the script of every sheet does it. By `specs/Reloading` and the law
//! [`exported_sheets_load_again`] an answer that was exported with names is such a sheet.
//!
//! ```text
//! let script = load_script(alloc, &name, b"id,name\n1,Ann\n")?; // script.rows is 1
//! ```
#![tactic(auto)]

mod laws;
mod load;

pub use laws::{exported_sheets_load_again, scripts_load_sheets};
pub use load::{LoadScript, load_script};
