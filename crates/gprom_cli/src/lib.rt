//! The program gprom as a library: one call, [`gprom`], does all that the program does, over any shelf of files and any sink of bytes.
//!
//! In reading order: `status.rt` (how a call ends), `words.rt` and `args.rt` (what the arguments ask for), `output.rt` and `read.rt` (what is
//! written and read), `about.rt` (the usage line, `help` and `version`), `run.rt`, `ask.rt` and `load.rt` (the commands over files), `generated.rt` and `summary.rt` (scripts and
//! questions that are generated, and what they come to), `laws.rt` (what dumps answer, and those of scripts; calls over files in memory),
//! `execute.rt` (what the arguments ask for is done), `call.rt` (the call). The contract of [`gprom`] is `Promises` in `specs/Promises.antt`, and
//! [`promises_have_consequences`] says what follows from it by command and status. What the summary of `gen` says is the contract of [`generate`]. In `specs/`,
//! `Call` says what a call comes to, by what the shelf has done and the lines that its files are read as, and `Steps` how the parts of the code say the same.
//!
//! ```
//! let mut shelf = DiskShelf::new(rt, rt.alloc());
//! let mut out = OutSink::new(rt);
//! let status = gprom(rt.alloc(), &args, &mut shelf, &mut out);
//! ```
#![tactic(auto)]

mod about;
mod args;
mod ask;
mod call;
mod execute;
mod generated;
mod laws;
mod load;
mod output;
mod read;
mod run;
mod status;
mod summary;
mod words;

pub use about::{HELP, VERSION};
pub use call::gprom;
pub use generated::{MAX_ROUNDS, generate_questions, generate_script};
pub use laws::{
    calls_keep_promises_over_files, dumps_answer_for_changed_histories,
    dumps_of_histories_are_known, promises_have_consequences, scripts_have_well_formed_dumps,
};
pub use load::MAX_SHEET_LENGTH;
pub use status::Status;
pub use summary::{Summary, generate};
