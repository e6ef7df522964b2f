//! Files and an output as traits, so that a contract can state what a call reads and writes.
//!
//! In reading order:
//! - `edge` is where the operating system is called: 91 lines, which are read by eye, and all else is proved over them. `calls` has their contracts.
//! - `whole` replaces a file whole or not at all. [`files_are_replaced_whole`] says what its steps do to files.
//! - [`Shelf`] and [`Sink`] are the traits. Their contracts say what each answer means.
//! - [`ShelfStop`] and [`SinkStop`] are the reasons why a call stopped.
//! - [`CalmShelf`] and [`CalmSink`] keep everything in memory and never fail but for memory.
//! - [`MemShelf`] and [`MemSink`] add injected failures, for tests. [`events_lead_to_files`] is the law of both shelves.
//! - [`DiskShelf`] and [`OutSink`] are the operating system's files and its standard output, by `edge`.
//!
//! A caller is generic over both, and so runs on a disk, in memory and under injected failures:
//!
//! ```text
//! fn copy<H: Shelf, K: Sink>(name: &str, shelf: &mut H, out: &mut K) -> bool {
//!     match shelf.read(name, 1024) {
//!         Ok(bytes) => out.write_all(&bytes).is_ok(),
//!         Err(_) => false,
//!     }
//! }
//! ```
#![tactic(auto)]

mod calls;
mod calm;
mod disk;
mod edge;
mod error;
mod fault_plan;
mod file_list;
mod found;
mod laws;
mod mem;
mod named_file;
mod shelf;
mod sink;
mod stdout;
mod stream;
mod trace;
mod whole;

pub use calm::{CalmShelf, CalmSink};
pub use disk::DiskShelf;
pub use error::{ShelfStop, SinkStop};
pub use laws::{events_lead_to_files, files_are_replaced_whole};
pub use mem::{MemShelf, MemSink};
pub use named_file::NamedFile;
pub use shelf::Shelf;
pub use sink::Sink;
pub use stdout::OutSink;
