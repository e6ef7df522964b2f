//! The engine: sessions with transactions of both kinds, and the reply to each line.
//!
//! An [`Engine`] takes the lines of a script one by one. It keeps the log of the accepted ones and all versions of the rows
//! of each table, and for each session the writes of its transaction. [`Engine::line`] gives the reply of the history machine
//! for every line: `Follows` in `specs/Engine.antt` says so of the states that the engine represents.
//!
//! In reading order: `running.rt` with the transaction of a session; `state.rt` with what the engine keeps; what lines do to
//! it, in `outside.rt` CREATE TABLE and BEGIN, in `statement.rt` the statements, in `committing.rt` COMMIT and ROLLBACK;
//! `line.rt`, which chooses among these; and `engine.rt` with the [`Engine`], which keeps the invariant.
//!
//! ```text
//! let mut engine = Engine::new(alloc);
//! match engine.line(3, 1, command)? { // line 3 of the script, in session 1
//!     Reply::Began { t, version } => ..
//! }
//! ```
#![tactic(auto)]

mod committing;
mod engine;
mod line;
mod outside;
mod running;
mod state;
mod statement;

pub use engine::Engine;
