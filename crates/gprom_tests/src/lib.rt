//! Tests of what only code can show: calls of the crates below the program that no call of the program makes as such, the real files and the
//! real output, and laws. What a call of the program shows is a transcript of `gprom_transcripts`.
//!
//! Reading order: `cases.rt` (values of any type), `values.rt` (cells, rows, names), `provenance.rt` (identities, tokens, monomials),
//! `choices.rt` (the choices of a query), `versions.rt` (row versions), `spelling.rt` (the texts of programs, read again), `programs.rt` (plain programs), `scans.rt` (the rows of past
//! versions), `backend.rt` and `deciding.rt` (questions to another backend), `replies.rt` (the texts of replies), `laws.rt`, `files.rt` (shelves
//! and sinks).
//!
//! Most tests are a `for` over a table of cases, and a helper compares one case. It answers `false` also where memory runs out:
//!
//! ```
//! for text in PROGRAMS {
//!     assert!(rt; is_read(rt.alloc(), &catalog, *text)?, "{text:?}");
//! }
//! ```
#![tactic(auto)]

#[cfg(test)]
mod backend;
#[cfg(test)]
mod cases;
#[cfg(test)]
mod choices;
#[cfg(test)]
mod deciding;
#[cfg(test)]
mod files;
#[cfg(test)]
mod laws;
#[cfg(test)]
mod programs;
#[cfg(test)]
mod provenance;
#[cfg(test)]
mod replies;
#[cfg(test)]
mod scans;
#[cfg(test)]
mod spelling;
#[cfg(test)]
mod values;
#[cfg(test)]
mod versions;
