//! Plays the transcripts of the folder `tests`, as a user would make their calls, and compares what each call writes and leaves with what the
//! transcript shows. Each transcript that shows something else gets a line, and then the status is 1. The transcripts of the folder `wrong` test
//! that: each begins with the line that it has to get.
//!
//! In reading order: `directive.rt` (what one line says), `transcript.rt` (which line may come where), `effect.rt` (each line has an effect), `text.rt`
//! (the bytes of text lines), `files.rt` (files in memory and real ones), `check.rt` (what a call gave is compared), `play.rt` (the calls), `report.rt`
//! (why a transcript fails).
//!
//! ```text
//! A script that makes a table.
//!
//! $ run S D
//! < s1: CREATE TABLE r (a INT)
//! > 1 created r
//! after D
//! | gprom-dump 1
//! | log 1
//! | 1 s1 CREATE TABLE r (a INT)
//! | end
//! ```
#![tactic(auto)]

mod check;
mod directive;
mod effect;
mod files;
mod play;
mod report;
mod text;
mod transcript;

use crate::files::real_file;
use crate::play::play;
use crate::report::{Failure, write_failure, write_number};
use gp_io::{DiskShelf, MemSink, OutSink, Shelf, Sink};
use std::alloc::Global;
use std::process::ExitCode;
use std::rt::Files;
use std::{fs, io};

/// The folder of the transcripts, and that of those that have to fail.
const TESTS: &str = "tests/";

const WRONG: &str = "wrong/";

/// The names in a folder, in order.
fn names<R: Files + AllocGlobal + Clone + Drop>(rt: &R, folder: &str) -> io::Result<Vec<String>> {
    let alloc = rt.alloc();
    let mut names = Vec::new(alloc);
    for entry in fs::read_dir(rt, folder)? {
        names.push(String::from_str(alloc, entry?.file_name())?)?;
    }
    names.sort_unstable();
    Ok(names)
}

/// The bytes of a transcript.
fn bytes_of<H: Shelf>(
    alloc: Global,
    folder: &str,
    name: &str,
    real: &mut H,
) -> Result<Vec<u8>, Failure> {
    let mut path = String::from_str(alloc, folder)?;
    path.push_str(name)?;
    real_file(real, &path, 0)
}

/// Plays the transcript of this name and these bytes, and gives the number of its calls.
fn play_file<H: Shelf>(
    alloc: Global,
    name: &str,
    bytes: &[u8],
    real: &mut H,
) -> Result<usize, Failure> {
    if !name.ends_with(".txt") {
        return Err(Failure::Whole("no transcript"));
    }
    match str::from_utf8(bytes) {
        Ok(text) => play(alloc, text, real),
        Err(_) => Err(Failure::Whole("no UTF-8")),
    }
}

/// Plays a transcript that has to pass, and gives the number of its calls.
fn play_test<H: Shelf>(alloc: Global, name: &str, real: &mut H) -> Result<usize, Failure> {
    let bytes = bytes_of(alloc, TESTS, name, real)?;
    play_file(alloc, name, &bytes, real)
}

/// Whether a transcript begins with the line that says why it fails.
fn begins_with_failure(alloc: Global, name: &str, failure: &Failure, bytes: &[u8]) -> bool {
    let mut line = MemSink::new(alloc, Vec::new(alloc));
    write_failure(name, failure, &mut line);
    bytes.starts_with(line.bytes())
}

/// Plays a transcript that has to fail. Its calls do not count.
fn play_wrong<H: Shelf>(alloc: Global, name: &str, real: &mut H) -> Result<usize, Failure> {
    let bytes = bytes_of(alloc, WRONG, name, real)?;
    match play_file(alloc, name, &bytes, real) {
        Ok(_) => Err(Failure::Whole("it does not fail")),
        Err(failure) => {
            if begins_with_failure(alloc, name, &failure, &bytes) {
                Ok(0)
            } else {
                Err(failure)
            }
        }
    }
}

/// How many transcripts failed, and how many calls the others made.
#[derive(Clone, Copy)]
struct Score {
    failed: usize,
    calls: usize,
}

impl Score {
    /// Adds what came of a transcript.
    fn add<K: Sink>(&mut self, name: &str, played: &Result<usize, Failure>, out: &mut K) {
        match played {
            Ok(calls) => self.calls = self.calls.saturating_add(*calls),
            Err(failure) => {
                self.failed = self.failed.saturating_add(1);
                write_failure(name, failure, out);
            }
        }
    }
}

/// Writes the last line, and gives the status.
fn write_score<K: Sink>(score: &Score, tests: usize, wrong: usize, out: &mut K) -> u8 {
    if score.failed == 0 {
        write_number(b"", tests, out);
        write_number(b" transcripts, ", score.calls, out);
        write_number(b" calls; ", wrong, out);
        let _ = out.write_all(b" fail as they have to\n");
    } else {
        write_number(b"", score.failed, out);
        write_number(b" of ", tests.saturating_add(wrong), out);
        let _ = out.write_all(b" transcripts failed\n");
    }
    u8::from(score.failed != 0 || tests == 0 || wrong == 0)
}

/// Plays all transcripts, and gives the status.
fn play_all<H: Shelf, K: Sink>(
    alloc: Global,
    tests: &[String],
    wrong: &[String],
    real: &mut H,
    out: &mut K,
) -> u8 {
    let mut score = Score {
        failed: 0,
        calls: 0,
    };
    for name in tests {
        score.add(name, &play_test(alloc, name, real), out);
    }
    for name in wrong {
        score.add(name, &play_wrong(alloc, name, real), out);
    }
    write_score(&score, tests.len(), wrong.len(), out)
}

fn main(rt: HostRuntime) -> ExitCode {
    let alloc = rt.alloc();
    let mut out = OutSink::new(rt);
    match (names(&rt, TESTS), names(&rt, WRONG)) {
        (Ok(tests), Ok(wrong)) => {
            let mut real = DiskShelf::new(rt, alloc);
            ExitCode::from(play_all(alloc, &tests, &wrong, &mut real, &mut out))
        }
        _ => {
            let _ = out.write_all(b"the folders tests and wrong cannot be read\n");
            ExitCode::from(1)
        }
    }
}
