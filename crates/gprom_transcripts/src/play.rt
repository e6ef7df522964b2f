//! Transcripts are played: files are given, calls are made, and what they leave is checked.

use crate::check::Check;
use crate::directive::{Directive, DirectiveLine, LAST_CALL, Marker, Shown};
use crate::effect::check_effects;
use crate::files::{add_from, altered, content, copies, put, real_file};
use crate::report::Failure;
use crate::text::expanded;
use crate::transcript::lines_of;
use gp_io::{MemShelf, MemSink, NamedFile, Shelf, ShelfStop, Sink, SinkStop};
use gprom_cli::gprom;
use std::alloc::{AllocError, Global};
use std::mem;

/// The files of a transcript, and what its calls wrote.
#[derive(Drop)]
struct Player {
    alloc: Global,
    calls: usize,
    /// The files as they were given.
    given: Vec<NamedFile>,
    /// The files before the latest call.
    files: Vec<NamedFile>,
    /// The files behind it.
    after: Vec<NamedFile>,
    /// Its output.
    output: Vec<u8>,
    /// The output of the call before it.
    output_before: Vec<u8>,
}

/// Appends the words that blanks separate.
fn push_words(alloc: Global, words: &str, all: &mut Vec<String>) -> Result<(), AllocError> {
    for word in words.split(' ') {
        if !word.is_empty() {
            all.push(String::from_str(alloc, word)?)?;
        }
    }
    Ok(())
}

/// The arguments of a call: its words, and each text in quotes as one.
fn arguments(alloc: Global, words: &str) -> Result<Vec<String>, AllocError> {
    let mut all = Vec::new(alloc);
    let mut is_quoted = false;
    for part in words.split('\'') {
        if is_quoted {
            all.push(String::from_str(alloc, part)?)?;
        } else {
            push_words(alloc, part, &mut all)?;
        }
        is_quoted = !is_quoted;
    }
    Ok(all)
}

/// The file that a call reads its lines from.
fn input_file(words: &str) -> Option<&str> {
    let (command, rest) = words.split_once(' ')?;
    let (first, rest) = rest.split_once(' ')?;
    match command {
        "run" | "load" => Some(first),
        "ask" | "export" | "sql" => Some(rest.split_once(' ').unwrap_or((rest, "")).0),
        _ => None,
    }
}

/// The calls of the files, or else the writes to the output, that fail. Where there are such, so does the last one, by which they are counted.
fn failing(
    alloc: Global,
    body: &[DirectiveLine<'_>],
    of_files: bool,
) -> Result<Vec<u64>, AllocError> {
    let mut calls = Vec::new(alloc);
    for line in body {
        match line.directive {
            Directive::FailFiles(call) if of_files => calls.push(u64::from(call))?,
            Directive::FailWrite(call) if !of_files => calls.push(u64::from(call))?,
            Directive::Writes(_) if !of_files => calls.push(u64::from(LAST_CALL))?,
            _ => (),
        }
    }
    if !calls.is_empty() {
        calls.push(u64::from(LAST_CALL))?;
    }
    Ok(calls)
}

/// How many calls of these files were made, if the last one fails: as many as it is away from it.
fn reads_made(shelf: &mut MemShelf) -> u16 {
    let mut left = 0;
    for call in 1..=LAST_CALL {
        if matches!(shelf.read("", 0), Err(ShelfStop::Failed)) {
            left = call;
        }
    }
    LAST_CALL.saturating_sub(left)
}

/// How many writes were made, if the last one fails.
fn writes_made(out: &mut MemSink) -> u16 {
    let mut left = 0;
    for call in 1..=LAST_CALL {
        if matches!(out.write_all(b""), Err(SinkStop::Failed)) {
            left = call;
        }
    }
    LAST_CALL.saturating_sub(left)
}

/// Checks the number of calls of the files, or else that of writes: those that have to fail were made.
fn check_made(
    alloc: Global,
    body: &[DirectiveLine<'_>],
    of_files: bool,
    made: u16,
) -> Result<(), Failure> {
    for line in body {
        let (wanted, is_right) = match line.directive {
            Directive::FailFiles(call) if of_files => (call, call <= made),
            Directive::FailWrite(call) if !of_files => (call, call <= made),
            Directive::Writes(count) if !of_files => (count, count == made),
            _ => (0, true),
        };
        if !is_right {
            let what = format!(in alloc; "wanted {wanted} calls, got {made}")?;
            return Err(Failure::Differs(line.number, what.into_bytes()));
        }
    }
    Ok(())
}

/// The status with which a call has to end.
fn wanted_status(body: &[DirectiveLine<'_>]) -> u8 {
    for line in body {
        if let Directive::Status(status) = line.directive {
            return status;
        }
    }
    0
}

/// What the output of the call at this line has to be, and the line that says so.
fn shown_output<'a>(line: usize, body: &[DirectiveLine<'a>]) -> (usize, Shown<'a>) {
    for line in body {
        if let Directive::Output(shown) = line.directive {
            return (line.number, shown);
        }
    }
    (line, Shown::Lines)
}

fn has_output(body: &[DirectiveLine<'_>]) -> bool {
    body.iter().any(|line| matches!(line.directive, Directive::Text(Marker::Output, _)))
}

/// Makes a call, and gives its status.
fn called(
    alloc: Global,
    words: &str,
    shelf: &mut MemShelf,
    out: &mut MemSink,
) -> Result<u8, AllocError> {
    let arguments = arguments(alloc, words)?;
    Ok(gprom(alloc, &arguments, shelf, out))
}

/// The files behind a call: those that there were, and those that its words name.
fn files_behind(
    alloc: Global,
    files: &[NamedFile],
    words: &str,
    shelf: &mut MemShelf,
) -> Result<Vec<NamedFile>, Failure> {
    let mut behind = Vec::new(alloc);
    for file in files {
        add_from(alloc, shelf, file.name.as_str(), &mut behind)?;
    }
    for word in words.split(' ') {
        add_from(alloc, shelf, word, &mut behind)?;
    }
    Ok(behind)
}

/// Checks the status of the call at this line.
fn check_status(alloc: Global, line: usize, wanted: u8, got: u8) -> Result<(), Failure> {
    if got == wanted {
        return Ok(());
    }
    let what = format!(in alloc; "wanted status {wanted}, got {got}")?;
    Err(Failure::Differs(line, what.into_bytes()))
}

impl Player {
    /// A player before the first line.
    fn new(alloc: Global) -> Player {
        Player {
            alloc,
            calls: 0,
            given: Vec::new(alloc),
            files: Vec::new(alloc),
            after: Vec::new(alloc),
            output: Vec::new(alloc),
            output_before: Vec::new(alloc),
        }
    }

    /// Gives a file.
    fn give(&mut self, name: &str, bytes: &[u8]) -> Result<(), Failure> {
        put(self.alloc, &mut self.given, name, bytes)?;
        Ok(put(self.alloc, &mut self.files, name, bytes)?)
    }

    /// Alters a file that was given.
    fn alter(
        &mut self,
        name: &str,
        place: usize,
        is_kept: bool,
        line: usize,
        body: &[DirectiveLine<'_>],
    ) -> Result<(), Failure> {
        let lines = expanded(self.alloc, body, Marker::File, 0)?.bytes;
        let given = content(&self.given, name).unwrap_or(b"");
        match altered(self.alloc, given, place, is_kept, &lines)? {
            Some(bytes) => Ok(put(self.alloc, &mut self.files, name, &bytes)?),
            None => Err(Failure::At(line, "no such line was given")),
        }
    }

    /// Gives the file that a call reads its lines from, if there are such lines.
    fn give_input(
        &mut self,
        line: usize,
        words: &str,
        body: &[DirectiveLine<'_>],
    ) -> Result<(), Failure> {
        let input = expanded(self.alloc, body, Marker::Input, 0)?;
        if input.input_lines == 0 {
            return Ok(());
        }
        match input_file(words) {
            Some(name) => Ok(put(self.alloc, &mut self.files, name, &input.bytes)?),
            None => Err(Failure::At(line, "no file for the input lines")),
        }
    }

    /// Keeps what a call left.
    fn keep(&mut self, words: &str, shelf: &mut MemShelf, output: &[u8]) -> Result<(), Failure> {
        self.after = files_behind(self.alloc, &self.files, words, shelf)?;
        let output = Vec::from_slice(self.alloc, output)?;
        self.output_before = mem::replace(&mut self.output, output);
        self.calls = self.calls.saturating_add(1);
        Ok(())
    }

    /// Makes a call, keeps what it leaves, and gives its status.
    fn call(&mut self, words: &str, body: &[DirectiveLine<'_>]) -> Result<u8, Failure> {
        let files = copies(self.alloc, &self.files)?;
        let mut shelf = MemShelf::new(self.alloc, files, failing(self.alloc, body, true)?);
        let mut out = MemSink::new(self.alloc, failing(self.alloc, body, false)?);
        let status = called(self.alloc, words, &mut shelf, &mut out)?;
        check_made(self.alloc, body, true, reads_made(&mut shelf))?;
        check_made(self.alloc, body, false, writes_made(&mut out))?;
        self.keep(words, &mut shelf, out.bytes())?;
        Ok(status)
    }

    /// Checks the output of the call at this line.
    fn check_output<H: Shelf>(
        &self,
        line: usize,
        body: &[DirectiveLine<'_>],
        real: &mut H,
    ) -> Result<(), Failure> {
        let (line, shown) = shown_output(line, body);
        if !matches!(shown, Shown::Lines) && has_output(body) {
            return Err(Failure::At(line, "there are output lines besides"));
        }
        let check = Check {
            alloc: self.alloc,
            line,
            shown,
            lines: body,
            marker: Marker::Output,
        };
        check.run(
            Some(self.output_before.as_slice()),
            Some(self.output.as_slice()),
            real,
        )
    }

    /// Checks the files behind a call.
    fn check_files<H: Shelf>(
        &self,
        body: &[DirectiveLine<'_>],
        real: &mut H,
    ) -> Result<(), Failure> {
        for lines in body.chunk_by(|_, next| !matches!(next.directive, Directive::After(_, _))) {
            if let Some(first) = lines.first()
                && let Directive::After(name, shown) = first.directive
            {
                let check = Check {
                    alloc: self.alloc,
                    line: first.number,
                    shown,
                    lines,
                    marker: Marker::File,
                };
                let got = content(&self.after, name);
                check.run(content(&self.files, name), got, real)?;
            }
        }
        Ok(())
    }

    fn play_call<H: Shelf>(
        &mut self,
        line: usize,
        words: &str,
        body: &[DirectiveLine<'_>],
        real: &mut H,
    ) -> Result<(), Failure> {
        self.give_input(line, words, body)?;
        let status = self.call(words, body)?;
        self.check_output(line, body, real)?;
        check_status(self.alloc, line, wanted_status(body), status)?;
        self.check_files(body, real)?;
        self.files = mem::replace(&mut self.after, Vec::new(self.alloc));
        Ok(())
    }

    /// Plays a file that is given or altered, or a call, with the lines that belong to it.
    fn play_step<H: Shelf>(
        &mut self,
        step: &[DirectiveLine<'_>],
        real: &mut H,
    ) -> Result<(), Failure> {
        let Some((head, body)) = step.split_first() else {
            return Ok(());
        };
        match head.directive {
            Directive::Given(name) => {
                let bytes = expanded(self.alloc, body, Marker::File, 0)?.bytes;
                self.give(name, &bytes)
            }
            Directive::GivenFrom(name, file) => {
                let bytes = real_file(real, file, head.number)?;
                self.give(name, &bytes)
            }
            Directive::Alter(name, place, is_kept) => {
                self.alter(name, place, is_kept, head.number, body)
            }
            Directive::Call(words) => self.play_call(head.number, words, body, real),
            _ => Ok(()),
        }
    }
}

/// Plays a transcript, and gives the number of its calls.
pub(crate) fn play<H: Shelf>(alloc: Global, text: &str, real: &mut H) -> Result<usize, Failure> {
    let lines = lines_of(alloc, text)?;
    if !lines.iter().any(|line| line.is_check()) {
        return Err(Failure::Whole("no check"));
    }
    check_effects(&lines)?;
    let mut player = Player::new(alloc);
    for step in lines.chunk_by(|_, next| !next.begins_step()) {
        player.play_step(step, real)?;
    }
    Ok(player.calls)
}
