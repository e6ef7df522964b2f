//! `ask DUMP QUESTIONS`, `export DUMP QUESTIONS` and `sql DUMP QUESTIONS`: answers questions from a dump, as text, as CSV, also with the names of columns, or as SQL.

ghost use Rattle.std.specs.Prelude.{◌≡◌, ◌≤◌, ℕ, List, [], ◌∷◌, ◌++◌, IfOk, length, Some};
ghost use Rattle.gp_io.specs.Events.{Event};
ghost use Rattle.gp_ask.specs.Keeping.{AreKept};
ghost use Rattle.gp_ask.specs.Formats.{heading_in};
ghost use Rattle.gp_ask.specs.Questions.{is_refused};
ghost use Rattle.gp_dump.specs.WholeDumps.{IsDump};
ghost use Rattle.gp_dump.specs.Views.{dump_view};
ghost use Rattle.gprom_cli.specs.Args.{Ask};
ghost use Rattle.gprom_cli.specs.Call.{WritesOutput, answered_status, read_of};
ghost use Rattle.gprom_cli.specs.Steps.{Answers, Ends, WritesAnswers, WritesText, file_answers, file_refused, file_text, line_answer, line_text};

use crate::laws::dumps_answer_for_changed_histories;
use crate::output::{stop_status, write_damage};
use crate::read::read_file;
use crate::status::Status;
use gp_ask::{Format, KeptAnnotations, answer_line_in, write_answer_in, write_heading_in};
use gp_base::NoMemory;
use gp_dump::{Dump, DumpStop, MAX_DUMP_LENGTH, read_dump};
use gp_io::{Shelf, Sink, SinkStop};
use gp_script::MAX_SCRIPT_LENGTH;
use gp_syntax::lines;
use std::alloc::Global;

/// The text of the answer to a line of questions, and whether the question was refused.
#[derive(Drop)]
struct LineAnswer {
    text: Vec<u8>,
    refused: bool,
}

/// Answers a line of questions.
fn answered(
    alloc: Global,
    format: Format,
    dump: &Dump,
    number: u32,
    bytes: &[u8],
    kept: &mut KeptAnnotations,
) -> Result<LineAnswer, NoMemory>
    requires rules { IsDump (dump_view dump.now) }
    requires kept { AreKept dump.now kept.old }
    ensures kept { AreKept dump.now kept.new }
    ensures text { IfOk result (λ answer. answer.text.items
        ≡ line_text format (dump_view dump.now) (number, bytes.now)) }
    ensures refused { IfOk result (λ answer. answer.refused
        ≡ is_refused (line_answer format (dump_view dump.now) (number, bytes.now))) }
{
    let answer = answer_line_in(alloc, format, dump, bytes, kept)?;
    let refused = answer.is_refused();
    let mut text = Vec::new(alloc);
    write_answer_in(alloc, format, number, answer, &mut text)?;
    Ok(LineAnswer { text, refused })
}

/// Writes the answer to a line, which is whole lines, at once. Gives whether the question was refused.
fn write_answered<K: Sink>(answer: &LineAnswer, out: &mut K) -> Result<bool, SinkStop>
    ensures { WritesAnswers answer.now.text.items answer.now.refused (K.state out.old) (K.state out.new) result }
{
    match out.write_all(&answer.text) {
        Ok(()) => Ok(answer.refused),
        Err(stop) => Err(stop),
    }
}

/// Answers a line of questions and writes the answer. Gives whether the question was refused.
fn write_line<K: Sink>(
    alloc: Global,
    format: Format,
    dump: &Dump,
    number: u32,
    bytes: &[u8],
    kept: &mut KeptAnnotations,
    out: &mut K,
) -> Result<bool, SinkStop>
    requires rules { IsDump (dump_view dump.now) }
    requires kept { AreKept dump.now kept.old }
    ensures kept { AreKept dump.now kept.new }
    ensures written { WritesAnswers
        (line_text format (dump_view dump.now) (number, bytes.now))
        (is_refused (line_answer format (dump_view dump.now) (number, bytes.now)))
        (K.state out.old) (K.state out.new) result }
{
    match answered(alloc, format, dump, number, bytes, kept) {
        Ok(answer) => write_answered(&answer, out),
        Err(NoMemory) => Err(SinkStop::NoMemory),
    }
}

/// Answers each line of questions in order, and writes each answer when it is made. Gives whether a question was refused.
fn write_lines<K: Sink>(
    alloc: Global,
    format: Format,
    dump: &Dump,
    questions: &[u8],
    out: &mut K,
) -> Result<bool, SinkStop>
    requires rules { IsDump (dump_view dump.now) }
    requires short { length questions.now ≤ MAX_SCRIPT_LENGTH }
    ensures { WritesAnswers
        (file_answers format (dump_view dump.now) questions.now)
        (file_refused format (dump_view dump.now) questions.now)
        (K.state out.old) (K.state out.new) result }
{
    let mut refused = false;
    let mut kept = KeptAnnotations::new();
    let mut rest = lines(questions);
    while let Some(line) = rest.next() {
        refused = refused
            | write_line(alloc, format, dump, line.number, line.bytes, &mut kept, out)?;
    }
    Ok(refused)
}

/// Answers questions from a dump that is well formed.
fn write_answers<K: Sink>(
    alloc: Global,
    format: Format,
    dump: &Dump,
    questions: &[u8],
    out: &mut K,
) -> Status
    requires rules { IsDump (dump_view dump.now) }
    requires short { length questions.now ≤ MAX_SCRIPT_LENGTH }
    ensures { WritesOutput
        (file_answers format (dump_view dump.now) questions.now)
        (answered_status (file_refused format (dump_view dump.now) questions.now))
        (K.state out.old) (K.state out.new) result }
{
    match write_lines(alloc, format, dump, questions, out) {
        Ok(refused) => Status::answered(refused),
        Err(stop) => stop_status(stop),
    }
}

/// Writes a text at once, unless it is empty.
fn write_text<K: Sink>(text: &[u8], out: &mut K) -> Result<(), SinkStop>
    ensures { WritesText text.now (K.state out.old) (K.state out.new) result }
{
    match text {
        [] => Ok(()),
        _ => out.write_all(text),
    }
}

/// What comes before all answers.
fn heading(alloc: Global, format: Format, dump: &Dump) -> Result<Vec<u8>, NoMemory>
    ensures { IfOk result (λ text. text.items ≡ heading_in format (dump_view dump.now)) }
{
    let mut text = Vec::new(alloc);
    write_heading_in(alloc, format, dump, &mut text)?;
    Ok(text)
}

/// Writes what comes before all answers, if there is something.
fn write_heading<K: Sink>(
    alloc: Global,
    format: Format,
    dump: &Dump,
    out: &mut K,
) -> Result<(), SinkStop>
    ensures { WritesText (heading_in format (dump_view dump.now)) (K.state out.old) (K.state out.new) result }
{
    match heading(alloc, format, dump) {
        Ok(text) => write_text(&text, out),
        Err(NoMemory) => Err(SinkStop::NoMemory),
    }
}

/// Answers questions from a dump that is well formed, behind what comes before all answers.
fn write_file<K: Sink>(
    alloc: Global,
    format: Format,
    dump: &Dump,
    questions: &[u8],
    out: &mut K,
) -> Status
    requires rules { IsDump (dump_view dump.now) }
    requires short { length questions.now ≤ MAX_SCRIPT_LENGTH }
    ensures { WritesOutput
        (file_text format (dump_view dump.now) questions.now)
        (answered_status (file_refused format (dump_view dump.now) questions.now))
        (K.state out.old) (K.state out.new) result }
{
    match write_heading(alloc, format, dump, out) {
        Ok(()) => write_answers(alloc, format, dump, questions, out),
        Err(stop) => stop_status(stop),
    }
}

/// Tests a dump against its rules, and answers questions from it.
fn answer<K: Sink>(
    alloc: Global,
    format: Format,
    bytes: &[u8],
    questions: &[u8],
    out: &mut K,
) -> Status
    requires dump { length bytes.now ≤ MAX_DUMP_LENGTH }
    requires questions { length questions.now ≤ MAX_SCRIPT_LENGTH }
    ensures { Answers format bytes.now questions.now (K.state out.old) (K.state out.new) result }
{
    match read_dump(alloc, bytes) {
        Ok(dump) => {
            // What would be with a change is what that history held, by this law. The call does nothing.
            dumps_answer_for_changed_histories();
            write_file(alloc, format, &dump, questions, out)
        }
        Err(DumpStop::Fault { f, line }) => write_damage(alloc, out, f, line),
        Err(DumpStop::NoMemory) => Status::OutOfMemory,
    }
}

/// Answers questions from a dump that was read.
fn ask_bytes<H: Shelf, K: Sink>(
    alloc: Global,
    format: Format,
    bytes: &[u8],
    questions: &str,
    shelf: &mut H,
    out: &mut K,
) -> Status
    requires { length bytes.now ≤ MAX_DUMP_LENGTH }
    ensures { (dump : List ℕ) (before : List Event)
        → H.events shelf.old ≡ before ++ read_of dump MAX_DUMP_LENGTH bytes.now ∷ []
        → Ends (Some (Ask format dump questions.now)) before (H.events shelf.new) (K.state out.old) (K.state out.new) result }
{
    match read_file(alloc, questions, MAX_SCRIPT_LENGTH, shelf, out) {
        Ok(asked) => answer(alloc, format, bytes, &asked, out),
        Err(status) => status,
    }
}

/// Reads the dump, then the questions, tests the dump, answers each question in order, and writes each answer when it is made.
pub(crate) fn ask<H: Shelf, K: Sink>(
    alloc: Global,
    format: Format,
    dump: &str,
    questions: &str,
    shelf: &mut H,
    out: &mut K,
) -> Status
    ensures { Ends (Some (Ask format dump.now questions.now)) (H.events shelf.old) (H.events shelf.new)
        (K.state out.old) (K.state out.new) result }
{
    match read_file(alloc, dump, MAX_DUMP_LENGTH, shelf, out) {
        Ok(bytes) => ask_bytes(alloc, format, &bytes, questions, shelf, out),
        Err(status) => status,
    }
}
