//! `gen N`: a generated script is run, its dump is read back, the generated questions are answered from it, and the numbers of all that are
//! written.

ghost use Rattle.std.specs.Prelude.{◌≡◌, ◌≤◌, ◌++◌, ◌∷◌, [], ℕ, IfOk, OnOk, length};
ghost use Rattle.std.specs.Fmt.{decimal};
ghost use Rattle.gp_base.specs.Annotated.{unannotated};
ghost use Rattle.gp_dump.specs.Dumps.{dump_of, spans_in};
ghost use Rattle.gp_dump.specs.WholeDumps.{IsDump};
ghost use Rattle.gp_dump.specs.Views.{dump_view};
ghost use Rattle.gp_log.specs.Contents.{entries};
ghost use Rattle.gp_machine.specs.Entries.{fate_of, transactions_in};
ghost use Rattle.gp_ask.specs.Computed.{computed_answer};
ghost use Rattle.gp_script.specs.Scripts.{final_state};
ghost use Rattle.gp_syntax.specs.Lines.{script_lines};
ghost use Rattle.gprom_cli.specs.declared.summary.Summary.{Summary};
ghost use Rattle.gprom_cli.specs.Call.{WritesOutput};
ghost use Rattle.gprom_cli.specs.Generated.{pieces_line};
ghost use Rattle.gprom_cli.specs.Summary.{IsSummary, committed_in, has_committed, is_lost, row_count, summary_text};
ghost use Rattle.gprom_cli.specs.Summaries.{line_rows, lost_up_to, rows_in, summary_of};

use crate::generated::{MAX_ROUNDS, generate_questions, generate_script};
use crate::laws::scripts_have_well_formed_dumps;
use crate::output::write_output;
use crate::run::run_all;
use crate::status::Status;
use gp_ask::{Answered, answer_line};
use gp_base::{Fate, NoMemory, append_all};
use gp_dump::{Dump, DumpStop, MAX_DUMP_LENGTH, read_dump};
use gp_io::Sink;
use gp_log::Log;
use gp_script::MAX_SCRIPT_LENGTH;
use gp_syntax::lines;
use itoa::Buffer;
use std::alloc::Global;

/// What a generated script comes to.
#[derive(Clone, Copy)]
pub struct Summary {
    /// The number of rounds.
    pub rounds: u32,
    /// The lines of the script.
    pub lines: u32,
    /// The transactions that committed.
    pub committed: usize,
    /// Those whose commit was refused, since another one had written the same row.
    pub lost: u32,
    /// The row lines of the dump.
    pub spans: u32,
    /// The questions.
    pub questions: u32,
    /// The rows of all answers.
    pub rows: u64,
}

/// Whether the transaction committed.
fn has_committed(log: &Log, t: u32) -> bool
    ensures { result ≡ has_committed (fate_of t (entries log.now)) }
{
    matches!(log.fate(t), Fate::Committed(_))
}

/// Whether the transaction was lost.
fn is_lost(log: &Log, t: u32) -> bool
    ensures { result ≡ is_lost (fate_of t (entries log.now)) }
{
    matches!(log.fate(t), Fate::Lost)
}

/// The transactions that committed, in order.
fn committed(alloc: Global, log: &Log) -> Result<Vec<u32>, NoMemory>
    ensures { IfOk result (λ committed. committed.items ≡ committed_in (entries log.now)) }
{
    let mut committed = Vec::new(alloc);
    let mut t = 0;
    while t < log.transactions() {
        t += 1;
        if has_committed(log, t) {
            committed.push(t)?;
        }
    }
    Ok(committed)
}

/// How many transactions were lost.
fn count_lost(log: &Log) -> u32
    ensures { result ≡ lost_up_to (entries log.now) (transactions_in (entries log.now)) }
{
    let mut lost = 0;
    let mut t = 0;
    while t < log.transactions() {
        t += 1;
        if is_lost(log, t) {
            lost += 1;
        }
    }
    lost
}

/// The number of the lines that get a reply, or an answer.
fn count_lines(text: &[u8]) -> u32
    requires { length text.now ≤ MAX_SCRIPT_LENGTH }
    ensures { result ≡ length (script_lines text.now) }
{
    let mut count = 0;
    let mut rest = lines(text);
    while let Some(_line) = rest.next() {
        count += 1;
    }
    count
}

/// The number of row lines.
fn count_spans(dump: &Dump) -> u32
    requires { IsDump (dump_view dump.now) }
    ensures { result ≡ spans_in (dump_view dump.now).tables }
{
    let mut spans = 0;
    for table in dump.versions.as_slice() {
        spans += table.len();
    }
    spans as u32
}

/// The number of rows of an answer.
fn row_count(answer: &Answered) -> usize
    ensures { result ≡ row_count answer.now }
{
    match answer {
        Answered::Rows(rows) => rows.as_slice().len(),
        Answered::Listed(rows) => rows.as_slice().len(),
        Answered::Values(rows) => rows.as_slice().len(),
        _ => 0,
    }
}

/// The number of rows of the answer to a line.
fn line_rows(alloc: Global, dump: &Dump, line: &[u8]) -> Result<u64, NoMemory>
    requires rules { IsDump (dump_view dump.now) }
    ensures { IfOk result (λ rows. (number : ℕ)
        → rows ≡ line_rows (computed_answer (dump_view dump.now)) (number, line.now)) }
{
    let answer = answer_line(alloc, dump, line)?;
    Ok(row_count(&answer) as u64)
}

/// The number of rows of all answers to a file of questions.
fn count_rows(alloc: Global, dump: &Dump, questions: &[u8]) -> Result<u64, NoMemory>
    requires rules { IsDump (dump_view dump.now) }
    requires short { length questions.now ≤ MAX_SCRIPT_LENGTH }
    ensures { IfOk result (λ rows. rows ≡ rows_in (computed_answer (dump_view dump.now)) questions.now) }
{
    let mut rows: u64 = 0;
    let mut rest = lines(questions);
    while let Some(line) = rest.next() {
        rows += line_rows(alloc, dump, line.bytes)?;
    }
    Ok(rows)
}

/// Runs a script, and reads its dump back.
fn read_back(alloc: Global, script: &[u8]) -> Result<Dump, NoMemory>
    requires { length script.now ≤ MAX_SCRIPT_LENGTH }
    ensures dump { IfOk result (λ dump. dump_view dump ≡ dump_of (final_state unannotated script.now)) }
    ensures rules { IfOk result (λ dump. IsDump (dump_view dump)) }
{
    // The dump of a script is well formed by this law. The call does nothing.
    scripts_have_well_formed_dumps();
    let made = run_all(alloc, script)?;
    // No generated dump comes near this length, but none is proved to stay below it.
    if made.dump.len() > MAX_DUMP_LENGTH {
        return Err(NoMemory);
    }
    match read_dump(alloc, &made.dump) {
        Ok(dump) => Ok(dump),
        Err(DumpStop::NoMemory) => Err(NoMemory),
        Err(DumpStop::Fault { .. }) => unreachable!(),
    }
}

/// The summary of a script of this many rounds: of its history, and of the answers of that history to the generated questions. They are
/// answered from the dump. Running out of memory is the only error.
fn summary_of(alloc: Global, rounds: u32) -> Result<Summary, NoMemory>
    requires { rounds ≤ MAX_ROUNDS }
    ensures { IfOk result (λ summary. summary ≡ summary_of rounds) }
{
    // The dump answers as the history by this law. The call does nothing.
    scripts_have_well_formed_dumps();
    let script = generate_script(alloc, rounds)?;
    let dump = read_back(alloc, &script)?;
    let committed = committed(alloc, &dump.log)?;
    let questions = generate_questions(alloc, &committed, dump.log.commits())?;
    Ok(Summary {
        rounds,
        lines: count_lines(&script),
        committed: committed.len(),
        lost: count_lost(&dump.log),
        questions: count_lines(&questions),
        rows: count_rows(alloc, &dump, &questions)?,
        spans: count_spans(&dump),
    })
}

/// Appends a line of a summary: a word and a number.
fn append_line(word: &[u8], number: u64, out: &mut Vec<u8>) -> Result<(), NoMemory>
    ensures { OnOk result (out.new.items
        ≡ out.old.items ++ pieces_line (word.now ∷ decimal number ∷ [])) }
{
    let mut buffer = Buffer::new();
    append_all(out, &[word, buffer.format(number).as_bytes(), b"\n"])
}

/// The text of a summary: a line for each of its numbers.
fn summary_text(alloc: Global, summary: &Summary) -> Result<Vec<u8>, NoMemory>
    ensures { IfOk result (λ text. text.items ≡ summary_text summary.now) }
{
    let mut text = Vec::new(alloc);
    append_line(b"gen ", u64::from(summary.rounds), &mut text)?;
    append_line(b"lines ", u64::from(summary.lines), &mut text)?;
    append_line(b"committed ", summary.committed as u64, &mut text)?;
    append_line(b"lost ", u64::from(summary.lost), &mut text)?;
    append_line(b"spans ", u64::from(summary.spans), &mut text)?;
    append_line(b"questions ", u64::from(summary.questions), &mut text)?;
    append_line(b"rows ", summary.rows, &mut text)?;
    Ok(text)
}

/// The text of the summary of this many rounds.
fn generated_text(alloc: Global, rounds: u32) -> Result<Vec<u8>, NoMemory>
    requires { rounds ≤ MAX_ROUNDS }
    ensures { IfOk result (λ text. text.items ≡ summary_text (summary_of rounds)) }
{
    let summary = summary_of(alloc, rounds)?;
    summary_text(alloc, &summary)
}

/// Does all that `gen` does: makes the script of this many rounds, from 1 to [`MAX_ROUNDS`], runs it, reads its dump back, answers the generated
/// questions, and writes the summary: the one that the history of the script has, and the answers that it held.
pub fn generate<K: Sink>(alloc: Global, rounds: u32, out: &mut K) -> Status
    requires { rounds ≤ MAX_ROUNDS }
    ensures { (summary : Summary) × IsSummary rounds summary
        × ((other : Summary) → IsSummary rounds other → other ≡ summary)
        × WritesOutput (summary_text summary) Status.Done (K.state out.old) (K.state out.new) result }
{
    match generated_text(alloc, rounds) {
        Ok(text) => write_output(out, &text, Status::Done),
        Err(NoMemory) => Status::OutOfMemory,
    }
}
