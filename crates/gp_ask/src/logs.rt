//! The log of a transaction.

ghost use Rattle.std.specs.Prelude.{◌≡◌, ◌∷◌, ◌++◌, [], map, IfOk, OnOk};
ghost use Rattle.gp_machine.specs.Questions.{is_known};
ghost use Rattle.gp_log.specs.Contents.{entries};
ghost use Rattle.gp_log.specs.Logs.{entry_view};
ghost use Rattle.gp_machine.specs.Entries.{is_of};
ghost use Rattle.gp_dumpline.specs.Texts.{entry_text};
ghost use Rattle.gp_ask.specs.Lines as a;
ghost use Rattle.gp_ask.specs.Lines.{entries_of, transaction_lines};

use crate::answered::{Answered, Heading};
use gp_base::{NoMemory, Refusal, Sequence, Text};
use gp_dumpline::write_entry;
use gp_log::{Entry, Log, What};
use std::alloc::Global;

/// Whether a transaction has this number.
pub(crate) fn is_known(log: &Log, t: u64) -> bool
    ensures { result ≡ is_known t (entries log.now) }
{
    0 < t && t <= u64::from(log.transactions())
}

/// Whether the entry is of the transaction. CREATE TABLE is of none.
fn is_of(entry: &Entry, t: u64) -> bool
    ensures { result ≡ is_of t (entry_view entry.now) }
{
    match entry.what {
        What::Create(_) => false,
        _ => u64::from(entry.t) == t,
    }
}

/// The line of an entry in a dump.
fn entry_line(alloc: Global, entry: &Entry) -> Result<Text, NoMemory>
    ensures { IfOk result (λ text. text ≡ entry_text (entry_view entry.now)) }
{
    let mut text = Vec::new(alloc);
    write_entry(alloc, entry, &mut text)?;
    Text::from_bytes(alloc, &text)
}

/// Adds the line of an entry, if it is of the transaction.
fn push_line(
    alloc: Global,
    entry: &Entry,
    t: u64,
    lines: &mut Sequence<Text>,
) -> Result<(), NoMemory>
    ensures { OnOk result (lines.new ≡ lines.old ++ transaction_lines t (entry.now ∷ [])) }
{
    if is_of(entry, t) {
        lines.push(entry_line(alloc, entry)?)?;
    }
    Ok(())
}

/// The lines of the transaction in a dump, the oldest first.
fn log_lines(alloc: Global, log: &Log, t: u64) -> Result<Sequence<Text>, NoMemory>
    ensures { IfOk result (λ lines. lines ≡ map entry_text (entries_of t (entries log.now))) }
{
    let mut lines = Sequence::new(alloc);
    for place in 0..log.len() {
        push_line(alloc, log.entry(place), t, &mut lines)?;
    }
    Ok(lines)
}

/// The log of a transaction. E20 if no transaction has the number.
pub fn log_answer(alloc: Global, log: &Log, t: u64) -> Result<Answered, NoMemory>
    ensures { IfOk result (λ answered. answered ≡ a.log_answer t (entries log.now)) }
{
    if is_known(log, t) {
        Ok(Answered::Lines(Heading::Log, log_lines(alloc, log, t)?))
    } else {
        Ok(Answered::Refused(Refusal::E20 { t }))
    }
}
