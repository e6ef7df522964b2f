//! The transactions of a log.

ghost use Rattle.std.specs.Prelude.{◌≡◌, ◌<◌, ◌≤◌, ◌++◌, IfOk, OnOk};
ghost use Rattle.gp_dump.specs.Views.{dump_view};
ghost use Rattle.gp_grammar.specs.Syntax as y;
ghost use Rattle.gp_log.specs.Contents.{entries};
ghost use Rattle.gp_log.specs.Logs.{entry_view};
ghost use Rattle.gp_machine.specs.Entries as m;
ghost use Rattle.gp_ask.specs.Begins.{IsKnownBegin};
ghost use Rattle.gp_ask.specs.Computed.{computed_answer};
ghost use Rattle.gp_ask.specs.Transactions as s;

use crate::answered::{Answered, Heading};
use gp_base::{Fate, NoMemory, Sequence, Text, text_of_pieces};
use gp_dump::Dump;
use gp_log::{Entry, Log, What};
use std::alloc::Global;

/// The level of a transaction, as BEGIN has it.
fn level_text(read_committed: bool) -> &'static [u8]
    ensures { result.now ≡ s.level_text read_committed }
{
    if read_committed {
        b"READ COMMITTED"
    } else {
        b"SNAPSHOT"
    }
}

/// What has become of a transaction.
fn fate_text(alloc: Global, fate: Fate) -> Result<Vec<u8>, NoMemory>
    ensures { IfOk result (λ text. text.items ≡ s.fate_text fate) }
{
    match fate {
        Fate::Active => text_of_pieces(alloc, &[b"active"]),
        Fate::RolledBack => text_of_pieces(alloc, &[b"rolled back"]),
        Fate::Lost => text_of_pieces(alloc, &[b"lost"]),
        Fate::Committed(version) => {
            let version = version.to_string(alloc)?;
            text_of_pieces(alloc, &[b"committed as ", version.as_bytes()])
        }
    }
}

/// The line of a transaction, by the session and the level of its BEGIN.
fn transaction_line(
    alloc: Global,
    log: &Log,
    t: u32,
    session: u32,
    read_committed: bool,
) -> Result<Text, NoMemory>
    requires first { 0 < t }
    requires within { t ≤ m.transactions_in (entries log.now) }
    ensures { IfOk result (λ text. text
        ≡ s.transaction_text (entries log.now) t session read_committed) }
{
    let number = t.to_string(alloc)?;
    let session = session.to_string(alloc)?;
    let begin = log.begin_version(t).to_string(alloc)?;
    let count = log.statement_count(t).to_string(alloc)?;
    let fate = fate_text(alloc, log.fate(t))?;
    let text = text_of_pieces(
        alloc,
        &[
            number.as_bytes(),
            b" s",
            session.as_bytes(),
            b" ",
            level_text(read_committed),
            b" at ",
            begin.as_bytes(),
            b" statements ",
            count.as_bytes(),
            b" ",
            &fate,
        ],
    )?;
    Text::from_bytes(alloc, &text)
}

/// Adds the line of a transaction, if this is its BEGIN.
fn push_begun(
    alloc: Global,
    log: &Log,
    entry: &Entry,
    lines: &mut Sequence<Text>,
) -> Result<(), NoMemory>
    requires { IsKnownBegin (m.transactions_in (entries log.now)) (entry_view entry.now) }
    ensures { OnOk result (lines.new
        ≡ lines.old ++ s.begun_lines (entries log.now) (entry_view entry.now)) }
{
    if let What::Begin { read_committed } = entry.what {
        lines.push(transaction_line(alloc, log, entry.t, entry.session, read_committed)?)?;
    }
    Ok(())
}

/// The transactions of the log of a dump, in the order of their numbers: one pass over its entries. Running out of memory is the only
/// error.
pub fn transactions_answer(alloc: Global, dump: &Dump) -> Result<Answered, NoMemory>
    ensures { IfOk result (λ answered. answered
        ≡ computed_answer (dump_view dump.now) (y.bare y.transactions)) }
{
    let log = &dump.log;
    let mut lines = Sequence::new(alloc);
    for place in 0..log.len() {
        push_begun(alloc, log, log.entry(place), &mut lines)?;
    }
    Ok(Answered::Lines(Heading::Transactions, lines))
}
