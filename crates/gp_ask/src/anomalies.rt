//! The anomalies of a dump: cycles of transactions each of which comes before the next one.

ghost use Rattle.std.specs.Prelude.{◌≡◌, ◌++◌, ◌∷◌, [], map, IfOk, OnOk};
ghost use Rattle.std.specs.Fmt.{decimal};
ghost use Rattle.std.specs.List.{flat_map};
ghost use Rattle.gp_dump.specs.Views.{dump_view};
ghost use Rattle.gp_dump.specs.WholeDumps.{IsDump};
ghost use Rattle.gp_log.specs.Contents.{entries, tables};
ghost use Rattle.gp_serial.specs.AnomalyViews.{anomaly_view};
ghost use Rattle.gp_serial.specs.SerialViews.{step_view};
ghost use Rattle.gp_ask.specs.AnomalyAnswers as a;
ghost use Rattle.gp_ask.specs.declared.answered.Answered.TheVariants as answered;

use crate::answered::{AnomalyText, Answered};
use crate::serial::{cycle_lines, unserialized};
use gp_base::{NoMemory, Sequence, Text, append_all};
use gp_dump::Dump;
use gp_log::Log;
use gp_serial::{Anomaly, AnomalyName, Step, anomalies_of};
use std::alloc::Global;

/// The name of a cycle.
fn name_text(name: AnomalyName) -> &'static [u8]
    ensures { result.now ≡ a.name_text name }
{
    match name {
        AnomalyName::LostUpdate => b"lost update",
        AnomalyName::ReadSkew => b"read skew",
        AnomalyName::ReadOnly => b"read-only anomaly",
        AnomalyName::WriteSkew => b"write skew",
    }
}

/// The word behind a name, if rows came or went.
fn phantom_text(phantom: bool) -> &'static [u8]
    ensures { result.now ≡ a.phantom_text phantom }
{
    if phantom { b" phantom" } else { b"" }
}

/// Appends a number behind a space.
fn append_number(alloc: Global, t: u32, out: &mut Vec<u8>) -> Result<(), NoMemory>
    ensures { OnOk result (out.new.items ≡ out.old.items ++ a.transaction_text t) }
{
    let number = t.to_string(alloc)?;
    append_all(out, &[b" ", number.as_bytes()])
}

/// Appends the number of the transaction of each step.
fn append_numbers(alloc: Global, steps: &[Step<'_>], out: &mut Vec<u8>) -> Result<(), NoMemory>
    ensures { OnOk result (out.new.items
        ≡ out.old.items ++ flat_map a.number_text (map step_view steps.now)) }
{
    for step in steps {
        append_number(alloc, step.first, out)?;
    }
    Ok(())
}

/// A cycle by its name and its transactions.
fn title_text(alloc: Global, anomaly: &Anomaly<'_>) -> Result<Text, NoMemory>
    ensures { IfOk result (λ text. text ≡ a.title_text (anomaly_view anomaly.now)) }
{
    let mut text = Vec::new(alloc);
    append_all(
        &mut text,
        &[
            name_text(anomaly.name),
            phantom_text(anomaly.phantom),
            b" :",
        ],
    )?;
    append_numbers(alloc, &anomaly.steps, &mut text)?;
    Text::from_bytes(alloc, &text)
}

/// A cycle, as it is printed.
fn anomaly_text(alloc: Global, log: &Log, anomaly: &Anomaly<'_>) -> Result<AnomalyText, NoMemory>
    ensures { IfOk result (λ text. text ≡ a.anomaly_text (tables log.now) (entries log.now) (anomaly_view anomaly.now)) }
{
    let title = title_text(alloc, anomaly)?;
    let steps = cycle_lines(alloc, log, &anomaly.steps)?;
    Ok(AnomalyText { title, steps })
}

/// The cycles, as they are printed.
fn anomaly_texts(
    alloc: Global,
    log: &Log,
    anomalies: &[Anomaly<'_>],
) -> Result<Sequence<AnomalyText>, NoMemory>
    ensures { IfOk result (λ texts. texts
        ≡ map (a.anomaly_text (tables log.now) (entries log.now)) (map anomaly_view anomalies.now)) }
{
    let mut texts = Sequence::new(alloc);
    for anomaly in anomalies {
        texts.push(anomaly_text(alloc, log, anomaly)?)?;
    }
    Ok(texts)
}

/// The answer that was found.
fn anomaly_lines(alloc: Global, log: &Log, anomalies: &[Anomaly<'_>]) -> Result<Answered, NoMemory>
    ensures { IfOk result (λ found. found
        ≡ answered.Anomalies (map (a.anomaly_text (tables log.now) (entries log.now)) (map anomaly_view anomalies.now))) }
{
    Ok(Answered::Anomalies(anomaly_texts(alloc, log, anomalies)?))
}

/// The anomalies of the transactions that committed: a cycle of what comes before what for each pair that goes back, by name ([`anomalies_of`]). Refused as
/// [`serial_answer`](crate::serial::serial_answer) is (E25, E26), and then for more lines than an answer has rows (E27). Running out of memory is the only error.
pub fn anomaly_answer(alloc: Global, dump: &Dump) -> Result<Answered, NoMemory>
    requires rules { IsDump (dump_view dump.now) }
    ensures { IfOk result (λ answered. answered ≡ a.anomaly_answer (dump_view dump.now)) }
{
    match anomalies_of(alloc, &dump.log, dump.versions.as_slice()) {
        Ok(found) => anomaly_lines(alloc, &dump.log, &found),
        Err(stop) => unserialized(stop),
    }
}
