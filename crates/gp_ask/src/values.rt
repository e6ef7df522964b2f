//! The values of queries over past states in a semiring.

ghost use Rattle.std.specs.Prelude.{◌≡◌, map, true, IfOk};
ghost use Rattle.gp_grammar.specs.Syntax as y;
ghost use Rattle.gp_algebra.specs.Fitting.{select_fits};
ghost use Rattle.gp_algebra.specs.Views.{select_view};
ghost use Rattle.gp_base.specs.declared.refusal.Refusal.TheVariants.{E28};
ghost use Rattle.gp_dump.specs.Views.{dump_view};
ghost use Rattle.gp_history.specs.Agreement.{agree};
ghost use Rattle.gp_history.specs.Values.{HasFewItems};
ghost use Rattle.gp_kexec.specs.Rows.{pair_view};
ghost use Rattle.gp_kexec.specs.Valuing.{values_in};
ghost use Rattle.gp_log.specs.Parameters.{parameters};
ghost use Rattle.gp_log.specs.LogFacts.{tables_in};
ghost use Rattle.gp_syntax.specs.Views.{how_view, query_view, rule_view, point_view};
ghost use Rattle.gp_semiring.specs.Values.{token_value};
ghost use Rattle.gp_history.specs.ValueForms as a;
ghost use Rattle.gp_ask.specs.Asking.{table_spans};
ghost use Rattle.gp_ask.specs.AskingForms as f;
ghost use Rattle.gp_ask.specs.ValueForms.{dump_values};
ghost use Rattle.gp_ask.specs.Hypothetical as h;
ghost use Rattle.gp_ask.specs.Keeping.{AreAnnotations, MayBeKeptBy};
ghost use Rattle.gp_ask.specs.Operations as o;
ghost use Rattle.gp_ask.specs.Values as v;

use crate::answered::{Answered, Valued};
use crate::keeping::{DumpAnnotations, KeptValues, rows_with_values};
use crate::queries::asked;
use crate::rules::rules_of;
use crate::valid::ValidQuery;
use gp_algebra::Select;
use gp_base::{NoMemory, Refusal, Sequence, Stop, Text};
use gp_dump::Dump;
use gp_grammar::SemiringName;
use gp_kexec::KRow;
use gp_semiring::{Bool, Cost, Count, Level, Poly, PosBool, Rules, Semiring, first_outside};
use gp_syntax::{How, Point, Rule};
use std::alloc::Global;

/// The name of a semiring, as it is printed.
fn name_text(name: SemiringName) -> &'static [u8]
    ensures { result.now ≡ v.name_text name }
{
    match name {
        SemiringName::Count => b"COUNT",
        SemiringName::Bool => b"BOOL",
        SemiringName::Cost => b"COST",
        SemiringName::Level => b"LEVEL",
        SemiringName::Poly => b"POLY",
        SemiringName::Witness => b"WITNESS",
    }
}

/// The refusal of a number that stands for no element.
fn outside(alloc: Global, number: u64, name: SemiringName) -> Result<Refusal, NoMemory>
    ensures { IfOk result (λ refusal. refusal ≡ E28 number (v.name_text name)) }
{
    let semiring = Text::from_bytes(alloc, name_text(name))?;
    Ok(Refusal::E28 { number, semiring })
}

/// The first number of the rules that stands for no element of the semiring of this name.
fn first_outside_in(
    alloc: Global,
    name: SemiringName,
    rules: &Rules,
) -> Result<Option<u64>, NoMemory>
    ensures { IfOk result (λ found. found ≡ v.outside_in (v.semiring_of name) rules.now.rules
        rules.now.other) }
{
    match name {
        SemiringName::Count => first_outside::<Count>(alloc, rules),
        SemiringName::Bool => first_outside::<Bool>(alloc, rules),
        SemiringName::Cost => first_outside::<Cost>(alloc, rules),
        SemiringName::Level => first_outside::<Level>(alloc, rules),
        SemiringName::Poly => first_outside::<Poly>(alloc, rules),
        SemiringName::Witness => first_outside::<PosBool>(alloc, rules),
    }
}

/// E28 for the first number of rules that stands for no element of the semiring of this name.
fn outside_refusal(
    alloc: Global,
    name: SemiringName,
    rules: &Rules,
) -> Result<Option<Refusal>, NoMemory>
    ensures { IfOk result (λ refusal. refusal ≡ v.outside_refusal name rules.now.rules
        rules.now.other) }
{
    match first_outside_in(alloc, name, rules)? {
        Some(number) => Ok(Some(outside(alloc, number, name)?)),
        None => Ok(None),
    }
}

/// E28 for the first number of the rules of VALUE IN that stands for no element.
pub fn rules_refusal(alloc: Global, how: &How) -> Result<Option<Refusal>, NoMemory>
    ensures { IfOk result (λ refusal. (point : y.Point)
        → refusal ≡ h.rules_refusal (y.of_state (how_view how.now) point)) }
{
    match how {
        How::Rows => Ok(None),
        How::Provenance => Ok(None),
        How::Explain { .. } => Ok(None),
        How::Value {
            semiring,
            rules,
            other,
        } => {
            let rules = rules_of(alloc, rules.as_slice(), *other)?;
            outside_refusal(alloc, *semiring, &rules)
        }
        How::Without { .. } => Ok(None),
    }
}

/// A row with the text of its value.
fn valued<K: Semiring>(alloc: Global, row: &KRow<K>) -> Result<Valued, NoMemory>
    ensures { IfOk result (λ valued. valued ≡ v.valued K.text_of (pair_view row.now)) }
{
    let mut text = Vec::new(alloc);
    row.value.write(&mut text)?;
    let text = Text::from_bytes(alloc, &text)?;
    Ok(Valued {
        row: row.row.clone()?,
        text,
    })
}

/// The rows with the texts of their values.
fn valued_rows<K: Semiring>(alloc: Global, rows: &[KRow<K>]) -> Result<Sequence<Valued>, NoMemory>
    ensures { IfOk result
        (λ found. found ≡ map (v.valued K.text_of) (map pair_view rows.now)) }
{
    let mut found = Sequence::new(alloc);
    for row in rows {
        found.push(valued(alloc, row)?)?;
    }
    Ok(found)
}

/// The distinct rows of a checked query with their values by rules, or the refusal of its annotation, of its run or of its answer.
fn rows_by<K: Semiring>(
    alloc: Global,
    dump: &Dump,
    state: Point,
    select: &Select,
    rules: Rules,
    slot: &mut Option<KeptValues<K>>,
) -> Result<Answered, NoMemory>
    requires fits { select_fits (tables_in (dump_view dump.now).entries) (select_view select.now)
        ≡ true }
    requires few { HasFewItems (select_view select.now) }
    requires kept { MayBeKeptBy (values_in K.Semiring) dump.now slot.old }
    ensures kept { MayBeKeptBy (values_in K.Semiring) dump.now slot.new }
    ensures answered { IfOk result (λ answered. answered ≡ v.with_values K.text_of
        (a.value_answer parameters K.plus_of K.zero_of K.one_of K.times_of
        (token_value K.one_of K.number_of K.itself_of (rules.rules, rules.other)) agree
        (tables_in (dump_view dump.now).entries) (dump_view dump.now).entries
        (table_spans (dump_view dump.now).tables) (point_view state) (select_view select.now))) }
{
    match rows_with_values::<K>(alloc, dump, state, select, rules, slot) {
        Ok(rows) => Ok(Answered::Values(valued_rows(alloc, rows.as_slice())?)),
        Err(Stop::Refused(refusal)) => Ok(Answered::Refused(refusal)),
        Err(Stop::NoMemory) => Err(NoMemory),
    }
}

/// The answer for values in one semiring. Nothing is run where a number of the rules stands for no element.
fn values_in<K: Semiring>(
    alloc: Global,
    dump: &Dump,
    state: Point,
    select: &Select,
    name: SemiringName,
    rules: Rules,
    slot: &mut Option<KeptValues<K>>,
) -> Result<Answered, NoMemory>
    requires fits { select_fits (tables_in (dump_view dump.now).entries) (select_view select.now)
        ≡ true }
    requires few { HasFewItems (select_view select.now) }
    requires kept { MayBeKeptBy (values_in K.Semiring) dump.now slot.old }
    ensures kept { MayBeKeptBy (values_in K.Semiring) dump.now slot.new }
    ensures answered { IfOk result (λ answered. answered ≡ dump_values (o.operations_with K.zero_of K.one_of
        K.plus_of K.times_of K.number_of K.itself_of K.text_of) name (rules.rules, rules.other)
        (dump_view dump.now) (point_view state) (select_view select.now)) }
{
    match first_outside::<K>(alloc, &rules)? {
        Some(number) => Ok(Answered::Refused(outside(alloc, number, name)?)),
        None => rows_by::<K>(alloc, dump, state, select, rules, slot),
    }
}

/// The values of a checked query in the semiring of this name.
fn selected_values(
    alloc: Global,
    dump: &Dump,
    state: Point,
    select: &Select,
    name: SemiringName,
    rules: Rules,
    kept: &mut DumpAnnotations,
) -> Result<Answered, NoMemory>
    requires fits { select_fits (tables_in (dump_view dump.now).entries) (select_view select.now)
        ≡ true }
    requires few { HasFewItems (select_view select.now) }
    requires kept { AreAnnotations dump.now kept.old }
    ensures kept { AreAnnotations dump.now kept.new }
    ensures answered { IfOk result (λ answered. answered ≡ dump_values (o.operations_of name) name
        (rules.rules, rules.other) (dump_view dump.now) (point_view state) (select_view select.now)) }
{
    match name {
        SemiringName::Count => {
            values_in::<Count>(alloc, dump, state, select, name, rules, &mut kept.count)
        }
        SemiringName::Bool => {
            values_in::<Bool>(alloc, dump, state, select, name, rules, &mut kept.bool)
        }
        SemiringName::Cost => {
            values_in::<Cost>(alloc, dump, state, select, name, rules, &mut kept.cost)
        }
        SemiringName::Level => {
            values_in::<Level>(alloc, dump, state, select, name, rules, &mut kept.level)
        }
        SemiringName::Poly => {
            values_in::<Poly>(alloc, dump, state, select, name, rules, &mut kept.poly)
        }
        SemiringName::Witness => {
            values_in::<PosBool>(alloc, dump, state, select, name, rules, &mut kept.witness)
        }
    }
}

/// The distinct rows of a query over a state with their values in the semiring of this name, by rules and the number of all other
/// tokens. E20 to E23 if the log has no such state, then the check of the query, then E28 for the first number that stands for no
/// element, then E24 to E27.
pub fn value_answer(
    alloc: Global,
    dump: &Dump,
    name: SemiringName,
    rules: &[Rule],
    other: Option<u64>,
    state: Point,
    query: ValidQuery<'_>,
    kept: &mut DumpAnnotations,
) -> Result<Answered, NoMemory>
    requires kept { AreAnnotations dump.now kept.old }
    ensures kept { AreAnnotations dump.now kept.new }
    ensures answered { IfOk result (λ answered. answered ≡ f.dump_query (dump_view dump.now)
        (dump_values (o.operations_of name) name (f.rules_of (map rule_view rules.now) other)
        (dump_view dump.now) (point_view state)) (point_view state)
        (query_view query.entry.read.now)) }
{
    match asked(alloc, &dump.log, state, query.read) {
        Ok(select) => {
            let rules = rules_of(alloc, rules, other)?;
            selected_values(alloc, dump, state, &select, name, rules, kept)
        }
        Err(Stop::Refused(refusal)) => Ok(Answered::Refused(refusal)),
        Err(Stop::NoMemory) => Err(NoMemory),
    }
}
