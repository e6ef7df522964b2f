//! What one question about a dump leaves to the next: annotations of row versions, what was found of the commits of the log, made again, and
//! the history with the changes that were asked about last.

ghost use Rattle.std.specs.Prelude.{◌≡◌, map, true, ℕ, List, None, Option, IfOk};
ghost use Rattle.gp_algebra.specs.Fitting.{select_fits};
ghost use Rattle.gp_algebra.specs.Views.{select_view};
ghost use Rattle.gp_base.specs.Annotated.{Annotations};
ghost use Rattle.gp_dump.specs.Views.{dump_view};
ghost use Rattle.gp_dump.specs.declared.dump.Dump as d;
ghost use Rattle.gp_history.specs.Agreement.{agree};
ghost use Rattle.gp_history.specs.ValueForms.{value_answer};
ghost use Rattle.gp_history.specs.Values.{Gives, HasFewItems};
ghost use Rattle.gp_kexec.specs.Rows.{pair_view};
ghost use Rattle.gp_kexec.specs.Valuing.{values_in};
ghost use Rattle.gp_log.specs.LogFacts.{tables_in};
ghost use Rattle.gp_log.specs.Parameters.{parameters};
ghost use Rattle.gp_semiring.specs.Values.{token_value};
ghost use Rattle.gp_semiring.specs.declared.rules.Rule as v;
ghost use Rattle.gp_syntax.specs.Views.{change_view, changes_view, point_view};
ghost use Rattle.gp_ask.specs.Asking.{table_spans};
ghost use Rattle.gp_ask.specs.Keeping.{AreAnnotations, AreKept, HasChanges, MayBeChanged, MayBeKeptBy, MayBeKeptOf, MayHaveChanges};

use crate::comparing::are_same_changes;
use crate::rules::{are_same, copy_rules};
use gp_algebra::Select;
use gp_base::{Monomial, NoMemory, Sequence, Stop};
use gp_dump::Dump;
use gp_history::{Kept, values_from};
use gp_kexec::KRow;
use gp_semiring::{Bool, Cost, Count, Level, Poly, PosBool, Rules, Semiring, by_rules};
use gp_syntax::{LogChange, Point};
use std::alloc::Global;
use std::mem;

/// The values of row versions, and the rules by which they are values.
#[derive(Drop)]
pub struct KeptValues<K> {
    rules: Rules,
    kept: Kept<K>,
}

/// The annotations of the row versions of one dump that questions about it have needed. A question goes on from them: it annotates only
/// the versions that none before it needed. Values are kept by the rules of the last question in their semiring.
#[derive(Drop)]
pub struct DumpAnnotations {
    /// Monomials.
    pub monomials: Option<Kept<Monomial>>,
    /// Values in COUNT.
    pub count: Option<KeptValues<Count>>,
    /// Values in BOOL.
    pub bool: Option<KeptValues<Bool>>,
    /// Values in COST.
    pub cost: Option<KeptValues<Cost>>,
    /// Values in LEVEL.
    pub level: Option<KeptValues<Level>>,
    /// Values in POLY.
    pub poly: Option<KeptValues<Poly>>,
    /// Values in WITNESS.
    pub witness: Option<KeptValues<PosBool>>,
    /// How often rows occur without those that WITHOUT leaves out.
    pub without: Option<KeptValues<Count>>,
}

impl DumpAnnotations {
    /// None yet, for any dump.
    pub fn new() -> DumpAnnotations
        ensures { (dump : d.Dump) → AreAnnotations dump result }
    {
        DumpAnnotations {
            monomials: None,
            count: None,
            bool: None,
            cost: None,
            level: None,
            poly: None,
            witness: None,
            without: None,
        }
    }
}

/// A history with changes: the dump that the changed log makes, and its annotations.
#[derive(Drop)]
pub struct KeptHistory {
    /// The changes.
    pub changes: Sequence<LogChange>,
    /// The dump.
    pub dump: Dump,
    /// Its annotations.
    pub annotations: DumpAnnotations,
}

/// What questions about a dump leave to later ones. Once a question has compared the row versions with those that the log makes, later ones
/// do not. Questions with the same changes, one after another, share the history that these make.
#[derive(Drop)]
pub struct KeptAnnotations {
    /// The annotations of the dump.
    pub own: DumpAnnotations,
    /// Whether the row versions are those that the log makes, once all versions were found to have the rows that the log makes.
    pub is_made: Option<bool>,
    /// The history with the changes that were asked about last.
    pub changed: Option<KeptHistory>,
}

impl KeptAnnotations {
    /// None yet, for any dump.
    pub fn new() -> KeptAnnotations
        ensures { (dump : d.Dump) → AreKept dump result }
    {
        KeptAnnotations {
            own: DumpAnnotations::new(),
            is_made: None,
            changed: None,
        }
    }
}

// ---- values

/// The values, if they are by these rules.
fn by_same_rules<K: Drop>(values: KeptValues<K>, rules: &Rules) -> Option<Kept<K>>
    ensures { (domain : List v.Rule × Option ℕ → Annotations K) (dump : d.Dump)
        → MayBeKeptBy domain dump (Some values)
        → MayBeKeptOf (domain (rules.now.rules, rules.now.other)) dump result }
{
    if are_same(&values.rules, rules) {
        Some(values.kept)
    } else {
        None
    }
}

/// Takes the values out, if they are by these rules.
fn take_values<K: Drop>(slot: &mut Option<KeptValues<K>>, rules: &Rules) -> Option<Kept<K>>
    ensures { (domain : List v.Rule × Option ℕ → Annotations K) (dump : d.Dump)
        → MayBeKeptBy domain dump slot.old
        → MayBeKeptOf (domain (rules.now.rules, rules.now.other)) dump result }
{
    match mem::replace(slot, None) {
        Some(values) => by_same_rules(values, rules),
        None => None,
    }
}

/// The values with their rules.
fn with_rules<K: Drop>(rules: Rules, kept: Option<Kept<K>>) -> Option<KeptValues<K>>
    ensures { (domain : List v.Rule × Option ℕ → Annotations K) (dump : d.Dump)
        → MayBeKeptOf (domain (rules.rules, rules.other)) dump kept
        → MayBeKeptBy domain dump result }
{
    match kept {
        Some(kept) => Some(KeptValues { rules, kept }),
        None => None,
    }
}

/// The distinct rows of a checked query with their values by rules, or the refusal of its annotation, of its run or of its answer. Row
/// versions keep the values that an earlier question left by the same rules, and this question leaves its own.
pub fn rows_with_values<K: Semiring>(
    alloc: Global,
    dump: &Dump,
    state: Point,
    select: &Select,
    rules: Rules,
    slot: &mut Option<KeptValues<K>>,
) -> Result<Vec<KRow<K>>, Stop>
    requires fits { select_fits (tables_in (dump_view dump.now).entries) (select_view select.now)
        ≡ true }
    requires few { HasFewItems (select_view select.now) }
    requires kept { MayBeKeptBy (values_in K.Semiring) dump.now slot.old }
    ensures kept { MayBeKeptBy (values_in K.Semiring) dump.now slot.new }
    ensures answer { Gives (λ rows. map pair_view rows.items) result
        (value_answer parameters K.plus_of K.zero_of K.one_of K.times_of
        (token_value K.one_of K.number_of K.itself_of (rules.rules, rules.other)) agree
        (tables_in (dump_view dump.now).entries) (dump_view dump.now).entries
        (table_spans (dump_view dump.now).tables) (point_view state) (select_view select.now)) }
{
    let copy = copy_rules(alloc, &rules)?;
    let valuation = by_rules::<K>(alloc, rules)?;
    let mut kept = take_values(slot, &copy);
    let found = values_from(
        alloc,
        &dump.log,
        dump.versions.as_slice(),
        state,
        select,
        &valuation,
        &mut kept,
    );
    *slot = with_rules(copy, kept);
    found
}

// ---- histories with changes

/// A copy of a change, which shares its command.
fn copy_change(change: &LogChange) -> Result<LogChange, NoMemory>
    ensures { IfOk result (λ copy. change_view copy ≡ change_view change.now) }
{
    match change {
        LogChange::Drop { t, k } => Ok(LogChange::Drop { t: *t, k: *k }),
        LogChange::DropAll { t } => Ok(LogChange::DropAll { t: *t }),
        LogChange::Replace { t, k, command } => Ok(LogChange::Replace {
            t: *t,
            k: *k,
            command: command.clone()?,
        }),
        LogChange::Add { t, command } => Ok(LogChange::Add {
            t: *t,
            command: command.clone()?,
        }),
    }
}

/// Copies of changes.
pub fn copy_changes(alloc: Global, changes: &[LogChange]) -> Result<Sequence<LogChange>, NoMemory>
    ensures { IfOk result (λ copies. changes_view copies ≡ changes_view changes.now) }
{
    let mut copies = Sequence::new(alloc);
    for change in changes {
        copies.push(copy_change(change)?)?;
    }
    Ok(copies)
}

/// The history, if it is the one with these changes.
fn with_changes(own: KeptHistory, changes: &[LogChange]) -> Option<KeptHistory>
    ensures { (dump : d.Dump) → HasChanges dump (changes_view own.changes) own
        → MayHaveChanges dump (changes_view changes.now) result }
{
    if are_same_changes(own.changes.as_slice(), changes) {
        Some(own)
    } else {
        drop(own);
        None
    }
}

/// Takes the history out, if it is the one with these changes.
pub fn take_history(slot: &mut Option<KeptHistory>, changes: &[LogChange]) -> Option<KeptHistory>
    ensures taken { slot.new ≡ None }
    ensures history { (dump : d.Dump) → MayBeChanged dump slot.old
        → MayHaveChanges dump (changes_view changes.now) result }
{
    match mem::replace(slot, None) {
        Some(own) => with_changes(own, changes),
        None => None,
    }
}
