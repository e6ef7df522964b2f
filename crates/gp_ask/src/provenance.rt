//! The provenance of queries over past states.

ghost use Rattle.std.specs.Prelude.{◌≡◌, true, IfOk};
ghost use Rattle.gp_algebra.specs.Fitting.{select_fits};
ghost use Rattle.gp_algebra.specs.Views.{select_view};
ghost use Rattle.gp_base.specs.Annotated.{monomials};
ghost use Rattle.gp_dump.specs.Views.{dump_view};
ghost use Rattle.gp_grammar.specs.Syntax as y;
ghost use Rattle.gp_history.specs.Agreement.{agree};
ghost use Rattle.gp_history.specs.Provenance.{Proves};
ghost use Rattle.gp_log.specs.LogFacts.{tables_in};
ghost use Rattle.gp_log.specs.Parameters.{parameters};
ghost use Rattle.gp_machine.specs.Questions.{annotated_answer};
ghost use Rattle.gp_syntax.specs.Views.{query_view, point_view};
ghost use Rattle.gp_ask.specs.Computed.{computed_answer};
ghost use Rattle.gp_ask.specs.Asking.{table_spans};
ghost use Rattle.gp_ask.specs.AskingForms.{dump_provenance};
ghost use Rattle.gp_ask.specs.Keeping.{MayBeKeptOf};

use crate::answered::Answered;
use crate::queries::asked;
use crate::valid::ValidQuery;
use gp_algebra::Select;
use gp_base::{Monomial, NoMemory, Row, Stop};
use gp_dump::Dump;
use gp_history::{Kept, provenance_from};
use gp_semiring::list;
use gp_syntax::Point;
use std::alloc::Global;

/// The rows of a checked query with their monomials, in no particular order, from the monomials that an earlier question left, or the
/// refusal of its annotation, of its run or of its answer. It leaves its own to the next.
fn rows_with_monomials(
    alloc: Global,
    dump: &Dump,
    state: Point,
    select: &Select,
    kept: &mut Option<Kept<Monomial>>,
) -> Result<Vec<Row>, Stop>
    requires fits { select_fits (tables_in (dump_view dump.now).entries) (select_view select.now)
        ≡ true }
    requires kept { MayBeKeptOf monomials dump.now kept.old }
    ensures kept { MayBeKeptOf monomials dump.now kept.new }
    ensures answer { Proves (λ rows. rows.items) result
        (annotated_answer monomials parameters agree
        (tables_in (dump_view dump.now).entries) (dump_view dump.now).entries
        (table_spans (dump_view dump.now).tables) (point_view state) (select_view select.now)) }
{
    provenance_from(
        alloc,
        &dump.log,
        dump.versions.as_slice(),
        state,
        select,
        kept,
    )
}

/// The distinct rows of a checked query with their monomials, or the refusal of its annotation, of its run or of its answer.
fn selected_provenance(
    alloc: Global,
    dump: &Dump,
    state: Point,
    select: &Select,
    kept: &mut Option<Kept<Monomial>>,
) -> Result<Answered, NoMemory>
    requires fits { select_fits (tables_in (dump_view dump.now).entries) (select_view select.now)
        ≡ true }
    requires kept { MayBeKeptOf monomials dump.now kept.old }
    ensures kept { MayBeKeptOf monomials dump.now kept.new }
    ensures answered { IfOk result (λ answered. answered
        ≡ dump_provenance (dump_view dump.now) (point_view state) (select_view select.now)) }
{
    match rows_with_monomials(alloc, dump, state, select, kept) {
        Ok(rows) => Ok(Answered::Listed(list(alloc, rows)?)),
        Err(Stop::Refused(refusal)) => Ok(Answered::Refused(refusal)),
        Err(Stop::NoMemory) => Err(NoMemory),
    }
}

/// The distinct rows of a query over a state with their monomials. E20 to E23 if the log has no such state, then the check of the query,
/// then E24 to E27.
pub fn provenance_answer(
    alloc: Global,
    dump: &Dump,
    state: Point,
    query: ValidQuery<'_>,
    kept: &mut Option<Kept<Monomial>>,
) -> Result<Answered, NoMemory>
    requires kept { MayBeKeptOf monomials dump.now kept.old }
    ensures kept { MayBeKeptOf monomials dump.now kept.new }
    ensures answered { IfOk result (λ answered. answered ≡ computed_answer (dump_view dump.now)
        (y.ask (y.of_state y.provenance (point_view state)) (query_view query.entry.read.now))) }
{
    match asked(alloc, &dump.log, state, query.read) {
        Ok(select) => selected_provenance(alloc, dump, state, &select, kept),
        Err(Stop::Refused(refusal)) => Ok(Answered::Refused(refusal)),
        Err(Stop::NoMemory) => Err(NoMemory),
    }
}
