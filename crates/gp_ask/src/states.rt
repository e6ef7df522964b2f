//! Queries, by what they are asked of.

ghost use Rattle.std.specs.Prelude.{◌≡◌, IfOk};
ghost use Rattle.gp_grammar.specs.Syntax as y;
ghost use Rattle.gp_syntax.specs.Views.{how_view, query_view, point_view, subject_view};
ghost use Rattle.gp_dump.specs.Views.{dump_view};
ghost use Rattle.gp_ask.specs.Computed.{computed_answer};
ghost use Rattle.gp_ask.specs.ExplainedTexts.{ExplainsQuestion};
ghost use Rattle.gp_ask.specs.Keeping.{AreAnnotations};

use crate::answered::Answered;
use crate::deletion::remaining_answer;
use crate::keeping::DumpAnnotations;
use crate::programs::program_answer;
use crate::provenance::provenance_answer;
use crate::queries::query_answer;
use crate::seeing::saw_answer;
use crate::valid::ValidQuery;
use crate::values::value_answer;
use gp_base::NoMemory;
use gp_dump::Dump;
use gp_syntax::{How, Point, Subject};
use std::alloc::Global;

/// Answers a query over a state.
fn state_answer(
    alloc: Global,
    dump: &Dump,
    how: &How,
    state: Point,
    query: ValidQuery<'_>,
    kept: &mut DumpAnnotations,
) -> Result<Answered, NoMemory>
    requires kept { AreAnnotations dump.now kept.old }
    ensures kept { AreAnnotations dump.now kept.new }
    ensures answered { IfOk result (λ answered. answered ≡ computed_answer (dump_view dump.now)
        (y.ask (y.of_state (how_view how.now) (point_view state))
        (query_view query.entry.read.now))) }
    ensures explained { IfOk result (λ answered. ExplainsQuestion (dump_view dump.now).entries
        (y.ask (y.of_state (how_view how.now) (point_view state))
        (query_view query.entry.read.now))) }
{
    match how {
        How::Rows => query_answer(alloc, dump, state, query),
        How::Provenance => { provenance_answer(alloc, dump, state, query, &mut kept.monomials) },
        How::Explain { prov } => program_answer(alloc, &dump.log, *prov, state, query),
        How::Value {
            semiring,
            rules,
            other,
        } => value_answer(
            alloc,
            dump,
            *semiring,
            rules.as_slice(),
            *other,
            state,
            query,
            kept,
        ),
        How::Without { rules } => remaining_answer(
            alloc,
            dump,
            rules.as_slice(),
            state,
            query,
            &mut kept.without,
        ),
    }
}

/// Answers a query over a state, or over what a transaction saw.
pub fn ask_answer(
    alloc: Global,
    dump: &Dump,
    subject: &Subject,
    query: ValidQuery<'_>,
    kept: &mut DumpAnnotations,
) -> Result<Answered, NoMemory>
    requires kept { AreAnnotations dump.now kept.old }
    ensures kept { AreAnnotations dump.now kept.new }
    ensures answered { IfOk result (λ answered. answered ≡ computed_answer (dump_view dump.now)
        (y.ask (subject_view subject.now) (query_view query.entry.read.now))) }
    ensures explained { IfOk result (λ answered. ExplainsQuestion (dump_view dump.now).entries
        (y.ask (subject_view subject.now) (query_view query.entry.read.now))) }
{
    match subject {
        Subject::State { how, state } => state_answer(alloc, dump, how, *state, query, kept),
        Subject::Saw { t, k } => saw_answer(alloc, dump, *t, *k, query),
    }
}
