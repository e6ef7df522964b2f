//! The text of a program as a query of SQL.

ghost use Rattle.std.specs.Prelude.{◌≡◌, [], map, IfOk};
ghost use Rattle.gp_algebra.specs.PlainViews.{program_view, step_view};
ghost use Rattle.gp_sql.specs.NamedQueries.{program_query};
ghost use Rattle.gp_sql.specs.Spelling as w;
ghost use Rattle.gp_sql.specs.StepLists.{types_after};
ghost use Rattle.gp_sql.specs.Types as t;
ghost use Rattle.gp_sql.specs.Types.{no_types};
ghost use Rattle.gp_sql.specs.WrittenQueries as q;
ghost use Rattle.gp_sql.specs.WrittenQueries.{WritesStep, WritesSteps};

use crate::name::Name;
use crate::query_types::{StepType, query_types, types_or_none};
use crate::query_writer::{push_named, push_query};
use gp_algebra::{PProgram, PStep};
use gp_base::{Catalog, NoMemory, Sequence, append_all};
use std::alloc::Global;

/// Appends the queries of a step, and returns the next number.
fn push_step(
    alloc: Global,
    catalog: &Catalog,
    known: &[StepType],
    step: &PStep,
    n: u64,
    before: &mut Vec<u8>,
) -> Result<u64, NoMemory>
    ensures { IfOk result (λ next. WritesStep catalog.now (types_after known.now no_types)
        (step_view step.now) n next before.old.items before.new.items) }
{
    let due = types_or_none(alloc, catalog, known, &step.query)?;
    let mut body = Vec::new(alloc);
    let n = push_query(
        alloc,
        catalog,
        known,
        due.as_slice(),
        &step.query,
        n,
        before,
        &mut body,
    )?;
    push_named(alloc, catalog, Name::Step(step.j), true, &body, before)?;
    Ok(n)
}

/// The types of a step.
fn type_of_step(
    alloc: Global,
    catalog: &Catalog,
    known: &[StepType],
    step: &PStep,
) -> Result<StepType, NoMemory>
    ensures { IfOk result (λ found. found ≡ record {
      j = step.now.j;
      types = t.query_types
          catalog.now (types_after known.now no_types) (step_view step.now).query;
    }) }
{
    Ok(StepType {
        j: step.j,
        types: query_types(alloc, catalog, known, &step.query)?,
    })
}

/// Appends the queries of steps, adds their types, and returns the next number.
fn push_steps(
    alloc: Global,
    catalog: &Catalog,
    steps: &[PStep],
    known: &mut Sequence<StepType>,
    before: &mut Vec<u8>,
) -> Result<u64, NoMemory>
    requires { known.old ≡ [] }
    ensures { IfOk result (λ next. WritesSteps catalog.now (map step_view steps.now)
        known.new next before.old.items before.new.items) }
{
    let mut n = 1;
    for step in steps {
        n = push_step(alloc, catalog, known.as_slice(), step, n, before)?;
        let types = type_of_step(alloc, catalog, known.as_slice(), step)?;
        known.push(types)?;
    }
    Ok(n)
}

/// The lines of common table expressions, each of which stands behind a comma and a line feed, and the query behind them.
fn assembled(alloc: Global, before: &[u8], body: &[u8]) -> Result<Vec<u8>, NoMemory>
    ensures { IfOk result (λ text. text.items ≡ q.assembled before.now body.now) }
{
    let mut out = Vec::new(alloc);
    if let [_, _, lines @ ..] = before {
        append_all(&mut out, &[b"WITH ", lines, b"\n"])?;
    }
    append_all(&mut out, &[body, b";", b"\n"])?;
    Ok(out)
}

/// The query of a program: what it means is said by
/// [`queries_give_the_rows_of_programs`](crate::queries_give_the_rows_of_programs). Running out of memory is the only error.
pub fn write_query(
    alloc: Global,
    program: &PProgram,
    catalog: &Catalog,
) -> Result<Vec<u8>, NoMemory>
    ensures { IfOk result (λ text. text.items
        ≡ w.with_text catalog.now (program_query catalog.now (program_view program.now))) }
{
    let mut known = Sequence::new(alloc);
    let mut before = Vec::new(alloc);
    let n = push_steps(
        alloc,
        catalog,
        program.steps.as_slice(),
        &mut known,
        &mut before,
    )?;
    let due = types_or_none(alloc, catalog, known.as_slice(), &program.last)?;
    let mut body = Vec::new(alloc);
    let due = due.as_slice();
    push_query(
        alloc,
        catalog,
        known.as_slice(),
        due,
        &program.last,
        n,
        &mut before,
        &mut body,
    )?;
    assembled(alloc, &before, &body)
}
