//! Programs with system columns.

ghost use Rattle.std.specs.Prelude.{◌≡◌, map, IfOk};
ghost use Rattle.gp_algebra.specs.Statements.{width_of};
ghost use Rattle.gp_algebra.specs.PlainViews.{program_view, step_view};
ghost use Rattle.gp_algebra.specs.QueryViews.{annotated_program_view, annotated_step_view};
ghost use Rattle.gp_prov.specs.ToPlain as to;
ghost use Rattle.gp_prov.specs.Translating.{plain_step_over};

use crate::queries::{Translation, plain_last, plain_query};
use gp_algebra::{AProgram, AStep, PProgram, PStep};
use gp_base::{Catalog, NoMemory, Sequence};
use std::alloc::Global;

/// A step with system columns.
fn plain_step(translation: &Translation<'_>, step: &AStep) -> Result<PStep, NoMemory>
    ensures { IfOk result (λ new. step_view new
        ≡ plain_step_over translation.now (annotated_step_view step.now)) }
{
    Ok(PStep {
        j: step.j,
        table: step.table,
        query: plain_query(translation, &step.query)?,
    })
}

/// The steps with system columns.
fn plain_steps(translation: &Translation<'_>) -> Result<Sequence<PStep>, NoMemory>
    ensures { IfOk result (λ new. map step_view new ≡ map (plain_step_over translation.now)
        (map annotated_step_view translation.now.steps.now)) }
{
    let mut new = Sequence::new(translation.alloc);
    for step in translation.steps {
        new.push(plain_step(translation, step)?)?;
    }
    Ok(new)
}

/// The program in the plain algebra. Behind the user columns of a table its rows have their identity, their mark and, with
/// provenance, their monomial. The rows of an answer have no system column but the monomial. The catalogue gives the number
/// of columns of each table. Running out of memory is the only error; a query with more columns, or a VALUES list with more
/// rows, than 32 bits can number counts as that.
pub fn to_plain(
    alloc: Global,
    program: &AProgram,
    catalog: &Catalog,
    with_prov: bool,
) -> Result<PProgram, NoMemory>
    ensures exact { IfOk result (λ plain. program_view plain ≡ to.plain_program
        (width_of catalog.now) with_prov (annotated_program_view program.now)) }
{
    let translation = Translation {
        alloc,
        catalog,
        steps: program.steps.as_slice(),
        with_prov,
    };
    let last = plain_last(&translation, &program.last)?;
    let steps = plain_steps(&translation)?;
    Ok(PProgram { steps, last })
}
