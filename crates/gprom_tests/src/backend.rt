//! A backend that gives the same rows for every program, and questions put to it.

ghost use Rattle.std.specs.Prelude.{◌≡◌, ◌∷◌, [], IfOk};
ghost use Rattle.gp_base.specs.declared.cell.Cell.TheVariants as cell;
ghost use Rattle.gp_dump.specs.WholeDumps.{IsDump};
ghost use Rattle.gp_dump.specs.Views.{dump_view};

use gp_algebra::PProgram;
use gp_ask::{Answered, Backend, ValidQuestion, answer_by, asks_rows};
use gp_base::{Cell, NoMemory, Refusal, Row, Stop};
use gp_dump::Dump;
use gp_exec::{Env, ExecStop};
use std::alloc::Global;

fn number_row(alloc: Global, number: i64) -> Result<Row, NoMemory>
    ensures { IfOk result (λ row. row ≡ cell.Int number ∷ []) }
{
    let mut row = Row::new(alloc);
    row.push(Cell::Int(number))?;
    Ok(row)
}

/// A backend that gives the rows 7 and 3 for every program.
#[derive(Clone, Copy)]
pub(crate) struct Fixed;

impl Backend for Fixed {
    ghost use Rattle.gprom_tests.specs.Fixed.{GivesTwoRows};

    ghost gives = { λ _. GivesTwoRows };

    fn run(&self, alloc: Global, _program: &PProgram, _env: &Env) -> Result<Vec<Row>, ExecStop> {
        let mut rows = Vec::new(alloc);
        rows.push(number_row(alloc, 7)?)?;
        rows.push(number_row(alloc, 3)?)?;
        Ok(rows)
    }
}

/// The answer to a question over the fixed backend; one that does not ask for rows is not put to it.
fn plain_answer(alloc: Global, dump: &Dump, question: &ValidQuestion) -> Result<Answered, NoMemory>
    requires rules { IsDump (dump_view dump.now) }
{
    if asks_rows(&question.read) {
        answer_by(alloc, dump, question, &Fixed)
    } else {
        Ok(Answered::Refused(Refusal::E07))
    }
}

/// The answer to a line over the fixed backend, from a dump that was read. A line that is no question is refused as it is read.
pub(crate) fn fixed_answer(alloc: Global, dump: &Dump, line: &[u8]) -> Result<Answered, NoMemory>
    requires rules { IsDump (dump_view dump.now) }
{
    match ValidQuestion::of_line(alloc, line) {
        Ok(question) => {
            let found = plain_answer(alloc, dump, &question);
            drop(question);
            found
        }
        Err(Stop::Refused(refusal)) => Ok(Answered::Refused(refusal)),
        Err(Stop::NoMemory) => Err(NoMemory),
    }
}
