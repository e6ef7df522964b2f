//! The programs of the tables that a transaction published.

ghost use Rattle.std.specs.Prelude.{◌≡◌, true, IfOk};
ghost use Rattle.gp_algebra.specs.Fitting.{is_there};
ghost use Rattle.gp_algebra.specs.QueryViews.{annotated_program_view};
ghost use Rattle.gp_compose.specs.Composing.{published_in};
ghost use Rattle.gp_grammar.specs.Syntax as y;
ghost use Rattle.gp_log.specs.Contents.{HasPoint, StatementsFit, tables};

use gp_algebra::AProgram;
use gp_base::{NoMemory, Stop};
use gp_compose::published;
use gp_log::Log;
use std::alloc::Global;

/// The program of a table that a transaction which made a version published.
pub fn published_program(alloc: Global, log: &Log, t: u32, table: u32) -> Result<AProgram, NoMemory>
    requires there { is_there (tables log.now) table ≡ true }
    requires statements { StatementsFit log.now }
    requires known { HasPoint log.now (y.Point.commit t) }
    ensures { IfOk result (λ program.
        annotated_program_view program ≡ published_in log.now t table) }
{
    match published(alloc, log, u64::from(t), table) {
        Ok(program) => Ok(program),
        Err(Stop::NoMemory) => Err(NoMemory),
        Err(Stop::Refused(_)) => unreachable!(),
    }
}
