//! What runs plain programs.

ghost use Rattle.std.specs.Prelude.{◌≡◌, true, map};
ghost use Rattle.gp_algebra.specs.PlainViews.{program_view};
ghost use Rattle.gp_algebra.specs.Plain.{PlainEnvironment, PlainProgram};
ghost use Rattle.gp_algebra.specs.WellBuilt.{is_well_built};
ghost use Rattle.gp_exec.specs.Backends.{Given, IsGiven, KeepsUserCells, StopsAtStep};
ghost use Rattle.gp_exec.specs.PastRows.{IsGivenIfSome, past_row};
ghost use Rattle.gp_exec.specs.Running.{environment_view};

use crate::env::Env;
use crate::error::ExecStop;
use crate::past_rows::{PastRow, run_past};
use crate::program::run;
use gp_algebra::{PProgram, ScanAt};
use gp_base::Row;
use std::alloc::Global;

/// Something that runs plain programs: the executor of this crate, or a database that a program is written for.
pub trait Backend {
    /// What it may give for a program on an environment.
    ghost gives: { Self → PlainProgram → PlainEnvironment → Given → Type 0 };

    /// The rows of a program, in any order, or the reason why there are none. The program is well built.
    fn run(&self, alloc: Global, program: &PProgram, env: &Env) -> Result<Vec<Row>, ExecStop>
        requires { is_well_built (program_view program.now) ≡ true }
        ensures given { IsGiven (λ rows. rows.items) (gives self.now) result
            (program_view program.now) (environment_view env.now) }
        ensures cells { KeepsUserCells (λ rows. rows.items) result
            (program_view program.now) (environment_view env.now) }
        ensures steps { StopsAtStep result (program_view program.now) };

    /// The rows of a program over the rows of one table in one version, where they lie, or the reason why there are none; None if
    /// this backend does not run the program so. The program is well built, and scans nothing else.
    fn run_past(
        &self,
        _alloc: Global,
        program: &PProgram,
        at: ScanAt,
        rows: &[PastRow<'_>],
    ) -> Result<Option<Vec<Row>>, ExecStop>
        requires { is_well_built (program_view program.now) ≡ true }
        ensures { (env : PlainEnvironment) → env at.version at.table ≡ map past_row rows.now
            → IsGivenIfSome (λ rows. rows.items) (gives self.now) result
            (program_view program.now) env }
    {
        Ok(None)
    }
}

/// The executor of this crate: its rows are those of [`run`].
#[derive(Clone, Copy)]
pub struct Plain;

impl Backend for Plain {
    ghost use Rattle.gp_exec.specs.Backends.{Executes};

    ghost gives = { λ _. Executes };

    fn run(&self, alloc: Global, program: &PProgram, env: &Env) -> Result<Vec<Row>, ExecStop> {
        run(alloc, program, env)
    }

    fn run_past(
        &self,
        alloc: Global,
        program: &PProgram,
        at: ScanAt,
        rows: &[PastRow<'_>],
    ) -> Result<Option<Vec<Row>>, ExecStop> {
        run_past(alloc, program, at, rows)
    }
}
