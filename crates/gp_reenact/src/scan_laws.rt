//! Laws of the definitions that contracts cite. Each function does nothing: its postconditions are the laws.

ghost use Rattle.std.specs.Prelude.{◌≡◌, ℕ, List, Contains};
ghost use Rattle.gp_base.specs.Annotated.{Annotations, unannotated};
ghost use Rattle.gp_algebra.specs.declared.plain.ScanAt.{ScanAt};
ghost use Rattle.gp_algebra.specs.Plain.{PlainProgram, program_meaning};
ghost use Rattle.gp_algebra.specs.Scans.{program_scans};
ghost use Rattle.gp_algebra.specs.Stops.{program_stop};
ghost use Rattle.gp_exec.specs.declared.env.Env.{Env};
ghost use Rattle.gp_exec.specs.Running.{environment_view};
ghost use Rattle.gp_versions.specs.Spans.{Versions};
ghost use Rattle.gp_reenact.specs.Encoding.{encoded};
ghost use Rattle.gp_reenact.specs.Travel.{past_environment, scans_at};

/// The encoding does not depend on annotations.
pub fn annotations_are_left_out<M>()
    ensures left_out { (domain : Annotations M) (versions : List Versions) (version table : ℕ)
        → encoded (past_environment domain versions) version table
        ≡ encoded (past_environment unannotated versions) version table }
{}

/// If all scans of a program are asked, its rows and its stop are those over all past versions.
pub fn asked_scans_suffice()
    ensures meaning { (versions : List Versions) (scans : List ScanAt) (env : Env)
        (program : PlainProgram) → env.scans ≡ scans_at versions scans
        → ((scan : ScanAt) → Contains (program_scans program) scan → Contains scans scan)
        → program_meaning (environment_view env) program
        ≡ program_meaning (encoded (past_environment unannotated versions)) program }
    ensures stop { (most_rows most_nodes : ℕ) (versions : List Versions) (scans : List ScanAt)
        (env : Env) (program : PlainProgram) → env.scans ≡ scans_at versions scans
        → ((scan : ScanAt) → Contains (program_scans program) scan → Contains scans scan)
        → program_stop most_rows most_nodes (environment_view env) program
        ≡ program_stop most_rows most_nodes
        (encoded (past_environment unannotated versions)) program }
{}
