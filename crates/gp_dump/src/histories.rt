//! The law of the dumps of histories.

ghost use Rattle.std.specs.Prelude.{List};
ghost use Rattle.gp_base.specs.Annotated.{unannotated};
ghost use Rattle.gp_machine.specs.Event.{Line, after};
ghost use Rattle.gp_machine.specs.State.{start};
ghost use Rattle.gp_log.specs.Parameters.{parameters};
ghost use Rattle.gp_dump.specs.Dumps.{dump_of};
ghost use Rattle.gp_dump.specs.WholeDumps.{IsDump};
ghost use Rattle.gp_log.specs.ScriptLines.{AreScriptLines};

/// The dump of every history is well formed: its entries are a log, and few; each command is read from its text; each row fits
/// the columns of its table, has an identity that is read from its text, and is in its place; and there are few rows.
pub fn dumps_of_histories_are_well_formed()
    ensures rules { (lines : List Line) → AreScriptLines lines
        → IsDump (dump_of (after unannotated parameters start lines)) }
{}
