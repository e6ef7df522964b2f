//! Whether the dump is that of a history.

ghost use Rattle.std.specs.Prelude.{◌≡◌, IfOk};
ghost use Rattle.gp_grammar.specs.Syntax as y;
ghost use Rattle.gp_dump.specs.WholeDumps.{IsDump};
ghost use Rattle.gp_dump.specs.Views.{dump_view};
ghost use Rattle.gp_ask.specs.Computed.{computed_answer};

use crate::answered::Answered;
use gp_base::NoMemory;
use gp_dump::Dump;
use gp_replay::check_history;
use std::alloc::Global;

/// The first line of the dump that is not as the lines of its log make it, or none where the dump is that of a history.
pub fn check_answer(alloc: Global, dump: &Dump) -> Result<Answered, NoMemory>
    requires rules { IsDump (dump_view dump.now) }
    ensures { IfOk result (λ answered. answered ≡ computed_answer (dump_view dump.now) (y.bare y.check)) }
{
    Ok(Answered::Checked(check_history(alloc, dump)?))
}
