//! A whole script: every line that is neither blank nor a comment gets its reply.

ghost use Rattle.std.specs.Prelude.{◌≡◌, ◌≤◌, IfOk, OnErr, OnOk, length};
ghost use Rattle.gp_base.specs.Annotated.{unannotated};
ghost use Rattle.gp_machine.specs.State.{start};
ghost use Rattle.gp_engine.specs.Engine.{IsEngineOf, IsUnchanged};
ghost use Rattle.gp_script.specs.Answering.{FollowsLine};
ghost use Rattle.gp_script.specs.History.{has_refusal, replies_text};
ghost use Rattle.gp_script.specs.Scripts.{final_state, replies_of};
ghost use Rattle.gp_script.specs.Run.{HasRun};

use crate::display::write_reply;
use gp_base::{NoMemory, Stop};
use gp_engine::Engine;
use gp_machine::Reply;
use gp_syntax::{Command, lines, read_line};
use std::alloc::Global;
use std::rc::Rc;

/// The greatest length of a script, in bytes.
pub const MAX_SCRIPT_LENGTH: usize = 16_777_216;

/// What a script writes.
#[derive(Drop)]
pub struct Output {
    /// The replies, each with the number of its line.
    pub text: Vec<u8>,
    /// Whether a line was refused.
    pub refused: bool,
}

/// A command behind a count of its owners: the log keeps it.
fn shared(alloc: Global, command: Command) -> Result<Rc<Command>, NoMemory>
    ensures { IfOk result (λ r. r.value ≡ command) }
{
    Ok(Rc::new(alloc, command)?)
}

/// Answers the line of this number.
fn answer_line(
    alloc: Global,
    engine: &mut Engine,
    number: u32,
    bytes: &[u8],
) -> Result<Reply, NoMemory>
    ensures follows { IfOk result (FollowsLine engine.old engine.new number bytes.now) }
    ensures err { OnErr result (IsUnchanged engine.old engine.new) }
{
    match read_line(alloc, bytes) {
        Ok(read) => {
            let command = shared(alloc, read.command)?;
            engine.line(number, read.session, command)
        }
        Err(Stop::Refused(refusal)) => Ok(Reply::Refused(refusal)),
        Err(Stop::NoMemory) => Err(NoMemory),
    }
}

/// Runs the lines of a script in order on a new engine, and gives their replies: exactly those of the history of the script, whatever its
/// bytes. The engine then represents the state that the script leaves. The only error is that memory ran out; the engine then represents the
/// state after the first lines, some number of them.
pub fn run_script(alloc: Global, script: &[u8], engine: &mut Engine) -> Result<Output, NoMemory>
    requires length { length script.now ≤ MAX_SCRIPT_LENGTH }
    requires new { IsEngineOf engine.old start }
    ensures text { IfOk result (λ output.
        output.text.items ≡ replies_text (replies_of script.now)) }
    ensures refused { IfOk result (λ output.
        output.refused ≡ has_refusal (replies_of script.now)) }
    ensures engine { OnOk result (IsEngineOf engine.new (final_state unannotated script.now)) }
    ensures err { OnErr result (HasRun script.now engine.new) }
{
    let mut text = Vec::new(alloc);
    let mut refused = false;
    let mut rest = lines(script);
    while let Some(line) = rest.next() {
        let reply = answer_line(alloc, engine, line.number, line.bytes)?;
        refused = refused | reply.is_refusal();
        write_reply(alloc, line.number, engine.catalog(), reply, &mut text)?;
    }
    Ok(Output { text, refused })
}
