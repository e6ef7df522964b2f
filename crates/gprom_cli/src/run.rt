//! `run SCRIPT DUMP`: runs a script, replaces the dump, then writes the replies.

ghost use Rattle.std.specs.Prelude.{◌≡◌, ◌≤◌, ℕ, List, [], ◌∷◌, ◌++◌, IfOk, length, Some};
ghost use Rattle.gp_io.specs.Events.{Event};
ghost use Rattle.gp_script.specs.History.{has_refusal, replies_text};
ghost use Rattle.gp_script.specs.Scripts.{replies_of};
ghost use Rattle.gprom_cli.specs.Args.{Run};
ghost use Rattle.gprom_cli.specs.Call.{read_of};
ghost use Rattle.gprom_cli.specs.Steps.{Ends, script_dump};

use crate::output::{write_message, write_output};
use crate::read::read_file;
use crate::status::Status;
use gp_base::NoMemory;
use gp_dump::{MAX_DUMP_LENGTH, write_dump};
use gp_engine::Engine;
use gp_io::{Shelf, ShelfStop, Sink};
use gp_script::{MAX_SCRIPT_LENGTH, run_script};
use std::alloc::Global;

/// What a script comes to.
#[derive(Drop)]
pub(crate) struct Results {
    /// The replies to its lines.
    replies: Vec<u8>,
    /// Whether a line was refused.
    refused: bool,
    /// The text of its dump.
    pub(crate) dump: Vec<u8>,
}

/// Runs a script. All that it writes is made before any of it is written.
pub(crate) fn run_all(alloc: Global, script: &[u8]) -> Result<Results, NoMemory>
    requires { length script.now ≤ MAX_SCRIPT_LENGTH }
    ensures replies { IfOk result (λ made.
        made.replies.items ≡ replies_text (replies_of script.now)) }
    ensures refused { IfOk result (λ made. made.refused ≡ has_refusal (replies_of script.now)) }
    ensures dump { IfOk result (λ made. made.dump.items ≡ script_dump script.now) }
{
    let mut engine = Engine::new(alloc);
    let output = run_script(alloc, script, &mut engine)?;
    let dump = write_dump(alloc, engine.log(), engine.versions())?;
    Ok(Results {
        replies: output.text,
        refused: output.refused,
        dump,
    })
}

/// Replaces the dump by that of a script, then writes the replies.
fn write_results<H: Shelf, K: Sink>(
    alloc: Global,
    script: &[u8],
    made: &Results,
    dump: &str,
    shelf: &mut H,
    out: &mut K,
) -> Status
    requires short { length script.now ≤ MAX_SCRIPT_LENGTH }
    requires replies { made.now.replies.items ≡ replies_text (replies_of script.now) }
    requires refused { made.now.refused ≡ has_refusal (replies_of script.now) }
    requires dump { made.now.dump.items ≡ script_dump script.now }
    ensures { (name : List ℕ) (before : List Event)
        → H.events shelf.old ≡ before ++ read_of name MAX_SCRIPT_LENGTH script.now ∷ []
        → Ends (Some (Run name dump.now)) before (H.events shelf.new) (K.state out.old) (K.state out.new) result }
{
    if made.dump.len() > MAX_DUMP_LENGTH {
        return write_message(alloc, out, "too long", dump, Status::TooLong);
    }
    match shelf.replace(dump, &made.dump) {
        Ok(()) => write_output(out, &made.replies, Status::answered(made.refused)),
        Err(ShelfStop::Failed) => write_message(
            alloc,
            out,
            "cannot write",
            dump,
            Status::Unwritten,
        ),
        Err(ShelfStop::NoMemory) => Status::OutOfMemory,
        Err(ShelfStop::Absent) => unreachable!(),
    }
}

/// Runs a script that was read.
fn run_bytes<H: Shelf, K: Sink>(
    alloc: Global,
    script: &[u8],
    dump: &str,
    shelf: &mut H,
    out: &mut K,
) -> Status
    requires { length script.now ≤ MAX_SCRIPT_LENGTH }
    ensures { (name : List ℕ) (before : List Event)
        → H.events shelf.old ≡ before ++ read_of name MAX_SCRIPT_LENGTH script.now ∷ []
        → Ends (Some (Run name dump.now)) before (H.events shelf.new) (K.state out.old) (K.state out.new) result }
{
    match run_all(alloc, script) {
        Ok(made) => write_results(alloc, script, &made, dump, shelf, out),
        Err(NoMemory) => Status::OutOfMemory,
    }
}

/// Reads the script, runs it, replaces the dump, then writes the reply to each line of the script.
pub(crate) fn run<H: Shelf, K: Sink>(
    alloc: Global,
    script: &str,
    dump: &str,
    shelf: &mut H,
    out: &mut K,
) -> Status
    ensures { Ends (Some (Run script.now dump.now)) (H.events shelf.old) (H.events shelf.new)
        (K.state out.old) (K.state out.new) result }
{
    match read_file(alloc, script, MAX_SCRIPT_LENGTH, shelf, out) {
        Ok(bytes) => run_bytes(alloc, &bytes, dump, shelf, out),
        Err(status) => status,
    }
}
