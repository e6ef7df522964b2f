//! Reading the files of a call.

ghost use Rattle.std.specs.Prelude.{◌≡◌, ◌<◌, ◌^◌, ℕ, List, IfOk, IfErr, OnOk};
ghost use Rattle.gp_io.specs.Events.{Event};
ghost use Rattle.gp_io.specs.ShelfSteps.{ReadStops};
ghost use Rattle.gprom_cli.specs.Steps.{Reads, StopsReading};

use crate::output::write_message;
use crate::status::Status;
use gp_io::{Shelf, ShelfStop, Sink};
use std::alloc::Global;

/// Writes why a file was not read, and returns the status of the call.
fn write_stop<K: Sink>(alloc: Global, out: &mut K, name: &str, stop: ShelfStop) -> Status
    ensures { (most : ℕ) (before after : List Event) → ReadStops name.now before after stop
        → StopsReading name.now most before after (K.state out.old) (K.state out.new) result }
{
    match stop {
        ShelfStop::Absent => write_message(alloc, out, "absent", name, Status::Absent),
        ShelfStop::Failed => write_message(alloc, out, "cannot read", name, Status::Unreadable),
        ShelfStop::NoMemory => Status::OutOfMemory,
    }
}

/// The whole file of a name, which has at most `most` bytes. Where it is not read, a message is written, and the status of the call is
/// the error.
pub(crate) fn read_file<H: Shelf, K: Sink>(
    alloc: Global,
    name: &str,
    most: usize,
    shelf: &mut H,
    out: &mut K,
) -> Result<Vec<u8>, Status>
    requires { most < 2 ^ 32 }
    ensures read { IfOk result (λ bytes.
        Reads name.now most (H.events shelf.old) (H.events shelf.new) bytes.items) }
    ensures unwritten { OnOk result (K.state out.new ≡ K.state out.old) }
    ensures stopped { IfErr result (λ status. StopsReading name.now most
        (H.events shelf.old) (H.events shelf.new) (K.state out.old) (K.state out.new) status) }
{
    // One byte more than the longest file shows that a file is too long, without reading all of it.
    match shelf.read(name, most + 1) {
        Ok(bytes) => {
            if bytes.len() > most {
                Err(write_message(alloc, out, "too long", name, Status::TooLong))
            } else {
                Ok(bytes)
            }
        }
        Err(stop) => Err(write_stop(alloc, out, name, stop)),
    }
}
