//! A destination for output bytes.
ghost use Rattle.std.specs.Prelude.{◌≡◌, IfErr, OnOk};
ghost use Rattle.gp_io.specs.Sink.{SinkState, after_write};
ghost use Rattle.gp_io.specs.SinkSteps.{WriteStops};

use crate::error::SinkStop;

/// A destination for output bytes.
///
/// A contract sees a sink as its `state`: the bytes of the writes that succeeded, and those of each write that failed.
pub trait Sink {
    ghost state: { Self → SinkState };

    /// Writes all of `bytes`.
    ///
    /// - `Failed`: a write error. A prefix of `bytes` may have been written.
    /// - `NoMemory`: memory ran out, and nothing was written.
    fn write_all(&mut self, bytes: &[u8]) -> Result<(), SinkStop>
        ensures written { OnOk result (state self.new ≡ after_write bytes.now (state self.old)) }
        ensures stopped { IfErr result (WriteStops bytes.now (state self.old) (state self.new)) };
}
