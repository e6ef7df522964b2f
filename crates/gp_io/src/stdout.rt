//! The standard output as a sink.
ghost use Rattle.std.specs.Prelude.{◌≡◌, []};

use crate::calls::Output;
use crate::edge::System;
use crate::error::SinkStop;
use crate::sink::Sink;

/// The standard output.
///
/// How many bytes the system took of a write that failed is not known.
#[derive(Drop)]
pub struct OutSink<R: Print + Drop> {
    system: System<R>,
}

impl<R: Print + Drop> OutSink<R> {
    /// The standard output of `rt`, to which nothing has been written.
    pub fn new(rt: R) -> OutSink<R>
        ensures { ⟦<OutSink<R> as Sink>⟧.state result ≡ record { taken = []; failed = [] } }
    {
        OutSink {
            system: System::new(rt),
        }
    }
}

impl<R: Print + Drop> Sink for OutSink<R> {
    ghost state = { λ sink. record { taken = sink.system.trace.taken; failed = sink.system.trace.failed } };

    fn write_all(&mut self, bytes: &[u8]) -> Result<(), SinkStop> {
        self.system.write(bytes)
    }
}
