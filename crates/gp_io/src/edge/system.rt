//! The operating system, and what was asked of it. Nothing is asked of it here.
ghost use Rattle.std.specs.Prelude.{◌≡◌, ◌≢◌, Err};
ghost use Rattle.gp_io.specs.Noted.{NothingNoted, ReplacementIsNoted, StepsStay};

use crate::error::ShelfStop;
use crate::trace::Trace;

/// The operating system, and what was asked of it. Only `edge` reaches the fields.
#[derive(Drop)]
pub(crate) struct System<R: Drop> {
    pub(super) rt: R,
    pub(super) trace: Trace,
}

impl<R: Drop> System<R> {
    /// A system of which nothing was asked yet.
    pub fn new(rt: R) -> System<R>
        ensures { NothingNoted result.trace }
    {
        let trace = Trace::new();
        System { rt, trace }
    }

    /// Notes the answer to a replacement.
    pub fn note_replacement(&mut self, name: &str, bytes: &[u8], answer: &Result<(), ShelfStop>)
        requires { answer.now ≢ Err ShelfStop.Absent }
        ensures noted { ReplacementIsNoted name.now bytes.now self.old.trace self.new.trace answer.now }
        ensures steps { StepsStay self.old.trace self.new.trace }
    {
        self.trace.note_replacement(name, bytes, answer);
    }
}
