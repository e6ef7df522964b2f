//! What the calls of a shelf or a sink have done, for contracts and proofs alone.
ghost use Rattle.std.specs.Prelude.{◌≡◌, ◌≢◌, ℕ, List, []};
ghost use Rattle.std.specs.Borrow.{ftrue};
ghost use Rattle.gp_io.specs.Events.{Event};
ghost use Rattle.gp_io.specs.EventCodes.{events_code};
ghost use Rattle.gp_io.specs.Steps.{Step};
ghost use Rattle.gp_io.specs.StepCodes.{steps_code};

use crate::error::{NotStored, ShelfStop, SinkStop};
use crate::found::Found;
use crate::named_file::NamedFile;
use std::marker::Model;

/// The events of a shelf and the steps by which it replaced files, or the bytes that an output has taken and its failed writes. It takes no memory, and its methods do nothing.
///
/// No memory holds what it says, so an author of a shelf or a sink has to note what was done. A caller that is generic in the
/// shelf reads it through the trait's ghost members alone, and cannot change it but by a call of the shelf.
#[derive(Drop)]
pub(crate) struct Trace {
    ghost events: { List Event } by { events_code },
    ghost taken: { List ℕ },
    ghost failed: { List (List ℕ) },
    ghost steps: { List Step } by { steps_code },
}

impl Model for Trace {
    ghost also_owns = { λ _. ftrue };
}

/// What the system is asked for while a file is replaced.
#[derive(Clone, Copy, Drop)]
pub(crate) enum Call<'a> {
    Open(&'a str),
    /// The name of a new file, its mode, if any, and its bytes.
    Store(&'a str, Option<u32>, &'a [u8]),
    /// The old name and the new one.
    Rename(&'a str, &'a str),
    /// The name of a folder.
    Sync(&'a str),
    Remove(&'a str),
    Overwrite(&'a str, &'a [u8]),
}

/// What one call has done.
#[derive(Clone, Copy, Drop)]
pub(crate) enum Note<'a> {
    /// The files with which a shelf in memory begins, as if each had been put into it.
    Made(&'a [NamedFile]),
    /// The name, the number of bytes that were asked for, and those that were read.
    Read(&'a str, usize, &'a [u8]),
    Missing(&'a str),
    Unreadable(&'a str),
    Stopped(&'a str),
    /// The name, and the bytes.
    Replaced(&'a str, &'a [u8]),
    NotReplaced(&'a str, &'a [u8]),
    Free(&'a str),
    /// The name, that of the file to which it leads, and its mode.
    Plain(&'a str, &'a str, u32),
    Other(&'a str),
    Did(Call<'a>),
    DidNot(Call<'a>),
    Written(&'a [u8]),
    /// The bytes of a write that failed.
    NotWritten(&'a [u8]),
}

impl Trace {
    ghost use Rattle.gp_io.specs.Noted.{NothingNoted, events_after, taken_after, failed_after, steps_after};

    /// Nothing was done.
    pub(crate) fn new() -> Trace
        ensures { NothingNoted result }
    {
        Trace {}
    }

    /// This was done next.
    #[inline(always)]
    pub(crate) fn and(&self, _note: &Note<'_>) -> Trace
        ensures { (result.events ≡ events_after self.now.events _note.now)
            × (result.taken ≡ taken_after self.now.taken _note.now)
            × (result.failed ≡ failed_after self.now.failed _note.now)
            × (result.steps ≡ steps_after self.now.steps _note.now) }
    {
        Trace {}
    }
}

impl Trace {
    ghost use Rattle.gp_io.specs.Noted.{CallIsNoted, LookIsNoted, ReadIsNoted, ReplacementIsNoted, StepsStay, StoreIsNoted, WriteIsNoted, call_of};

    /// Notes the answer to a read, and gives it back.
    pub(crate) fn note_read(
        &mut self,
        name: &str,
        most: usize,
        answer: Result<Vec<u8>, ShelfStop>,
    ) -> Result<Vec<u8>, ShelfStop>
        ensures noted { ReadIsNoted name.now most self.old self.new answer }
        ensures steps { StepsStay self.old self.new }
        ensures same { result ≡ answer }
    {
        match &answer {
            Ok(bytes) => *self = self.and(&Note::Read(name, most, bytes)),
            Err(ShelfStop::Absent) => *self = self.and(&Note::Missing(name)),
            Err(ShelfStop::Failed) => *self = self.and(&Note::Unreadable(name)),
            Err(ShelfStop::NoMemory) => *self = self.and(&Note::Stopped(name)),
        }
        answer
    }

    /// Notes the answer to a replacement.
    pub(crate) fn note_replacement(
        &mut self,
        name: &str,
        bytes: &[u8],
        answer: &Result<(), ShelfStop>,
    )
        requires { answer.now ≢ Err ShelfStop.Absent }
        ensures noted { ReplacementIsNoted name.now bytes.now self.old self.new answer.now }
        ensures steps { StepsStay self.old self.new }
    {
        match answer {
            Ok(()) => *self = self.and(&Note::Replaced(name, bytes)),
            Err(ShelfStop::NoMemory) => (),
            Err(_) => *self = self.and(&Note::NotReplaced(name, bytes)),
        }
    }

    /// Notes what stands under a name, and gives it back.
    pub(crate) fn note_look(
        &mut self,
        name: &str,
        answer: Result<Found, ShelfStop>,
    ) -> Result<Found, ShelfStop>
        ensures noted { LookIsNoted name.now self.old self.new answer }
        ensures same { result ≡ answer }
    {
        match &answer {
            Ok(Found::Free) => *self = self.and(&Note::Free(name)),
            Ok(Found::Plain(target, mode)) => {
                *self = self.and(&Note::Plain(name, target, *mode));
            }
            Ok(Found::Other) => *self = self.and(&Note::Other(name)),
            Err(_) => (),
        }
        answer
    }

    /// Notes the answer to a store, and gives it back.
    pub(crate) fn note_store(
        &mut self,
        name: &str,
        mode: Option<u32>,
        bytes: &[u8],
        answer: Result<(), NotStored>,
    ) -> Result<(), NotStored>
        ensures noted { StoreIsNoted name.now mode bytes.now self.old self.new answer }
        ensures same { result ≡ answer }
    {
        match answer {
            Ok(()) => *self = self.and(&Note::Did(Call::Store(name, mode, bytes))),
            Err(NotStored::Broken) => {
                *self = self.and(&Note::DidNot(Call::Store(name, mode, bytes)));
            }
            Err(NotStored::Taken | NotStored::NotMade) => (),
        }
        answer
    }

    /// Notes the answer to another call, and gives it back.
    pub(crate) fn note_call<E>(&mut self, call: Call<'_>, answer: Result<(), E>) -> Result<(), E>
        ensures noted { CallIsNoted (call_of call.entry) self.old self.new answer }
        ensures same { result ≡ answer }
    {
        match &answer {
            Ok(()) => *self = self.and(&Note::Did(call)),
            Err(_) => *self = self.and(&Note::DidNot(call)),
        }
        answer
    }

    /// Notes the answer to a write, and gives it back.
    pub(crate) fn note_write(
        &mut self,
        bytes: &[u8],
        answer: Result<(), SinkStop>,
    ) -> Result<(), SinkStop>
        ensures noted { WriteIsNoted bytes.now self.old self.new answer }
        ensures same { result ≡ answer }
    {
        match answer {
            Ok(()) => *self = self.and(&Note::Written(bytes)),
            Err(SinkStop::Failed) => *self = self.and(&Note::NotWritten(bytes)),
            Err(SinkStop::NoMemory) => (),
        }
        answer
    }
}
