//! The operating system's files and its standard input as a shelf.
ghost use Rattle.std.specs.Prelude.{◌≡◌, ◌≤◌, [], ◌∷◌, ◌++◌, IfOk, IfErr, OnOk, vec_len};
ghost use Rattle.gp_io.specs.Events.{Read, Replaced};
ghost use Rattle.gp_io.specs.ShelfSteps.{ReadStops, ReplaceStops};
ghost use Rattle.gp_io.specs.Whole.{ReplacesWhole};

use crate::calls::Calls;
use crate::edge::System;
use crate::error::ShelfStop;
use crate::shelf::Shelf;
use crate::whole;
use std::alloc::Global;
use std::rt::Files;

/// The operating system's files, by their paths, and its standard input.
///
/// Where the name `-` is read it stands for the standard input, as in the utilities of POSIX (IEEE Std 1003.1, Utility Syntax Guidelines); a file of that name is `./-`.
/// What the input had is gone once it was read.
///
/// What they hold is not known, since other programs may change them at any time. What was read from them and written to them is.
#[derive(Drop)]
pub struct DiskShelf<R: Files + Input + Drop> {
    system: System<R>,
    alloc: Global,
}

impl<R: Files + Input + Drop> DiskShelf<R> {
    /// The files that `rt` reaches.
    pub fn new(rt: R, alloc: Global) -> DiskShelf<R>
        ensures { ⟦<DiskShelf<R> as Shelf>⟧.events result ≡ [] }
    {
        DiskShelf {
            system: System::new(rt),
            alloc,
        }
    }
}

impl<R: Files + Input + Drop> Shelf for DiskShelf<R> {
    ghost events = { λ shelf. shelf.system.trace.events };

    /// `Absent` comes only where the system answers that no such file exists, and never of the
    /// standard input. A directory, a path through a file and a missing permission are failures.
    fn read(&mut self, name: &str, most: usize) -> Result<Vec<u8>, ShelfStop>
        ensures at_most { IfOk result (λ bytes. vec_len bytes ≤ most) }
        ensures read { IfOk result (λ bytes. ⟦<DiskShelf<R> as Shelf>⟧.events self.new
            ≡ ⟦<DiskShelf<R> as Shelf>⟧.events self.old ++ Read name.now most bytes.items ∷ []) }
        ensures stopped { IfErr result (ReadStops name.now (⟦<DiskShelf<R> as Shelf>⟧.events self.old)
            (⟦<DiskShelf<R> as Shelf>⟧.events self.new)) }
        ensures steps { self.new.system.trace.steps ≡ self.old.system.trace.steps }
    {
        self.system.read(self.alloc, name, most)
    }

    /// The file is created where it does not exist; its directory has to exist, and new files in it be allowed.
    /// A regular file is replaced whole or not at all (`whole`), with the same permissions; one that may not be written stays. After `Failed` it is as before, or has
    /// the bytes where only the sync of its directory failed. What is no regular file, as a device or a pipe, takes the bytes as they come.
    fn replace(&mut self, name: &str, bytes: &[u8]) -> Result<(), ShelfStop>
        ensures replaced { OnOk result (⟦<DiskShelf<R> as Shelf>⟧.events self.new
            ≡ ⟦<DiskShelf<R> as Shelf>⟧.events self.old ++ Replaced name.now bytes.now ∷ []) }
        ensures stopped { IfErr result (ReplaceStops name.now bytes.now
            (⟦<DiskShelf<R> as Shelf>⟧.events self.old) (⟦<DiskShelf<R> as Shelf>⟧.events self.new)) }
        ensures whole { ReplacesWhole name.now bytes.now self.old.system.trace.steps
            self.new.system.trace.steps result }
    {
        let answer = whole::replace(&mut self.system, self.alloc, name, bytes);
        self.system.note_replacement(name, bytes, &answer);
        answer
    }
}
