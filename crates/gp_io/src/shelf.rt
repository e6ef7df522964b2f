//! Named files that can be read and replaced.
ghost use Rattle.std.specs.Prelude.{◌≡◌, ◌≤◌, List, [], ◌∷◌, ◌++◌, IfOk, IfErr, OnOk, vec_len};
ghost use Rattle.gp_io.specs.Events.{Event, Read, Replaced};
ghost use Rattle.gp_io.specs.ShelfSteps.{ReadStops, ReplaceStops};

use crate::error::ShelfStop;

/// Named files that can be read and replaced.
///
/// A contract sees of a shelf what its calls have done: its `events`, the latest last. Each read adds one and each replacement one at most, which says what was
/// read or replaced. So a contract speaks of the bytes that passed, whatever others do to the files meanwhile.
pub trait Shelf {
    ghost events: { Self → List Event };

    /// Reads the first `most` bytes of the file `name`, or all of them where there are fewer. No file changes.
    ///
    /// - `Absent`: there is no such file.
    /// - `Failed`: the file could not be read.
    /// - `NoMemory`: memory ran out. What was read of an input that is read once is lost.
    fn read(&mut self, name: &str, most: usize) -> Result<Vec<u8>, ShelfStop>
        ensures at_most { IfOk result (λ bytes. vec_len bytes ≤ most) }
        ensures read { IfOk result (λ bytes.
            events self.new ≡ events self.old ++ Read name.now most bytes.items ∷ []) }
        ensures stopped { IfErr result (ReadStops name.now (events self.old) (events self.new)) };

    /// Makes `bytes` the content of the file `name`, which is created where it does not exist. No other file changes.
    ///
    /// - `Failed`: the file could not be replaced. Its content is unknown, where the shelf says no more of it.
    /// - `NoMemory`: memory ran out, no file changes, and there is no event.
    ///
    /// `Absent` never comes.
    fn replace(&mut self, name: &str, bytes: &[u8]) -> Result<(), ShelfStop>
        ensures replaced { OnOk result
            (events self.new ≡ events self.old ++ Replaced name.now bytes.now ∷ []) }
        ensures stopped { IfErr result
            (ReplaceStops name.now bytes.now (events self.old) (events self.new)) };
}
