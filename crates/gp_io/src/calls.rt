//! The calls of the operating system. Each notes its answer.
ghost use Rattle.std.specs.Prelude.{◌≡◌, ◌≢◌, ◌≤◌, Err, IfOk, IfErr, vec_len};
ghost use Rattle.gp_io.specs.Noted.{CallIsNoted, LookIsNoted, ReadIsNoted, StepsStay, StoreIsNoted, WriteIsNoted};
ghost use Rattle.gp_io.specs.Steps.{Open, Rename, Sync, Remove, Overwrite};
ghost use Rattle.gp_io.specs.declared.trace.Trace.{Trace};

use crate::error::{NotStored, ShelfStop, SinkStop};
use crate::found::Found;
use crate::trace::Trace;
use std::alloc::Global;
use std::io;

/// The calls of the operating system, and what was asked of it.
pub(crate) trait Calls {
    ghost trace: { Self → Trace };

    /// Reads the first `most` bytes of a file.
    fn read(&mut self, alloc: Global, name: &str, most: usize) -> Result<Vec<u8>, ShelfStop>
        ensures at_most { IfOk result (λ bytes. vec_len bytes ≤ most) }
        ensures noted { ReadIsNoted name.now most (trace self.old) (trace self.new) result }
        ensures steps { StepsStay (trace self.old) (trace self.new) };

    /// What stands under the name.
    fn look(&mut self, alloc: Global, name: &str) -> Result<Found, ShelfStop>
        ensures not_absent { result ≢ Err ShelfStop.Absent }
        ensures noted { LookIsNoted name.now (trace self.old) (trace self.new) result };

    /// Whether the file may be written. It stays as it is.
    fn open(&mut self, name: &str) -> io::Result<()>
        ensures { CallIsNoted (Open name.now) (trace self.old) (trace self.new) result };

    /// Creates a file where nothing has the name, gives it these bytes and this mode, if any, and brings them to the disk.
    fn store(&mut self, name: &str, mode: Option<u32>, bytes: &[u8]) -> Result<(), NotStored>
        ensures { StoreIsNoted name.now mode bytes.now (trace self.old) (trace self.new) result };

    /// Gives a file another name, in place of the file that had it.
    fn rename(&mut self, from: &str, to: &str) -> io::Result<()>
        ensures { CallIsNoted (Rename from.now to.now) (trace self.old) (trace self.new) result };

    /// Brings the names of a folder to the disk, where the system does that.
    fn sync(&mut self, folder: &str) -> Result<(), ShelfStop>
        ensures failed { IfErr result (λ stop. stop ≡ ShelfStop.Failed) }
        ensures noted { CallIsNoted (Sync folder.now) (trace self.old) (trace self.new) result };

    fn remove(&mut self, name: &str) -> io::Result<()>
        ensures { CallIsNoted (Remove name.now) (trace self.old) (trace self.new) result };

    /// Writes the bytes to what has the name.
    fn overwrite(&mut self, name: &str, bytes: &[u8]) -> Result<(), ShelfStop>
        ensures failed { IfErr result (λ stop. stop ≡ ShelfStop.Failed) }
        ensures noted { CallIsNoted (Overwrite name.now bytes.now) (trace self.old) (trace self.new)
            result };
}

/// The standard output, and what was written to it.
pub(crate) trait Output {
    ghost output: { Self → Trace };

    fn write(&mut self, bytes: &[u8]) -> Result<(), SinkStop>
        ensures { WriteIsNoted bytes.now (output self.old) (output self.new) result };
}
