//! Reading the first bytes of any reader, and writing bytes to any writer: proved wherever their bytes are known. Of those of the system they are not.
ghost use Rattle.std.specs.Prelude.{◌≡◌, ◌≢◌, ◌≤◌, ◌↔◌, ◌⊎◌, ℕ, true, List, Option, Err, IfOk, IfErr, IsOk, IsErr, IsErrAnd, IsTrue, OnOk, IfSome, take, vec_len};
ghost use Rattle.std.specs.Fs.{asks_create_new, new_options, with_write, IsValidOptions};
ghost use Rattle.std.specs.IoError.{error_kind};
ghost use Rattle.std.specs.Io.KnownBytes.{Appends, Keeps};
ghost use Rattle.gp_io.specs.Streams.{AppendsPrefix, BothOk};

use crate::error::{NotStored, ShelfStop, SinkStop};
use std::alloc::Global;
use std::fs::OpenOptions;
use std::io;
use std::io::{ErrorKind, Read, Write};
use std::os::unix::fs::OpenOptionsExt;

/// Reads the first `most` bytes of a file that was opened, or all of them where there are fewer.
pub(crate) fn read_opened<R: Read + Drop>(
    opened: io::Result<R>,
    alloc: Global,
    most: usize,
) -> Result<Vec<u8>, ShelfStop>
    ensures at_most { IfOk result (λ bytes. vec_len bytes ≤ most) }
    ensures content { IfOk result (λ bytes. IfOk opened
        (λ from. IfSome (R.remaining from) (λ left. bytes.items ≡ take most left))) }
    ensures absent { (result ≡ Err ShelfStop.Absent)
        ↔ IsErrAnd opened (λ error. error_kind error ≡ ErrorKind.NotFound) }
    ensures unopened { IfErr opened (λ error.
        error_kind error ≢ ErrorKind.NotFound → result ≡ Err ShelfStop.Failed) }
{
    match opened {
        Ok(from) => read_prefix(from, alloc, most),
        Err(error) => Err(open_stop(&error)),
    }
}

/// Why a file was not opened for reading.
fn open_stop(error: &io::Error) -> ShelfStop
    ensures absent { (result ≡ ShelfStop.Absent) ↔ (error_kind error.now ≡ ErrorKind.NotFound) }
    ensures failed { (result ≡ ShelfStop.Failed) ↔ (error_kind error.now ≢ ErrorKind.NotFound) }
{
    if error.kind() == ErrorKind::NotFound {
        ShelfStop::Absent
    } else {
        ShelfStop::Failed
    }
}

/// Reads the first `most` bytes that `from` has left, or all where there are fewer.
fn read_prefix<R: Read + Drop>(from: R, alloc: Global, most: usize) -> Result<Vec<u8>, ShelfStop>
    ensures at_most { IfOk result (λ bytes. vec_len bytes ≤ most) }
    ensures content { IfOk result
        (λ bytes. IfSome (R.remaining from) (λ left. bytes.items ≡ take most left)) }
    ensures not_absent { result ≢ Err ShelfStop.Absent }
{
    let mut bytes = Vec::new(alloc);
    match from.take(most as u64).read_to_end(&mut bytes) {
        Ok(_) => {
            // `take` gives no more than `most` bytes, so this drops none: it is the proof of the
            // bound, which `read_to_end` does not state.
            bytes.truncate(most);
            Ok(bytes)
        }
        Err(error) => Err(read_stop(&error)),
    }
}

fn read_stop(error: &io::Error) -> ShelfStop
    ensures no_memory { (result ≡ ShelfStop.NoMemory)
        ↔ (error_kind error.now ≡ ErrorKind.OutOfMemory) }
    ensures failed { (result ≡ ShelfStop.Failed)
        ↔ (error_kind error.now ≢ ErrorKind.OutOfMemory) }
{
    if error.kind() == ErrorKind::OutOfMemory {
        ShelfStop::NoMemory
    } else {
        ShelfStop::Failed
    }
}

/// Writes all of `bytes` to a file that was created, and flushes.
pub(crate) fn write_created<W: Write>(
    created: &mut io::Result<W>,
    bytes: &[u8],
) -> Result<(), ShelfStop>
    ensures written { OnOk result (BothOk created.old created.new
        (λ old new. Appends (W.contents old) (W.contents new) bytes.now)) }
    ensures stopped { IfErr result (λ stop. stop ≡ ShelfStop.Failed) }
{
    match created {
        Ok(to) => match write_and_flush(to, bytes) {
            Ok(()) => Ok(()),
            Err(_) => Err(ShelfStop::Failed),
        },
        Err(_) => Err(ShelfStop::Failed),
    }
}

/// A new file, whose bytes can be brought to the disk.
pub(crate) trait Durable: Write {
    /// Its bytes that are on the disk, where they are known.
    ghost on_disk: { Self → Option (List ℕ) };

    /// Whether these may read, write and run it, where that is known.
    ghost has_mode: { Self → ℕ → Type 0 } = { λ _ _. Unit {0} };

    /// Sets who may read, write and run it.
    fn set_mode(&mut self, mode: u32) -> io::Result<()>
        ensures bytes { Keeps (Self.contents self.old) (Self.contents self.new) }
        ensures mode { OnOk result (has_mode self.new mode) };

    fn sync(&mut self) -> io::Result<()>
        ensures bytes { Keeps (Self.contents self.old) (Self.contents self.new) }
        ensures mode { (mode : ℕ) → has_mode self.old mode → has_mode self.new mode }
        ensures on_disk { OnOk result (on_disk self.new ≡ Self.contents self.new) };
}

/// How a new file is opened: it is created, and no file that is there is touched. Nobody may read it who may not read one of this mode.
pub(crate) fn new_file(mode: Option<u32>) -> OpenOptions
    ensures new { IsTrue (asks_create_new result) }
    ensures valid { IsValidOptions result }
{
    let mut how = OpenOptions::new();
    if let Some(mode) = mode {
        how.mode(mode);
    }
    how.write(true).create_new(true);
    how
}

/// How a file is opened to see whether it may be written: it has to be there, and keeps its bytes.
pub(crate) fn as_it_is() -> OpenOptions
    ensures { result ≡ with_write new_options true }
{
    let mut how = OpenOptions::new();
    how.write(true);
    how
}

/// The answer to the sync of a folder. A folder that may not be read cannot be synced, and not every file system does that.
pub(crate) fn folder_answer(answer: io::Result<()>) -> Result<(), ShelfStop>
    ensures failed { IfErr result (λ stop. stop ≡ ShelfStop.Failed) }
    ensures told { IfErr answer (λ error. IsErr result ⊎ ((error_kind error ≡ ErrorKind.PermissionDenied)
        ⊎ ((error_kind error ≡ ErrorKind.InvalidInput) ⊎ (error_kind error ≡ ErrorKind.Unsupported)))) }
    ensures done { OnOk answer (IsOk result) }
{
    match answer {
        Ok(()) => Ok(()),
        Err(error) => match error.kind() {
            ErrorKind::PermissionDenied | ErrorKind::InvalidInput | ErrorKind::Unsupported => Ok(
                (),
            ),
            _ => Err(ShelfStop::Failed),
        },
    }
}

/// Gives a file that was created new all of `bytes` and this mode, if any, and brings them to the disk.
pub(crate) fn store<W: Durable>(
    created: &mut io::Result<W>,
    mode: Option<u32>,
    bytes: &[u8],
) -> Result<(), NotStored>
    ensures stored { OnOk result (BothOk created.old created.new (λ old new.
        Appends (W.contents old) (W.contents new) bytes.now × (W.on_disk new ≡ W.contents new)
        × IfSome mode (λ mode. W.has_mode new mode))) }
    ensures taken { (result ≡ Err NotStored.Taken)
        ↔ IsErrAnd created.old (λ error. error_kind error ≡ ErrorKind.AlreadyExists) }
    ensures broken { (result ≡ Err NotStored.Broken) → IsOk created.old }
    ensures not_made { (result ≡ Err NotStored.NotMade) → IsErr created.old }
{
    match created {
        Ok(file) => match fill(file, mode, bytes) {
            Ok(()) => Ok(()),
            Err(_) => Err(NotStored::Broken),
        },
        Err(error) => Err(create_stop(error)),
    }
}

/// Why a new file was not created.
fn create_stop(error: &io::Error) -> NotStored
    ensures taken { (result ≡ NotStored.Taken)
        ↔ (error_kind error.now ≡ ErrorKind.AlreadyExists) }
    ensures not_broken { result ≢ NotStored.Broken }
{
    if error.kind() == ErrorKind::AlreadyExists {
        NotStored::Taken
    } else {
        NotStored::NotMade
    }
}

fn fill<W: Durable>(file: &mut W, mode: Option<u32>, bytes: &[u8]) -> Result<(), SinkStop>
    ensures { OnOk result (Appends (W.contents file.old) (W.contents file.new) bytes.now
        × (W.on_disk file.new ≡ W.contents file.new)
        × IfSome mode (λ mode. W.has_mode file.new mode)) }
{
    write_and_flush(file, bytes)?;
    if let Some(mode) = mode {
        if file.set_mode(mode).is_err() {
            return Err(SinkStop::Failed);
        }
    }
    if file.sync().is_err() {
        return Err(SinkStop::Failed);
    }
    Ok(())
}

/// Writes all of `bytes` and flushes. Where that fails, a prefix of them was written. A writer that takes none of the bytes left has failed.
pub(crate) fn write_and_flush<W: Write>(to: &mut W, bytes: &[u8]) -> Result<(), SinkStop>
    ensures written { OnOk result (Appends (W.contents to.old) (W.contents to.new) bytes.now) }
    ensures stopped { IfErr result (λ stop. (stop ≡ SinkStop.Failed)
        × AppendsPrefix (W.contents to.old) (W.contents to.new) bytes.now) }
{
    let mut left = bytes;
    for _ in 0..u64::MAX {
        if left.is_empty() {
            return match to.flush() {
                Ok(()) => Ok(()),
                Err(_) => Err(SinkStop::Failed),
            };
        }
        match to.write(left) {
            Ok(0) => return Err(SinkStop::Failed),
            Ok(taken) => left = &left[taken..],
            Err(error) => {
                if error.kind() != ErrorKind::Interrupted {
                    return Err(SinkStop::Failed);
                }
            }
        }
    }
    Err(SinkStop::Failed)
}
