//! What stands under a name.
ghost use Rattle.std.specs.Prelude.{◌≡◌, ◌≢◌, ℕ, true, false, String, Ok, Err, Some, None, IfOk, IfErr, IsOk, IsErrAnd, bit_and, string_bytes};
ghost use Rattle.std.specs.Global.{Global};
ghost use Rattle.std.specs.Fs.{metadata_mode};
ghost use Rattle.std.specs.IoError.{error_kind};
ghost use Rattle.std.specs.Path.{path_buf_bytes};
ghost use Rattle.gp_io.specs.FoundFile.{IsLink, IsRegular, begins_with, is_lent};

use crate::error::ShelfStop;
use std::alloc::Global;
use std::fs::Metadata;
use std::io;
use std::io::ErrorKind;
use std::os::unix::fs::PermissionsExt;
use std::path::PathBuf;

/// The bits of a mode that a new file gets: who may read, write and run it, but not as its owner, who may be another one.
const PERMISSIONS: u32 = 0o777;

/// What stands under a name.
#[derive(Drop)]
pub(crate) enum Found {
    /// Nothing.
    Free,
    /// A regular file: its name, to which a link leads, and who may read, write and run it.
    Plain(String, u32),
    /// Something else, or a link that leads to nothing.
    Other,
}

/// By the metadata of the entry, those of the file to which it leads, and that file's path.
pub(crate) fn classify(
    alloc: Global,
    name: &str,
    entry: io::Result<Metadata>,
    file: io::Result<Metadata>,
    path: io::Result<PathBuf>,
) -> Result<Found, ShelfStop>
    ensures free { result ≡ Ok Found.Free
        → IsErrAnd entry (λ error. error_kind error ≡ ErrorKind.NotFound) }
    ensures other { result ≡ Ok Found.Other → IsOk entry × (IsRegular file → ⊥) }
    ensures regular { (target : String Global) (mode : ℕ) → result ≡ Ok (Found.Plain target mode)
        → IsRegular file }
    ensures mode { (target : String Global) (mode : ℕ) → result ≡ Ok (Found.Plain target mode)
        → IfOk file (λ file. mode ≡ bit_and (metadata_mode file) 0o777) }
    ensures itself { (target : String Global) (mode : ℕ) → result ≡ Ok (Found.Plain target mode)
        → (IsLink entry → ⊥) → string_bytes target ≡ name.now }
    ensures linked { (target : String Global) (mode : ℕ) → result ≡ Ok (Found.Plain target mode)
        → IsLink entry → IfOk path (λ path. string_bytes target ≡ path_buf_bytes path) }
    ensures not_lent { (target : String Global) (mode : ℕ) → result ≡ Ok (Found.Plain target mode)
        → IsLink entry → is_lent name.now ≡ false }
    ensures not_absent { result ≢ Err ShelfStop.Absent }
{
    match entry {
        Ok(entry) => match regular_mode(file) {
            Ok(Some(mode)) => match target_of(alloc, name, entry.is_symlink(), path) {
                Ok(target) => Ok(Found::Plain(target, mode)),
                Err(stop) => Err(stop),
            },
            Ok(None) => Ok(Found::Other),
            Err(stop) => Err(stop),
        },
        Err(error) => {
            if error.kind() == ErrorKind::NotFound {
                Ok(Found::Free)
            } else {
                Err(ShelfStop::Failed)
            }
        }
    }
}

/// The name of the file itself. One that a process has open is not replaced: what is written to it later would go to the old file.
fn target_of(
    alloc: Global,
    name: &str,
    is_link: bool,
    path: io::Result<PathBuf>,
) -> Result<String, ShelfStop>
    ensures itself { is_link ≡ false → IfOk result (λ target. string_bytes target ≡ name.now) }
    ensures linked { is_link ≡ true → IfOk result (λ target.
        IfOk path (λ path. string_bytes target ≡ path_buf_bytes path)) }
    ensures not_lent { is_link ≡ true → IsOk result → is_lent name.now ≡ false }
    ensures not_absent { result ≢ Err ShelfStop.Absent }
{
    if !is_link {
        return Ok(String::from_str(alloc, name)?);
    }
    match path {
        Ok(path) if !is_lent(name) => Ok(path.into_string()),
        Err(error) if error.kind() == ErrorKind::OutOfMemory => Err(ShelfStop::NoMemory),
        _ => Err(ShelfStop::Failed),
    }
}

/// Who may read, write and run a regular file; `None` where it is something else, or nothing.
fn regular_mode(file: io::Result<Metadata>) -> Result<Option<u32>, ShelfStop>
    ensures regular { (mode : ℕ) → result ≡ Ok (Some mode) → IsRegular file }
    ensures mode { (mode : ℕ) → result ≡ Ok (Some mode)
        → IfOk file (λ file. mode ≡ bit_and (metadata_mode file) 0o777) }
    ensures other { result ≡ Ok None → IsRegular file → ⊥ }
    ensures failed { IfErr result (λ stop. stop ≡ ShelfStop.Failed) }
{
    match file {
        Ok(file) => {
            if file.is_file() {
                Ok(Some(file.permissions().mode() & PERMISSIONS))
            } else {
                Ok(None)
            }
        }
        Err(error) => {
            if error.kind() == ErrorKind::NotFound {
                Ok(None)
            } else {
                Err(ShelfStop::Failed)
            }
        }
    }
}

/// Whether a link of this name leads to a file that a process has open.
fn is_lent(name: &str) -> bool
    ensures { result ≡ is_lent name.now }
{
    begins_with(b"/dev/", name.as_bytes()) || begins_with(b"/proc/", name.as_bytes())
}

fn begins_with(words: &[u8], text: &[u8]) -> bool
    ensures { result ≡ begins_with words.now text.now }
{
    text.starts_with(words)
}
