//! A file is replaced whole or not at all: the bytes go to a new file beside it, which gets its name once they are on the disk.
ghost use Rattle.std.specs.Prelude.{◌≡◌, ◌≢◌, ◌++◌, ◌∷◌, [], Some, Err, IfOk, codes, string_bytes};
ghost use Rattle.std.specs.Fmt.{decimal};
ghost use Rattle.gp_io.specs.Steps.{IsFree, IsPlain, IsOther};
ghost use Rattle.gp_io.specs.Whole.{IsBeside, Renames, Replaces, ReplacesPlain, ReplacesWhole, folder_of, or_here};

use crate::calls::Calls;
use crate::error::{NotStored, ShelfStop};
use crate::found::Found;
use std::alloc::{AllocError, Global};
use std::path::Path;

/// Replaces a file whole or not at all. What is no regular file takes the bytes as they come.
pub(crate) fn replace<C: Calls>(
    calls: &mut C,
    alloc: Global,
    name: &str,
    bytes: &[u8],
) -> Result<(), ShelfStop>
    ensures events { (C.trace calls.new).events ≡ (C.trace calls.old).events }
    ensures not_absent { result ≢ Err ShelfStop.Absent }
    ensures whole { ReplacesWhole name.now bytes.now (C.trace calls.old).steps (C.trace calls.new).steps result }
{
    match calls.look(alloc, name) {
        Ok(Found::Free) => replace_by_new(calls, alloc, name, None, bytes),
        Ok(Found::Plain(target, mode)) => replace_plain(calls, alloc, &target, mode, bytes),
        Ok(Found::Other) => calls.overwrite(name, bytes),
        Err(stop) => Err(stop),
    }
}

/// Replaces a regular file that may be written.
fn replace_plain<C: Calls>(
    calls: &mut C,
    alloc: Global,
    target: &str,
    mode: u32,
    bytes: &[u8],
) -> Result<(), ShelfStop>
    ensures events { (C.trace calls.new).events ≡ (C.trace calls.old).events }
    ensures not_absent { result ≢ Err ShelfStop.Absent }
    ensures plain { ReplacesPlain target.now mode bytes.now (C.trace calls.old).steps (C.trace calls.new).steps result }
{
    match calls.open(target) {
        Ok(()) => replace_by_new(calls, alloc, target, Some(mode), bytes),
        Err(_) => Err(ShelfStop::Failed),
    }
}

/// Stores the bytes in a new file beside the target, and gives it the target's name. Files that killed processes left have other names, and so have those of
/// others that run: the new one gets the first name that is free.
fn replace_by_new<C: Calls>(
    calls: &mut C,
    alloc: Global,
    target: &str,
    mode: Option<u32>,
    bytes: &[u8],
) -> Result<(), ShelfStop>
    ensures events { (C.trace calls.new).events ≡ (C.trace calls.old).events }
    ensures not_absent { result ≢ Err ShelfStop.Absent }
    ensures replaced { Replaces target.now mode bytes.now (C.trace calls.old).steps (C.trace calls.new).steps result }
{
    for number in 1..u64::MAX {
        let temporary = temporary_name(alloc, target, number)?;
        match calls.store(&temporary, mode, bytes) {
            Ok(()) => return rename_over(calls, &temporary, target),
            Err(NotStored::Taken) => (),
            Err(NotStored::NotMade) => return Err(ShelfStop::Failed),
            Err(NotStored::Broken) => {
                let _ = calls.remove(&temporary);
                return Err(ShelfStop::Failed);
            }
        }
    }
    Err(ShelfStop::Failed)
}

/// Gives the new file the name and syncs the folder, or removes the file.
fn rename_over<C: Calls>(calls: &mut C, temporary: &str, target: &str) -> Result<(), ShelfStop>
    ensures events { (C.trace calls.new).events ≡ (C.trace calls.old).events }
    ensures renamed { Renames temporary.now target.now (C.trace calls.old).steps (C.trace calls.new).steps result }
{
    match calls.rename(temporary, target) {
        Ok(()) => calls.sync(folder_of(target)),
        Err(_) => {
            let _ = calls.remove(temporary);
            Err(ShelfStop::Failed)
        }
    }
}

fn temporary_name(alloc: Global, target: &str, number: u64) -> Result<String, AllocError>
    ensures { IfOk result (λ name. string_bytes name
        ≡ (target.now ++ codes ".new") ++ decimal number) }
{
    let mut name = String::from_str(alloc, target)?;
    name.push_str(".new")?;
    let number = number.to_string(alloc)?;
    name.push_str(&number)?;
    Ok(name)
}

/// The folder in which a file is.
fn folder_of(target: &str) -> &str
    ensures { result.now ≡ folder_of target.now }
{
    match Path::new(target).parent() {
        Some(folder) => or_here(folder.as_str()),
        None => ".",
    }
}

/// A name in the folder in which the program runs has no folder.
fn or_here(folder: &str) -> &str
    ensures { result.now ≡ or_here (Some folder.now) }
{
    if folder.is_empty() { "." } else { folder }
}
