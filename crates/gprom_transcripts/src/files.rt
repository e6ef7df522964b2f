//! Files by their names: those of a transcript, which are in memory, and real ones.

use crate::report::{Failure, NO_MEMORY};
use gp_io::{MemShelf, NamedFile, Shelf, ShelfStop};
use std::alloc::{AllocError, Global};

/// More than the greatest length of any file, in bytes.
const MOST: usize = 200_000_000;

/// The content of the file of this name, if there is one.
pub(crate) fn content<'a>(files: &'a [NamedFile], name: &str) -> Option<&'a [u8]> {
    files
        .iter()
        .find(|file| file.name.as_str() == name)
        .map(|file| file.bytes.as_slice())
}

/// Gives the file of this name these bytes.
pub(crate) fn put(
    alloc: Global,
    files: &mut Vec<NamedFile>,
    name: &str,
    bytes: &[u8],
) -> Result<(), AllocError> {
    let bytes = Vec::from_slice(alloc, bytes)?;
    match files.iter().position(|file| file.name.as_str() == name) {
        Some(at) if at < files.len() => {
            files[at].bytes = bytes;
        }
        _ => {
            let name = String::from_str(alloc, name)?;
            files.push(NamedFile { name, bytes })?;
        }
    }
    Ok(())
}

pub(crate) fn copies(alloc: Global, files: &[NamedFile]) -> Result<Vec<NamedFile>, AllocError> {
    let mut all = Vec::new(alloc);
    for file in files {
        put(alloc, &mut all, file.name.as_str(), &file.bytes)?;
    }
    Ok(all)
}

/// The bytes of a real file, which this line asks for.
pub(crate) fn real_file<H: Shelf>(
    real: &mut H,
    name: &str,
    line: usize,
) -> Result<Vec<u8>, Failure> {
    match real.read(name, MOST) {
        Ok(bytes) => Ok(bytes),
        Err(ShelfStop::NoMemory) => Err(NO_MEMORY),
        Err(ShelfStop::Absent | ShelfStop::Failed) => Err(Failure::At(line, "no such real file")),
    }
}

/// Adds the file of this name, if the shelf of a call has one. No further call of the shelf fails.
pub(crate) fn add_from(
    alloc: Global,
    shelf: &mut MemShelf,
    name: &str,
    files: &mut Vec<NamedFile>,
) -> Result<(), Failure> {
    match shelf.read(name, MOST) {
        Ok(bytes) => Ok(put(alloc, files, name, &bytes)?),
        Err(ShelfStop::Absent) => Ok(()),
        Err(ShelfStop::NoMemory | ShelfStop::Failed) => Err(NO_MEMORY),
    }
}

/// A file with `lines` in place of its line of this number, or behind that line where it is kept. None if it has no such line.
pub(crate) fn altered(
    alloc: Global,
    file: &[u8],
    number: usize,
    is_kept: bool,
    lines: &[u8],
) -> Result<Option<Vec<u8>>, AllocError> {
    let mut bytes = Vec::new(alloc);
    let mut count: usize = 0;
    for line in file.split_inclusive(|byte| *byte == b'\n') {
        count = count.saturating_add(1);
        if count != number || is_kept {
            bytes.extend_from_slice(line)?;
        }
        if count == number {
            bytes.extend_from_slice(lines)?;
        }
    }
    Ok((0 < number && number <= count).then_some(bytes))
}
