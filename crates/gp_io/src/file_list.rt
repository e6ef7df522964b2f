//! Finding a file by its name, and replacing its content.
ghost use Rattle.std.specs.Prelude.{◌≡◌, ◌≤◌, OnOk, OnErr, IfSome, length, take};
ghost use Rattle.std.specs.Option.{option_copied};
ghost use Rattle.std.specs.List.{position};
ghost use Rattle.gp_io.specs.Files.{content, prefix_of, Replaces};
ghost use Rattle.gp_io.specs.NamedFile.{files_of};
ghost use Rattle.gp_io.specs.Stored.{has_name};

use crate::named_file::NamedFile;
use std::alloc::{AllocError, Global};

/// The bytes of the first file of that name.
fn bytes_of<'a>(files: &'a [NamedFile], name: &str) -> Option<&'a [u8]>
    ensures { option_copied result ≡ content name.now (files_of files.now) }
{
    for file in files {
        if file.name.as_str() == name {
            return Some(file.bytes.as_slice());
        }
    }
    None
}

/// The first `most` bytes of the first file of that name.
pub(crate) fn prefix_of<'a>(files: &'a [NamedFile], name: &str, most: usize) -> Option<&'a [u8]>
    ensures prefix { option_copied result ≡ prefix_of name.now most (files_of files.now) }
    ensures at_most { IfSome result (λ bytes. length bytes.now ≤ most) }
{
    bytes_of(files, name).map(|bytes| prefix(bytes, most))
}

fn prefix(bytes: &[u8], most: usize) -> &[u8]
    ensures { result.now ≡ take most bytes.now }
{
    if most < bytes.len() {
        &bytes[..most]
    } else {
        bytes
    }
}

fn position_of(files: &[NamedFile], name: &str) -> Option<usize>
    ensures { result ≡ position (has_name name.now) files.now }
{
    files.iter().position(|file| file.name.as_str() == name)
}

/// Replaces the content of the first file of that name, or appends a new file.
pub(crate) fn put(
    alloc: Global,
    files: &mut Vec<NamedFile>,
    name: &str,
    bytes: &[u8],
) -> Result<(), AllocError>
    ensures ok { OnOk result
        (Replaces name.now bytes.now (files_of files.old.items) (files_of files.new.items)) }
    ensures err { OnErr result (files.new.items ≡ files.old.items) }
{
    let bytes = Vec::from_slice(alloc, bytes)?;
    match position_of(files, name) {
        Some(position) => {
            files[position].bytes = bytes;
        }
        None => {
            let name = String::from_str(alloc, name)?;
            files.push(NamedFile { name, bytes })?;
        }
    }
    Ok(())
}
