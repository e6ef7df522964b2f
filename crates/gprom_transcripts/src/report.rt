//! Why a transcript fails, and the line that says so.

use gp_io::Sink;
use itoa::Buffer;
use std::alloc::{AllocError, AllocFailed, Global};

/// The longest part of a line that is shown, in bytes.
const MOST_SHOWN: usize = 90;

/// Why a transcript fails.
#[derive(Drop)]
pub(crate) enum Failure {
    /// The whole of it.
    Whole(&'static str),
    /// The transcript, or a file, is not as it has to be at this line, counted from 1.
    At(usize, &'static str),
    /// What this line wants differs from what the call gave.
    Differs(usize, Vec<u8>),
}

/// Memory ran out.
pub(crate) const NO_MEMORY: Failure = Failure::Whole("out of memory");

impl From<AllocError> for Failure {
    fn from(_error: AllocError) -> Failure {
        NO_MEMORY
    }
}

impl<T: Drop> From<AllocFailed<T>> for Failure {
    fn from(_error: AllocFailed<T>) -> Failure {
        NO_MEMORY
    }
}

/// How many bytes two texts have in common at their beginnings.
pub(crate) fn common_length(wanted: &[u8], got: &[u8]) -> usize {
    wanted
        .iter()
        .zip(got)
        .take_while(|pair| pair.0 == pair.1)
        .count()
}

/// Appends the line of a text that has this byte, which is cut where it is long.
fn push_line_at(text: &[u8], at: usize, message: &mut Vec<u8>) -> Result<(), AllocError> {
    let mut end: usize = 0;
    for line in text.split_inclusive(|byte| *byte == b'\n') {
        end = end.saturating_add(line.len());
        if at < end {
            let line = line.strip_suffix(b"\n").unwrap_or(line);
            return message.extend_from_slice(line.get(..MOST_SHOWN).unwrap_or(line));
        }
    }
    message.extend_from_slice(b"no more")
}

/// The lines at the first byte in which two texts differ.
pub(crate) fn difference(alloc: Global, wanted: &[u8], got: &[u8]) -> Result<Vec<u8>, AllocError> {
    let at = common_length(wanted, got);
    let mut message = Vec::from_slice(alloc, b"wanted ")?;
    push_line_at(wanted, at, &mut message)?;
    message.extend_from_slice(b", got ")?;
    push_line_at(got, at, &mut message)?;
    Ok(message)
}

pub(crate) fn write_number<K: Sink>(text: &[u8], number: usize, out: &mut K) {
    let _ = out.write_all(text);
    let _ = out.write_all(Buffer::new().format(number).as_bytes());
}

/// Writes the line that says why this transcript fails.
pub(crate) fn write_failure<K: Sink>(name: &str, failure: &Failure, out: &mut K) {
    let _ = out.write_all(name.as_bytes());
    let (line, what) = match failure {
        Failure::Whole(what) => (None, what.as_bytes()),
        Failure::At(line, what) => (Some(*line), what.as_bytes()),
        Failure::Differs(line, what) => (Some(*line), what.as_slice()),
    };
    if let Some(line) = line {
        write_number(b" line ", line, out);
    }
    let _ = out.write_all(b": ");
    let _ = out.write_all(what);
    let _ = out.write_all(b"\n");
}
