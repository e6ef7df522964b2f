//! What a call gave is compared with what the transcript shows.

use crate::directive::{DirectiveLine, Marker, Shown};
use crate::files::real_file;
use crate::report::{Failure, common_length, difference};
use crate::text::expanded;
use gp_io::Shelf;
use std::alloc::Global;

/// What the output of a call, or a file behind it, has to be.
#[derive(Clone, Copy)]
pub(crate) struct Check<'a> {
    pub(crate) alloc: Global,
    /// The line that says it.
    pub(crate) line: usize,
    pub(crate) shown: Shown<'a>,
    /// The lines that have its text lines, which have this marker.
    pub(crate) lines: &'a [DirectiveLine<'a>],
    pub(crate) marker: Marker,
}

impl Check<'_> {
    /// The bytes that are wanted, or none where there is to be no file.
    fn wanted<H: Shelf>(
        &self,
        before: Option<&[u8]>,
        real: &mut H,
    ) -> Result<Option<Vec<u8>>, Failure> {
        match (self.shown, before) {
            (Shown::Lines, _) => {
                Ok(Some(expanded(self.alloc, self.lines, self.marker, 0)?.bytes))
            }
            (Shown::File(file) | Shown::BeginningOf(file), _) => {
                Ok(Some(real_file(real, file, self.line)?))
            }
            (Shown::AsBefore, Some(before)) => Ok(Some(Vec::from_slice(self.alloc, before)?)),
            _ => Ok(None),
        }
    }

    /// The line of the transcript that has the byte in which the two differ, or that says what is wanted.
    fn line_of(&self, wanted: &[u8], got: &[u8]) -> Result<usize, Failure> {
        let at = common_length(wanted, got);
        if matches!(self.shown, Shown::Lines) && at < wanted.len() && at < got.len() {
            Ok(expanded(self.alloc, self.lines, self.marker, at)?.line)
        } else {
            Ok(self.line)
        }
    }

    fn compare(&self, wanted: &[u8], got: &[u8]) -> Result<(), Failure> {
        let wanted = match self.shown {
            Shown::BeginningOf(_) => wanted.get(..got.len()).unwrap_or(wanted),
            _ => wanted,
        };
        if wanted == got {
            return Ok(());
        }
        let line = self.line_of(wanted, got)?;
        Err(Failure::Differs(line, difference(self.alloc, wanted, got)?))
    }

    /// Fails unless the call gave what is wanted. `before` is what there was before it.
    pub(crate) fn run<H: Shelf>(
        &self,
        before: Option<&[u8]>,
        got: Option<&[u8]>,
        real: &mut H,
    ) -> Result<(), Failure> {
        if matches!(self.shown, Shown::Unchecked) {
            return Ok(());
        }
        match (self.wanted(before, real)?, got) {
            (None, None) => Ok(()),
            (Some(wanted), Some(got)) => self.compare(&wanted, got),
            (None, Some(_)) => Err(Failure::At(self.line, "the file exists")),
            (Some(_), None) => Err(Failure::At(self.line, "the file does not exist")),
        }
    }
}
