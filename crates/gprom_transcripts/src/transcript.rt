//! A transcript: its directives, each where it may stand.

use crate::directive::{Directive, DirectiveLine, Marker, Shown, directive_of};
use crate::report::Failure;
use std::alloc::Global;

/// What the next line may be.
#[derive(Clone, Copy)]
struct Place {
    /// A line of a call.
    in_call: bool,
    /// A text line of a file.
    in_file: bool,
    /// A text line of a repeated part, and no other.
    in_repeat: bool,
}

impl Place {
    /// The place behind this directive, if that may stand here.
    fn behind(self, directive: &Directive<'_>) -> Option<Place> {
        let (in_call, in_file, in_repeat) = match directive {
            Directive::Text(Marker::File, _) if self.in_file => (
                self.in_call,
                true,
                self.in_repeat,
            ),
            Directive::Text(Marker::File, _) => return None,
            Directive::Text(_, _) if self.in_call => (true, false, self.in_repeat),
            Directive::Again if self.in_repeat => (self.in_call, self.in_file, false),
            _ if self.in_repeat => return None,
            Directive::Repeat(_, _) if self.in_call || self.in_file => {
                (self.in_call, self.in_file, true)
            }
            Directive::Given(_) | Directive::Alter(_, _, _) => (false, true, false),
            Directive::GivenFrom(_, _) => (false, false, false),
            Directive::Call(_) => (true, false, false),
            Directive::After(_, Shown::Lines) if self.in_call => (true, true, false),
            Directive::After(_, _)
            | Directive::Output(_)
            | Directive::Status(_)
            | Directive::FailFiles(_)
            | Directive::FailWrite(_)
            | Directive::Writes(_)
                if self.in_call => { (true, false, false) }
            _ => return None,
        };
        Some(Place {
            in_call,
            in_file,
            in_repeat,
        })
    }
}

/// The directives of a transcript, behind its first empty line. The first one begins a step, and no repeated part is left open.
pub(crate) fn lines_of<'a>(
    alloc: Global,
    text: &'a str,
) -> Result<Vec<DirectiveLine<'a>>, Failure> {
    let mut lines = Vec::new(alloc);
    let mut place = Place {
        in_call: false,
        in_file: false,
        in_repeat: false,
    };
    let mut number: usize = 0;
    let mut is_prose = true;
    for line in text.split_terminator('\n') {
        number = number.saturating_add(1);
        if is_prose {
            is_prose = !line.is_empty();
        } else if !line.is_empty() && !line.starts_with('#') {
            let Some(directive) = directive_of(line) else {
                return Err(Failure::At(number, "no directive"));
            };
            let Some(behind) = place.behind(&directive) else {
                return Err(Failure::At(number, "a directive out of place"));
            };
            place = behind;
            lines.push(DirectiveLine { number, directive })?;
        }
    }
    if place.in_repeat || !text.ends_with('\n') {
        return Err(Failure::At(number, "no end of a line or a repeated part"));
    }
    Ok(lines)
}
