//! Every line of a transcript has an effect: a call names each file that is given, and a call has one output, one status and one number of writes.

use crate::directive::{Directive, DirectiveLine};
use crate::report::Failure;

/// Whether a call with these words names this file.
fn names(words: &str, file: &str) -> bool {
    words.split(' ').any(|word| word == file)
}

/// Whether a call among the lines below names this file, before it is given anew. Where `is_given`, a line that alters it has it too.
fn is_read(file: &str, is_given: bool, below: &[DirectiveLine<'_>]) -> bool {
    for line in below {
        match line.directive {
            Directive::Call(words) if names(words, file) => return true,
            Directive::Alter(other, _, _) if other == file => return is_given,
            Directive::Given(other) | Directive::GivenFrom(other, _) if other == file => {
                return false;
            }
            _ => (),
        }
    }
    false
}

/// Whether two lines of a call say the same of it.
fn is_same_check(one: &Directive<'_>, other: &Directive<'_>) -> bool {
    match (one, other) {
        (Directive::Output(_), Directive::Output(_))
        | (Directive::Status(_), Directive::Status(_))
        | (Directive::Writes(_), Directive::Writes(_)) => true,
        _ => false,
    }
}

/// Whether a line of the same call, among those below, says the same of it.
fn is_said_again(directive: &Directive<'_>, below: &[DirectiveLine<'_>]) -> bool {
    below
        .iter()
        .take_while(|line| !line.begins_step())
        .any(|line| is_same_check(directive, &line.directive))
}

/// Why a line has no effect, by the lines below it, or none where it has one.
fn fault_of(directive: &Directive<'_>, below: &[DirectiveLine<'_>]) -> Option<&'static str> {
    match *directive {
        Directive::Given(file) | Directive::GivenFrom(file, _) if !is_read(file, true, below) => {
            Some("no call names the file")
        }
        Directive::Alter(file, _, _) if !is_read(file, false, below) => {
            Some("no call names the file")
        }
        Directive::Output(_) | Directive::Status(_) | Directive::Writes(_)
            if is_said_again(directive, below) => { Some("the call has another such line") }
        _ => None,
    }
}

/// Fails at the first line that has no effect.
pub(crate) fn check_effects(lines: &[DirectiveLine<'_>]) -> Result<(), Failure> {
    for (at, line) in lines.iter().enumerate() {
        let below = lines.get(at.saturating_add(1)..).unwrap_or(lines);
        if let Some(fault) = fault_of(&line.directive, below) {
            return Err(Failure::At(line.number, fault));
        }
    }
    Ok(())
}
