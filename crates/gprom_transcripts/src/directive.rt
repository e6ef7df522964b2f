//! The directives of a transcript: what one line says.

/// More calls of the files, and more writes, than those of which a transcript speaks.
pub(crate) const LAST_CALL: u16 = 1000;

/// What a text line is a line of.
#[derive(Clone, Copy, PartialEq, Eq)]
pub(crate) enum Marker {
    /// `|`: a file.
    File,
    /// `<`: the file that a call reads its lines from.
    Input,
    /// `>`: the output of a call.
    Output,
}

/// What the output of a call, or a file behind it, has to be.
#[derive(Clone, Copy)]
pub(crate) enum Shown<'a> {
    /// What the text lines show.
    Lines,
    /// The bytes of this real file.
    File(&'a str),
    /// A beginning of this real file.
    BeginningOf(&'a str),
    /// What it was before.
    AsBefore,
    /// There is no such file.
    Absent,
    /// Anything.
    Unchecked,
}

/// What one line of a transcript says.
#[derive(Clone, Copy)]
pub(crate) enum Directive<'a> {
    /// The file of this name has the text lines below.
    Given(&'a str),
    /// The file of the first name has the bytes of the real file of the second.
    GivenFrom(&'a str, &'a str),
    /// The file is as it was given, with the text lines below in place of this line of it, or behind that line where it is kept.
    Alter(&'a str, usize, bool),
    /// A call with these words.
    Call(&'a str),
    /// A text line.
    Text(Marker, &'a [u8]),
    /// What the call has to write.
    Output(Shown<'a>),
    /// The status with which the call has to end.
    Status(u8),
    /// What the file of this name has to hold after the call.
    After(&'a str, Shown<'a>),
    /// The call of the files that fails, counted from 1.
    FailFiles(u16),
    /// The write to the output that fails, counted from 1.
    FailWrite(u16),
    /// How often the call writes to the output.
    Writes(u16),
    /// The text lines up to `Again` stand for each number from the first to the last.
    Repeat(u64, u64),
    /// The end of `Repeat`.
    Again,
}

/// A line with a directive.
#[derive(Clone, Copy)]
pub(crate) struct DirectiveLine<'a> {
    /// Its number in the transcript, from 1.
    pub(crate) number: usize,
    pub(crate) directive: Directive<'a>,
}

impl DirectiveLine<'_> {
    /// Whether a file is given or altered here, or a call begins.
    pub(crate) fn begins_step(&self) -> bool {
        matches!(
            self.directive,
            Directive::Given(_)
                | Directive::GivenFrom(_, _)
                | Directive::Alter(_, _, _)
                | Directive::Call(_)
        )
    }

    /// Whether something that a call wrote, its status or a file is checked here.
    pub(crate) fn is_check(&self) -> bool {
        match self.directive {
            Directive::Text(Marker::Output, _) | Directive::After(_, _) | Directive::Writes(_) =>
                true,
            Directive::Output(Shown::Unchecked) => false,
            Directive::Output(_) => true,
            Directive::Status(status) => status != 0,
            _ => false,
        }
    }
}

pub(crate) fn directive_of(line: &str) -> Option<Directive<'_>> {
    let (word, rest) = line.split_once(' ').unwrap_or((line, ""));
    match word {
        "|" => Some(Directive::Text(Marker::File, rest.as_bytes())),
        "<" => Some(Directive::Text(Marker::Input, rest.as_bytes())),
        ">" => Some(Directive::Text(Marker::Output, rest.as_bytes())),
        "$" => Some(Directive::Call(rest)),
        _ => directive_in_words(word, rest),
    }
}

fn directive_in_words<'a>(word: &str, rest: &'a str) -> Option<Directive<'a>> {
    match word {
        "given" => given(rest),
        "alter" => alter(rest),
        "output" => output(rest),
        "status" => Some(Directive::Status(rest.parse::<u8>().ok()?)),
        "after" => after(rest),
        "fail" => fail(rest),
        "writes" => Some(Directive::Writes(call_number(rest)?)),
        "repeat" => repeat(rest),
        "again" if rest.is_empty() => Some(Directive::Again),
        _ => None,
    }
}

/// A name, which has no blanks.
fn name(text: &str) -> Option<&str> {
    (!text.is_empty() && !text.as_bytes().contains(&b' ')).then_some(text)
}

fn given(rest: &str) -> Option<Directive<'_>> {
    match rest.split_once(" from ") {
        Some((file, from)) => Some(Directive::GivenFrom(name(file)?, name(from)?)),
        None => Some(Directive::Given(name(rest)?)),
    }
}

fn alter(rest: &str) -> Option<Directive<'_>> {
    let (file, place) = rest.split_once(' ')?;
    let (is_kept, place) = match place.strip_prefix("after ") {
        Some(place) => (true, place),
        None => (false, place),
    };
    Some(Directive::Alter(file, place.parse::<usize>().ok()?, is_kept))
}

fn output(rest: &str) -> Option<Directive<'_>> {
    let shown = match rest {
        "as before" => Shown::AsBefore,
        "unchecked" => Shown::Unchecked,
        _ => Shown::File(name(rest)?),
    };
    Some(Directive::Output(shown))
}

fn after(rest: &str) -> Option<Directive<'_>> {
    let (file, shown) = rest.split_once(' ').unwrap_or((rest, ""));
    Some(Directive::After(name(file)?, shown_by(shown)?))
}

fn shown_by(words: &str) -> Option<Shown<'_>> {
    let (word, file) = words.split_once(' ').unwrap_or((words, ""));
    match word {
        "" => Some(Shown::Lines),
        "absent" if file.is_empty() => Some(Shown::Absent),
        "as" if file == "before" => Some(Shown::AsBefore),
        "from" => Some(Shown::File(name(file)?)),
        "begins" => Some(Shown::BeginningOf(name(file)?)),
        _ => None,
    }
}

/// The number of a call that can be counted.
fn call_number(text: &str) -> Option<u16> {
    let call = text.parse::<u16>().ok()?;
    (0 < call && call < LAST_CALL).then_some(call)
}

fn fail(rest: &str) -> Option<Directive<'_>> {
    let (what, call) = rest.split_once(' ')?;
    let call = call_number(call)?;
    match what {
        "read" | "replace" => Some(Directive::FailFiles(call)),
        "write" => Some(Directive::FailWrite(call)),
        _ => None,
    }
}

fn repeat(rest: &str) -> Option<Directive<'_>> {
    let (first, last) = rest.split_once(' ')?;
    Some(Directive::Repeat(first.parse::<u64>().ok()?, last.parse::<u64>().ok()?))
}
