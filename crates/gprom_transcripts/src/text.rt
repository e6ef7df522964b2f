//! The bytes of text lines: their forms in braces, and repeated lines.

use crate::directive::{Directive, DirectiveLine, Marker};
use crate::report::Failure;
use itoa::Buffer;
use std::alloc::{AllocError, Global};

/// Appends a number.
fn push_number(number: u64, bytes: &mut Vec<u8>) -> Result<(), AllocError> {
    bytes.extend_from_slice(Buffer::new().format(number).as_bytes())
}

/// The byte of two hexadecimal digits.
fn byte_of(pair: &[u8]) -> Option<u8> {
    match (pair, str::from_utf8(pair)) {
        ([_, _], Ok(digits)) => u8::from_str_radix(digits, 16).ok(),
        _ => None,
    }
}

/// Appends bytes in hexadecimal, and tells whether they are such.
fn push_hexadecimal(digits: &[u8], bytes: &mut Vec<u8>) -> Result<bool, AllocError> {
    for pair in digits.chunks(2) {
        match byte_of(pair) {
            Some(byte) => bytes.push(byte)?,
            None => return Ok(false),
        }
    }
    Ok(true)
}

/// Appends a text, with this number in place of each `#`.
fn push_numbered(text: &[u8], number: u64, bytes: &mut Vec<u8>) -> Result<(), AllocError> {
    for part in text.split_inclusive(|byte| *byte == b'#') {
        match part {
            [part @ .., b'#'] => {
                bytes.extend_from_slice(part)?;
                push_number(number, bytes)?;
            }
            _ => bytes.extend_from_slice(part)?,
        }
    }
    Ok(())
}

/// Appends a text this many times. One byte many times is what long files are made of.
fn push_times(text: &[u8], times: usize, bytes: &mut Vec<u8>) -> Result<(), AllocError> {
    match text {
        [byte] => bytes.resize(bytes.len().saturating_add(times), *byte),
        _ => {
            for _ in 0..times {
                bytes.extend_from_slice(text)?;
            }
            Ok(())
        }
    }
}

/// Appends a text as often as `count` says, and tells whether it says that.
fn push_counted(count: &str, text: &[u8], bytes: &mut Vec<u8>) -> Result<bool, AllocError> {
    match count.split_once("..") {
        Some((first, last)) => match (first.parse::<u64>(), last.parse::<u64>()) {
            (Ok(first), Ok(last)) => {
                for number in first..=last {
                    push_numbered(text, number, bytes)?;
                }
                Ok(true)
            }
            _ => Ok(false),
        },
        None => match count.parse::<usize>() {
            Ok(times) => {
                push_times(text, times, bytes)?;
                Ok(true)
            }
            Err(_) => Ok(false),
        },
    }
}

/// What stands before and behind the first such byte.
fn cut(text: &[u8], byte: u8) -> Option<(&[u8], &[u8])> {
    let at = text.iter().position(|it| *it == byte)?;
    Some((text.get(..at)?, text.get(at.saturating_add(1)..)?))
}

/// Appends what the text between two braces stands for, and tells whether it is a form.
fn push_form(form: &[u8], bytes: &mut Vec<u8>) -> Result<bool, AllocError> {
    match cut(form, b' ') {
        Some((b"x", digits)) => push_hexadecimal(digits, bytes),
        Some((count, text)) => match str::from_utf8(count) {
            Ok(count) => push_counted(count, text, bytes),
            Err(_) => Ok(false),
        },
        None => Ok(false),
    }
}

/// Appends what begins with a brace or `#`, and gives what comes behind it, or none where that is no form.
fn push_special<'a>(
    text: &'a [u8],
    number: Option<u64>,
    bytes: &mut Vec<u8>,
) -> Result<Option<&'a [u8]>, AllocError> {
    match text {
        [] => Ok(Some(text)),
        [b'{', b'{', rest @ ..] | [b'}', b'}', rest @ ..] => {
            bytes.extend_from_slice(text.get(..1).unwrap_or(text))?;
            Ok(Some(rest))
        }
        [b'#', rest @ ..] => {
            match number {
                Some(number) => push_number(number, bytes)?,
                None => bytes.push(b'#')?,
            }
            Ok(Some(rest))
        }
        [b'{', rest @ ..] => match cut(rest, b'}') {
            Some((form, rest)) if push_form(form, bytes)? => Ok(Some(rest)),
            _ => Ok(None),
        },
        _ => Ok(None),
    }
}

/// Appends the bytes of a text, and tells whether it is one.
fn push_text(text: &[u8], number: Option<u64>, bytes: &mut Vec<u8>) -> Result<bool, AllocError> {
    let mut rest = text;
    // Each round takes a byte at least.
    for _ in text {
        let plain = rest
            .iter()
            .position(|byte| matches!(byte, b'{' | b'}' | b'#'))
            .unwrap_or(rest.len())
            .min(rest.len());
        let (plain, special) = rest.split_at(plain);
        bytes.extend_from_slice(plain)?;
        match push_special(special, number, bytes)? {
            Some(behind) => rest = behind,
            None => return Ok(false),
        }
        if rest.is_empty() {
            break;
        }
    }
    Ok(true)
}

/// Appends the bytes of a text line, which has a line feed unless it ends with `{end}`, and tells whether it is one.
fn push_line(text: &[u8], number: Option<u64>, bytes: &mut Vec<u8>) -> Result<bool, AllocError> {
    match text.strip_suffix(b"{end}") {
        Some(text) => push_text(text, number, bytes),
        None => {
            let is_text = push_text(text, number, bytes)?;
            bytes.push(b'\n')?;
            Ok(is_text)
        }
    }
}

/// The bytes of the text lines of one marker.
#[derive(Drop)]
pub(crate) struct Expansion {
    marker: Marker,
    pub(crate) bytes: Vec<u8>,
    /// How many lines of the input there were.
    pub(crate) input_lines: u64,
    sought: usize,
    /// The line of the transcript that has the sought byte, or 0 before there are bytes.
    pub(crate) line: usize,
}

impl Expansion {
    /// Appends a text line, and tells whether it is one.
    fn push(&mut self, text: &[u8], number: Option<u64>) -> Result<bool, AllocError> {
        match text {
            [b'@', text @ ..] if self.marker == Marker::Output => {
                push_number(self.input_lines, &mut self.bytes)?;
                push_line(text, number, &mut self.bytes)
            }
            _ => push_line(text, number, &mut self.bytes),
        }
    }

    /// Appends the text lines of the marker among these.
    fn push_lines(
        &mut self,
        lines: &[DirectiveLine<'_>],
        number: Option<u64>,
    ) -> Result<(), Failure> {
        for line in lines {
            if let Directive::Text(marker, text) = line.directive {
                if marker == Marker::Input {
                    self.input_lines = self.input_lines.saturating_add(1);
                }
                if marker == self.marker {
                    if self.bytes.len() <= self.sought {
                        self.line = line.number;
                    }
                    if !self.push(text, number)? {
                        return Err(Failure::At(line.number, "no form in braces"));
                    }
                }
            }
        }
        Ok(())
    }

    /// Appends lines of which the first may be `Repeat`.
    fn push_part(&mut self, lines: &[DirectiveLine<'_>]) -> Result<(), Failure> {
        if let Some(first) = lines.first()
            && let Directive::Repeat(first, last) = first.directive
        {
            for number in first..last.saturating_add(1) {
                self.push_lines(lines, Some(number))?;
            }
            return Ok(());
        }
        self.push_lines(lines, None)
    }
}

/// The bytes of the text lines of this marker, and the line of the transcript that has the sought byte.
pub(crate) fn expanded(
    alloc: Global,
    lines: &[DirectiveLine<'_>],
    marker: Marker,
    sought: usize,
) -> Result<Expansion, Failure> {
    let mut expansion = Expansion {
        marker,
        bytes: Vec::new(alloc),
        input_lines: 0,
        sought,
        line: 0,
    };
    for part in lines.chunk_by(|_, next| !matches!(
        next.directive,
        Directive::Repeat(_, _) | Directive::Again
    )) {
        expansion.push_part(part)?;
    }
    Ok(expansion)
}
