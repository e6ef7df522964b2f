//! The lines of a script that get a reply.

ghost use Rattle.std.specs.Prelude.{◌≡◌, ◌==◌, ◌-◌, ◌^◌, ◌<◌, ◌≤◌, ◌∷◌, length};
ghost use Rattle.std.specs.List.{position_or_len};
ghost use Rattle.std.specs.Iterator.{YieldsFirstBy, item_count};
ghost use Rattle.std.specs.List.Sorted.{IsStrictlyIncreasing};
ghost use Rattle.std.specs.Str.Lines.{lines, strip_carriage_return};
ghost use Rattle.gp_syntax.specs.Lines.{script_lines, is_blank_or_comment, is_answered};
ghost use Rattle.gp_lexer.specs.Lexing.{is_blank};
ghost use Rattle.gp_syntax.specs.LineForms.{numbers_of};

use gp_grammar::MAX_LINE_LENGTH;
use std::marker::Model;

const LINE_FEED: u8 = b'\n';

const CARRIAGE_RETURN: u8 = b'\r';

/// Whether the byte is a space or a tab.
fn is_blank(byte: u8) -> bool
    ensures { result ≡ is_blank byte }
{
    byte == b' ' || byte == b'\t'
}

/// Whether the line has spaces and tabs alone, or `--` after them.
fn is_blank_or_comment(line: &[u8]) -> bool
    ensures { result ≡ is_blank_or_comment line.now }
{
    let mut rest = line;
    while let [first, others @ ..] = rest {
        if !is_blank(*first) {
            return rest.starts_with(b"--");
        }
        rest = others;
    }
    true
}

/// Whether the line gets a reply. A line that is too long gets one without a look at its bytes.
fn is_answered(line: &[u8]) -> bool
    ensures { result ≡ is_answered line.now }
{
    !(line.len() <= MAX_LINE_LENGTH && is_blank_or_comment(line))
}

/// The bytes without the one carriage return at their end, if there is one.
fn strip_carriage_return(line: &[u8]) -> &[u8]
    ensures { result.now ≡ strip_carriage_return line.now }
{
    match line {
        [prefix @ .., CARRIAGE_RETURN] => prefix,
        _ => line,
    }
}

/// The number of bytes before the first line feed, or of all bytes.
fn line_len(bytes: &[u8]) -> usize
    ensures value { result ≡ position_or_len (λ byte. byte == LINE_FEED) bytes.now }
    ensures bound { result ≤ length bytes.now }
{
    bytes.iter().take_while(|byte| **byte != LINE_FEED).count()
}

/// The first line, and the bytes after its end.
fn split_line(bytes: &[u8]) -> (&[u8], &[u8])
    requires { 0 < length bytes.now }
    ensures lines { lines bytes.now ≡ result.0.now ∷ lines result.1.now }
    ensures shorter { length result.1.now < length bytes.now }
{
    let end = line_len(bytes);
    if end < bytes.len() {
        (strip_carriage_return(&bytes[..end]), &bytes[end + 1..])
    } else {
        (bytes, &[])
    }
}

/// A line of a script.
#[derive(Clone, Copy)]
pub struct Line<'a> {
    /// The line's number in the script, from 1.
    pub number: u32,
    /// The line's bytes, without its line feed and the carriage return before that.
    pub bytes: &'a [u8],
}

/// The remaining lines of a script that get a reply. [`lines`] makes it.
#[derive(Drop)]
pub struct LineIter<'a> {
    rest: &'a [u8],
    number: u32,
}

impl<'a> Model for LineIter<'a> {
    ghost use Rattle.std.specs.Prelude.{List, ℕ, ◌+◌, ◌<◌, ◌^◌, length};
    ghost use Rattle.gp_syntax.specs.Lines.{answered_from};

    ghost Value = { List (ℕ × List ℕ) };

    ghost view = { λ a. answered_from a.number a.rest.now };

    ghost invariant = { λ a. a.number + length a.rest.now < 2 ^ 32 };
}

impl<'a> Iterator for LineIter<'a> {
    type Item = Line<'a>;

    ghost next_gives = { YieldsFirstBy (λ line. (line.number, line.bytes.now)) (λ lines. lines) };

    ghost remaining = { item_count (λ lines. lines) };

    fn next(&mut self) -> Option<Line<'a>> {
        while !self.rest.is_empty() {
            let (bytes, rest) = split_line(self.rest);
            let number = self.number;
            self.rest = rest;
            self.number += 1;
            if is_answered(bytes) {
                return Some(Line { number, bytes });
            }
        }
        None
    }
}

/// The lines of a script that get a reply, in order, each with its number. Every line is counted, from 1.
///
/// A line ends at a line feed, and one carriage return directly before it belongs to the line's end. The last line may lack its line feed,
/// and then keeps a carriage return. A line of at most [`MAX_LINE_LENGTH`] bytes gets no reply if it is blank (spaces and tabs alone)
/// or a comment (`--` after any spaces and tabs).
pub fn lines(bytes: &[u8]) -> LineIter<'_>
    // Each number fits 32 bits, and so does the next one.
    requires { length bytes.now < 2 ^ 32 - 1 }
    ensures lines { result ≡ script_lines bytes.now }
    ensures increasing { IsStrictlyIncreasing (0 ∷ numbers_of result) }
{
    LineIter {
        rest: bytes,
        number: 1,
    }
}
