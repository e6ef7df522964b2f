//! The lines of a dump.

ghost use Rattle.std.specs.Prelude.{◌≡◌, ◌∷◌, ◌≤◌, ◌+◌, length};
ghost use Rattle.std.specs.Str.{bytes_eq};
ghost use Rattle.gp_dumpline.specs.Texts.{end_text};
ghost use Rattle.gp_dump.specs.Lines.{lines_of};
ghost use Rattle.gp_dump.specs.Reading.{behind, line_view, taken};

use gp_dumpline::END;

/// A line, and how it ends.
#[derive(Clone, Copy)]
pub enum DumpLine<'a> {
    /// The text in front of a line feed.
    Whole(&'a [u8]),
    /// The bytes behind the last line feed.
    Cut(&'a [u8]),
    /// There is nothing behind the last line feed.
    Missing,
}

/// The first line, and the bytes behind it.
#[tactic(auto, using(crate::proofs::LinesLemmas::first_lines))]
pub fn first_line(bytes: &[u8]) -> (DumpLine<'_>, &[u8])
    ensures lines { lines_of bytes.now
        ≡ line_view result.0 ∷ behind (line_view result.0) result.1.now }
    ensures shorter { length result.1.now + taken (line_view result.0) ≤ length bytes.now }
{
    let mut at = 0;
    while at < bytes.len() {
        if bytes[at] == b'\n' {
            return (DumpLine::Whole(&bytes[..at]), &bytes[at + 1..]);
        }
        at += 1;
    }
    if bytes.is_empty() {
        (DumpLine::Missing, bytes)
    } else {
        (DumpLine::Cut(bytes), &[])
    }
}

/// Whether the text is that of the last line.
pub fn is_end(text: &[u8]) -> bool
    ensures { result ≡ bytes_eq text.now end_text }
{
    text == END
}
