//! Log lines.

ghost use Rattle.std.specs.Prelude.{◌≡◌, ◌≤◌, IfSome};
ghost use Rattle.std.specs.Option.{option_map};
ghost use Rattle.gp_dumpline.specs.Forms.{log_line_of};
ghost use Rattle.gp_dumpline.specs.Views.{line_view};

use crate::number::parse_number_up_to;
use crate::part::{behind_words, cut_at};
use gp_grammar::MAX_SESSION;
use gp_log::MAX_LINE;

/// A log line, cut into its parts.
#[derive(Clone, Copy)]
pub struct LogLine<'a> {
    /// The number of the line of the script, from 1 to [`MAX_LINE`].
    pub line: u32,
    /// Its session, from 1 to [`MAX_SESSION`].
    pub session: u32,
    /// What it says, which [`parse_said`](crate::parse_said) reads.
    pub said: &'a [u8],
}

/// The parts of a log line: `LINE sSESSION SAID`.
#[tactic(auto, unfolding(crate::specs::Forms::log_line_of))]
pub fn parse_log_line(text: &[u8]) -> Option<LogLine<'_>>
    ensures parts { option_map line_view result ≡ log_line_of text.now }
    ensures line { IfSome result (λ line. (1 ≤ line.line) × (line.line ≤ MAX_LINE)) }
    ensures session { IfSome result (λ line. (1 ≤ line.session) × (line.session ≤ MAX_SESSION)) }
{
    let (line, rest) = cut_at(b' ', text)?;
    let (session, said) = cut_at(b' ', rest)?;
    let line = parse_number_up_to(MAX_LINE, line)?;
    let session = parse_number_up_to(MAX_SESSION as u32, behind_words(b"s", session)?)?;
    if line == 0 || session == 0 {
        return None;
    }
    Some(LogLine {
        line,
        session,
        said,
    })
}
