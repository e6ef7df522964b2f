//! The numbers of lines that a dump announces.

ghost use Rattle.std.specs.Prelude.{◌≡◌, ◌≤◌, IfSome};
ghost use Rattle.gp_dumpline.specs.Forms.{count_of, section_of};

use crate::number::parse_number_up_to;
use crate::part::behind_words;
use gp_base::MAX_SPANS;
use gp_log::MAX_ENTRIES;

/// The number of log lines that the text announces: `log N`, at most [`MAX_ENTRIES`].
pub fn parse_count(text: &[u8]) -> Option<u32>
    ensures count { result ≡ count_of text.now }
    ensures most { IfSome result (λ count. count ≤ MAX_ENTRIES) }
{
    parse_number_up_to(MAX_ENTRIES, behind_words(b"log ", text)?)
}

/// The number of row lines that the text announces for the table of this name: `table NAME N`, at most [`MAX_SPANS`].
pub fn parse_section(name: &[u8], text: &[u8]) -> Option<u32>
    ensures rows { result ≡ section_of name.now text.now }
    ensures most { IfSome result (λ rows. rows ≤ MAX_SPANS) }
{
    let named = behind_words(b"table ", text)?;
    let spaced = behind_words(name, named)?;
    parse_number_up_to(MAX_SPANS, behind_words(b" ", spaced)?)
}
