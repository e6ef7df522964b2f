//! The parts of a line.

ghost use Rattle.std.specs.Prelude.{◌≡◌, MatchOption, None, Some};
ghost use Rattle.gp_dumpline.specs.Numbers.{after_byte, behind_words, cut_at};

/// What is before the first such byte, and what is behind it.
pub(crate) fn cut_at(stop: u8, text: &[u8]) -> Option<(&[u8], &[u8])>
    ensures { MatchOption result (cut_at stop text.now ≡ None)
        (λ parts. cut_at stop text.now ≡ Some (parts.0.now, parts.1.now)) }
{
    for (i, byte) in text.iter().enumerate() {
        if *byte == stop {
            return Some((&text[..i], &text[i + 1..]));
        }
    }
    None
}

/// What is behind these words, where the text begins with them.
pub(crate) fn behind_words<'a>(words: &[u8], text: &'a [u8]) -> Option<&'a [u8]>
    ensures { MatchOption result (behind_words words.now text.now ≡ None)
        (λ rest. behind_words words.now text.now ≡ Some rest.now) }
{
    text.strip_prefix(words)
}

/// What is behind this byte, where the text begins with it.
pub(crate) fn after_byte(wanted: u8, text: &[u8]) -> Option<&[u8]>
    ensures { MatchOption result (after_byte wanted text.now ≡ None)
        (λ rest. after_byte wanted text.now ≡ Some rest.now) }
{
    match text {
        [first, rest @ ..] => { if *first == wanted { Some(rest) } else { None } }
        [] => None,
    }
}
