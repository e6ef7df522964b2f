//! The first line of a dump.

ghost use Rattle.std.specs.Prelude.{◌≡◌};
ghost use Rattle.gp_dumpline.specs.Forms.{header_of};
ghost use Rattle.gp_dumpline.specs.Texts.{header};

/// The first line of a dump, which names one of two formats. In the second one the log may have BEGIN READ COMMITTED.
pub fn header(second: bool) -> &'static [u8]
    ensures { result.now ≡ header second }
{
    if second {
        b"gprom-dump 2"
    } else {
        b"gprom-dump 1"
    }
}

/// Whether the format that the first line names is the second one. None if the text names neither.
pub fn parse_header(text: &[u8]) -> Option<bool>
    ensures { result ≡ header_of text.now }
{
    if text == header(false) {
        Some(false)
    } else if text == header(true) {
        Some(true)
    } else {
        None
    }
}
