//! Numbers in the lines of a dump.

ghost use Rattle.std.specs.Prelude.{◌≡◌, ◌<◌, ◌≤◌, ◌-◌, IfSome, min};
ghost use Rattle.gp_base.specs.Saturating.{saturated};
ghost use Rattle.gp_dumpline.specs.Numbers.{number_of, number_up_to, version_of};

use gp_base::digits_number;

/// A number without leading zeros, where one of 64 bits or more is the greatest of 64 bits.
pub(crate) fn parse_number(text: &[u8]) -> Option<u64>
    ensures { result ≡ saturated (number_of text.now) }
{
    match text {
        [] => None,
        [_] => digits_number(text),
        [first, _, ..] => {
            if *first == b'0' {
                None
            } else {
                digits_number(text)
            }
        }
    }
}

/// A number of at most this.
pub(crate) fn parse_number_up_to(most: u32, text: &[u8]) -> Option<u32>
    ensures number { result ≡ number_up_to most text.now }
    ensures most { IfSome result (λ number. number ≤ most) }
{
    let number = parse_number(text)?;
    if number <= u64::from(most) {
        Some(number as u32)
    } else {
        None
    }
}

/// The number of a version; a number that no version has counts as the greatest of 32 bits.
pub(crate) fn parse_version(text: &[u8]) -> Option<u32>
    ensures { result ≡ version_of text.now }
{
    let number = parse_number(text)?;
    Some(number.min(u64::from(u32::MAX)) as u32)
}
