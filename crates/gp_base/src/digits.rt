//! Numbers of decimal digits.

ghost use Rattle.std.specs.Prelude.{◌≡◌};
ghost use Rattle.gp_base.specs.Saturating.{saturating_on};

/// The number of the digits, or None where a byte is no digit. It saturates, since there may be any number of digits, and
/// leading zeros count nothing.
pub fn digits_number(text: &[u8]) -> Option<u64>
    ensures { result ≡ saturating_on 0 text.now }
{
    let mut number: u64 = 0;
    for byte in text {
        if !byte.is_ascii_digit() {
            return None;
        }
        number = number
            .saturating_mul(10)
            .saturating_add(u64::from(*byte - b'0'));
    }
    Some(number)
}
