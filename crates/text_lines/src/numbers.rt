//! Numbers of up to seven digits.

ghost use Rattle.std.specs.Prelude.{◌≡◌, ◌≤◌, IfSome};
ghost use Rattle.text_lines.specs.Numbers.{digits_after, if_within, is_digit, number_of, number_within};

/// Whether a byte is a digit.
fn is_digit(byte: u8) -> bool
    ensures { result ≡ is_digit byte }
{
    b'0' <= byte && byte <= b'9'
}

/// The number that digits write, up to seven of them.
fn parse_digits(text: &[u8]) -> Option<u32>
    ensures { result ≡ digits_after 0 text.now }
{
    let mut number = 0;
    for byte in text {
        if !is_digit(*byte) || number > 999_999 {
            return None;
        }
        number = 10 * number + u32::from(*byte - b'0');
    }
    Some(number)
}

/// The number that a word writes: `0`, or up to seven digits of which the first isn't 0.
#[tactic(auto, unfolding(crate::specs::Numbers::number_of))]
pub fn parse_number(text: &[u8]) -> Option<u32>
    ensures { result ≡ number_of text.now }
{
    match text {
        [] => None,
        [b'0', _, ..] => None,
        _ => parse_digits(text),
    }
}

/// The number that a word writes, if it lies from `least` to `most`.
pub fn parse_within(text: &[u8], least: u16, most: u16) -> Option<u16>
    ensures value { result ≡ number_within least most text.now }
    ensures least { IfSome result (λ n. least ≤ n) }
    ensures most { IfSome result (λ n. n ≤ most) }
{
    let number = parse_number(text)?;
    if u32::from(least) <= number && number <= u32::from(most) {
        Some(number as u16)
    } else {
        None
    }
}
