//! What is asked of a word that stands where a fault is.

ghost use Rattle.std.specs.Prelude.{◌≡◌};
ghost use Rattle.text_faults.specs.WordTests.{begins, begins_within, has, has_digit};

/// Whether a text begins with these bytes.
#[tactic(auto, unfolding(crate::specs::WordTests::begins))]
pub fn begins(front: &[u8], text: &[u8]) -> bool
    ensures { result ≡ begins front.now text.now }
{
    text.starts_with(front)
}

/// Whether the first byte of a text lies within two others.
#[tactic(auto, unfolding(crate::specs::WordTests::begins_within))]
pub fn begins_within(least: u8, most: u8, text: &[u8]) -> bool
    ensures { result ≡ begins_within least most text.now }
{
    match text {
        [first, ..] => least <= *first && *first <= most,
        [] => false,
    }
}

/// Whether a byte is in a text.
#[tactic(auto, unfolding(crate::specs::WordTests::has))]
pub fn has(byte: u8, text: &[u8]) -> bool
    ensures { result ≡ has byte text.now }
{
    text.iter().any(|b| *b == byte)
}

/// Whether a digit is in a text.
#[tactic(auto, unfolding(crate::specs::WordTests::has_digit))]
pub fn has_digit(text: &[u8]) -> bool
    ensures { result ≡ has_digit text.now }
{
    text.iter().any(|b| b'0' <= *b && *b <= b'9')
}
