//! Where bytes stop being UTF-8.

ghost use Rattle.std.specs.Prelude.{◌≡◌, ◌≤◌, drop, length};
ghost use Rattle.std.specs.Str.{IsUtf8, valid_up_to, error_len};
ghost use Rattle.text_lines.specs.Faults.{Gives, told};
ghost use Rattle.text_lines.specs.Utf8.{begun, fault_behind, fault_of_utf8, text_in};
ghost use Rattle.std.specs.Str.Lossy.{utf8_valid_len, utf8_error_len};
ghost use Rattle.text_lines.specs.Lines.{lines_of};

use crate::fault::TextFault;
use crate::places::Lines;

/// The fault of this kind behind the bytes that stand before it.
fn fault_behind<K: Copy>(kind: K, before: &[u8]) -> TextFault<K>
    requires { length before.now ≤ 65536 }
    ensures { result ≡ told (fault_behind kind before.now) }
{
    let mut line = 1;
    let mut column = 1;
    for byte in before {
        if *byte == b'\n' {
            line += 1;
            column = 1;
        } else {
            column += 1;
        }
    }
    TextFault::At { kind, line, column }
}

/// How many of these bytes may begin a character, where none stands at their front.
fn begun(rest: &[u8], error_len: Option<usize>) -> usize
    ensures { result ≡ begun rest.now error_len }
{
    match error_len {
        None => rest.len(),
        Some(len) => match rest {
            [0xC2..=0xF4, ..] => len,
            _ => 0,
        },
    }
}

/// The fault of bytes that are UTF-8 up to a place, where so many bytes are at fault.
#[tactic(auto, unfolding(crate::specs::Utf8::fault_of_utf8))]
fn fault_of_utf8<K: Copy>(
    kind: K,
    bytes: &[u8],
    valid: usize,
    error_len: Option<usize>,
) -> TextFault<K>
    requires short { length bytes.now ≤ 65536 }
    requires front { valid ≡ utf8_valid_len bytes.now }
    requires within { valid ≤ length bytes.now }
    requires error { error_len ≡ utf8_error_len (drop valid bytes.now) }
    ensures { result ≡ told (fault_of_utf8 kind bytes.now) }
{
    let (_, rest) = bytes.split_at(valid);
    let begun = begun(rest, error_len);
    fault_behind(kind, &bytes[..valid + begun])
}

impl<'a> Lines<'a> {
    /// The lines of a text of at most 65,536 bytes of UTF-8: the fault is of the first kind where
    /// it has more, and of the second where it isn't UTF-8.
    #[tactic(auto, unfolding(crate::specs::Utf8::text_in))]
    pub fn of_text<K: Copy>(
        bytes: &'a [u8],
        too_long: K,
        not_utf8: K,
    ) -> Result<Lines<'a>, TextFault<K>>
        ensures { Gives lines_of result (text_in too_long not_utf8 bytes.now) }
    {
        if bytes.len() > 65_536 {
            return Err(TextFault::At {
                kind: too_long,
                line: 1,
                column: 1,
            });
        }
        match std::str::from_utf8(bytes) {
            Ok(_) => Ok(Lines::new(bytes)),
            Err(error) => Err(fault_of_utf8(
                not_utf8,
                bytes,
                error.valid_up_to(),
                error.error_len(),
            )),
        }
    }
}
