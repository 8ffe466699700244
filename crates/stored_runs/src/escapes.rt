//! Texts of cases: with escapes, and within quotes.

ghost use Rattle.std.specs.Prelude.{◌<◌};

use fux_pitch::Memory;
use std::alloc::Global;

/// What the bytes of an escape so far ask for.
#[derive(Clone, Copy)]
enum Escape {
    None,
    Begun,
    FirstDigit,
    SecondDigit(u8),
}

/// The value of a hexadecimal digit, 0 for any other byte.
fn digit(byte: u8) -> u8
    ensures { result < 16 }
{
    match byte {
        b'0'..=b'9' => byte - b'0',
        b'a'..=b'f' => byte - b'a' + 10,
        _ => 0,
    }
}

/// The bytes that a text with escapes stands for.
pub fn decoded(alloc: Global, text: &str) -> Result<Vec<u8>, Memory> {
    let mut bytes = Vec::new(alloc);
    let mut escape = Escape::None;
    for byte in text.bytes() {
        escape = match (escape, byte) {
            (Escape::None, b'\\') => Escape::Begun,
            (Escape::None, _) => {
                bytes.push(byte)?;
                Escape::None
            }
            (Escape::Begun, b'x') => Escape::FirstDigit,
            (Escape::Begun, _) => {
                bytes.push(match byte {
                    b'n' => b'\n',
                    b't' => b'\t',
                    b'r' => b'\r',
                    _ => byte,
                })?;
                Escape::None
            }
            (Escape::FirstDigit, _) => Escape::SecondDigit(digit(byte)),
            (Escape::SecondDigit(high), _) => {
                bytes.push(high.wrapping_mul(16).wrapping_add(digit(byte)))?;
                Escape::None
            }
        };
    }
    Ok(bytes)
}

/// The text that a text with escapes stands for.
pub fn decoded_text(alloc: Global, text: &str) -> Result<String, Memory> {
    Ok(String::from_utf8_lossy(alloc, &decoded(alloc, text)?)?)
}

/// The words of a line, each within quotes. No quote is within a word.
pub fn words_in(alloc: Global, line: &str) -> Result<Vec<String>, Memory> {
    let mut words = Vec::new(alloc);
    for (place, piece) in line.split('"').enumerate() {
        if place % 2 == 1 {
            words.push(decoded_text(alloc, piece)?)?;
        }
    }
    Ok(words)
}

/// The text within the quotes behind a line's first word.
pub fn quoted<'a>(line: &'a str, name: &str) -> Option<&'a str> {
    line.strip_prefix(name)?
        .strip_prefix(" \"")?
        .strip_suffix('"')
}

/// The number behind a line's first word, 0 where it isn't one.
pub fn number(line: &str, name: &str) -> Option<u64> {
    let word = line.strip_prefix(name)?.strip_prefix(" ")?;
    Some(word.parse().unwrap_or(0))
}

/// The number behind a line's first word, and the text within the quotes behind it.
pub fn numbered<'a>(line: &'a str, name: &str) -> Option<(u64, &'a str)> {
    let (front, rest) = line.split_once(" \"")?;
    Some((number(front, name)?, rest.strip_suffix('"')?))
}
