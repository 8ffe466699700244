//! A pitch as it is written here, made of how it is written elsewhere.

ghost use Rattle.std.specs.Prelude.{◌≡◌, ◌++◌, IfOk, OnOk};
ghost use Rattle.text_lines.specs.Numbers.{is_digit};
ghost use Rattle.text_faults.specs.Written as words;
ghost use Rattle.text_faults.specs.Written.{byte_in, bytes_in, letter_of, marked_octave, octave_of, piece_of, pitch_told, sign_of, spelled, written};

use fux_pitch::Memory;
use fux_text::parse_pitch;
use std::alloc::Global;

/// A piece of a name.
#[derive(Clone, Copy)]
pub enum Piece {
    /// Its letter and its sign.
    Letters,
    /// The digits of its octave.
    Digits,
    /// The marks of its octave.
    Primes,
}

/// Whether a byte is a digit.
fn is_digit(byte: u8) -> bool
    ensures { result ≡ is_digit byte }
{
    b'0' <= byte && byte <= b'9'
}

/// What a byte of a name is among its letters.
fn letter_in(byte: u8) -> Option<u8>
    ensures { result ≡ words.letter_in byte }
{
    if is_digit(byte) || byte == b'\'' {
        None
    } else if byte == 0xAD {
        Some(b'b')
    } else if byte == 0xAF {
        Some(b'#')
    } else if byte < 128 {
        Some(byte)
    } else {
        None
    }
}

/// What a byte is of a piece.
fn byte_in(piece: Piece, byte: u8) -> Option<u8>
    ensures { result ≡ byte_in piece byte }
{
    let is_in = match piece {
        Piece::Letters => return letter_in(byte),
        Piece::Digits => is_digit(byte),
        Piece::Primes => byte == b'\'',
    };
    if is_in { Some(byte) } else { None }
}

/// Appends a byte of a piece, if it is one.
fn put_byte(out: &mut Vec<u8>, piece: Piece, byte: u8) -> Result<(), Memory>
    ensures { OnOk result (out.new.items ≡ out.old.items ++ bytes_in piece byte) }
{
    match byte_in(piece, byte) {
        Some(byte) => out.push(byte)?,
        None => {}
    }
    Ok(())
}

/// A piece of a name.
fn piece_of(alloc: Global, piece: Piece, name: &[u8]) -> Result<Vec<u8>, Memory>
    ensures { IfOk result (λ out. out.items ≡ piece_of piece name.now) }
{
    let mut out = Vec::new(alloc);
    for byte in name {
        put_byte(&mut out, piece, *byte)?;
    }
    Ok(out)
}

/// A letter as it is written here.
fn letter_of(byte: u8) -> u8
    ensures { result ≡ letter_of byte }
{
    let letter = byte.to_ascii_uppercase();
    if letter == b'H' { b'B' } else { letter }
}

/// Whether a byte is a flat sign elsewhere.
fn is_flat(byte: u8) -> bool
    ensures { result ≡ words.is_flat byte }
{
    byte == b's' || byte == b'B'
}

/// The sign at the front of a text as it is written here, and what stands behind it.
fn sign_in(text: &[u8]) -> (&'static [u8], &[u8])
    ensures { result.0.now ++ result.1.now ≡ sign_of text.now }
{
    match text {
        [] => (b"", text),
        [a] => {
            if is_flat(*a) {
                (b"b", &[])
            } else {
                (b"", text)
            }
        }
        [a, b, rest @ ..] => {
            if *a == b'i' && *b == b's' {
                (b"#", rest)
            } else if *a == b'e' && *b == b's' {
                (b"b", rest)
            } else if is_flat(*a) {
                (b"b", &text[1..])
            } else {
                (b"", text)
            }
        }
    }
}

/// Appends letters as they are written here.
fn put_spelled(out: &mut Vec<u8>, letters: &[u8]) -> Result<(), Memory>
    ensures { OnOk result (out.new.items ≡ out.old.items ++ spelled letters.now) }
{
    if let [first, rest @ ..] = letters {
        let (sign, behind) = sign_in(rest);
        out.push(letter_of(*first))?;
        out.extend_from_slice(sign)?;
        out.extend_from_slice(behind)?;
    }
    Ok(())
}

/// The octave of so many marks.
fn marked_octave(marks: usize) -> &'static [u8]
    ensures { result.now ≡ marked_octave marks }
{
    match marks {
        0 | 1 => b"4",
        2 => b"5",
        3 => b"6",
        _ => b"7",
    }
}

/// Appends the octave, by its digits or its marks.
fn put_octave(out: &mut Vec<u8>, digits: &[u8], marks: usize) -> Result<(), Memory>
    ensures { OnOk result (out.new.items ≡ out.old.items ++ octave_of digits.now marks) }
{
    if digits.is_empty() {
        out.extend_from_slice(marked_octave(marks))?;
    } else {
        out.extend_from_slice(digits)?;
    }
    Ok(())
}

/// The name of a pitch as it is written here.
#[tactic(auto, unfolding(crate::specs::Written::written))]
pub fn written(alloc: Global, name: &[u8]) -> Result<Vec<u8>, Memory>
    ensures { IfOk result (λ out. out.items ≡ written name.now) }
{
    let letters = piece_of(alloc, Piece::Letters, name)?;
    let digits = piece_of(alloc, Piece::Digits, name)?;
    let primes = piece_of(alloc, Piece::Primes, name)?;
    let mut out = Vec::new(alloc);
    put_spelled(&mut out, &letters)?;
    put_octave(&mut out, &digits, primes.len())?;
    Ok(out)
}

/// Appends a text behind a colon, where it is that of a pitch.
#[tactic(auto, unfolding(crate::specs::Written::pitch_told))]
pub fn put_pitch(out: &mut Vec<u8>, text: &[u8]) -> Result<(), Memory>
    ensures { OnOk result (out.new.items ≡ out.old.items ++ pitch_told text.now) }
{
    if parse_pitch(text).is_some() {
        out.extend_from_slice(b": ")?;
        out.extend_from_slice(text)?;
    }
    Ok(())
}
