//! The names of pitches.

ghost use Rattle.std.specs.Prelude.{◌≡◌, ◌<◌, ◌≤◌, ℕ, length, Some, [], ◌∷◌, ◌++◌, IfSome, negsuc, pos, ◌≤ℤ◌};
ghost use Rattle.fux_pitch.specs.declared.pitch.Pitch.{Pitch};
ghost use Rattle.fux_pitch.specs.Names.{letter_byte, accidental, name_of};

use crate::pitch::Pitch;
use arrayvec::ArrayString;
use std::fmt;

/// The character of a letter, where 0 is C and 6 is B.
fn letter_char(letter: u8) -> char
    requires { letter < 7 }
    ensures value { result ≡ letter_byte letter }
    ensures ascii { result < 128 }
{
    match letter {
        0 => 'C',
        1 => 'D',
        2 => 'E',
        3 => 'F',
        4 => 'G',
        5 => 'A',
        _ => 'B',
    }
}

/// The letter of a byte, if it is one: 0 for `C` to 6 for `B`.
fn letter_of(byte: u8) -> Option<u8>
    ensures small { IfSome result (λ letter. letter < 7) }
    ensures same { IfSome result (λ letter. letter_byte letter ≡ byte) }
    ensures every { (letter : ℕ) → letter < 7 → letter_byte letter ≡ byte → result ≡ Some letter }
{
    match byte {
        b'C' => Some(0),
        b'D' => Some(1),
        b'E' => Some(2),
        b'F' => Some(3),
        b'G' => Some(4),
        b'A' => Some(5),
        b'B' => Some(6),
        _ => None,
    }
}

/// The sign of an alteration: `#` raises and `b` lowers.
fn sign(alter: i8) -> &'static str
    ensures value { result.now ≡ accidental alter }
    ensures short { length result.now ≤ 1 }
{
    match alter {
        1 => "#",
        -1 => "b",
        _ => "",
    }
}

/// The name of a pitch: a letter from A to G, then `#`, `b` or nothing, then the digit of the
/// letter's octave.
#[tactic(auto, unfolding(crate::specs::Names::name_of))]
pub fn name(p: Pitch) -> ArrayString<3>
    ensures { result.bytes ≡ name_of p }
{
    let mut name = ArrayString::new();
    name.push(letter_char(p.degree() % 7));
    name.push_str(sign(p.alter()));
    name.push(char::from(b'0' + p.degree() / 7));
    name
}

impl fmt::Display for Pitch {
    ghost output = { λ p. Some (name_of p) };

    fn fmt<W: fmt::Write>(&self, f: &mut fmt::Formatter<W>) -> fmt::Result {
        f.pad(name(*self).as_str())
    }
}

/// The pitch that is written with this letter, this alteration and this digit of the octave.
fn written(letter: u8, alter: i8, digit: u8) -> Option<Pitch>
    requires flat { negsuc 0 ≤ℤ alter }
    requires sharp { alter ≤ℤ pos 1 }
    ensures named { IfSome result (λ p. name_of p ≡ letter ∷ accidental alter ++ digit ∷ []) }
    ensures every { (p : Pitch) → name_of p ≡ letter ∷ accidental alter ++ digit ∷ [] → result
        ≡ Some p }
{
    if digit < b'1' || digit > b'7' {
        return None;
    }
    Pitch::new(7 * (digit - b'0') + letter_of(letter)?, alter)
}

/// The pitch of a name, as `name` writes it.
pub fn parse_pitch(text: &[u8]) -> Option<Pitch>
    ensures named { IfSome result (λ p. name_of p ≡ text.now) }
    ensures every { (p : Pitch) → name_of p ≡ text.now → result ≡ Some p }
{
    match *text {
        [letter, digit] => written(letter, 0, digit),
        [letter, b'#', digit] => written(letter, 1, digit),
        [letter, b'b', digit] => written(letter, -1, digit),
        _ => None,
    }
}
