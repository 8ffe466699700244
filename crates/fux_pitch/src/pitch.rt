//! Pitches: degrees of the staff with their alterations.

ghost use Rattle.std.specs.Prelude.{◌≡◌, ◌↔◌, ◌≤◌, IsSome, IfSome, pos};
ghost use Rattle.fux_pitch.specs.Key.{IsPitch, alter_from, natural_key};

/// A pitch as the staff writes it: a degree, which counts the letters up from C0, and an alteration
/// by a sharp, a flat or nothing. C4 has degree 28. `C#4` and `Db4` are two pitches of one key.
///
/// Every pitch has a degree of 7 or more and a key from 24 to 96. Its key is kept, and not its
/// alteration: intervals are asked for more often than names.
#[derive(Clone, Copy, Debug, PartialEq, Eq)]
pub struct Pitch {
    degree: u8,
    key: u8,
    pub ghost is_pitch: { IsPitch degree (alter_from degree key) },
}

/// The key of the natural on this degree: seven letters share the twelve keys of an octave as
/// evenly as can be, so that one division tells where each of them is.
#[inline]
pub(crate) fn natural(degree: u8) -> i16
    ensures value { result ≡ pos (natural_key degree) }
    ensures bound { natural_key degree ≤ 500 }
{
    let above = (12 * u16::from(degree) + 5) / 7;
    12 + above as i16
}

impl Pitch {
    ghost use Rattle.fux_pitch.specs.Pitch.{degree_of, alter_of, key_of, pitch_at};

    /// The pitch of a degree and an alteration, where there is one: 1 raises by a semitone, -1
    /// lowers.
    pub fn new(degree: u8, alter: i8) -> Option<Pitch>
        ensures known { IsSome result ↔ IsPitch degree alter }
        ensures degree { IfSome result (λ p. degree_of p ≡ degree) }
        ensures alter { IfSome result (λ p. alter_of p ≡ alter) }
        ensures value { result ≡ pitch_at degree alter }
    {
        if degree < 7 || alter < -1 || alter > 1 {
            return None;
        }
        let key = natural(degree) + i16::from(alter);
        if key < 24 || key > 96 {
            return None;
        }
        Some(Pitch {
            degree,
            key: key as u8,
        })
    }

    /// The letters from C0 up to this pitch, from 7 to 49. Divided by 7 it gives the octave, and as
    /// remainder the letter, where 0 is C and 6 is B.
    pub fn degree(self) -> u8
        ensures { result ≡ degree_of self }
    {
        self.degree
    }

    /// The alteration: -1, 0 or 1.
    pub fn alter(self) -> i8
        ensures { result ≡ alter_of self }
    {
        (i16::from(self.key) - natural(self.degree)) as i8
    }

    /// The key.
    #[inline]
    pub(crate) fn key(self) -> u8
        ensures value { pos result ≡ key_of self }
        ensures least { 24 ≤ result }
        ensures most { result ≤ 96 }
    {
        self.key
    }
}
