//! The spelling of keys.

ghost use Rattle.std.specs.Prelude.{◌≡◌, ◌↔◌, ◌<◌, ◌≤◌, ◌%◌, IsSome, IfSome, pos};
ghost use Rattle.fux_pitch.specs.Pitch.{key_of};
ghost use Rattle.fux_pitch.specs.Spelling.{class_spelling, spelled};

use crate::pitch::Pitch;

/// The letters and the alterations of the twelve keys of an octave: C, C#, D, Eb, E, F, F#, G, G#,
/// A, Bb, B.
const OCTAVE: [(u8, i8); 12] = [
    (0, 0),
    (0, 1),
    (1, 0),
    (2, -1),
    (2, 0),
    (3, 0),
    (3, 1),
    (4, 0),
    (4, 1),
    (5, 0),
    (6, -1),
    (6, 0),
];

/// The letter and the alteration of a key that lies so many semitones above a C.
fn spelling_of(class: u8) -> (u8, i8)
    requires { class < 12 }
    ensures { result ≡ class_spelling class }
{
    OCTAVE[usize::from(class)]
}

/// The pitch that a MIDI key is spelled as: C, C#, D, Eb, E, F, F#, G, G#, A, Bb or B.
pub fn spell(key: u8) -> Option<Pitch>
    ensures value { result ≡ spelled key }
    ensures known { IsSome result ↔ (24 ≤ key × key ≤ 96) }
    ensures same_key { IfSome result (λ p. key_of p ≡ pos key) }
{
    let octave = (key / 12).saturating_sub(1);
    let (letter, alter) = spelling_of(key % 12);
    Pitch::new(7 * octave + letter, alter)
}
