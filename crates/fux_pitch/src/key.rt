//! Keys, as MIDI counts them.

ghost use Rattle.std.specs.Prelude.{◌≡◌, ◌≤◌, pos};
ghost use Rattle.fux_pitch.specs.Pitch.{key_of};

use crate::pitch::Pitch;

/// The key of a pitch, as the MIDI standard numbers keys: C4 is 60.
pub fn semitone(p: Pitch) -> u8
    ensures value { pos result ≡ key_of p }
    ensures least { 24 ≤ result }
    ensures most { result ≤ 96 }
{
    p.key()
}
