//! Numbers by which what is kept may be looked up. No clause speaks of what they are.

ghost use Rattle.std.specs.Prelude.{◌<◌};

use fux_pitch::{Pitch, semitone};

/// A number made of two, in which each of them counts.
#[inline]
pub fn mixed(first: u64, second: u64) -> u64 {
    first
        .wrapping_mul(0x9e37_79b9_7f4a_7c15)
        .wrapping_add(second)
}

/// The number of a pitch, 0 for none.
pub(crate) fn key_of(pitch: Option<Pitch>) -> u64
    ensures { result < 65536 }
{
    match pitch {
        Some(pitch) => 256 * u64::from(semitone(pitch)) + u64::from(pitch.degree()),
        None => 0,
    }
}
