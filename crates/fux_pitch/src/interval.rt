//! Intervals, their reduced sizes and the three classes of Fux's Gradus ad Parnassum (1725):
//! perfect consonances, imperfect consonances and dissonances.

ghost use Rattle.std.specs.Prelude.{◌≡◌, ◌||◌, pos, negsuc, ◌≤ℤ◌};
ghost use Rattle.fux_pitch.specs.Size.{interval_between, IsShort, upward, within_octave, reduced, has_size, is_perfect_size, is_imperfect_size, is_consonant_size, is_consonant_within};

use crate::key::semitone;
use crate::pitch::Pitch;

/// The way from one pitch to another. A major third up has 2 degrees and 4 semitones, a minor
/// second down -1 and -1.
#[derive(Clone, Copy, Debug, PartialEq, Eq)]
pub struct Interval {
    /// Steps of the staff, positive upwards.
    pub degrees: i16,
    /// Steps of the keyboard, positive upwards.
    pub semitones: i16,
}

/// The interval from `a` to `b`.
pub fn interval_of(a: Pitch, b: Pitch) -> Interval
    ensures value { result ≡ interval_between a b }
    ensures short { IsShort result }
{
    Interval {
        degrees: i16::from(b.degree()) - i16::from(a.degree()),
        semitones: i16::from(semitone(b)) - i16::from(semitone(a)),
    }
}

/// The interval, negated in both parts where it points down.
fn turned_up(i: Interval) -> Interval
    requires { IsShort i }
    ensures value { result ≡ upward i }
    ensures least { pos 0 ≤ℤ result.degrees }
    ensures most { result.degrees ≤ℤ pos 128 }
    ensures least_semitones { negsuc 127 ≤ℤ result.semitones }
    ensures most_semitones { result.semitones ≤ℤ pos 128 }
{
    if i.degrees < 0 || i.degrees == 0 && i.semitones < 0 {
        return Interval {
            degrees: -i.degrees,
            semitones: -i.semitones,
        };
    }
    i
}

/// The reduced size: the interval turned up, with its octaves taken off. A tenth is reduced to a
/// third.
pub fn reduce(i: Interval) -> Interval
    requires { IsShort i }
    ensures { result ≡ reduced i }
{
    folded(turned_up(i))
}

/// The interval with its octaves taken off.
fn folded(up: Interval) -> Interval
    requires least { pos 0 ≤ℤ up.degrees }
    requires most { up.degrees ≤ℤ pos 128 }
    requires least_semitones { negsuc 127 ≤ℤ up.semitones }
    requires most_semitones { up.semitones ≤ℤ pos 128 }
    ensures { result ≡ within_octave up }
{
    let steps = up.degrees as u8;
    Interval {
        degrees: i16::from(steps % 7),
        semitones: up.semitones - i16::from(12 * (steps / 7)),
    }
}

/// Whether the interval has this size.
fn is_size(i: Interval, degrees: u8, semitones: u8) -> bool
    ensures { result ≡ has_size degrees semitones i }
{
    i.degrees == i16::from(degrees) && i.semitones == i16::from(semitones)
}

/// Whether a reduced size is that of a unison, an octave or a fifth.
fn is_perfect_within(size: Interval) -> bool
    ensures { result ≡ (has_size 0 0 size || has_size 4 7 size) }
{
    is_size(size, 0, 0) || is_size(size, 4, 7)
}

/// Whether it is that of a third or a sixth.
fn is_imperfect_within(size: Interval) -> bool
    ensures { result ≡ (has_size 2 3 size || has_size 2 4 size || has_size 5 8 size
        || has_size 5 9 size) }
{
    is_size(size, 2, 3) || is_size(size, 2, 4) || is_size(size, 5, 8) || is_size(size, 5, 9)
}

/// A perfect consonance: a unison, an octave or a fifth, over any number of octaves.
pub fn is_perfect(i: Interval) -> bool
    requires { IsShort i }
    ensures { result ≡ is_perfect_size i }
{
    is_perfect_within(reduce(i))
}

/// An imperfect consonance: a major or minor third or sixth, over any number of octaves.
pub fn is_imperfect(i: Interval) -> bool
    requires { IsShort i }
    ensures { result ≡ is_imperfect_size i }
{
    is_imperfect_within(reduce(i))
}

/// Whether an interval of this reduced size is a consonance, where one of the two voices is the
/// lowest or neither is.
pub fn is_consonant_within(size: Interval, lowest: bool) -> bool
    ensures { result ≡ is_consonant_within size lowest }
{
    if is_perfect_within(size) || is_imperfect_within(size) {
        return true;
    }
    if lowest {
        return false;
    }
    is_size(size, 3, 5) || is_size(size, 3, 6) || is_size(size, 4, 6)
}

/// A consonance. Between two voices of which none is the lowest, the perfect and the augmented
/// fourth and the diminished fifth are consonant too; against the lowest voice they are dissonant.
pub fn is_consonant(i: Interval, lowest: bool) -> bool
    requires { IsShort i }
    ensures { result ≡ is_consonant_size i lowest }
{
    is_consonant_within(reduce(i), lowest)
}
