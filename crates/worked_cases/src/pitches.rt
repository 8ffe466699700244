//! Worked values: the keys of pitches, the classes of intervals, the modes, names and spellings.

ghost use Rattle.std.specs.Prelude.{pos, negsuc, ◌≤ℤ◌, ◌<◌};

use crate::words::{number, word};
use fux_pitch::{
    Interval, Mode, Pitch, final_letter, in_gamut, interval_of, is_consonant, is_imperfect,
    is_perfect, leading, name, parse_pitch, reduce, semitone, spell,
};
use short_scores::{mode_of, pitch_of};
use std::alloc::Global;
use std::fmt::Write;

/// The word of this place in a case, as a number that may be below 0.
fn signed(case: &str, place: usize) -> Option<i8> {
    word(case, place)?.parse::<i8>().ok()
}

/// Degrees with alterations, and the keys of those that are pitches.
pub const KEYS: &str = "\
degree 7 altered by 0 = key 24
degree 28 altered by 0 = key 60
degree 28 altered by 1 = key 61
degree 28 altered by -1 = key 59
degree 27 altered by 1 = key 60
degree 30 altered by 1 = key 65
degree 31 altered by -1 = key 64
degree 33 altered by 0 = key 69
degree 49 altered by 0 = key 96
degree 48 altered by 1 = key 96
degree 6 altered by 1 = no pitch
degree 7 altered by -1 = no pitch
degree 49 altered by 1 = no pitch
degree 50 altered by -1 = no pitch
degree 28 altered by 2 = no pitch
degree 28 altered by -2 = no pitch
degree 255 altered by 0 = no pitch";

pub fn key_of(alloc: Global, case: &str) -> Option<String> {
    match Pitch::new(number(case, 1)?, signed(case, 4)?) {
        Some(pitch) => format!(in alloc; "key {}", semitone(pitch)).ok(),
        None => String::from_str(alloc, "no pitch").ok(),
    }
}

/// A pitch, and its name.
fn told(alloc: Global, pitch: Option<Pitch>) -> Option<String> {
    let Some(pitch) = pitch else {
        return String::from_str(alloc, "no pitch").ok();
    };
    let (degree, alter, name) = (pitch.degree(), pitch.alter(), name(pitch));
    let name = name.as_str();
    format!(in alloc; "{name}, degree {degree} altered by {alter}").ok()
}

/// Keys, and what they are spelled as.
pub const SPELLINGS: &str = "\
key 24 = C1, degree 7 altered by 0
key 60 = C4, degree 28 altered by 0
key 61 = C#4, degree 28 altered by 1
key 62 = D4, degree 29 altered by 0
key 63 = Eb4, degree 30 altered by -1
key 64 = E4, degree 30 altered by 0
key 65 = F4, degree 31 altered by 0
key 66 = F#4, degree 31 altered by 1
key 67 = G4, degree 32 altered by 0
key 68 = G#4, degree 32 altered by 1
key 69 = A4, degree 33 altered by 0
key 70 = Bb4, degree 34 altered by -1
key 71 = B4, degree 34 altered by 0
key 96 = C7, degree 49 altered by 0
key 0 = no pitch
key 11 = no pitch
key 12 = no pitch
key 23 = no pitch
key 97 = no pitch
key 255 = no pitch";

pub fn spelling_of(alloc: Global, case: &str) -> Option<String> {
    told(alloc, spell(number(case, 1)?))
}

/// Texts in quotes, and the pitches that they name.
pub const NAMES: &str = "\
'C1' = C1, degree 7 altered by 0
'Bb2' = Bb2, degree 20 altered by -1
'A3' = A3, degree 26 altered by 0
'B#3' = B#3, degree 27 altered by 1
'C4' = C4, degree 28 altered by 0
'Cb4' = Cb4, degree 28 altered by -1
'F#5' = F#5, degree 38 altered by 1
'B#6' = B#6, degree 48 altered by 1
'C7' = C7, degree 49 altered by 0
'' = no pitch
'C' = no pitch
'4' = no pitch
'c4' = no pitch
'H4' = no pitch
'C0' = no pitch
'C8' = no pitch
'Cb1' = no pitch
'C#7' = no pitch
'E7' = no pitch
'C##4' = no pitch
'C 4' = no pitch
'C4 ' = no pitch
'CB4' = no pitch
'C44' = no pitch
'Cn4' = no pitch";

pub fn named(alloc: Global, case: &str) -> Option<String> {
    told(alloc, parse_pitch(case.trim_matches('\'').as_bytes()))
}

/// A pitch in four columns, and as it is.
pub fn twice(alloc: Global, case: &str) -> Option<String> {
    let pitch = pitch_of(case)?;
    format!(in alloc; "{pitch:>4} and {pitch}").ok()
}

/// An interval, as `7 degrees, 12 semitones`.
fn interval_text(alloc: Global, size: Interval) -> Option<String> {
    let (degrees, semitones) = (size.degrees, size.semitones);
    format!(in alloc; "{degrees} degrees, {semitones} semitones").ok()
}

/// Intervals, and what they are reduced to.
pub const REDUCED: &str = "\
0 degrees, 0 semitones = 0 degrees, 0 semitones
7 degrees, 12 semitones = 0 degrees, 0 semitones
9 degrees, 16 semitones = 2 degrees, 4 semitones
-2 degrees, -3 semitones = 2 degrees, 3 semitones
-11 degrees, -19 semitones = 4 degrees, 7 semitones
0 degrees, -1 semitones = 0 degrees, 1 semitones
1 degrees, 0 semitones = 1 degrees, 0 semitones
-1 degrees, 0 semitones = 1 degrees, 0 semitones
7 degrees, 11 semitones = 0 degrees, -1 semitones
-7 degrees, -11 semitones = 0 degrees, -1 semitones
24 degrees, 41 semitones = 3 degrees, 5 semitones";

fn reduced_text(alloc: Global, degrees: i8, semitones: i8) -> Option<String> {
    let size = reduce(Interval {
        degrees: i16::from(degrees),
        semitones: i16::from(semitones),
    });
    interval_text(alloc, size)
}

pub fn reduced(alloc: Global, case: &str) -> Option<String> {
    reduced_text(alloc, signed(case, 0)?, signed(case, 2)?)
}

/// What an interval is: `p` a perfect consonance, `i` an imperfect one, `f` consonant but with the
/// lowest voice, `.` a dissonance, and `?` where it would be two of these.
fn class_of(degrees: i16, semitones: i16) -> char
    requires least_degrees { negsuc 127 ≤ℤ degrees }
    requires most_degrees { degrees ≤ℤ pos 127 }
    requires least_semitones { negsuc 127 ≤ℤ semitones }
    requires most_semitones { semitones ≤ℤ pos 127 }
{
    let i = Interval { degrees, semitones };
    let consonant = (is_consonant(i, true), is_consonant(i, false));
    match (is_perfect(i), is_imperfect(i), consonant) {
        (true, false, (true, true)) => 'p',
        (false, true, (true, true)) => 'i',
        (false, false, (false, true)) => 'f',
        (false, false, (false, false)) => '.',
        _ => '?',
    }
}

/// The same of the interval with none, one and two octaves more, and of each of these downwards;
/// `?` where they differ.
fn class_of_all(degrees: u8, semitones: u8) -> char
    requires degrees { degrees < 8 }
    requires semitones { semitones < 16 }
{
    let class = class_of(i16::from(degrees), i16::from(semitones));
    for octaves in 0..3u8 {
        let up = i16::from(degrees + 7 * octaves);
        let keys = i16::from(semitones + 12 * octaves);
        if class_of(up, keys) != class || class_of(-up, -keys) != class {
            return '?';
        }
    }
    class
}

/// Numbers of degrees, and what the intervals with 0 to 15 semitones are.
pub const CLASSES: &str = "\
0 degrees = p...............
1 degrees = ................
2 degrees = ...ii...........
3 degrees = .....ff.........
4 degrees = ......fp........
5 degrees = ........ii......
6 degrees = ................";

pub fn classes_of(alloc: Global, case: &str) -> Option<String> {
    let degrees = number(case, 0)?;
    let mut classes = String::new(alloc);
    for semitones in 0..16 {
        classes.push(class_of_all(degrees.min(7), semitones)).ok()?;
    }
    Some(classes)
}

/// Two pitches, and the interval from the first to the second.
pub const BETWEEN: &str = "\
from C4 to E4 = 2 degrees, 4 semitones
from E4 to C4 = -2 degrees, -4 semitones
from B#3 to C4 = 1 degrees, 0 semitones
from F4 to B4 = 3 degrees, 6 semitones
from B4 to F5 = 4 degrees, 6 semitones
from C1 to C7 = 42 degrees, 72 semitones";

pub fn between(alloc: Global, case: &str) -> Option<String> {
    let (from, to) = (pitch_of(word(case, 1)?)?, pitch_of(word(case, 3)?)?);
    interval_text(alloc, interval_of(from, to))
}

/// Modes, their last letter, and the letter before it with its alteration.
pub const FINALS: &str = "\
dorian = final 1, leading 0 altered by 1
phrygian = final 2, leading 1 altered by 0
lydian = final 3, leading 2 altered by 0
mixolydian = final 4, leading 3 altered by 1
aeolian = final 5, leading 4 altered by 1
ionian = final 0, leading 6 altered by 0";

pub fn final_of(alloc: Global, case: &str) -> Option<String> {
    let mode = mode_of(case)?;
    let (last, (before, alter)) = (final_letter(mode), leading(mode));
    format!(in alloc; "final {last}, leading {before} altered by {alter}").ok()
}

/// Modes and bars of eight, and the pitches of the gamut from C4 on, of all that are sharp, flat or
/// neither.
pub const GAMUTS: &str = "\
dorian in the bars 1 to 6 = C4 D4 E4 F4 G4 A4 Bb4 B4
dorian in the bars 7 to 8 = C4 C#4 D4 E4 F4 G4 A4 Bb4 B4
phrygian in the bars 1 to 8 = C4 D4 E4 F4 G4 A4 Bb4 B4
lydian in the bars 1 to 8 = C4 D4 E4 F4 G4 A4 Bb4 B4
mixolydian in the bars 1 to 6 = C4 D4 E4 F4 G4 A4 Bb4 B4
mixolydian in the bars 7 to 8 = C4 D4 E4 F4 F#4 G4 A4 Bb4 B4
aeolian in the bars 1 to 6 = C4 D4 E4 F4 G4 A4 Bb4 B4
aeolian in the bars 7 to 8 = C4 D4 E4 F4 F#4 G4 G#4 A4 Bb4 B4
ionian in the bars 1 to 8 = C4 D4 E4 F4 G4 A4 Bb4 B4";

/// Adds the pitch behind a space, if it is one of the bar.
fn add_pitch(names: &mut String, mode: Mode, bar: u8, degree: u8, alter: i8) -> Option<()> {
    let pitch = Pitch::new(degree, alter)?;
    if 1 <= bar && bar <= 8 && in_gamut(mode, bar, 8, pitch) {
        write!(names, " {pitch}").ok()?;
    }
    Some(())
}

/// The pitches of one bar, each behind a space.
fn gamut(alloc: Global, mode: Mode, bar: u8) -> Option<String> {
    let mut names = String::new(alloc);
    for degree in 28..35 {
        for alter in [-1, 0, 1] {
            add_pitch(&mut names, mode, bar, degree, alter)?;
        }
    }
    Some(names)
}

fn has_gamut(alloc: Global, mode: Mode, bar: u8, names: &str) -> Option<bool> {
    Some(gamut(alloc, mode, bar)?.as_str() == names)
}

/// The pitches that each of these bars has.
fn common_gamut(alloc: Global, mode: Mode, first: u8, last: u8) -> Option<String> {
    let names = gamut(alloc, mode, first)?;
    for bar in first..=last {
        if !has_gamut(alloc, mode, bar, names.as_str())? {
            return String::from_str(alloc, "not the same in all").ok();
        }
    }
    String::from_str(alloc, names.as_str().trim_start()).ok()
}

pub fn gamut_of(alloc: Global, case: &str) -> Option<String> {
    let mode = mode_of(word(case, 0)?)?;
    common_gamut(alloc, mode, number(case, 4)?, number(case, 6)?)
}
