//! The six modes of Fux's Gradus ad Parnassum (1725), with their names, finals, leading
//! notes and gamuts.

ghost use Rattle.std.specs.Prelude.{◌≡◌, ◌≤◌};
ghost use Rattle.fux_pitch.specs.Modes.{mode_name, final_of, leading_of, raises, is_in_gamut};

use crate::pitch::Pitch;

/// A mode.
#[derive(Clone, Copy, Debug, PartialEq, Eq)]
pub enum Mode {
    Dorian,
    Phrygian,
    Lydian,
    Mixolydian,
    Aeolian,
    Ionian,
}

/// The name of the mode, in small letters, as note texts and MusicXML write it.
pub fn mode_name(mode: Mode) -> &'static str
    ensures { result.now ≡ mode_name mode }
{
    match mode {
        Mode::Dorian => "dorian",
        Mode::Phrygian => "phrygian",
        Mode::Lydian => "lydian",
        Mode::Mixolydian => "mixolydian",
        Mode::Aeolian => "aeolian",
        Mode::Ionian => "ionian",
    }
}

/// The letter of the mode's final: 0 for C to 6 for B.
pub fn final_letter(mode: Mode) -> u8
    ensures { result ≡ final_of mode }
{
    match mode {
        Mode::Dorian => 1,
        Mode::Phrygian => 2,
        Mode::Lydian => 3,
        Mode::Mixolydian => 4,
        Mode::Aeolian => 5,
        Mode::Ionian => 0,
    }
}

/// The letter and the alteration of the mode's leading note, one degree below the final. It is
/// raised in the dorian, mixolydian and aeolian mode.
pub fn leading(mode: Mode) -> (u8, i8)
    ensures { result ≡ leading_of mode }
{
    match mode {
        Mode::Dorian => (0, 1),
        Mode::Phrygian => (1, 0),
        Mode::Lydian => (2, 0),
        Mode::Mixolydian => (3, 1),
        Mode::Aeolian => (4, 1),
        Mode::Ionian => (6, 0),
    }
}

/// Whether the mode raises this letter in the last two bars.
fn is_raised(mode: Mode, letter: u8) -> bool
    ensures { result ≡ raises mode letter }
{
    match mode {
        Mode::Dorian => letter == 0,
        Mode::Mixolydian => letter == 3,
        Mode::Aeolian => letter == 3 || letter == 4,
        Mode::Phrygian | Mode::Lydian | Mode::Ionian => false,
    }
}

/// Whether the pitch is in the gamut of a bar, counted from 1, of an exercise of so many bars: the
/// naturals and B flat, and in the last two bars also the notes that the mode raises.
pub fn in_gamut(mode: Mode, bar: u8, bars: u8, p: Pitch) -> bool
    requires first { 1 ≤ bar }
    requires last { bar ≤ bars }
    ensures { result ≡ is_in_gamut mode bar bars p }
{
    let letter = p.degree() % 7;
    match p.alter() {
        0 => true,
        -1 => letter == 6,
        _ => is_raised(mode, letter) && bars - bar <= 1,
    }
}
