//! Clefs.

ghost use Rattle.std.specs.Prelude.{◌≡◌, ◌==◌};
ghost use Rattle.std.specs.List.{find};
ghost use Rattle.written_notes.specs.Clefs.{best_clef, cantus_reach, clef_of as clef_for, degrees_missed, fits_from, fits_to, free_reach, greatest_degree, least_degree, middle_of, range_reach, reach_of};

use fux_grid::{Exercise, RangeLine};
use fux_pitch::Pitch;

/// A clef.
#[derive(Clone, Copy, Debug, PartialEq, Eq, Default)]
pub enum Clef {
    #[default]
    Treble,
    Bass,
    Alto,
}

/// The lowest and the highest degree of a voice.
#[derive(Clone, Copy, Debug, PartialEq, Eq)]
pub struct Reach {
    pub low: u8,
    pub high: u8,
}

/// The degree of a staff's middle line.
pub fn middle_degree(clef: Clef) -> u8
    ensures { result ≡ middle_of clef }
{
    match clef {
        Clef::Treble => 34,
        Clef::Bass => 22,
        Clef::Alto => 28,
    }
}

/// The lowest degree that a clef is good for.
fn fits_from(clef: Clef) -> u8
    ensures { result ≡ fits_from clef }
{
    match clef {
        Clef::Treble => 26,
        Clef::Bass => 16,
        Clef::Alto => 22,
    }
}

/// The highest degree that a clef is good for.
fn fits_to(clef: Clef) -> u8
    ensures { result ≡ fits_to clef }
{
    match clef {
        Clef::Treble => 40,
        Clef::Bass => 30,
        Clef::Alto => 34,
    }
}

/// By how many degrees a reach goes beyond what a clef is good for.
fn degrees_missed(clef: Clef, reach: Reach) -> u16
    ensures { result ≡ degrees_missed clef reach }
{
    let below = fits_from(clef).saturating_sub(reach.low);
    let above = reach.high.saturating_sub(fits_to(clef));
    u16::from(below) + u16::from(above)
}

/// The clef that is best for a reach: of those that miss the least, the first.
fn best_clef(reach: Reach) -> Clef
    ensures { result ≡ best_clef reach }
{
    let treble = degrees_missed(Clef::Treble, reach);
    let bass = degrees_missed(Clef::Bass, reach);
    let alto = degrees_missed(Clef::Alto, reach);
    if treble <= bass && treble <= alto {
        Clef::Treble
    } else if bass <= alto {
        Clef::Bass
    } else {
        Clef::Alto
    }
}

/// The lowest degree of pitches, 255 for none.
fn least_degree(pitches: &[Pitch]) -> u8
    ensures { result ≡ least_degree pitches.now }
{
    let mut least = 255;
    for pitch in pitches {
        least = pitch.degree().min(least);
    }
    least
}

/// The highest degree of pitches, 0 for none.
fn greatest_degree(pitches: &[Pitch]) -> u8
    ensures { result ≡ greatest_degree pitches.now }
{
    let mut greatest = 0;
    for pitch in pitches {
        greatest = pitch.degree().max(greatest);
    }
    greatest
}

/// The first range line of a voice.
fn range_line(lines: &[RangeLine], v: u8) -> Option<RangeLine>
    ensures { result ≡ find (λ line. line.voice == v) lines.now }
{
    for line in lines {
        if line.voice == v {
            return Some(*line);
        }
    }
    None
}

/// How far a cantus reaches.
fn cantus_reach(pitches: &[Pitch]) -> Reach
    ensures { result ≡ cantus_reach pitches.now }
{
    Reach {
        low: least_degree(pitches),
        high: greatest_degree(pitches),
    }
}

/// How far a range reaches.
fn range_reach(line: RangeLine) -> Reach
    ensures { result ≡ range_reach line }
{
    Reach {
        low: line.low.degree(),
        high: line.high.degree(),
    }
}

/// How far a free voice reaches, by its first range line, which is that of all bars.
fn free_reach(lines: &[RangeLine], v: u8) -> Reach
    ensures { result ≡ free_reach lines.now v }
{
    match range_line(lines, v) {
        Some(line) => range_reach(line),
        None => Reach { low: 0, high: 0 },
    }
}

/// How far a voice reaches: the cantus by its pitches, a free voice by its range in all bars.
fn reach_of(ex: &Exercise, v: u8) -> Reach
    ensures { result ≡ reach_of ex.now v }
{
    if v == ex.cantus_voice {
        cantus_reach(ex.cantus.as_slice())
    } else {
        free_reach(ex.ranges.as_slice(), v)
    }
}

/// The clef of a voice. It depends on no setting, so that a sheet to fill in and its solution have
/// the same.
pub fn clef_of(ex: &Exercise, v: u8) -> Clef
    ensures { result ≡ clef_for ex.now v }
{
    best_clef(reach_of(ex, v))
}
