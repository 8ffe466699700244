//! The rules, each over the cells that it reads.

ghost use Rattle.std.specs.Prelude.{◌≡◌, ◌<◌};
ghost use Rattle.fux_pitch.specs.Size.{IsShort};
ghost use Rattle.fux_grid.specs.Exercises as exercises;
ghost use Rattle.fux_grid.specs.Exercises.{IsValid, IsFree, columns_in};
ghost use Rattle.fux_grid.specs.Menus as menus;
ghost use Rattle.rhythm_cadence.specs.Rows as rows;

use fux_grid::{Cell, Exercise, bar_of, cell_of, range};
use fux_pitch::{Interval, Mode, Pitch, final_letter, in_gamut, is_perfect, semitone};
use rule_law::{begins_bar, interval_in, is_reduced_to, lowest, starts};

/// The pitch that a voice brings into a bar: one that starts, or that is held over the bar line.
#[inline]
fn pitch_brought(i: usize, cell: Cell) -> Option<Pitch>
    ensures { result ≡ rows.pitch_brought i cell }
{
    match cell {
        Cell::Rest => None,
        Cell::Hold(p) => { if begins_bar(i) { Some(p) } else { None } }
        Cell::Start(p) => Some(p),
    }
}

/// Whether a pitch lies from one to another.
fn is_between(low: Pitch, high: Pitch, p: Pitch) -> bool
    ensures { result ≡ menus.is_between low high p }
{
    semitone(low) <= semitone(p) && semitone(p) <= semitone(high)
}

/// Whether a pitch lies outside the range of a voice in the bar of column `i`.
fn is_out_of_range(ex: &Exercise, v: u8, i: usize, p: Pitch) -> bool
    requires valid { IsValid ex.now }
    requires free { IsFree ex.now v }
    requires place { i < columns_in ex.now }
    ensures { result ≡ rows.is_outside (menus.range_of ex.now v (exercises.bar_of i)) p }
{
    let (low, high) = range(ex, v, bar_of(i));
    !is_between(low, high, p)
}

/// S1: whether the voice brings into the bar a pitch outside its range there.
pub fn leaves_range(ex: &Exercise, v: u8, i: usize, cell: Cell) -> bool
    requires valid { IsValid ex.now }
    requires free { IsFree ex.now v }
    requires place { i < columns_in ex.now }
    ensures { result ≡ rows.leaves_range ex.now v i cell }
{
    match pitch_brought(i, cell) {
        Some(p) => is_out_of_range(ex, v, i, p),
        None => false,
    }
}

/// S2: whether it brings one that isn't in the gamut of the bar.
pub fn leaves_gamut(ex: &Exercise, i: usize, cell: Cell) -> bool
    requires valid { IsValid ex.now }
    requires place { i < columns_in ex.now }
    ensures { result ≡ rows.leaves_gamut ex.now i cell }
{
    match pitch_brought(i, cell) {
        Some(p) => !in_gamut(ex.mode, bar_of(i), ex.bars, p),
        None => false,
    }
}

/// Whether the first note of a voice fits where `u` is the lowest voice that sounds.
fn fits_opening(ex: &Exercise, now: &[Cell], v: usize, u: Option<usize>) -> bool
    ensures { result ≡ rows.fits_opening ex.now now.now v u }
{
    match u {
        None => false,
        Some(u) if u == v => match interval_in(now, v, ex.cantus_voice as usize) {
            Some(size) => is_reduced_to(size, 0, 0),
            None => false,
        },
        Some(u) => match interval_in(now, v, u) {
            Some(size) => is_perfect(size),
            None => false,
        },
    }
}

/// S12: whether a voice starts its first note where it doesn't fit.
pub fn opens_badly(ex: &Exercise, previous: Option<Pitch>, now: &[Cell], v: u8) -> bool
    ensures { result ≡ rows.opens_badly ex.now previous now.now v }
{
    let v = v as usize;
    if previous.is_some() || !starts(cell_of(now, v)) {
        return false;
    }
    !fits_opening(ex, now, v, lowest(now))
}

/// Whether the column begins the last bar.
#[inline]
pub fn begins_last_bar(ex: &Exercise, i: usize) -> bool
    ensures { result ≡ rows.begins_last_bar ex.now i }
{
    begins_bar(i) && i / 8 + 1 == ex.bars as usize
}

/// Whether, of so many voices, voice 0 and another may end with this interval.
#[inline]
pub fn may_end(voices: u8, size: Interval) -> bool
    requires { IsShort size }
    ensures { result ≡ rows.may_end voices size }
{
    if is_reduced_to(size, 0, 0) {
        return true;
    }
    voices >= 3 && (is_reduced_to(size, 4, 7) || is_reduced_to(size, 2, 4))
}

/// S13: whether voice 0 and another end with an interval that doesn't fit.
pub fn ends_badly(ex: &Exercise, i: usize, now: &[Cell], w: u8) -> bool
    ensures { result ≡ rows.ends_badly ex.now i now.now w }
{
    if !begins_last_bar(ex, i) {
        return false;
    }
    match interval_in(now, 0, w as usize) {
        Some(size) => !may_end(ex.voices, size),
        None => true,
    }
}

/// Whether the pitch is the final of a mode, in any octave.
#[inline]
pub fn is_final_in(mode: Mode, p: Pitch) -> bool
    ensures { result ≡ rows.is_final_in mode p }
{
    p.degree() % 7 == final_letter(mode) && p.alter() == 0
}

/// Whether the pitch is the final of the exercise's mode, in any octave.
#[inline]
pub fn is_final(ex: &Exercise, p: Pitch) -> bool
    ensures { result ≡ rows.is_final ex.now p }
{
    is_final_in(ex.mode, p)
}

/// S24: whether voice 0 doesn't end on the final.
pub fn lacks_final(ex: &Exercise, i: usize, now: &[Cell]) -> bool
    ensures { result ≡ rows.lacks_final ex.now i now.now }
{
    if !begins_last_bar(ex, i) {
        return false;
    }
    match cell_of(now, 0).pitch() {
        Some(p) => !is_final(ex, p),
        None => true,
    }
}
