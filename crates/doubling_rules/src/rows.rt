//! The rule and the tolls over one column.

ghost use Rattle.std.specs.Prelude.{◌≡◌, ◌<◌, ◌≤◌, ◌&&◌, nat_lt};
ghost use Rattle.fux_pitch.specs.Size.{IsShort};
ghost use Rattle.fux_grid.specs.Cells.{cell_in};
ghost use Rattle.fux_grid.specs.Exercises.{IsFree, IsValid, columns_in};
ghost use Rattle.rule_law.specs.Voices as voices_words;
ghost use Rattle.doubling_rules.specs.Rows as rows;

use fux_grid::{Cell, Exercise, VoiceSet, bar_of, cell_of, is_free, range};
use fux_pitch::{Interval, Pitch, reduce};
use rule_law::{
    begins_bar, begins_inner_bar, interval_in, is_leading, is_sounding, one_starts, pair_of,
};

/// Whether a voice sounds the leading note, in any octave.
fn sounds_leading(ex: &Exercise, now: &[Cell], v: usize) -> bool
    ensures { result ≡ rows.sounds_leading ex.now now.now v }
{
    match cell_of(now, v).pitch() {
        Some(p) => is_leading(ex.mode, p),
        None => false,
    }
}

/// Whether column `i` is of the bar before the last.
pub(crate) fn is_before_last_bar(ex: &Exercise, i: usize) -> bool
    ensures { result ≡ rows.is_before_last_bar ex.now i }
{
    i / 8 + 2 == usize::from(ex.bars)
}

/// S23: whether in the bar before the last two voices both sound the leading note, and one of them
/// starts it.
pub fn double_leading(ex: &Exercise, i: usize, now: &[Cell], v: usize, w: usize) -> bool
    ensures { result ≡ rows.double_leading ex.now i now.now v w }
{
    if !is_before_last_bar(ex, i) {
        return false;
    }
    sounds_leading(ex, now, v) && sounds_leading(ex, now, w) && one_starts(now, v, w)
}

/// Whether S23 is broken at column `i`, whose cells are `now`, for a set of two voices.
pub fn doubling_breaks(ex: &Exercise, voices: VoiceSet, i: usize, now: &[Cell]) -> bool
    ensures { result ≡ rows.breaks_in_column ex.now voices.bits i now.now }
{
    let Some((v, w)) = pair_of(voices) else {
        return false;
    };
    w < ex.voices && double_leading(ex, i, now, v as usize, w as usize)
}

/// Whether the interval is a third, of any size, but for octaves.
fn is_third(size: Interval) -> bool
    requires { IsShort size }
    ensures { result ≡ rows.is_third size }
{
    reduce(size).degrees == 2
}

/// Whether a voice sounds a third over voice 0.
fn sounds_third(now: &[Cell], w: usize) -> bool
    ensures { result ≡ rows.sounds_third now.now w }
{
    match interval_in(now, 0, w) {
        Some(size) => is_third(size),
        None => false,
    }
}

/// How many of the other voices do.
fn count_thirds(now: &[Cell]) -> u32
    ensures value { result ≡ rows.count_thirds now.now }
    ensures bound { result ≤ 3 }
{
    u32::from(sounds_third(now, 1))
        + u32::from(sounds_third(now, 2))
        + u32::from(sounds_third(now, 3))
}

/// Q3: whether, in three or four voices, voice 0 sounds at the beginning of a bar that is neither
/// the first nor the last, and no voice sounds a third with it.
pub fn lacks_third(ex: &Exercise, i: usize, now: &[Cell]) -> bool
    ensures { result ≡ rows.lacks_third ex.now i now.now }
{
    if ex.voices < 3 || !begins_inner_bar(ex, i) {
        return false;
    }
    is_sounding(cell_of(now, 0)) && count_thirds(now) == 0
}

/// Q5: whether, in three or four voices, two voices or more sound a third with voice 0 at the
/// beginning of a bar.
pub fn doubles_third(ex: &Exercise, i: usize, now: &[Cell]) -> bool
    ensures { result ≡ rows.doubles_third ex.now i now.now }
{
    ex.voices >= 3 && begins_bar(i) && count_thirds(now) >= 2
}

/// Whether two voices both sound, more degrees apart than so many.
fn are_far_apart(most: u16, now: &[Cell], v: usize, w: usize) -> bool
    ensures { result ≡ rows.are_far_apart most now.now v w }
{
    match interval_in(now, v, w) {
        Some(size) => size.degrees.unsigned_abs() > most,
        None => false,
    }
}

/// Q4: how many pairs of neighboring voices lie too far apart at the beginning of a bar: the two
/// lowest more than 11 degrees, others more than 7.
pub fn wide_pairs(i: usize, now: &[Cell]) -> u32
    ensures value { result ≡ rows.wide_pairs i now.now }
    ensures bound { result ≤ 3 }
{
    if !begins_bar(i) {
        return 0;
    }
    u32::from(are_far_apart(11, now, 0, 1))
        + u32::from(are_far_apart(7, now, 1, 2))
        + u32::from(are_far_apart(7, now, 2, 3))
}

/// Whether a pitch lies outside the middle sixth of a range.
fn is_far_from_middle(low: Pitch, high: Pitch, p: Pitch) -> bool
    ensures { result ≡ rows.is_far_from low high p }
{
    let middle = (u16::from(low.degree()) + u16::from(high.degree())) / 2;
    let degree = u16::from(p.degree());
    degree < middle.saturating_sub(2) || degree > middle + 3
}

/// Whether a note starts in the cell of a free voice, outside the middle sixth of its range in the
/// bar.
fn strays(ex: &Exercise, v: u8, i: usize, cell: Cell) -> bool
    requires valid { IsValid ex.now }
    requires free { IsFree ex.now v }
    requires place { i < columns_in ex.now }
    ensures { result ≡ rows.strays ex.now v i cell }
{
    let Cell::Start(p) = cell else {
        return false;
    };
    let (low, high) = range(ex, v, bar_of(i));
    is_far_from_middle(low, high, p)
}

/// Whether a voice is free, and a note strays in it.
fn strays_in(ex: &Exercise, v: u8, i: usize, now: &[Cell]) -> bool
    requires valid { IsValid ex.now }
    requires place { i < columns_in ex.now }
    ensures { result ≡ (voices_words.is_free ex.now v
        && (nat_lt v ex.now.voices && rows.strays ex.now v i (cell_in now.now v))) }
{
    is_free(ex, v) && strays(ex, v, i, cell_of(now, v as usize))
}

/// Q6: in how many free voices a note starts outside the middle sixth of the voice's range in the
/// bar.
#[tactic(auto, unfolding(crate::specs::Rows::straying_notes))]
pub fn straying_notes(ex: &Exercise, i: usize, now: &[Cell]) -> u32
    requires valid { IsValid ex.now }
    requires place { i < columns_in ex.now }
    ensures value { result ≡ rows.straying_notes ex.now i now.now }
    ensures bound { result ≤ 4 }
{
    u32::from(strays_in(ex, 0, i, now))
        + u32::from(strays_in(ex, 1, i, now))
        + u32::from(strays_in(ex, 2, i, now))
        + u32::from(strays_in(ex, 3, i, now))
}

/// What the tolls Q3 to Q6 cost at column `i`, whose cells are `now`, each by its number.
pub fn doubling_cost(toll: u8, ex: &Exercise, i: usize, now: &[Cell]) -> u32
    requires valid { IsValid ex.now }
    requires place { i < columns_in ex.now }
    ensures value { result ≡ rows.cost_of_column toll ex.now i now.now }
    ensures bound { result ≤ 4 }
{
    match toll {
        3 => u32::from(lacks_third(ex, i, now)),
        4 => wide_pairs(i, now),
        5 => u32::from(doubles_third(ex, i, now)),
        _ => straying_notes(ex, i, now),
    }
}
