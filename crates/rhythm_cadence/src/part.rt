//! The part of a state that reads bar shapes.

ghost use Rattle.std.specs.Prelude.{◌≡◌, ◌==◌, ◌&&◌, ◌||◌, ◌^◌, ◌<◌, ◌≤◌, ◌∷◌, ◌++◌, [], List, length, nat_lt, not};
ghost use Rattle.std.specs.Bool.{OnTrue};
ghost use Rattle.fux_grid.specs.declared.cell.Cell.{Cell};
ghost use Rattle.fux_grid.specs.declared.exercise.Exercise.{Exercise};
ghost use Rattle.fux_grid.specs.Columns.{Columns};
ghost use Rattle.fux_grid.specs.Exercises.{IsFree, IsValid, columns_in};
ghost use Rattle.rule_law.specs.Bars as bars;
ghost use Rattle.rule_law.specs.Voices as voices_words;
ghost use Rattle.rhythm_cadence.specs.Parts.{IsShapesOf, shapes_after};
ghost use Rattle.rhythm_cadence.specs.Told.{LeavesShapes, have_left, leaves_by_cell};

use crate::letter_sets::fitting_shapes;
use fux_grid::{Cell, Exercise, VoiceSet, bar_of, cell_of, slot_of, species_of};
use rule_law::{begins_bar, is_free};

/// For each of four voices the shapes that it may still have in the bar of the newest column: bit k
/// of a voice's set is shape k of its species and bar. Nothing is meant of the cantus, nor before
/// the first column.
#[derive(Clone, Copy, Debug, PartialEq, Eq)]
pub struct BarShapes {
    pub possible: [u16; 4],
}

/// The part before the first column.
pub fn unbegun() -> BarShapes
    ensures { (ex : Exercise) → IsShapesOf ex [] result }
{
    BarShapes { possible: [0; 4] }
}

/// The shapes that a voice may still have with one more cell.
#[inline]
pub(crate) fn kept(possible: u16, ex: &Exercise, i: usize, cell: Cell, v: u8) -> u16
    requires valid { IsValid ex.now }
    requires place { i < columns_in ex.now }
    ensures { result ≡ shapes_after ex.now v i possible cell }
{
    let fitting = fitting_shapes(species_of(ex, v), bar_of(i), ex.bars, slot_of(i), cell);
    if begins_bar(i) {
        fitting
    } else {
        possible & fitting
    }
}

/// Takes in one more cell of a voice, where it is free; nothing is meant of another.
#[inline]
fn keep_if_free(possible: &mut u16, ex: &Exercise, i: usize, cell: Cell, v: u8)
    requires valid { IsValid ex.now }
    requires place { i < columns_in ex.now }
    ensures { IsFree ex.now v → possible.new ≡ shapes_after ex.now v i possible.old cell }
{
    if is_free(ex, v) {
        *possible = kept(*possible, ex, i, cell, v);
    }
}

/// Takes in one more column, which stands at place i.
#[inline]
pub fn note(part: &mut BarShapes, ex: &Exercise, i: usize, col: &[Cell])
    requires valid { IsValid ex.now }
    requires place { i < columns_in ex.now }
    ensures { (p : List (List Cell)) → length p ≡ i → IsShapesOf ex.now p part.old
        → IsShapesOf ex.now (p ++ col.now ∷ []) part.new }
{
    for v in 0..ex.voices {
        let cell = cell_of(col, v as usize);
        keep_if_free(&mut part.possible[v as usize], ex, i, cell, v);
    }
}

/// Whether column `i` begins a bar, or some shapes are still possible before it.
#[inline]
fn has_begun_shapes(i: usize, possible: u16) -> bool
    ensures { result ≡ (bars.begins_bar i || not (possible == 0)) }
{
    begins_bar(i) || possible != 0
}

/// Whether a free voice leaves the last of the shapes that it may still have in its bar with a cell
/// at column `i`: then it breaks S3 in any column with that cell, and it didn't before.
pub fn leaves_last_shape(part: &BarShapes, ex: &Exercise, i: usize, cell: Cell, v: u8) -> bool
    requires voice { v < 4 }
    requires valid { IsValid ex.now }
    requires place { i < columns_in ex.now }
    ensures { OnTrue result (LeavesShapes ex.now part.now i v cell) }
{
    if v >= ex.voices || !is_free(ex, v) {
        return false;
    }
    let possible = part.possible[v as usize];
    if !has_begun_shapes(i, possible) || kept(possible, ex, i, cell, v) != 0 {
        return false;
    }
    true
}

/// Whether a free voice of the exercise has no shape left.
#[inline]
fn has_none_left(possible: u16, ex: &Exercise, v: u8) -> bool
    ensures { result
        ≡ (nat_lt v ex.now.voices && (voices_words.is_free ex.now v && possible == 0)) }
{
    v < ex.voices && is_free(ex, v) && possible == 0
}

/// Whether a voice has no shape left in its bar with a cell at column `i`, if it is there and free:
/// behind an orderly list it breaks S3 just then, in any column with that cell.
pub fn leaves_by_cell(part: &BarShapes, ex: &Exercise, i: usize, cell: Cell, v: u8) -> bool
    requires voice { v < 4 }
    requires valid { IsValid ex.now }
    requires place { i < columns_in ex.now }
    ensures { (p : Columns) → length p ≡ i → IsShapesOf ex.now p part.now →
        result ≡ leaves_by_cell ex.now v p cell }
{
    let possible = part.possible[v as usize];
    let left = kept(possible, ex, i, cell, v);
    has_none_left(left, ex, v)
}

/// S3 of one voice: whether it has left the shapes of the newest bar.
#[inline(always)]
fn breaks_shape(part: &BarShapes, ex: &Exercise, v: u8) -> bool
    requires { v < 4 }
    ensures { (p : Columns) → 0 < length p → IsShapesOf ex.now p part.now →
        result ≡ have_left ex.now (2 ^ v) p }
{
    let possible = part.possible;
    has_none_left(possible[v as usize], ex, v)
}

/// S3: whether the one voice of a set has left the shapes of the newest bar.
#[inline(always)]
pub(crate) fn breaks_shapes(part: &BarShapes, ex: &Exercise, voices: VoiceSet) -> bool
    ensures { (p : Columns) → 0 < length p → IsShapesOf ex.now p part.now →
        result ≡ have_left ex.now voices.bits p }
{
    match voices.bits {
        1 => breaks_shape(part, ex, 0),
        2 => breaks_shape(part, ex, 1),
        4 => breaks_shape(part, ex, 2),
        8 => breaks_shape(part, ex, 3),
        _ => false,
    }
}
