//! The tolls Q15 and Q16: ligatures that are missing, and bars that repeat the bar before.

ghost use Rattle.std.specs.Prelude.{◌≡◌, ◌-◌, ◌<◌, ◌≤◌, ◌&&◌, ℕ, length, nat_lt, true};
ghost use Rattle.fux_grid.specs.Cells.{same_cell};
ghost use Rattle.fux_grid.specs.Columns.{Columns, cell_at};
ghost use Rattle.rule_law.specs.Bars.{begins_bar as begins};
ghost use Rattle.rule_law.specs.Places.{reading_of, settled_by};
ghost use Rattle.rule_law.specs.Voices as voices_words;
ghost use Rattle.rhythm_cadence.specs.Patterns as words;
ghost use Rattle.rhythm_cadence.specs.Patterns.{pattern_enough, pattern_toll};

use crate::bar_cells::bar_behind;
use fux_grid::{Cell, Exercise, Score, cell_of, slot_of, species_of};
use rule_law::{ColumnsAround, begins_bar, begins_inner_bar, cell_around, is_free, starts};

/// Whether a voice is free and of species 4, and starts a note at the beginning of a bar that is
/// neither the first nor the last.
fn lacks_ligature(ex: &Exercise, i: usize, now: &[Cell], v: u8) -> bool
    ensures { result ≡ (voices_words.is_free ex.now v
        && (nat_lt v ex.now.voices && words.lacks_ligature ex.now i now.now v)) }
{
    is_free(ex, v)
        && v < ex.voices
        && begins_inner_bar(ex, i)
        && species_of(ex, v) == 4
        && starts(cell_of(now, v as usize))
}

/// Q15: how many free voices of species 4 start a note at the beginning of a bar that is neither
/// the first nor the last.
#[tactic(auto, using(crate::proofs::Quiet::none_missing), unfolding(crate::specs::Patterns::missing_ligatures))]
pub fn missing_ligatures(ex: &Exercise, i: usize, now: &[Cell]) -> u32
    ensures value { result ≡ words.missing_ligatures ex.now i now.now }
    ensures bound { result ≤ 4 }
{
    if !begins_inner_bar(ex, i) {
        return 0;
    }
    u32::from(lacks_ligature(ex, i, now, 0))
        + u32::from(lacks_ligature(ex, i, now, 1))
        + u32::from(lacks_ligature(ex, i, now, 2))
        + u32::from(lacks_ligature(ex, i, now, 3))
}

/// Whether the cells of two bars, from the newest to the oldest, are the same.
fn same_cells(a: &[Cell; 8], b: &[Cell; 8]) -> bool
    ensures { result ≡ words.same_cells a.now b.now }
{
    a[7].is_same(b[7])
        && a[6].is_same(b[6])
        && a[5].is_same(b[5])
        && a[4].is_same(b[4])
        && a[3].is_same(b[3])
        && a[2].is_same(b[2])
        && a[1].is_same(b[1])
        && a[0].is_same(b[0])
}

/// Whether a voice has at column `i` the cell that it had a bar before.
#[inline]
fn repeats_cell<C: ColumnsAround>(around: &C, ex: &Exercise, i: usize, v: u8) -> bool
    requires voices { ex.now.voices ≤ 4 }
    requires second { 8 ≤ i }
    ensures { (s : Columns) (first : ℕ) → C.show around.now ex.now s first → first ≤ i - 8 →
        result ≡ same_cell (cell_at s v (i - 8)) (cell_at s v i) }
{
    let before = cell_around(around, ex, v, i - 8);
    before.is_same(cell_around(around, ex, v, i))
}

/// Whether the bar that begins at column `i` is whole and repeats the bar before. Where its first
/// cell, or the one in its middle, is another than then, no more of the bars is read.
fn repeats_bar<C: ColumnsAround>(around: &C, ex: &Exercise, i: usize, v: u8) -> bool
    requires voices { ex.now.voices ≤ 4 }
    requires second { 8 ≤ i }
    requires few { i < 192 }
    requires place { i < C.size around.now }
    ensures { (s : Columns) (first : ℕ) → C.show around.now ex.now s first → first ≤ i - 8 →
        result ≡ reading_of (λ _. words.repeats_bar v) s i }
{
    if i + 8 > around.count() {
        return false;
    }
    if !repeats_cell(around, ex, i, v) {
        return false;
    }
    if !repeats_cell(around, ex, i + 4, v) {
        return false;
    }
    same_cells(
        &bar_behind(around, ex, v, i),
        &bar_behind(around, ex, v, i + 8),
    )
}

/// Whether a voice is free, of species 2 to 5, and repeats the bar before in the bar that begins at
/// column `i`.
fn is_pattern<C: ColumnsAround>(around: &C, ex: &Exercise, i: usize, v: u8) -> bool
    requires voices { ex.now.voices ≤ 4 }
    requires bar { begins i ≡ true }
    requires second { 8 ≤ i }
    requires few { i < 192 }
    requires place { i < C.size around.now }
    ensures { (s : Columns) (first : ℕ) → C.show around.now ex.now s first → first ≤ i - 8 →
        result ≡ (voices_words.is_free ex.now v
        && (nat_lt v ex.now.voices && reading_of (words.is_pattern v ex.now) s i)) }
{
    if !is_free(ex, v) || v >= ex.voices || species_of(ex, v) < 2 {
        return false;
    }
    repeats_bar(around, ex, i, v)
}

/// Q16: where a bar begins at column `i`, how many free voices of species 2 to 5 repeat the bar
/// before in it.
pub fn pattern_cost<C: ColumnsAround>(around: &C, ex: &Exercise, i: usize) -> u32
    requires voices { ex.now.voices ≤ 4 }
    requires few { i < 192 }
    requires place { i < C.size around.now }
    ensures value { (s : Columns) (first : ℕ) → C.show around.now ex.now s first → first ≤ i - 8 →
        result ≡ reading_of (pattern_toll ex.now) s i }
    ensures bound { result ≤ 4 }
{
    if !begins_bar(i) || i < 8 {
        return 0;
    }
    u32::from(is_pattern(around, ex, i, 0))
        + u32::from(is_pattern(around, ex, i, 1))
        + u32::from(is_pattern(around, ex, i, 2))
        + u32::from(is_pattern(around, ex, i, 3))
}

/// Whether no column that follows can change that: the bar is whole, or none begins here.
pub fn is_pattern_settled(ex: &Exercise, score: &Score, i: usize) -> bool
    requires { i < length score.now.columns }
    ensures { result ≡ settled_by (pattern_enough ex.now) score.now.columns i }
{
    score.kept();
    !begins_bar(i) || i + 7 < score.len()
}

/// Whether column `i` may settle Q16, at the beginning of its bar: it ends a bar that isn't the
/// first.
pub(crate) fn settles_pattern(i: usize) -> bool
    ensures { result ≡ words.settles_pattern i }
{
    slot_of(i) == 7 && i >= 15
}
