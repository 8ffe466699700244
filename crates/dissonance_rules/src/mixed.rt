//! S27 and S28: clashes of exercises in which each voice has a species of its own.

ghost use Rattle.std.specs.Prelude.{◌≡◌, ◌<◌, ◌≤◌, ◌-◌, ℕ};
ghost use Rattle.fux_grid.specs.Columns.{Columns};
ghost use Rattle.rule_law.specs.Places.{reading_ahead, reading_of};
ghost use Rattle.dissonance_rules.specs.Mixed as words;

use crate::ligatures::is_suspended;
use crate::passing::is_good_note;
use fux_grid::{Cell, Exercise, cell_of, is_mixed};
use rule_law::{
    ColumnsAround, begins_bar, cell_around, cells_ahead, is_clash, is_free, one_starts, starts,
};

/// Whether a note that `v` starts at column `i` is excused: `v` is free, and the note is good for
/// the species of `v`.
fn is_excused<C: ColumnsAround>(around: &C, ex: &Exercise, i: usize, v: u8) -> bool
    requires voices { ex.now.voices ≤ 4 }
    requires room { C.size around.now ≤ 192 }
    requires place { i < C.size around.now }
    ensures { (s : Columns) (first : ℕ) → C.show around.now ex.now s first → first ≤ i - 1 →
        result ≡ reading_of (words.is_excused ex.now) s i v }
{
    if !starts(cell_around(around, ex, v, i)) || !is_free(ex, v) {
        return false;
    }
    is_good_note(around, ex, i, v)
}

/// Whether within a bar two voices clash where one of them starts a note, or both do.
#[inline]
pub(crate) fn clash_anew(i: usize, now: &[Cell], v: usize, w: usize) -> bool
    ensures { result ≡ words.clash_anew i now.now v w }
{
    if begins_bar(i) || !one_starts(now, v, w) {
        return false;
    }
    is_clash(now, v, w)
}

/// S27: whether in a mixed exercise two voices clash anew within a bar, and no note that one of
/// them starts is excused.
pub(crate) fn clash_unexcused<C: ColumnsAround>(
    around: &C,
    ex: &Exercise,
    i: usize,
    v: u8,
    w: u8,
) -> bool
    requires voices { ex.now.voices ≤ 4 }
    requires room { C.size around.now ≤ 192 }
    requires place { i < C.size around.now }
    ensures { (s : Columns) (first : ℕ) → C.show around.now ex.now s first → first ≤ i - 1 →
        result ≡ reading_of (words.clash_unexcused ex.now) s i v w }
{
    if !is_mixed(ex) || !clash_anew(i, around.cells(ex, i), v as usize, w as usize) {
        return false;
    }
    !is_excused(around, ex, i, v) && !is_excused(around, ex, i, w)
}

/// Whether a voice starts a note in one of three columns.
fn starts_in_three(first: &[Cell], second: &[Cell], third: &[Cell], w: usize) -> bool
    ensures { result ≡ words.starts_in_three first.now second.now third.now w }
{
    starts(cell_of(first, w)) || starts(cell_of(second, w)) || starts(cell_of(third, w))
}

/// S28, for one way to name the voices: whether in a mixed exercise `v` is suspended against `w`,
/// and `w` starts a note in one of the three columns after, before `v` can resolve.
pub(crate) fn is_disturbed<C: ColumnsAround>(
    around: &C,
    ex: &Exercise,
    i: usize,
    v: u8,
    w: u8,
) -> bool
    requires voices { ex.now.voices ≤ 4 }
    requires place { i < 192 }
    ensures { (s : Columns) (first : ℕ) → C.show around.now ex.now s first → first ≤ i →
        result ≡ reading_ahead (words.is_disturbed ex.now) s i v w }
{
    if !is_mixed(ex) || !is_suspended(i, around.cells(ex, i), v as usize, w as usize) {
        return false;
    }
    starts_in_three(
        cells_ahead(around, ex, i, 0),
        cells_ahead(around, ex, i, 1),
        cells_ahead(around, ex, i, 2),
        w as usize,
    )
}
