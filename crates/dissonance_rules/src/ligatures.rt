//! S19, S20 and S21: a voice that holds a note over a bar line and clashes there.

ghost use Rattle.std.specs.Prelude.{◌≡◌, ◌<◌, ◌≤◌, ◌-◌, ℕ, length};
ghost use Rattle.fux_grid.specs.Columns.{Columns};
ghost use Rattle.rule_law.specs.Places.{reading_ahead, reading_back};
ghost use Rattle.rule_law.specs.Terms as terms;
ghost use Rattle.dissonance_rules.specs.Ligatures as words;

use fux_grid::{Cell, Exercise, cell_of};
use rule_law::{
    ColumnsAround, begins_bar, cells_ahead, cells_behind, interval_in, is_clash, is_clean, is_free,
    lies_above, lowest, starts,
};

/// Whether at the beginning of a bar `v` holds a note, and clashes with `w`.
pub fn is_suspended(i: usize, now: &[Cell], v: usize, w: usize) -> bool
    ensures { result ≡ words.is_suspended i now.now v w }
{
    begins_bar(i) && cell_of(now, v).is_hold() && is_clash(now, v, w)
}

/// Whether a free voice holds a note in a column.
#[inline]
fn holds_free(ex: &Exercise, now: &[Cell], v: u8) -> bool
    ensures { result ≡ words.holds_free ex.now now.now v }
{
    is_free(ex, v) && cell_of(now, v as usize).is_hold()
}

/// Whether some free voice does.
#[inline]
pub(crate) fn some_free_hold(ex: &Exercise, now: &[Cell]) -> bool
    ensures { result ≡ words.some_free_hold ex.now now.now }
{
    holds_free(ex, now, 0)
        || holds_free(ex, now, 1)
        || holds_free(ex, now, 2)
        || holds_free(ex, now, 3)
}

/// Whether a voice is unprepared after three columns, the newest first: it started a note in one of
/// them, or it isn't clean in the newest.
pub fn is_unprepared(newest: &[Cell], second: &[Cell], third: &[Cell], v: usize) -> bool
    ensures { result ≡ words.is_unprepared newest.now second.now third.now v }
{
    if starts(cell_of(newest, v)) || starts(cell_of(second, v)) || starts(cell_of(third, v)) {
        return true;
    }
    !is_clean(newest, v)
}

/// S19, for one way to name the voices: whether `v` is suspended over `w`, and its note started in
/// one of the three columns before, or it wasn't clean in the last of them.
pub(crate) fn lacks_preparation<C: ColumnsAround>(
    around: &C,
    ex: &Exercise,
    i: usize,
    v: u8,
    w: u8,
) -> bool
    requires { ex.now.voices ≤ 4 }
    ensures { (s : Columns) (first : ℕ) → C.show around.now ex.now s first → first ≤ i - 3 → i
        < length s → result ≡ reading_back words.lacks_preparation s i v w }
{
    if !is_suspended(i, around.cells(ex, i), v as usize, w as usize) {
        return false;
    }
    is_unprepared(
        cells_behind(around, ex, i, 0),
        cells_behind(around, ex, i, 1),
        cells_behind(around, ex, i, 2),
        v as usize,
    )
}

/// Whether a suspended voice resolves: it is held in the next column, and in the fourth a note
/// starts, one degree below, where it is clean.
pub fn resolves(now: &[Cell], next: &[Cell], fourth: &[Cell], v: usize) -> bool
    ensures { result ≡ words.resolves now.now next.now fourth.now v }
{
    let resolution = cell_of(fourth, v);
    if !cell_of(next, v).is_hold() || !starts(resolution) {
        return false;
    }
    lies_above(1, cell_of(now, v).pitch(), resolution.pitch()) && is_clean(fourth, v)
}

/// S20, for one way to name the voices: whether `v` is suspended over `w` and doesn't resolve.
pub(crate) fn lacks_resolution<C: ColumnsAround>(
    around: &C,
    ex: &Exercise,
    i: usize,
    v: u8,
    w: u8,
) -> bool
    requires voices { ex.now.voices ≤ 4 }
    requires place { i < 192 }
    ensures { (s : Columns) (first : ℕ) → C.show around.now ex.now s first → first ≤ i →
        result ≡ reading_ahead words.lacks_resolution s i v w }
{
    let now = around.cells(ex, i);
    if !is_suspended(i, now, v as usize, w as usize) {
        return false;
    }
    !resolves(
        now,
        cells_ahead(around, ex, i, 0),
        cells_ahead(around, ex, i, 3),
        v as usize,
    )
}

/// Whether a voice is the lowest that sounds.
fn is_lowest(now: &[Cell], v: usize) -> bool
    ensures { result ≡ terms.is_lowest now.now v }
{
    match lowest(now) {
        Some(w) => w == v,
        None => false,
    }
}

/// Whether a clash of so many degrees is good over the lowest voice: a seventh, a fourth or a
/// ninth, and no second.
fn is_good_above(degrees: u16) -> bool
    ensures { result ≡ words.is_good_above degrees }
{
    let left = degrees % 7;
    left == 6 || left == 3 || left == 1 && degrees >= 8
}

/// Whether `v` lies over `w`, the lowest voice, at a size that isn't good there.
fn is_bad_above(now: &[Cell], v: usize, w: usize) -> bool
    ensures { result ≡ words.is_bad_above now.now v w }
{
    if !is_lowest(now, w) {
        return false;
    }
    match interval_in(now, v, w) {
        Some(size) => !is_good_above(size.degrees.unsigned_abs()),
        None => false,
    }
}

/// Whether `v` is the lowest voice, and `w` lies over it at another size than a second or a ninth.
fn is_bad_below(now: &[Cell], v: usize, w: usize) -> bool
    ensures { result ≡ words.is_bad_below now.now v w }
{
    if !is_lowest(now, v) {
        return false;
    }
    match interval_in(now, v, w) {
        Some(size) => size.degrees.unsigned_abs() % 7 != 1,
        None => false,
    }
}

/// S21, for one way to name the voices: whether `v` is suspended against `w`, where one of them is
/// the lowest voice, and they lie so many degrees apart that the clash isn't a good one.
pub fn is_bad_suspension(i: usize, now: &[Cell], v: usize, w: usize) -> bool
    ensures { result ≡ words.is_bad_suspension i now.now v w }
{
    is_suspended(i, now, v, w) && (is_bad_above(now, v, w) || is_bad_below(now, v, w))
}
