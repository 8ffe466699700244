//! Columns of a list around one place: a whole score has them all, and a search the newest ones.

ghost use Rattle.std.specs.Prelude.{◌≡◌, ◌≤◌, ◌<◌, ◌+◌, ◌-◌, ◌^◌, [], ℕ, Bool, true, length, drop, slice_index_or};
ghost use Rattle.std.proofs.Common.{ap};
ghost use Rattle.fux_grid.specs.declared.exercise.Exercise.{Exercise as AnExercise};
ghost use Rattle.fux_grid.specs.Cells as cells;
ghost use Rattle.fux_grid.specs.Columns.{Columns, cell_at, earlier, line};
ghost use Rattle.rule_law.specs.Around.{AreKeptFrom};
ghost use Rattle.rule_law.specs.Terms as terms;
ghost use Rattle.rule_law.specs.Voices as voices;

use crate::newest::NewestColumns;
use crate::terms::previous_pitch;
use fux_grid::{Cell, Exercise, Score, cell_of};
use fux_pitch::Pitch;

/// The columns of a list from some column on, and what voices sounded before. Clauses speak of each
/// list that has these columns.
pub trait ColumnsAround {
    /// From a first column on these are the columns of a list, of an exercise's voices.
    ghost show: { Self → AnExercise → Columns → ℕ → Type 0 };

    /// How many columns the list has.
    ghost size: { Self → ℕ };

    /// How many columns the list has.
    fn count(&self) -> usize
        ensures { result ≡ size self.now };

    /// The cells of column `i`; none where the list has no such column.
    fn cells(&self, ex: &Exercise, i: usize) -> &[Cell]
        requires { ex.now.voices ≤ 4 }
        ensures { (s : Columns) (first : ℕ) → show self.now ex.now s first → first ≤ i
            → result.now ≡ slice_index_or s i [] };

    /// The pitch of the latest note of a free voice before column `i`.
    fn pitch_before(&self, ex: &Exercise, v: u8, i: usize) -> Option<Pitch>
        requires voices { ex.now.voices ≤ 4 }
        requires place { i < size self.now }
        ensures { (s : Columns) (first : ℕ) → show self.now ex.now s first → first ≤ i - 1
            → voices.is_free ex.now v ≡ true → result ≡ terms.previous_pitch (line v (earlier s i)) };

    /// The list whose columns these are has so many.
    ghost counted: { (it : Self) (ex : AnExercise) (s : Columns) (first : ℕ) → show it ex s first → size it ≡ length s };
}

impl ColumnsAround for Score {
    ghost show = { λ score ex s first. score.columns ≡ s };

    ghost size = { λ score. length score.columns };

    ghost counted = { λ score ex s first shown. ap length shown };

    fn count(&self) -> usize {
        self.len()
    }

    #[inline]
    fn cells(&self, _ex: &Exercise, i: usize) -> &[Cell] {
        if i >= self.len() {
            return &[];
        }
        self.column(i).as_slice()
    }

    fn pitch_before(&self, _ex: &Exercise, v: u8, i: usize) -> Option<Pitch> {
        previous_pitch(self, v, i)
    }
}

impl ColumnsAround for NewestColumns {
    ghost show = { λ kept ex s first. AreKeptFrom ex kept s first };

    ghost size = { λ kept. kept.len };

    ghost counted = { λ kept ex s first shown. shown.newest.count };

    #[inline]
    fn count(&self) -> usize {
        self.len
    }

    #[inline]
    fn cells(&self, ex: &Exercise, i: usize) -> &[Cell] {
        self.at(i, ex.voices as usize)
    }

    #[inline]
    fn pitch_before(&self, ex: &Exercise, v: u8, i: usize) -> Option<Pitch> {
        if i == 0 {
            return None;
        }
        cell_of(self.at(i - 1, ex.voices as usize), v as usize).pitch()
    }
}

/// The cells of the column that stands k columns before the one before column `i`; none where there
/// is no such column.
#[inline]
pub fn cells_behind<'a, C: ColumnsAround>(
    around: &'a C,
    ex: &Exercise,
    i: usize,
    k: usize,
) -> &'a [Cell]
    requires { ex.now.voices ≤ 4 }
    ensures { (s : Columns) (first : ℕ) → C.show around.now ex.now s first → first ≤ i - 1 - k → i
        ≤ length s → result.now ≡ slice_index_or (earlier s i) k [] }
{
    if k >= i {
        return &[];
    }
    around.cells(ex, i - 1 - k)
}

/// The cells of the column that comes k columns after the one after column `i`; none where there is
/// no such column.
#[inline]
pub fn cells_ahead<'a, C: ColumnsAround>(
    around: &'a C,
    ex: &Exercise,
    i: usize,
    k: usize,
) -> &'a [Cell]
    requires voices { ex.now.voices ≤ 4 }
    requires place { i + 1 + k < 2 ^ 32 }
    ensures { (s : Columns) (first : ℕ) → C.show around.now ex.now s first → first ≤ i + 1 + k
        → result.now ≡ slice_index_or (drop (i + 1) s) k [] }
{
    around.cells(ex, i + 1 + k)
}

/// The cell of a voice at column `i`; a rest where there is no such column.
#[inline]
pub fn cell_around<C: ColumnsAround>(around: &C, ex: &Exercise, v: u8, i: usize) -> Cell
    requires { ex.now.voices ≤ 4 }
    ensures { (s : Columns) (first : ℕ) → C.show around.now ex.now s first → first ≤ i → result
        ≡ cell_at s v i }
{
    cell_of(around.cells(ex, i), v as usize)
}

/// The cell of a voice there, in the column that stands k columns before the one before column `i`.
#[inline]
pub fn cell_behind<C: ColumnsAround>(around: &C, ex: &Exercise, v: u8, i: usize, k: usize) -> Cell
    requires { ex.now.voices ≤ 4 }
    ensures { (s : Columns) (first : ℕ) → C.show around.now ex.now s first → first ≤ i - 1 - k → i
        ≤ length s → result ≡ cell_at (earlier s i) v k }
{
    cell_of(cells_behind(around, ex, i, k), v as usize)
}
