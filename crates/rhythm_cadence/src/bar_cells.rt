//! The cells of one voice in the bar before a column.

ghost use Rattle.std.specs.Prelude.{◌≡◌, ◌-◌, ◌≤◌, ℕ};
ghost use Rattle.fux_grid.specs.Columns.{Columns};
ghost use Rattle.rhythm_cadence.specs.BarCells as words;

use fux_grid::{Cell, Exercise};
use rule_law::{ColumnsAround, cell_around};

/// The cells of a voice in the eight columns before column `i`, from the newest to the oldest.
pub(crate) fn bar_behind<C: ColumnsAround>(around: &C, ex: &Exercise, v: u8, i: usize) -> [Cell; 8]
    requires voices { ex.now.voices ≤ 4 }
    requires place { 8 ≤ i }
    ensures { (s : Columns) (first : ℕ) → C.show around.now ex.now s first → first ≤ i - 8 →
        result ≡ words.bar_behind s v i }
{
    [
        cell_around(around, ex, v, i - 1),
        cell_around(around, ex, v, i - 2),
        cell_around(around, ex, v, i - 3),
        cell_around(around, ex, v, i - 4),
        cell_around(around, ex, v, i - 5),
        cell_around(around, ex, v, i - 6),
        cell_around(around, ex, v, i - 7),
        cell_around(around, ex, v, i - 8),
    ]
}
