//! Gauges, and the columns ahead in which a voice may start a note.

ghost use Rattle.std.specs.Prelude.{◌≡◌, ◌<◌, ◌≤◌, ◌∷◌, [], List, length};
ghost use Rattle.fux_grid.specs.declared.cell.Cell.{Cell};
ghost use Rattle.fux_grid.specs.Exercises.{IsValid, columns_in};
ghost use Rattle.rule_law.specs.Gauges as words;
ghost use Rattle.rule_law.specs.Gauges.{GaugeRow, KeepsGaugeLaws};

use fux_grid::{Cell, Exercise, can_start};

/// What is kept of a line for a value of the whole line of a free voice, which is known to be at
/// least so much while the line goes on. A clause sees the cells of the line from the newest to the
/// oldest.
pub trait Gauge {
    /// What is kept of the cells of a voice.
    type State: Copy;

    /// The gauge's number, the value of a line, and what each line that begins with given cells has
    /// at least.
    ghost row: { GaugeRow };

    /// From a prefix of a setting to a longer one the least value never falls, and in a setting it
    /// is the value.
    ghost keeps: { KeepsGaugeLaws row };

    /// The state is that of these cells.
    ghost is_of: { List Cell → Self.State → Type 0 };

    /// Before the first column.
    fn start(&self) -> Self::State
        ensures { is_of [] result };

    /// Takes in one more cell of voice `v`, that of column `i`.
    fn step(&self, ex: &Exercise, v: u8, i: usize, s: &mut Self::State, c: Cell)
        requires valid { IsValid ex.now }
        requires place { i < columns_in ex.now }
        ensures { (cells : List Cell) → length cells ≡ i → is_of cells s.old
            → is_of (c ∷ cells) s.new };
}

/// Whether some column of the menu at a place has a start of the voice.
pub fn menu_starts(ex: &Exercise, v: u8, i: usize) -> bool
    requires valid { IsValid ex.now }
    requires voice { v < ex.now.voices }
    requires place { i < columns_in ex.now }
    ensures { result ≡ words.menu_starts ex.now v i }
{
    can_start(ex, v, i)
}

/// In how many columns from column `i` on the voice may start a note.
pub fn starts_ahead(ex: &Exercise, v: u8, i: usize) -> u32
    requires valid { IsValid ex.now }
    requires voice { v < ex.now.voices }
    requires place { i ≤ columns_in ex.now }
    ensures value { result ≡ words.starts_ahead ex.now v i }
    ensures bound { result ≤ 192 }
{
    let bars = usize::from(ex.bars);
    let mut count = 0;
    for j in i..8 * bars {
        count += u32::from(menu_starts(ex, v, j));
    }
    count
}
