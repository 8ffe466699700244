//! S18: equal perfect intervals at the beginnings of two bars in a row, with nothing between that
//! hides them.

ghost use Rattle.std.specs.Prelude.{◌≡◌, ◌<◌, ◌≤◌, ◌-◌, ◌||◌, ℕ, length};
ghost use Rattle.fux_grid.specs.Cells.{cell_in, pitch_of};
ghost use Rattle.fux_grid.specs.Columns.{Columns, earlier};
ghost use Rattle.rule_law.specs.Places.{reading_back, reading_of};
ghost use Rattle.rule_law.specs.Terms as terms;
ghost use Rattle.motion_rules.specs.Afterbeats as words;
ghost use Rattle.motion_rules.specs.Afterbeats.{afterbeat_row};

use fux_grid::{Cell, Exercise, VoiceSet, cell_of, species_of};
use fux_pitch::{Pitch, interval_of, is_perfect};
use rule_law::{
    ColumnsAround, begins_bar, cell_behind, cells_behind, equal_perfects, interval_in, pair_of,
};

/// Whether a cell that starts a note starts one within two degrees of the pitch.
pub fn stays_near(p: Option<Pitch>, cell: Cell) -> bool
    ensures { result ≡ words.stays_near p cell }
{
    match (p, cell) {
        (Some(p), Cell::Start(q)) => interval_of(p, q).degrees.unsigned_abs() <= 2,
        (None, Cell::Start(_)) => false,
        _ => true,
    }
}

/// The cells of a voice in the seven columns before column `i`, from the newest one on.
fn newest_cells<C: ColumnsAround>(around: &C, ex: &Exercise, i: usize, v: u8) -> [Cell; 7]
    requires { ex.now.voices ≤ 4 }
    ensures { (s : Columns) (first : ℕ) → C.show around.now ex.now s first → first ≤ i - 8 → i
        ≤ length s → result ≡ words.newest_cells (earlier s i) v }
{
    [
        cell_behind(around, ex, v, i, 0),
        cell_behind(around, ex, v, i, 1),
        cell_behind(around, ex, v, i, 2),
        cell_behind(around, ex, v, i, 3),
        cell_behind(around, ex, v, i, 4),
        cell_behind(around, ex, v, i, 5),
        cell_behind(around, ex, v, i, 6),
    ]
}

/// Whether each note that the cells start stays near the pitch that a voice sounds in a column.
fn never_leaves(bar_line: &[Cell], v: usize, cells: &[Cell]) -> bool
    ensures { result ≡ words.never_leaves (pitch_of (cell_in bar_line.now v)) cells.now }
{
    let p = cell_of(bar_line, v).pitch();
    cells.iter().all(|cell| stays_near(p, *cell))
}

/// Whether there are both pitches, and they differ.
pub fn differ(p: Option<Pitch>, q: Option<Pitch>) -> bool
    ensures { result ≡ terms.differs p q }
{
    match (p, q) {
        (Some(p), Some(q)) => p != q,
        _ => false,
    }
}

/// Whether both voices have gone to other pitches, from a perfect interval to an equal one. What
/// they come to is looked at only where the first interval is perfect.
fn arrive_in_parallel(before: &[Cell], now: &[Cell], v: usize, w: usize) -> bool
    ensures { result ≡ words.arrive_in_parallel before.now now.now v w }
{
    let Some(from) = interval_in(before, v, w) else {
        return false;
    };
    if !is_perfect(from) {
        return false;
    }
    let equal = match interval_in(now, v, w) {
        Some(to) => equal_perfects(from, to),
        None => false,
    };
    equal
        && differ(cell_of(before, v).pitch(), cell_of(now, v).pitch())
        && differ(cell_of(before, w).pitch(), cell_of(now, w).pitch())
}

/// Whether a voice has species 2, 3 or 5, and so goes on within bars.
fn goes_within_bars(ex: &Exercise, v: u8) -> bool
    ensures { result ≡ words.goes_within_bars ex.now v }
{
    matches!(species_of(ex, v), 2 | 3 | 5)
}

/// Whether at column `i`, whose cells are `now`, two voices have arrived so since `bar_line`, the
/// column at the beginning of the bar before.
fn arrive_at_bar(i: usize, bar_line: &[Cell], now: &[Cell], v: u8, w: u8) -> bool
    ensures { result ≡ words.arrive_at_bar i bar_line.now now.now v w }
{
    begins_bar(i) && i >= 8 && arrive_in_parallel(bar_line, now, v as usize, w as usize)
}

/// Whether a voice goes on within bars and stays near the pitch that it sounds at the beginning of
/// the bar before.
fn stays_since_bar<C: ColumnsAround>(around: &C, ex: &Exercise, i: usize, v: u8) -> bool
    requires { ex.now.voices ≤ 4 }
    ensures { (s : Columns) (first : ℕ) → C.show around.now ex.now s first → first ≤ i - 8 → i
        ≤ length s → result ≡ words.stays_since_bar ex.now (earlier s i) v }
{
    if !goes_within_bars(ex, v) {
        return false;
    }
    never_leaves(
        cells_behind(around, ex, i, 7),
        v as usize,
        &newest_cells(around, ex, i, v),
    )
}

/// Whether one of two voices goes on within bars.
#[inline]
fn one_goes_on(ex: &Exercise, v: u8, w: u8) -> bool
    ensures { result ≡ (words.goes_within_bars ex.now v || words.goes_within_bars ex.now w) }
{
    goes_within_bars(ex, v) || goes_within_bars(ex, w)
}

/// S18 of two voices. What they arrive at is looked at only where one of them goes on within bars.
fn is_bare_parallel<C: ColumnsAround>(around: &C, ex: &Exercise, i: usize, v: u8, w: u8) -> bool
    requires { ex.now.voices ≤ 4 }
    ensures { (s : Columns) (first : ℕ) → C.show around.now ex.now s first → first ≤ i - 8 → i
        < length s → result ≡ reading_back (words.is_bare_parallel ex.now) s i v w }
{
    if !one_goes_on(ex, v, w) {
        return false;
    }
    arrive_at_bar(i, cells_behind(around, ex, i, 7), around.cells(ex, i), v, w)
        && (stays_since_bar(around, ex, i, v) || stays_since_bar(around, ex, i, w))
}

/// S18: whether at the beginning of a bar that isn't the first, two voices sound a perfect interval
/// equal to that at the beginning of the bar before, each with another pitch than there, while each
/// note between of one of them, whose species is 2, 3 or 5, stays within two degrees of its pitch
/// there. The nine columns up to column `i` are read.
pub fn breaks_afterbeat<C: ColumnsAround>(
    around: &C,
    ex: &Exercise,
    voices: VoiceSet,
    i: usize,
) -> bool
    requires { ex.now.voices ≤ 4 }
    ensures { (s : Columns) (first : ℕ) → C.show around.now ex.now s first → first ≤ i - 8 → i
        < length s → result ≡ reading_of (afterbeat_row ex.now voices.bits) s i }
{
    let Some((v, w)) = pair_of(voices) else {
        return false;
    };
    w < ex.voices && is_bare_parallel(around, ex, i, v, w)
}
