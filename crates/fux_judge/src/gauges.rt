//! What the gauges keep of a line, and what a whole line costs by them.

ghost use Rattle.std.specs.Prelude.{◌≡◌, ◌≤◌, ◌<◌, ◌+◌, ◌*◌, ◌∷◌, [], List, length};
ghost use Rattle.fux_grid.specs.declared.cell.Cell.{Cell as ACell};
ghost use Rattle.fux_grid.specs.Exercises.{IsFree, IsValid, columns_in};
ghost use Rattle.fux_judge.specs.Gauges as gauges_words;
ghost use Rattle.fux_judge.specs.Gauges.{cells_of_voice};
ghost use Rattle.fux_judge.specs.GaugeStates.{AreGaugesOf, AreUngauged, IsGaugesOf};

use fux_grid::{Cell, Exercise, Score, cell_of};
use melody_rules::{Climax, Compass, Leaps, Q17, Q18, Q19, Q20, Strikes, is_narrow, leap_excess};
use penalty_sheet::{Sheet, weight};
use rule_law::{Gauge, is_free};

/// What the gauges keep of a line.
#[derive(Clone, Copy, Debug, PartialEq, Eq)]
pub(crate) struct LineGauges {
    pub(crate) climax: Climax,
    pub(crate) compass: Compass,
    pub(crate) leaps: Leaps,
    pub(crate) strikes: Strikes,
}

/// Of a line without cells.
fn ungauged() -> LineGauges
    ensures { IsGaugesOf [] result }
{
    LineGauges {
        climax: Q17.start(),
        compass: Q18.start(),
        leaps: Q19.start(),
        strikes: Q20.start(),
    }
}

/// Of no columns.
pub(crate) fn all_ungauged() -> [LineGauges; 4]
    ensures { AreUngauged result }
{
    [ungauged(), ungauged(), ungauged(), ungauged()]
}

/// Takes in one cell more of a line, that of column `i`.
fn gauge(ex: &Exercise, v: u8, i: usize, kept: &mut LineGauges, cell: Cell)
    requires valid { IsValid ex.now }
    requires place { i < columns_in ex.now }
    ensures { (cells : List ACell) → length cells ≡ i → IsGaugesOf cells kept.old
        → IsGaugesOf (cell ∷ cells) kept.new }
{
    match cell {
        Cell::Start(_) => {
            Q17.step(ex, v, i, &mut kept.climax, cell);
            Q18.step(ex, v, i, &mut kept.compass, cell);
            Q19.step(ex, v, i, &mut kept.leaps, cell);
            Q20.step(ex, v, i, &mut kept.strikes, cell);
        }
        Cell::Hold(_) => {}
        Cell::Rest => {}
    }
}

/// Takes in one cell more of the line of a voice, where it is free; nothing is meant of another.
#[inline(always)]
fn gauge_if_free(ex: &Exercise, v: u8, i: usize, kept: &mut LineGauges, cell: Cell)
    requires valid { IsValid ex.now }
    requires place { i < columns_in ex.now }
    ensures { (cells : List ACell) → length cells ≡ i → IsFree ex.now v → IsGaugesOf cells kept.old
        → IsGaugesOf (cell ∷ cells) kept.new }
{
    if !is_free(ex, v) {
        return;
    }
    gauge(ex, v, i, kept, cell);
}

/// Takes in one column more of the lines of free voices, column `i`. A line that has no cell in it
/// stays.
pub(crate) fn gauge_all(ex: &Exercise, i: usize, kept: &mut [LineGauges; 4], column: &[Cell])
    requires valid { IsValid ex.now }
    requires place { i < columns_in ex.now }
    ensures { (behind : List (List ACell)) → length behind ≡ i → AreGaugesOf ex.now behind kept.old
        → AreGaugesOf ex.now (column.now ∷ behind) kept.new }
{
    for v in 0..column.len().min(4) {
        gauge_if_free(ex, v as u8, i, &mut kept[v], cell_of(column, v));
    }
}

/// The values of the four gauges, each by its weight.
pub(crate) fn weighed(sheet: &Sheet, climax: u8, compass: bool, leaps: u32, strikes: u8) -> u64
    requires { leaps ≤ 765 }
    ensures value { result ≡ gauges_words.cost_of_values sheet.now climax compass leaps strikes }
    ensures bound { result ≤ 83622660 }
{
    u64::from(climax) * u64::from(weight(sheet, 17))
        + u64::from(compass) * u64::from(weight(sheet, 18))
        + u64::from(leaps) * u64::from(weight(sheet, 19))
        + u64::from(strikes) * u64::from(weight(sheet, 20))
}

/// What a whole line costs.
pub(crate) fn cost_of_line(sheet: &Sheet, kept: &LineGauges) -> u64
    ensures value { (cells : List ACell) → IsGaugesOf cells kept.now → result
        ≡ gauges_words.cost_of_line sheet.now cells }
    ensures bound { result ≤ 83622660 }
{
    weighed(
        sheet,
        kept.climax.count.saturating_sub(1),
        is_narrow(kept.compass),
        leap_excess(kept.leaps),
        kept.strikes.beyond,
    )
}

/// Of the line of a voice in a score.
pub(crate) fn line_gauges(ex: &Exercise, score: &Score, v: u8) -> LineGauges
    requires valid { IsValid ex.now }
    requires few { length score.now.columns ≤ columns_in ex.now }
    ensures { IsGaugesOf (cells_of_voice score.now.columns v) result }
{
    let mut kept = ungauged();
    for j in 0..score.len() {
        gauge(ex, v, j, &mut kept, score.cell(v as usize, j));
    }
    kept
}
