//! What the gauges need to know of the columns ahead.

ghost use Rattle.std.specs.Prelude.{◌≡◌, ◌<◌, ◌≤◌, ◌+◌, ◌-◌, ◌∷◌, ◌++◌, [], ℕ, List, length, false, pos, true};
ghost use Rattle.fux_grid.specs.declared.cell.Cell.{Cell as ACell};
ghost use Rattle.fux_grid.specs.declared.cell.Cell.TheVariants.{Hold};
ghost use Rattle.fux_grid.specs.Cells.{cell_in};
ghost use Rattle.std.specs.Bool.{OnTrue};
ghost use Rattle.fux_grid.specs.declared.given.Given.TheVariants.{Blank};
ghost use Rattle.fux_grid.specs.Exercises.{IsFree, IsValid, bar_of, columns_in, given_at, slot_of, species_in};
ghost use Rattle.fux_grid.specs.Menus.{IsInMenu};
ghost use Rattle.fux_grid.specs.Shapes.{allows, shapes_in};
ghost use Rattle.rule_law.specs.Gauges as words;
ghost use Rattle.melody_rules.specs.Gauges.{is_topped};
ghost use Rattle.melody_rules.specs.Gauges as gauges_words;
ghost use Rattle.fux_judge.specs.GaugeStates.{AreAheadOf, IsAheadOf, StepsAhead};

use fux_grid::{Cell, Exercise, Given, bar_of, cell_of, given_at, range, slot_of, species_of};
use fux_pitch::{Pitch, semitone};
use melody_rules::is_final_climax;
use rhythm_cadence::fitting_shapes;
use rule_law::{is_free, menu_starts, starts_ahead};

/// What lies ahead of a line.
#[derive(Clone, Copy, Debug, PartialEq, Eq)]
pub(crate) struct LineAhead {
    /// In how many columns ahead the voice may start a note.
    pub(crate) starts: u32,
    /// The high end of the voice's range in the last bar, 0 where it may start no note there.
    pub(crate) last_high: u8,
    /// No high end of the voice's range is above this key.
    pub(crate) highest: u8,
}

/// The high end of a free voice's range in the last bar, 0 where it may start no note there.
fn last_high(ex: &Exercise, v: u8) -> u8
    requires valid { IsValid ex.now }
    requires free { IsFree ex.now v }
    ensures { (key : ℕ) → key < result → is_topped ex.now v (pos key) (columns_in ex.now - 8)
        ≡ false }
{
    if !menu_starts(ex, v, 8 * (ex.bars as usize) - 8) {
        return 0;
    }
    let (_, high) = range(ex, v, ex.bars);
    semitone(high)
}

/// The greater key.
fn greater(key: u8, other: u8) -> u8
    ensures first { key ≤ result }
    ensures second { other ≤ result }
{
    if key > other { key } else { other }
}

/// The greatest high end of a free voice's ranges.
fn highest(ex: &Exercise, v: u8) -> u8
    requires valid { IsValid ex.now }
    requires free { IsFree ex.now v }
    ensures { (key : ℕ) → result ≤ key → (j : ℕ) → j < columns_in ex.now → is_topped ex.now v
        (pos key) j ≡ true }
{
    let mut highest = 0;
    for bar in 1..ex.bars + 1 {
        let (_, high) = range(ex, v, bar);
        highest = greater(highest, semitone(high));
    }
    highest
}

/// What lies ahead of a line without cells.
fn ahead_at_start(ex: &Exercise, v: u8) -> LineAhead
    ensures { IsValid ex.now → IsFree ex.now v → IsAheadOf ex.now v 0 result }
{
    if !ex.is_valid() || v >= ex.voices || !is_free(ex, v) {
        return LineAhead {
            starts: 0,
            last_high: 0,
            highest: 0,
        };
    }
    LineAhead {
        starts: starts_ahead(ex, v, 0),
        last_high: last_high(ex, v),
        highest: highest(ex, v),
    }
}

/// What lies ahead of all lines before the first column.
pub(crate) fn all_ahead_at_start(ex: &Exercise) -> [LineAhead; 4]
    ensures { AreAheadOf ex.now [] result }
{
    [
        ahead_at_start(ex, 0),
        ahead_at_start(ex, 1),
        ahead_at_start(ex, 2),
        ahead_at_start(ex, 3),
    ]
}

/// Whether nothing is given of a voice's cell at a column: then each pitch that it may hold may be
/// started too, where a start is allowed.
fn is_open(ex: &Exercise, v: u8, i: usize) -> bool
    requires { i < columns_in ex.now }
    ensures { OnTrue result (given_at ex.now i v ≡ Blank) }
{
    match given_at(ex, v, i) {
        Given::Blank => true,
        _ => false,
    }
}

/// Whether some shape of a voice has a start at a column's slot, as a note of this pitch would be
/// one. It is read from what is known of its species, and no shape is asked.
#[inline]
fn allows_start(ex: &Exercise, v: u8, i: usize, pitch: Pitch) -> bool
    requires valid { IsValid ex.now }
    requires place { i < columns_in ex.now }
    ensures { result ≡ allows (shapes_in (species_in ex.now v) (bar_of i) ex.now.bars) (slot_of i)
        83 }
{
    fitting_shapes(
        species_of(ex, v),
        bar_of(i),
        ex.bars,
        slot_of(i),
        Cell::Start(pitch),
    ) != 0
}

/// Whether the menu of a column has a start of a free voice, where the voice holds a note of this
/// pitch in one of its columns. It stays a call, since a voice that starts a note asks nothing of
/// it and shouldn't pay for the tables of shapes.
#[inline(never)]
fn may_start_anew(ex: &Exercise, v: u8, i: usize, pitch: Pitch) -> bool
    requires valid { IsValid ex.now }
    requires free { IsFree ex.now v }
    requires place { i < columns_in ex.now }
    ensures { (col : List ACell) → IsInMenu ex.now i col → cell_in col v ≡ Hold pitch → result
        ≡ words.menu_starts ex.now v i }
{
    if !allows_start(ex, v, i, pitch) {
        return false;
    }
    is_open(ex, v, i) || menu_starts(ex, v, i)
}

/// Whether the menu of a column has a start of a free voice, where the voice has this cell in one
/// of its columns.
fn may_start(ex: &Exercise, v: u8, i: usize, cell: Cell) -> bool
    requires valid { IsValid ex.now }
    requires free { IsFree ex.now v }
    requires place { i < columns_in ex.now }
    ensures { (col : List ACell) → IsInMenu ex.now i col → cell_in col v ≡ cell → result
        ≡ words.menu_starts ex.now v i }
{
    match cell {
        Cell::Start(_) => true,
        Cell::Hold(pitch) => may_start_anew(ex, v, i, pitch),
        Cell::Rest => menu_starts(ex, v, i),
    }
}

/// Goes on by one cell of a line, that of column `i`.
fn pass(ex: &Exercise, v: u8, i: usize, ahead: &mut LineAhead, cell: Cell)
    requires valid { IsValid ex.now }
    requires voice { v < ex.now.voices }
    requires place { i < columns_in ex.now }
    ensures { StepsAhead ex.now v i cell ahead.old ahead.new }
{
    if !is_free(ex, v) {
        return;
    }
    ahead.starts = ahead
        .starts
        .saturating_sub(u32::from(may_start(ex, v, i, cell)));
}

/// Goes on by one column of all lines, column `i`.
pub(crate) fn pass_all(ex: &Exercise, i: usize, ahead: &mut [LineAhead; 4], column: &[Cell])
    requires valid { IsValid ex.now }
    requires place { i < columns_in ex.now }
    ensures { (p : List (List ACell)) → length p ≡ i → AreAheadOf ex.now p ahead.old
        → AreAheadOf ex.now (p ++ column.now ∷ []) ahead.new }
{
    for v in 0..ex.voices {
        let cell = cell_of(column, v as usize);
        pass(ex, v, i, &mut ahead[v as usize], cell);
    }
}

/// Whether no column from column `i` on is a place for a note above the key. What lies ahead mostly
/// tells it at once.
pub(crate) fn is_final(ex: &Exercise, v: u8, i: usize, ahead: &LineAhead, key: u8) -> bool
    requires valid { IsValid ex.now }
    requires free { IsFree ex.now v }
    requires place { i ≤ columns_in ex.now }
    ensures { IsAheadOf ex.now v i ahead.now → result ≡ gauges_words.is_final_climax ex.now v i
        (pos key) }
{
    if key >= ahead.highest || ahead.starts == 0 {
        return true;
    }
    if key < ahead.last_high && i + 8 <= 8 * (ex.bars as usize) {
        return false;
    }
    is_final_climax(ex, v, i, key)
}
