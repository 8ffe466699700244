//! Q14: two voices that begin four bars in a row with thirds, or four with sixths.

ghost use Rattle.std.specs.Prelude.{◌≡◌, ◌==◌, ◌≤◌, ◌<◌, ◌-◌, [], ℕ, length, slice_index_or, if◌then◌else◌};
ghost use Rattle.std.specs.List.{list_all};
ghost use Rattle.fux_pitch.specs.Size.{IsShort};
ghost use Rattle.fux_grid.specs.Columns.{Columns};
ghost use Rattle.rule_law.specs.Places.{reading_back};
ghost use Rattle.motion_rules.specs.Runs as words;
ghost use Rattle.motion_rules.specs.Runs.{four_bar_lines_at, three_bar_lines_at};

use fux_grid::{Cell, Exercise, cell_of};
use fux_pitch::{Interval, is_imperfect, reduce};
use rule_law::{ColumnsAround, begins_bar, cells_behind, interval_of_cells};

/// Whether the interval is imperfect and has so many degrees without its octaves: a third has 2, a
/// sixth has 5.
#[inline]
fn is_imperfect_of(interval: Interval, degrees: u8) -> bool
    requires { IsShort interval }
    ensures { result ≡ words.is_imperfect_of degrees interval }
{
    is_imperfect(interval) && reduce(interval).degrees == i16::from(degrees)
}

/// Whether two voices sound an imperfect interval of so many degrees without its octaves.
#[inline]
pub fn sound_imperfect(column: &[Cell], degrees: u8, v: usize, w: usize) -> bool
    ensures { result ≡ words.sound_imperfect degrees column.now v w }
{
    match interval_of_cells(cell_of(column, v), cell_of(column, w)) {
        Some(interval) => is_imperfect_of(interval, degrees),
        None => false,
    }
}

/// Whether a column begins a bar from the fourth on.
#[inline]
pub(crate) fn ends_four_bars(i: usize) -> bool
    ensures { result ≡ words.ends_four_bars i }
{
    begins_bar(i) && i / 8 >= 3
}

/// The degrees of an imperfect interval without its octaves, of a third 2 and of a sixth 5; 0 of
/// any other.
#[inline]
fn imperfect_degrees(interval: Interval) -> u8
    requires { IsShort interval }
    ensures thirds { (result == 2) ≡ words.is_imperfect_of 2 interval }
    ensures sixths { (result == 5) ≡ words.is_imperfect_of 5 interval }
{
    if !is_imperfect(interval) {
        return 0;
    }
    match reduce(interval).degrees {
        2 => 2,
        5 => 5,
        _ => 0,
    }
}

/// The same of what two voices sound in a column.
#[inline]
fn imperfect_in(column: &[Cell], v: usize, w: usize) -> u8
    ensures thirds { (result == 2) ≡ words.sound_imperfect 2 column.now v w }
    ensures sixths { (result == 5) ≡ words.sound_imperfect 5 column.now v w }
{
    match interval_of_cells(cell_of(column, v), cell_of(column, w)) {
        Some(interval) => imperfect_degrees(interval),
        None => 0,
    }
}

/// Whether two voices sound imperfect intervals of so many degrees at the beginnings of the three
/// bars before column `i`.
fn sound_before<C: ColumnsAround>(
    around: &C,
    ex: &Exercise,
    i: usize,
    degrees: u8,
    v: usize,
    w: usize,
) -> bool
    requires { ex.now.voices ≤ 4 }
    ensures { (s : Columns) (first : ℕ) → C.show around.now ex.now s first → first ≤ i - 24 → i
        < length s → result ≡ list_all (λ col. words.sound_imperfect degrees col v w)
        (three_bar_lines_at s i) }
{
    sound_imperfect(cells_behind(around, ex, i, 7), degrees, v, w)
        && sound_imperfect(cells_behind(around, ex, i, 15), degrees, v, w)
        && sound_imperfect(cells_behind(around, ex, i, 23), degrees, v, w)
}

/// 1 where two voices sound thirds there and at column `i`, whose cells are `now`, or sixths, else
/// 0.
#[inline(always)]
fn keeps_on<C: ColumnsAround>(
    around: &C,
    ex: &Exercise,
    i: usize,
    now: &[Cell],
    v: usize,
    w: usize,
) -> u32
    requires { ex.now.voices ≤ 4 }
    ensures value { (s : Columns) (first : ℕ) → C.show around.now ex.now s first → first ≤ i - 24
        → i < length s → now.now ≡ slice_index_or s i [] → result
        ≡ (if words.keep_on (four_bar_lines_at s i) v w then 1 else 0) }
    ensures bound { result ≤ 1 }
{
    if w >= now.len() {
        return 0;
    }
    let degrees = imperfect_in(now, v, w);
    if degrees == 2 {
        return u32::from(sound_before(around, ex, i, 2, v, w));
    }
    if degrees == 5 {
        return u32::from(sound_before(around, ex, i, 5, v, w));
    }
    0
}

/// Q14: for how many pairs it stands at column `i`. The columns there and at the beginnings of the
/// three bars before are read.
pub fn imperfect_runs<C: ColumnsAround>(around: &C, ex: &Exercise, i: usize) -> u32
    requires { ex.now.voices ≤ 4 }
    ensures value { (s : Columns) (first : ℕ) → C.show around.now ex.now s first → first ≤ i - 24
        → i < length s → result ≡ reading_back words.imperfect_runs s i }
    ensures bound { result ≤ 6 }
{
    if !ends_four_bars(i) {
        return 0;
    }
    let now = around.cells(ex, i);
    keeps_on(around, ex, i, now, 0, 1)
        + keeps_on(around, ex, i, now, 0, 2)
        + keeps_on(around, ex, i, now, 0, 3)
        + keeps_on(around, ex, i, now, 1, 2)
        + keeps_on(around, ex, i, now, 1, 3)
        + keeps_on(around, ex, i, now, 2, 3)
}
