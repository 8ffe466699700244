//! By what each voice moves from one column to the next, so that it is found once for all pairs.

ghost use Rattle.std.specs.Prelude.{◌≡◌, Some};
ghost use Rattle.motion_rules.specs.Ways as ways;

use fux_grid::{Cell, cell_of};
use fux_pitch::Interval;
use rule_law::{falls, interval_of_cells, moves, rises};

/// The interval by which a voice moves; none where it doesn't.
#[inline(always)]
pub(crate) fn way_of(before: &[Cell], now: &[Cell], v: usize) -> Option<Interval>
    ensures { result ≡ ways.way_of before.now now.now v }
{
    let (from, to) = (cell_of(before, v), cell_of(now, v));
    if !moves(from, to) {
        return None;
    }
    interval_of_cells(from, to)
}

/// Which way an interval goes: 1 up, 2 down, 0 neither.
#[inline(always)]
fn heading_by(step: Interval) -> u8
    ensures { result ≡ ways.heading_by (Some step) }
{
    if rises(step) {
        return 1;
    }
    if falls(step) { 2 } else { 0 }
}

/// Which way a voice moves: 1 up, 2 down, 0 where it doesn't.
#[inline(always)]
pub(crate) fn heading_of(before: &[Cell], now: &[Cell], v: usize) -> u8
    ensures { result ≡ ways.heading before.now now.now v }
{
    match way_of(before, now, v) {
        Some(step) => heading_by(step),
        None => 0,
    }
}

/// Whether two voices that move so both rise or both fall.
#[inline(always)]
pub(crate) fn head_alike(one: u8, other: u8) -> bool
    ensures { result ≡ ways.head_alike one other }
{
    one != 0 && one == other
}
