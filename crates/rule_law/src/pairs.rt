//! The words of the rules for two voices, in one column and in two neighbors.

ghost use Rattle.std.specs.Prelude.{◌≡◌};
ghost use Rattle.rule_law.specs.Pairs as pairs;

use crate::terms::{interval_of_cells, moves, same_way, starts};
use fux_grid::{Cell, cell_of};
use fux_pitch::is_perfect;

/// Whether a note starts in one of two voices, or in both.
#[inline]
pub fn one_starts(column: &[Cell], v: usize, w: usize) -> bool
    ensures { result ≡ pairs.one_starts column.now v w }
{
    starts(cell_of(column, v)) || starts(cell_of(column, w))
}

/// Whether two voices sound the same key.
#[inline]
pub fn sound_same_key(column: &[Cell], v: usize, w: usize) -> bool
    ensures { result ≡ pairs.sound_same_key column.now v w }
{
    match interval_of_cells(cell_of(column, v), cell_of(column, w)) {
        Some(interval) => interval.semitones == 0,
        None => false,
    }
}

/// Whether two voices sound a perfect interval.
#[inline]
pub fn sound_perfect(column: &[Cell], v: usize, w: usize) -> bool
    ensures { result ≡ pairs.sound_perfect column.now v w }
{
    match interval_of_cells(cell_of(column, v), cell_of(column, w)) {
        Some(interval) => is_perfect(interval),
        None => false,
    }
}

/// Whether two voices both move from one column to the next: each starts a note of another pitch
/// than it sounds before.
#[inline(always)]
pub fn both_move(before: &[Cell], now: &[Cell], v: usize, w: usize) -> bool
    ensures { result ≡ pairs.both_move before.now now.now v w }
{
    moves(cell_of(before, v), cell_of(now, v)) && moves(cell_of(before, w), cell_of(now, w))
}

/// Whether two voices both move, and both rise or both fall.
#[inline(always)]
pub fn move_alike(before: &[Cell], now: &[Cell], v: usize, w: usize) -> bool
    ensures { result ≡ pairs.move_alike before.now now.now v w }
{
    if !both_move(before, now, v, w) {
        return false;
    }
    match (
        interval_of_cells(cell_of(before, v), cell_of(now, v)),
        interval_of_cells(cell_of(before, w), cell_of(now, w)),
    ) {
        (Some(i), Some(j)) => same_way(i, j),
        _ => false,
    }
}

/// Whether two voices move alike into a perfect interval.
#[inline]
pub fn move_into_perfect(before: &[Cell], now: &[Cell], v: usize, w: usize) -> bool
    ensures { result ≡ pairs.move_into_perfect before.now now.now v w }
{
    move_alike(before, now, v, w) && sound_perfect(now, v, w)
}
