//! All rules of motion at once: two voices mostly break none of them.

ghost use Rattle.std.specs.Prelude.{◌≡◌, not};
ghost use Rattle.rule_law.specs.Terms as terms;
ghost use Rattle.motion_rules.specs.Clear as clear;
ghost use Rattle.motion_rules.specs.Ways as ways;

use crate::rows::{are_outer, cross};
use crate::ways::way_of;
use fux_grid::{Cell, Exercise};
use fux_pitch::Interval;
use rule_law::{equal_perfects, interval_in, same_way, sound_perfect};

/// Whether the intervals of two voices before and now are equal perfect ones.
#[inline]
fn stay_equal(before: &[Cell], now: &[Cell], v: usize, w: usize) -> bool
    ensures { result ≡ terms.equal_perfects (terms.interval_in before.now v w)
        (terms.interval_in now.now v w) }
{
    match (interval_in(before, v, w), interval_in(now, v, w)) {
        (Some(i), Some(j)) => equal_perfects(i, j),
        _ => false,
    }
}

/// Whether two voices that move so, the lower first, break a rule of motion together, and the
/// second is there.
#[inline]
fn move_badly(
    ex: &Exercise,
    before: &[Cell],
    now: &[Cell],
    one: Option<Interval>,
    other: Option<Interval>,
    v: u8,
    w: u8,
) -> bool
    requires one { one ≡ ways.way_of before.now now.now v }
    requires other { other ≡ ways.way_of before.now now.now w }
    ensures { result ≡ clear.move_badly ex.now before.now now.now v w }
{
    if w >= ex.voices {
        return false;
    }
    if cross(now, v as usize, w as usize) {
        return true;
    }
    let Some(i) = one else {
        return false;
    };
    let Some(j) = other else {
        return false;
    };
    if stay_equal(before, now, v as usize, w as usize) {
        return true;
    }
    are_outer(ex, v, w) && (same_way(i, j) && sound_perfect(now, v as usize, w as usize))
}

/// Whether some two voices of a column do. How each voice moves is found once.
#[inline]
fn some_move_badly(ex: &Exercise, before: &[Cell], now: &[Cell]) -> bool
    ensures { result ≡ clear.some_move_badly ex.now before.now now.now }
{
    let first = way_of(before, now, 0);
    let second = way_of(before, now, 1);
    let third = way_of(before, now, 2);
    let fourth = way_of(before, now, 3);
    move_badly(ex, before, now, first, second, 0, 1)
        || (move_badly(ex, before, now, first, third, 0, 2)
            || (move_badly(ex, before, now, first, fourth, 0, 3)
                || (move_badly(ex, before, now, second, third, 1, 2)
                    || (move_badly(ex, before, now, second, fourth, 1, 3)
                        || move_badly(ex, before, now, third, fourth, 2, 3)))))
}

/// Whether no two voices of a column break a rule of motion: none of S10, S16 and S17.
pub fn are_clear(ex: &Exercise, before: &[Cell], now: &[Cell]) -> bool
    ensures { result ≡ not (clear.some_move_badly ex.now before.now now.now) }
{
    !some_move_badly(ex, before, now)
}
