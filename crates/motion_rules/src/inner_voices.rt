//! Q12: inner voices that move alike into a perfect interval.

ghost use Rattle.std.specs.Prelude.{◌≡◌, ◌≤◌, ◌&&◌, not, if◌then◌else◌};
ghost use Rattle.rule_law.specs.Pairs as pairs;
ghost use Rattle.motion_rules.specs.InnerVoices as words;
ghost use Rattle.motion_rules.specs.Rows as rows;
ghost use Rattle.motion_rules.specs.Ways as ways;

use crate::rows::are_outer;
use crate::ways::{head_alike, heading_of};
use fux_grid::{Cell, Exercise};
use rule_law::sound_perfect;

/// Whether two voices that move so, but not the lowest with the highest, both rise or both fall into
/// a perfect interval.
#[inline(always)]
fn enter_perfect(ex: &Exercise, now: &[Cell], one: u8, other: u8, v: u8, w: u8) -> bool
    ensures { result ≡ (not (rows.are_outer ex.now v w)
        && (ways.head_alike one other && pairs.sound_perfect now.now v w)) }
{
    !are_outer(ex, v, w) && (head_alike(one, other) && sound_perfect(now, v as usize, w as usize))
}

/// 1 where they do, else 0.
#[inline(always)]
fn pays(ex: &Exercise, now: &[Cell], one: u8, other: u8, v: u8, w: u8) -> u32
    ensures value { result ≡ (if not (rows.are_outer ex.now v w)
        && (ways.head_alike one other && pairs.sound_perfect now.now v w) then 1 else 0) }
    ensures bound { result ≤ 1 }
{
    u32::from(enter_perfect(ex, now, one, other, v, w))
}

/// Q12: in three or four voices, how many pairs, but for the lowest with the highest voice, both
/// rise or both fall into a perfect interval. Which way each voice moves is found once.
#[inline(always)]
pub fn inner_moves(ex: &Exercise, before: &[Cell], now: &[Cell]) -> u32
    ensures value { result ≡ words.inner_moves ex.now before.now now.now }
    ensures bound { result ≤ 6 }
{
    if ex.voices < 3 {
        return 0;
    }
    let first = heading_of(before, now, 0);
    let second = heading_of(before, now, 1);
    let third = heading_of(before, now, 2);
    let fourth = heading_of(before, now, 3);
    pays(ex, now, first, second, 0, 1)
        + pays(ex, now, first, third, 0, 2)
        + pays(ex, now, first, fourth, 0, 3)
        + pays(ex, now, second, third, 1, 2)
        + pays(ex, now, second, fourth, 1, 3)
        + pays(ex, now, third, fourth, 2, 3)
}
