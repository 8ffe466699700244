//! Each rule and toll over the columns that it reads.

ghost use Rattle.std.specs.Prelude.{◌≡◌, ◌≤◌, ◌∷◌, [], if◌then◌else◌};
ghost use Rattle.rule_law.specs.Pairs as pairs;
ghost use Rattle.motion_rules.specs.Rows as rows;
ghost use Rattle.motion_rules.specs.Ways as ways;

use crate::ways::{head_alike, heading_of};
use fux_grid::{Cell, Exercise, VoiceSet, cell_of};
use fux_pitch::semitone;
use rule_law::{
    Latest, both_move, equal_perfects, interval_of_cells, move_into_perfect, one_starts, pair_of,
};

/// S10: both voices sound, one starts a note, and the first sounds above the second.
#[inline]
pub fn cross(now: &[Cell], v: usize, w: usize) -> bool
    ensures { result ≡ rows.cross now.now v w }
{
    if !one_starts(now, v, w) {
        return false;
    }
    match (cell_of(now, v).pitch(), cell_of(now, w).pitch()) {
        (Some(p), Some(q)) => semitone(p) > semitone(q),
        _ => false,
    }
}

/// S16: both voices move, and their intervals before and now are equal perfect ones.
#[inline(always)]
pub fn move_in_parallel(before: &[Cell], now: &[Cell], v: usize, w: usize) -> bool
    ensures { result ≡ rows.move_in_parallel before.now now.now v w }
{
    if !both_move(before, now, v, w) {
        return false;
    }
    match (
        interval_of_cells(cell_of(before, v), cell_of(before, w)),
        interval_of_cells(cell_of(now, v), cell_of(now, w)),
    ) {
        (Some(i), Some(j)) => equal_perfects(i, j),
        _ => false,
    }
}

/// Whether the two are the lowest and the highest voice of the exercise.
#[inline]
pub(crate) fn are_outer(ex: &Exercise, v: u8, w: u8) -> bool
    ensures { result ≡ rows.are_outer ex.now v w }
{
    v == 0 && u16::from(w) + 1 == u16::from(ex.voices)
}

/// S17.
#[inline(always)]
pub(crate) fn outer_move_into_perfect(
    ex: &Exercise,
    before: &[Cell],
    now: &[Cell],
    v: u8,
    w: u8,
) -> bool
    ensures { result ≡ rows.outer_move_into_perfect ex.now before.now now.now v w }
{
    are_outer(ex, v, w) && move_into_perfect(before, now, v as usize, w as usize)
}

/// 1 where Q11 stands for two voices that move so, else 0.
#[inline(always)]
fn alike(one: u8, other: u8) -> u32
    ensures value { result ≡ (if ways.head_alike one other then 1 else 0) }
    ensures bound { result ≤ 1 }
{
    u32::from(head_alike(one, other))
}

/// Q11 of the two lowest voices.
#[inline(always)]
fn two_alike(before: &[Cell], now: &[Cell]) -> u32
    ensures value { result ≡ (if pairs.move_alike before.now now.now 0 1 then 1 else 0) }
    ensures bound { result ≤ 1 }
{
    alike(heading_of(before, now, 0), heading_of(before, now, 1))
}

/// Q11 of four voices. Which way each moves is found once.
#[inline(always)]
fn four_alike(before: &[Cell], now: &[Cell]) -> u32
    ensures value { result ≡ rows.pairs_alike before.now now.now }
    ensures bound { result ≤ 6 }
{
    let first = heading_of(before, now, 0);
    let second = heading_of(before, now, 1);
    let third = heading_of(before, now, 2);
    let fourth = heading_of(before, now, 3);
    alike(first, second)
        + alike(first, third)
        + alike(first, fourth)
        + alike(second, third)
        + alike(second, fourth)
        + alike(third, fourth)
}

/// Q11. No more is asked of two voices than how the one pair moves.
#[inline(always)]
fn pairs_alike(before: &[Cell], now: &[Cell]) -> u32
    ensures value { result ≡ rows.pairs_alike before.now now.now }
    ensures bound { result ≤ 6 }
{
    if now.len() <= 2 {
        return two_alike(before, now);
    }
    four_alike(before, now)
}

/// Whether a rule is broken at a column, whose cells are `now`, after the column whose cells are
/// `before`.
#[inline(always)]
pub fn breaks(
    rule: u8,
    ex: &Exercise,
    voices: VoiceSet,
    i: usize,
    before: &[Cell],
    latest: &Latest,
    now: &[Cell],
) -> bool
    ensures { result ≡ rows.near_rows rule ex.now voices.bits i before.now latest.now.pitches
        now.now }
{
    let Some((v, w)) = pair_of(voices) else {
        return false;
    };
    if w >= ex.voices {
        return false;
    }
    match rule {
        10 => cross(now, v as usize, w as usize),
        16 => move_in_parallel(before, now, v as usize, w as usize),
        _ => outer_move_into_perfect(ex, before, now, v, w),
    }
}

/// For how many pairs Q11 stands at a column, whose cells are `now`, after the column whose cells
/// are `before`.
#[inline(always)]
pub fn cost(
    toll: u8,
    ex: &Exercise,
    i: usize,
    before: &[Cell],
    latest: &Latest,
    now: &[Cell],
) -> u32
    ensures value { result ≡ rows.toll_rows toll ex.now i before.now latest.now.pitches now.now }
    ensures bound { result ≤ 6 }
{
    pairs_alike(before, now)
}
