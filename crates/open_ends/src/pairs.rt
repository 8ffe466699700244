//! The runs of each pair of voices, and how they go on at the beginning of a bar.

ghost use Rattle.std.specs.Prelude.{◌≡◌, ◌≤◌, if◌then◌else◌};
ghost use Rattle.open_ends.specs.BarRuns as words;

use crate::keeps::Pairs;
use crate::runs::Run;
use fux_grid::{Cell, Exercise};
use motion_rules::sound_imperfect;

/// Whether a run of so many bars, of which that of column `i` is the newest, may still come to
/// four.
fn may_come_to_four(ex: &Exercise, i: usize, bars: u8) -> bool
    ensures { result ≡ words.may_come_to_four ex.now i bars }
{
    let last = ex.bars;
    i / 8 + 5 <= usize::from(last) + usize::from(bars)
}

/// What is kept of a run at column `i`.
fn while_it_may(ex: &Exercise, i: usize, bars: u8) -> u8
    ensures { result ≡ words.while_it_may ex.now i bars }
{
    if may_come_to_four(ex, i, bars) {
        bars
    } else {
        0
    }
}

/// How long a run is with one bar more, if its intervals go on there.
fn bars_after(bars: u8, goes_on: bool) -> u8
    ensures { result ≡ words.bars_after bars goes_on }
{
    if !goes_on {
        0
    } else if bars < 3 {
        bars + 1
    } else {
        3
    }
}

/// What is kept of two voices behind column `i`, which begins a bar.
fn run_after(ex: &Exercise, i: usize, kept: Run, now: &[Cell], v: usize, w: usize) -> Run
    ensures { result ≡ words.run_after ex.now i kept now.now v w }
{
    let thirds = bars_after(kept.thirds, sound_imperfect(now, 2, v, w));
    let sixths = bars_after(kept.sixths, sound_imperfect(now, 5, v, w));
    Run {
        thirds: while_it_may(ex, i, thirds),
        sixths: while_it_may(ex, i, sixths),
    }
}

/// The same where the pair is followed, and no run where it isn't.
fn if_followed(
    followed: bool,
    ex: &Exercise,
    i: usize,
    kept: Run,
    now: &[Cell],
    v: usize,
    w: usize,
) -> Run
    ensures { result ≡ words.if_followed followed (words.run_after ex.now i kept now.now v w) }
{
    if !followed {
        return Run::none();
    }
    run_after(ex, i, kept, now, v, w)
}

/// The same of some pairs.
pub(crate) fn followed_after(
    ex: &Exercise,
    pairs: Pairs,
    i: usize,
    kept: &[Run; 6],
    now: &[Cell],
) -> [Run; 6]
    ensures { result ≡ words.followed_after ex.now pairs i kept.now now.now }
{
    [
        if_followed(pairs.v01, ex, i, kept[0], now, 0, 1),
        if_followed(pairs.v02, ex, i, kept[1], now, 0, 2),
        if_followed(pairs.v03, ex, i, kept[2], now, 0, 3),
        if_followed(pairs.v12, ex, i, kept[3], now, 1, 2),
        if_followed(pairs.v13, ex, i, kept[4], now, 1, 3),
        if_followed(pairs.v23, ex, i, kept[5], now, 2, 3),
    ]
}

/// Whether a run of two voices comes to four bars with a column that begins a bar.
fn comes_to_four(kept: Run, now: &[Cell], v: usize, w: usize) -> bool
    ensures { result ≡ words.comes_to_four kept now.now v w }
{
    (kept.thirds >= 3 && sound_imperfect(now, 2, v, w))
        || (kept.sixths >= 3 && sound_imperfect(now, 5, v, w))
}

/// 1 where it does, else 0.
fn count_of(kept: Run, now: &[Cell], v: usize, w: usize) -> u32
    ensures value { result ≡ (if words.comes_to_four kept now.now v w then 1 else 0) }
    ensures bound { result ≤ 1 }
{
    u32::from(comes_to_four(kept, now, v, w))
}

/// How many pairs do.
pub(crate) fn come_to_four(kept: &[Run; 6], now: &[Cell]) -> u32
    ensures value { result ≡ words.come_to_four kept.now now.now }
    ensures bound { result ≤ 6 }
{
    count_of(kept[0], now, 0, 1)
        + count_of(kept[1], now, 0, 2)
        + count_of(kept[2], now, 0, 3)
        + count_of(kept[3], now, 1, 2)
        + count_of(kept[4], now, 1, 3)
        + count_of(kept[5], now, 2, 3)
}
