//! The rules of both voices.

ghost use Rattle.std.specs.Prelude.{◌≡◌, ◌<◌, length};
ghost use Rattle.std.specs.List.{list_any};
ghost use Rattle.canon_space.specs.Kept.{history_of};
ghost use Rattle.canon_space.specs.Rules as rules;

use crate::bars::{Bar, bar_before};
use crate::canon::Canon;
use dissonance_rules::clash_at_start;
use fux_grid::{Cell, cell_of};
use motion_rules::{cross, move_in_parallel};
use rhythm_cadence::{is_final_in, may_end};
use rule_law::{interval_in, move_into_perfect, sound_same_key};

/// Whether the bar after these bars is neither the first nor the last.
pub fn is_inner(canon: &Canon, behind: &[Bar]) -> bool
    requires { length behind.now < canon.now.bars }
    ensures { result ≡ rules.is_inner canon.now (history_of behind.now) }
{
    !behind.is_empty() && behind.len() + 1 < canon.bars as usize
}

/// Whether it is the last.
fn is_last(canon: &Canon, behind: &[Bar]) -> bool
    requires { length behind.now < canon.now.bars }
    ensures { result ≡ rules.is_last canon.now (history_of behind.now) }
{
    behind.len() + 1 == canon.bars as usize
}

/// S13: the two don't sound a unison or an octave.
fn ends_apart(now: &[Cell]) -> bool
    ensures { result ≡ rules.ends_apart now.now }
{
    match interval_in(now, 0, 1) {
        Some(size) => !may_end(2, size),
        None => true,
    }
}

/// S24: the lower voice doesn't sound the final.
fn ends_off_final(canon: &Canon, now: &[Cell]) -> bool
    ensures { result ≡ rules.ends_off_final canon.now now.now }
{
    match cell_of(now, 0).pitch() {
        Some(pitch) => !is_final_in(canon.mode, pitch),
        None => true,
    }
}

/// Whether a rule of both voices is broken in the bar after these bars.
pub fn breaks_pair(canon: &Canon, behind: &[Bar], now: &Bar) -> bool
    requires { length behind.now < canon.now.bars }
    ensures { result ≡ list_any (rules.breaks_pair canon.now (history_of behind.now) now.now.cells)
        rules.pair_rules }
{
    let before = bar_before(behind, 1);
    let now = &now.cells;
    cross(now, 0, 1)
        || is_inner(canon, behind) && sound_same_key(now, 0, 1)
        || is_last(canon, behind) && ends_apart(now)
        || clash_at_start(0, now, 0, 1)
        || move_in_parallel(before, now, 0, 1)
        || move_into_perfect(before, now, 0, 1)
        || is_last(canon, behind) && ends_off_final(canon, now)
}
