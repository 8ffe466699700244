//! S15 and S27 before the last bar begins: what the newest column settles of them, by where each
//! voice's latest notes start. Two voices are asked once whether they clash.

ghost use Rattle.std.specs.Prelude.{◌≡◌, ◌<◌, ◌≤◌, ◌-◌, ◌*◌, ℕ, [], false, true, nat_lt, slice_index_or};
ghost use Rattle.fux_grid.specs.Columns.{Columns};
ghost use Rattle.fux_grid.specs.Exercises.{IsValid, columns_in};
ghost use Rattle.rule_law.specs.Around.{AreKeptFrom};
ghost use Rattle.rule_law.specs.Bars as bars;
ghost use Rattle.rule_law.specs.Places.{reading_of};
ghost use Rattle.rule_law.specs.Terms.{clash};
ghost use Rattle.dissonance_rules.specs.Clashes.{is_told_later, pair_rule};
ghost use Rattle.dissonance_rules.specs.Starts.{TellsPair, TellsTold};

use crate::mixed::clash_unexcused;
use crate::passing::starts_badly;
use crate::starts::{LatestStarts, closes_pair, one_tells};
use fux_grid::{Exercise, VoiceSet, is_mixed};
use rule_law::{NewestColumns, begins_bar, is_clash, pair_of};

/// Whether S15 or S27 is broken for two voices that clash at column `i`, within a bar.
fn breaks_clashing(newest: &NewestColumns, rule: u8, ex: &Exercise, i: usize, v: u8, w: u8) -> bool
    requires voices { ex.now.voices ≤ 4 }
    requires room { newest.now.len ≤ 192 }
    requires place { i < newest.now.len }
    requires told { is_told_later rule ≡ true }
    ensures { (s : Columns) (first : ℕ) → AreKeptFrom ex.now newest.now s first → first ≤ i - 1
        → clash (slice_index_or s i []) v w ≡ true → bars.begins_bar i ≡ false →
        result ≡ reading_of (pair_rule rule ex.now) s i v w }
{
    if rule == 27 {
        return clash_unexcused(newest, ex, i, v, w);
    }
    if is_mixed(ex) {
        return false;
    }
    starts_badly(newest, ex, i, v) || starts_badly(newest, ex, i, w)
}

/// Whether the newest column settles a break of S15 or S27 for two voices at a place, where the
/// last bar hasn't begun.
fn breaks_two(
    part: &[LatestStarts; 4],
    newest: &NewestColumns,
    rule: u8,
    ex: &Exercise,
    place: usize,
    v: u8,
    w: u8,
) -> bool
    requires valid { IsValid ex.now }
    requires place { place < newest.now.len }
    requires room { newest.now.len ≤ columns_in ex.now }
    requires told { is_told_later rule ≡ true }
    requires early { nat_lt (8 * (ex.now.bars - 1)) newest.now.len ≡ false }
    requires first { v < 4 }
    requires second { w < ex.now.voices }
    ensures { TellsPair ex.now rule part.now newest.now place v w result }
{
    if newest.len == place + 1 {
        return false;
    }
    if !one_tells(part, place, v, w) {
        return false;
    }
    if begins_bar(place) {
        return false;
    }
    let now = newest.at(place, ex.voices as usize);
    if !is_clash(now, v as usize, w as usize) {
        return false;
    }
    if !closes_pair(part, ex, now, place, newest.len, v, w) {
        return false;
    }
    breaks_clashing(newest, rule, ex, place, v, w)
}

/// Whether it settles one for a set of voices.
#[inline]
pub(crate) fn breaks_told(
    part: &[LatestStarts; 4],
    newest: &NewestColumns,
    rule: u8,
    ex: &Exercise,
    place: usize,
    voices: VoiceSet,
) -> bool
    requires valid { IsValid ex.now }
    requires place { place < newest.now.len }
    requires room { newest.now.len ≤ columns_in ex.now }
    requires told { is_told_later rule ≡ true }
    requires early { nat_lt (8 * (ex.now.bars - 1)) newest.now.len ≡ false }
    ensures { TellsTold ex.now rule voices.bits part.now newest.now place result }
{
    let Some((v, w)) = pair_of(voices) else {
        return false;
    };
    if w >= ex.voices {
        return false;
    }
    breaks_two(part, newest, rule, ex, place, v, w)
}
