//! Each rule and toll over one column.

ghost use Rattle.std.specs.Prelude.{◌≡◌, ◌≤◌, ◌&&◌};
ghost use Rattle.rule_law.specs.Pairs as pairs;
ghost use Rattle.dissonance_rules.specs.Rows as rows;

use fux_grid::{Cell, Exercise, VoiceSet, cell_of};
use rule_law::{
    Latest, begins_bar, begins_inner_bar, is_clash, one_starts, pair_of, sound_perfect,
    sound_same_key, starts, voice_pairs,
};

/// S11.
#[inline]
fn meet_in_unison(ex: &Exercise, i: usize, now: &[Cell], v: usize, w: usize) -> bool
    ensures { result ≡ rows.meet_in_unison ex.now i now.now v w }
{
    begins_inner_bar(ex, i) && sound_same_key(now, v, w)
}

/// S14: at the beginning of a bar two voices both start a note, and they clash.
#[inline]
pub fn clash_at_start(i: usize, now: &[Cell], v: usize, w: usize) -> bool
    ensures { result ≡ rows.clash_at_start i now.now v w }
{
    begins_bar(i) && starts(cell_of(now, v)) && starts(cell_of(now, w)) && is_clash(now, v, w)
}

/// Q1.
#[inline]
fn is_outer_perfect(ex: &Exercise, i: usize, now: &[Cell]) -> bool
    ensures { result ≡ rows.is_outer_perfect ex.now i now.now }
{
    begins_inner_bar(ex, i) && sound_perfect(now, 0, usize::from(ex.voices.saturating_sub(1)))
}

/// Whether two voices sound the same key, and one of them starts a note.
#[inline]
fn strike_unison(now: &[Cell], v: usize, w: usize) -> bool
    ensures { result ≡ (pairs.one_starts now.now v w && pairs.sound_same_key now.now v w) }
{
    one_starts(now, v, w) && sound_same_key(now, v, w)
}

/// Q2.
#[inline]
fn struck_unisons(i: usize, now: &[Cell]) -> u32
    ensures value { result ≡ rows.struck_unisons i now.now }
    ensures bound { result ≤ 6 }
{
    if begins_bar(i) {
        return 0;
    }
    voice_pairs()
        .iter()
        .filter(|pair| strike_unison(now, pair.0 as usize, pair.1 as usize))
        .count() as u32
}

/// Whether a rule is broken at column `i`, whose cells are `now`.
#[inline]
pub fn breaks(
    rule: u8,
    ex: &Exercise,
    voices: VoiceSet,
    i: usize,
    before: &[Cell],
    latest: &Latest,
    now: &[Cell],
) -> bool
    ensures { result ≡ rows.near_rows rule ex.now voices.bits i before.now latest.now.pitches
        now.now }
{
    let Some((v, w)) = pair_of(voices) else {
        return false;
    };
    if w >= ex.voices {
        return false;
    }
    match rule {
        11 => meet_in_unison(ex, i, now, v as usize, w as usize),
        _ => clash_at_start(i, now, v as usize, w as usize),
    }
}

/// For how many voices or pairs a toll stands at column `i`, whose cells are `now`.
#[inline]
pub fn cost(
    toll: u8,
    ex: &Exercise,
    i: usize,
    before: &[Cell],
    latest: &Latest,
    now: &[Cell],
) -> u32
    ensures value { result ≡ rows.toll_rows toll ex.now i before.now latest.now.pitches now.now }
    ensures bound { result ≤ 6 }
{
    match toll {
        1 => u32::from(is_outer_perfect(ex, i, now)),
        _ => struck_unisons(i, now),
    }
}
