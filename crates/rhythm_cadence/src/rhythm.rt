//! The crate of rules, and those of its rules that are read at once.

ghost use Rattle.std.specs.Prelude.{◌≡◌, ◌+◌, ◌<◌, ◌≤◌, ℕ, Bool, IfSome, IsTrue, nat_lt, length, slice_index_or, drop, []};
ghost use Rattle.fux_grid.specs.Exercises.{IsValid, IsFree, columns_in};
ghost use Rattle.rule_law.specs.Bars.{begins_bar};
ghost use Rattle.rule_law.specs.Places.{reading_of};
ghost use Rattle.rule_law.specs.Voices.{on_free_voice};
ghost use Rattle.rhythm_cadence.specs.Rows as rows;
ghost use Rattle.rhythm_cadence.specs.Rows.{holds_of_some};

use crate::part::kept;
use crate::rows::{ends_badly, lacks_final, leaves_gamut, leaves_range, opens_badly};
use fux_grid::{Cell, Exercise, Score, VoiceSet, cell_of};
use fux_pitch::Pitch;
use rule_law::{Latest, begins_bar, is_free, pair_of, voice_of};

/// S1, S2 or S12.
#[inline]
fn breaks_in_voice(
    rule: u8,
    ex: &Exercise,
    v: u8,
    i: usize,
    previous: Option<Pitch>,
    now: &[Cell],
) -> bool
    requires valid { IsValid ex.now }
    requires free { IsFree ex.now v }
    requires place { i < columns_in ex.now }
    ensures { result ≡ rows.voice_rule rule ex.now v i previous now.now }
{
    match rule {
        1 => leaves_range(ex, v, i, cell_of(now, v as usize)),
        2 => leaves_gamut(ex, i, cell_of(now, v as usize)),
        _ => opens_badly(ex, previous, now, v),
    }
}

/// Whether S1, S2, S12, S13 or S24 is broken in a column, from the pitch of each voice's latest
/// note before it.
#[inline]
pub fn breaks(
    rule: u8,
    ex: &Exercise,
    voices: VoiceSet,
    i: usize,
    before: &[Cell],
    latest: &Latest,
    now: &[Cell],
) -> bool
    requires valid { IsValid ex.now }
    requires place { i < columns_in ex.now }
    ensures { result ≡ rows.near_rows rule ex.now voices.bits i before.now latest.now.pitches
        now.now }
{
    match rule {
        13 => match pair_of(voices) {
            Some((v, w)) => w < ex.voices && v == 0 && ends_badly(ex, i, now, w),
            None => false,
        },
        24 => match voice_of(voices) {
            Some(v) => v < ex.voices && v == 0 && lacks_final(ex, i, now),
            None => false,
        },
        _ => match voice_of(voices) {
            Some(v) => {
                if v >= ex.voices || !is_free(ex, v) {
                    return false;
                }
                breaks_in_voice(rule, ex, v, i, latest.of(v as usize), now)
            }
            None => false,
        },
    }
}

/// Whether the bar that begins at a place, as far as the score has it, may go on to a shape of the
/// voice: some are left of those that a state would keep of it.
fn may_go_on(ex: &Exercise, score: &Score, v: u8, i: usize) -> bool
    requires valid { IsValid ex.now }
    requires few { length score.now.columns ≤ columns_in ex.now }
    requires place { i < length score.now.columns }
    requires bar { IsTrue (begins_bar i) }
    ensures { result ≡ rows.may_go_on ex.now v i (slice_index_or score.now.columns i [])
        (drop (i + 1) score.now.columns) }
{
    let end = score.len().min(i + 8);
    let mut possible = 0;
    for j in i..end {
        possible = kept(possible, ex, j, score.cell(v as usize, j), v);
    }
    possible != 0
}

/// The one free voice of a set, where the exercise has it.
#[inline]
pub(crate) fn free_voice(ex: &Exercise, voices: VoiceSet) -> Option<u8>
    ensures free { IfSome result (IsFree ex.now) }
    ensures test { (test : ℕ → Bool) → on_free_voice ex.now test voices.bits ≡ holds_of_some test
        result }
{
    match voice_of(voices) {
        Some(v) => {
            if v < ex.voices && is_free(ex, v) {
                return Some(v);
            }
            None
        }
        None => None,
    }
}

/// S3: whether the bar that begins at a place leaves the shapes of the set's voice.
pub(crate) fn leaves_shapes(ex: &Exercise, score: &Score, i: usize, voices: VoiceSet) -> bool
    requires valid { IsValid ex.now }
    requires few { length score.now.columns ≤ columns_in ex.now }
    requires place { i < length score.now.columns }
    ensures { result ≡ reading_of (rows.shape_row ex.now voices.bits) score.now.columns i }
{
    match free_voice(ex, voices) {
        Some(v) => begins_bar(i) && !may_go_on(ex, score, v, i),
        None => false,
    }
}

/// Whether the score has fewer than seven columns after this one, so that a bar that begins at it
/// isn't whole.
#[inline]
fn is_part(score: &Score, i: usize) -> bool
    requires { i < length score.now.columns }
    ensures { result ≡ nat_lt (length (drop (i + 1) score.now.columns)) 7 }
{
    score.len() - i < 8
}

/// Whether the bar that begins at a place is a part that may still go on to a shape of the set's
/// voice.
pub(crate) fn is_open(ex: &Exercise, score: &Score, i: usize, voices: VoiceSet) -> bool
    requires valid { IsValid ex.now }
    requires few { length score.now.columns ≤ columns_in ex.now }
    requires place { i < length score.now.columns }
    ensures { result ≡ reading_of (rows.open_row ex.now voices.bits) score.now.columns i }
{
    match free_voice(ex, voices) {
        Some(v) => begins_bar(i) && is_part(score, i) && may_go_on(ex, score, v, i),
        None => false,
    }
}

/// The rules S1, S2, S3, S12, S13, S22, S24 and S25, and the tolls Q15, Q16 and Q21.
#[derive(Clone, Copy, Debug, PartialEq, Eq)]
pub struct Rhythm;
