//! The rules of two voices that clash, one of which is free: S15, S19, S20 and S21, and S27 and S28
//! where species are mixed.

ghost use Rattle.std.specs.Prelude.{◌≡◌, ◌<◌, ◌≤◌, ◌-◌, ◌&&◌, ℕ, length};
ghost use Rattle.fux_grid.specs.Columns.{Columns};
ghost use Rattle.fux_grid.specs.Exercises.{IsValid};
ghost use Rattle.rule_law.specs.Places.{reading_of, settled_by};
ghost use Rattle.rule_law.specs.Voices as voices;
ghost use Rattle.rule_law.specs.Ways.{on_some_way};
ghost use Rattle.dissonance_rules.specs.Clashes as words;
ghost use Rattle.dissonance_rules.specs.Clashes.{clash_enough, clash_row, clash_rule, pair_rule};
ghost use Rattle.dissonance_rules.specs.Told.{is_open_within};

use crate::ligatures::{is_bad_suspension, lacks_preparation, lacks_resolution};
use crate::mixed::{clash_unexcused, is_disturbed};
use crate::passing::{clashes_badly, is_open_clash};
use fux_grid::{Exercise, Score, VoiceSet};
use rule_law::{ColumnsAround, is_free, pair_of};

/// Whether `v` is free and breaks a rule for one way to name the voices.
fn breaks_one_way<C: ColumnsAround>(
    around: &C,
    rule: u8,
    ex: &Exercise,
    i: usize,
    v: u8,
    w: u8,
) -> bool
    requires voices { ex.now.voices ≤ 4 }
    requires room { C.size around.now ≤ 192 }
    requires place { i < C.size around.now }
    ensures { (s : Columns) (first : ℕ) → C.show around.now ex.now s first → first ≤ i - 3 → i
        < length s → result ≡ (voices.is_free ex.now v && reading_of (clash_rule rule ex.now) s i v
        w) }
{
    if !is_free(ex, v) {
        return false;
    }
    match rule {
        15 => clashes_badly(around, ex, i, v, w),
        19 => lacks_preparation(around, ex, i, v, w),
        20 => lacks_resolution(around, ex, i, v, w),
        28 => is_disturbed(around, ex, i, v, w),
        _ => is_bad_suspension(i, around.cells(ex, i), v as usize, w as usize),
    }
}

/// Whether a rule is broken for two voices. S27 names no voice first; the others are broken for one
/// way to name them, or for both.
fn breaks_pair<C: ColumnsAround>(
    around: &C,
    rule: u8,
    ex: &Exercise,
    i: usize,
    v: u8,
    w: u8,
) -> bool
    requires voices { ex.now.voices ≤ 4 }
    requires room { C.size around.now ≤ 192 }
    requires place { i < C.size around.now }
    ensures { (s : Columns) (first : ℕ) → C.show around.now ex.now s first → first ≤ i - 3 → i
        < length s → result ≡ reading_of (pair_rule rule ex.now) s i v w }
{
    if rule == 27 {
        return clash_unexcused(around, ex, i, v, w);
    }
    breaks_one_way(around, rule, ex, i, v, w) || breaks_one_way(around, rule, ex, i, w, v)
}

/// Whether one of S15, S19, S20, S21, S27 and S28 is broken at column `i` for a set of two voices,
/// one of which at least is free. The columns from the third before column `i` on are read.
pub fn breaks_clash<C: ColumnsAround>(
    around: &C,
    rule: u8,
    ex: &Exercise,
    i: usize,
    voices: VoiceSet,
) -> bool
    requires voices { ex.now.voices ≤ 4 }
    requires room { C.size around.now ≤ 192 }
    requires place { i < C.size around.now }
    ensures { (s : Columns) (first : ℕ) → C.show around.now ex.now s first → first ≤ i - 3 → i
        < length s → result ≡ reading_of (clash_row rule ex.now voices.bits) s i }
{
    let Some((v, w)) = pair_of(voices) else {
        return false;
    };
    if w >= ex.voices {
        return false;
    }
    breaks_pair(around, rule, ex, i, v, w)
}

/// Whether `v` is free and S15 is open for one way to name the voices in the first columns of the
/// list.
fn is_open_one_way<C: ColumnsAround>(
    around: &C,
    ex: &Exercise,
    i: usize,
    end: usize,
    v: u8,
    w: u8,
) -> bool
    requires valid { IsValid ex.now }
    requires within { end ≤ C.size around.now }
    requires place { i < end }
    ensures { (s : Columns) (first : ℕ) → C.show around.now ex.now s first → first ≤ i →
        result ≡ (voices.is_free ex.now v && is_open_within ex.now s end i v w) }
{
    is_free(ex, v) && is_open_clash(around, ex, i, end, v, w)
}

/// Whether S15 is open for a set of voices in the first columns of the list.
pub(crate) fn is_passing_open<C: ColumnsAround>(
    around: &C,
    ex: &Exercise,
    i: usize,
    end: usize,
    voices: VoiceSet,
) -> bool
    requires valid { IsValid ex.now }
    requires within { end ≤ C.size around.now }
    requires place { i < end }
    ensures { (s : Columns) (first : ℕ) → C.show around.now ex.now s first → first ≤ i →
        result ≡ on_some_way ex.now (is_open_within ex.now s end i) voices.bits }
{
    let Some((v, w)) = pair_of(voices) else {
        return false;
    };
    if w >= ex.voices {
        return false;
    }
    is_open_one_way(around, ex, i, end, v, w) || is_open_one_way(around, ex, i, end, w, v)
}

/// Whether S15 and S27 are settled for a set of voices.
fn is_passing_settled(ex: &Exercise, score: &Score, i: usize, voices: VoiceSet) -> bool
    requires valid { IsValid ex.now }
    requires place { i < length score.now.columns }
    ensures { result ≡ settled_by (words.passing_enough ex.now voices.bits) score.now.columns i }
{
    !is_passing_open(score, ex, i, score.len(), voices)
}

/// Whether so many columns come after column `i`, or all columns are there.
fn has_columns_after(ex: &Exercise, score: &Score, i: usize, columns: usize) -> bool
    requires place { i < length score.now.columns }
    requires few { columns ≤ 4 }
    ensures { result ≡ settled_by (words.enough_ahead columns ex.now) score.now.columns i }
{
    score.kept();
    let bars = usize::from(ex.bars);
    i + columns < score.len() || score.len() >= 8 * bars
}

/// Whether no column that follows can change what `breaks_clash` answers.
pub fn is_clash_settled(rule: u8, ex: &Exercise, score: &Score, i: usize, voices: VoiceSet) -> bool
    requires valid { IsValid ex.now }
    requires place { i < length score.now.columns }
    ensures { result ≡ settled_by (clash_enough rule ex.now voices.bits) score.now.columns i }
{
    match rule {
        15 | 27 => is_passing_settled(ex, score, i, voices),
        20 => has_columns_after(ex, score, i, 4),
        28 => has_columns_after(ex, score, i, 3),
        _ => true,
    }
}
