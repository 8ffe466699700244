//! Columns that are dead, or cost too much, by the cells of a few voices.

ghost use Rattle.std.specs.Prelude.{◌≡◌, ◌≤◌, ◌<◌, ◌+◌, ◌-◌, ℕ, Some, IsSomeAnd, IsTrue, IfNone, IfSome, length};
ghost use Rattle.std.specs.Bool.{OnTrue, OnFalse};
ghost use Rattle.std.specs.List.{list_all, sum_by};
ghost use Rattle.fux_grid.specs.Columns.{Columns};
ghost use Rattle.fux_grid.specs.Exercises.{IsValid, columns_in};
ghost use Rattle.rule_law.specs.Voices.{pair_of as both_voices, voice_of as one_voice};
ghost use Rattle.fux_judge.specs.Charges.{tolls_of_pairs, voice_charge};
ghost use Rattle.fux_judge.specs.Pruning.{IsDeadBy, IsDeadWithin, IsFair, IsFairPair, IsFairWithin, IsSmooth, PrunesWithin, is_set_below, reads_below};
ghost use Rattle.fux_judge.specs.States.{IsStateOf};
ghost use Rattle.fux_judge.specs.Steps.{toll_at_end};

use crate::reading::is_strictly_broken;
use crate::state::State;
use crate::tolls::{charge_of_voice, charges_of_pairs};
use crate::verdict::moment_of;
use fux_grid::{Column, Exercise, VoiceSet, cell_of, species_of};
use melody_rules::is_smooth_in;
use penalty_sheet::Sheet;
use rhythm_cadence::leaves_last_shape;
use rule_law::{is_quiet, sound_perfect, starts};

/// The rules of one voice that starts a note.
const WHERE_IT_STARTS: [u8; 7] = [4, 5, 26, 6, 7, 8, 9];

/// The set of a voice alone.
#[inline]
fn alone(voice: usize) -> VoiceSet
    requires { voice < 4 }
    ensures one { one_voice result.bits ≡ Some voice }
    ensures below { IsTrue (is_set_below (voice + 1) result.bits) }
{
    match voice {
        0 => VoiceSet { bits: 1 },
        1 => VoiceSet { bits: 2 },
        2 => VoiceSet { bits: 4 },
        _ => VoiceSet { bits: 8 },
    }
}

/// The set of two voices.
#[inline]
fn both(lower: usize, upper: usize) -> VoiceSet
    requires order { lower < upper }
    requires upper { upper < 4 }
    ensures pair { both_voices result.bits ≡ Some (lower, upper) }
    ensures below { IsTrue (is_set_below (upper + 1) result.bits) }
{
    match (lower, upper) {
        (0, 1) => VoiceSet { bits: 3 },
        (0, 2) => VoiceSet { bits: 5 },
        (1, 2) => VoiceSet { bits: 6 },
        (0, 3) => VoiceSet { bits: 9 },
        (1, 3) => VoiceSet { bits: 10 },
        _ => VoiceSet { bits: 12 },
    }
}

/// Whether one of these rules is strictly broken for a set of voices.
fn breaks_one(rules: &[u8], voices: VoiceSet, ex: &Exercise, state: &State, col: &Column) -> bool
    requires rules { IsTrue (list_all reads_below rules.now) }
    requires valid { IsValid ex.now }
    requires room { state.now.newest.len < columns_in ex.now }
    ensures { OnTrue result (IsDeadBy voices.bits ex.now state.now col.now.items) }
{
    let moment = moment_of(ex, state, col);
    for rule in rules {
        if is_strictly_broken(*rule, voices, &moment) {
            return true;
        }
    }
    false
}

/// Whether a voice alone breaks a rule strictly: one of melody. Where nothing is relaxed, it
/// doesn't matter which.
fn breaks_alone(voice: u8, voices: VoiceSet, ex: &Exercise, state: &State, col: &Column) -> bool
    requires low { voice < 4 }
    requires alone { one_voice voices.bits ≡ Some voice }
    requires valid { IsValid ex.now }
    requires room { state.now.newest.len < columns_in ex.now }
    ensures dead { OnTrue result (IsDeadBy voices.bits ex.now state.now col.now.items) }
    ensures smooth { OnFalse result (IsSmooth voice ex.now state.now col.now.items) }
{
    let cells = col.as_slice();
    if is_smooth_in(ex, &state.past.parts.first, cells, voice) {
        return false;
    }
    if ex.relax.as_slice().is_empty() {
        return true;
    }
    breaks_one(&WHERE_IT_STARTS, voices, ex, state, col)
}

/// Whether two voices break S16 or S17 strictly.
fn breaks_motion(lower: usize, upper: usize, ex: &Exercise, state: &State, col: &Column) -> bool
    requires order { lower < upper }
    requires upper { upper < 4 }
    requires valid { IsValid ex.now }
    requires room { state.now.newest.len < columns_in ex.now }
    ensures dead { OnTrue result (IsDeadWithin (upper + 1) ex.now state.now col.now.items) }
    ensures fair { OnFalse result (IsFairPair lower upper ex.now state.now col.now.items) }
{
    let moment = moment_of(ex, state, col);
    let voices = both(lower, upper);
    if is_strictly_broken(16, voices, &moment) {
        return true;
    }
    is_strictly_broken(17, voices, &moment)
}

/// Whether two voices break a rule strictly by moving together, which takes a perfect interval in
/// which both start.
fn breaks_together(lower: usize, upper: usize, ex: &Exercise, state: &State, col: &Column) -> bool
    requires order { lower < upper }
    requires upper { upper < 4 }
    requires valid { IsValid ex.now }
    requires room { state.now.newest.len < columns_in ex.now }
    ensures dead { OnTrue result (IsDeadWithin (upper + 1) ex.now state.now col.now.items) }
    ensures fair { OnFalse result (IsFairPair lower upper ex.now state.now col.now.items) }
{
    let cells = col.as_slice();
    if !starts(cell_of(cells, lower)) {
        return false;
    }
    if !sound_perfect(cells, lower, upper) {
        return false;
    }
    breaks_motion(lower, upper, ex, state, col)
}

/// Whether a voice that starts a note breaks a rule strictly by moving with a lower one.
fn breaks_with_lower(voice: usize, ex: &Exercise, state: &State, col: &Column) -> bool
    requires voice { voice < 4 }
    requires valid { IsValid ex.now }
    requires room { state.now.newest.len < columns_in ex.now }
    ensures dead { OnTrue result (IsDeadWithin (voice + 1) ex.now state.now col.now.items) }
    ensures fair { OnFalse result ((lower : ℕ) → lower < voice →
        IsFairPair lower voice ex.now state.now col.now.items) }
{
    for lower in 0..voice {
        if breaks_together(lower, voice, ex, state, col) {
            return true;
        }
    }
    false
}

/// Whether a voice leaves the last of the shapes that it may still have in its bar. It is asked in
/// fifth species alone, since in the others each start of a menu goes on with a shape.
fn leaves_shapes(voice: usize, ex: &Exercise, state: &State, col: &Column) -> bool
    requires voice { voice < 4 }
    requires valid { IsValid ex.now }
    requires room { state.now.newest.len < columns_in ex.now }
    ensures { OnTrue result (IsDeadWithin (voice + 1) ex.now state.now col.now.items) }
{
    if species_of(ex, voice as u8) != 5 {
        return false;
    }
    let cells = col.as_slice();
    let cell = cell_of(cells, voice);
    if leaves_last_shape(
        &state.past.parts.second.second.second.first,
        ex,
        state.newest.len,
        cell,
        voice as u8,
    ) {
        return true;
    }
    false
}

/// Whether a voice that starts a note breaks a rule strictly, alone or with a lower one. Its shapes
/// are asked first, which takes least. What is known of the prefix is put together only where two
/// voices move to a perfect interval, which few do.
fn breaks_with(voice: usize, ex: &Exercise, state: &State, col: &Column) -> bool
    requires voice { voice < 4 }
    requires valid { IsValid ex.now }
    requires room { state.now.newest.len < columns_in ex.now }
    ensures dead { OnTrue result (IsDeadWithin (voice + 1) ex.now state.now col.now.items) }
    ensures fair { OnFalse result (IsFair voice ex.now state.now col.now.items) }
{
    if leaves_shapes(voice, ex, state, col) {
        return true;
    }
    if breaks_alone(voice as u8, alone(voice), ex, state, col) {
        return true;
    }
    breaks_with_lower(voice, ex, state, col)
}

/// Whether a voice that wasn't tried breaks a rule strictly, alone or with a lower one; it may start
/// no note.
#[inline(always)]
fn breaks_untried(voice: usize, tried: usize, ex: &Exercise, state: &State, col: &Column) -> bool
    requires voice { voice < 4 }
    requires valid { IsValid ex.now }
    requires room { state.now.newest.len < columns_in ex.now }
    ensures dead { OnTrue result (IsDeadWithin (voice + 1) ex.now state.now col.now.items) }
    ensures fair { OnFalse result (tried ≤ voice → IsFair voice ex.now state.now col.now.items) }
{
    if voice < tried {
        return false;
    }
    let cells = col.as_slice();
    if !starts(cell_of(cells, voice)) {
        return false;
    }
    breaks_with(voice, ex, state, col)
}

/// Whether a cost reaches the limit, where there is one.
#[inline]
fn reaches(cost: u64, limit: Option<u64>) -> bool
    ensures { OnTrue result (IsSomeAnd limit (λ most. most ≤ cost)) }
{
    match limit {
        Some(most) => cost >= most,
        None => false,
    }
}

/// What a voice's move costs by the tolls of melody, whether a limit asks it or not.
#[inline(always)]
fn charge_of(ex: &Exercise, sheet: &Sheet, state: &State, col: &Column, voice: usize) -> u64
    requires voice { voice < 4 }
    requires few { ex.now.voices ≤ 4 }
    ensures value { (p : Columns) → IsStateOf ex.now p state.now
        → result ≡ voice_charge ex.now sheet.now p col.now.items voice }
    ensures bound { result ≤ 131070 }
{
    let moment = moment_of(ex, state, col);
    charge_of_voice(sheet, &moment, voice)
}

/// What a voice's move costs by the tolls of melody; nothing where no limit asks it.
#[inline(always)]
fn charge_for(
    limit: Option<u64>,
    ex: &Exercise,
    sheet: &Sheet,
    state: &State,
    col: &Column,
    voice: usize,
) -> u64
    requires voice { voice < 4 }
    requires few { ex.now.voices ≤ 4 }
    ensures value { (p : Columns) → IsStateOf ex.now p state.now
        → result ≤ voice_charge ex.now sheet.now p col.now.items voice }
    ensures bound { result ≤ 131070 }
{
    if limit.is_none() {
        return 0;
    }
    charge_of(ex, sheet, state, col, voice)
}

/// What all voices cost together.
fn charge_together(ex: &Exercise, sheet: &Sheet, state: &State, col: &Column) -> u64
    requires valid { IsValid ex.now }
    requires room { state.now.newest.len < columns_in ex.now }
    ensures value { (p : Columns) → IsStateOf ex.now p state.now
        → result ≡ sum_by (toll_at_end ex.now sheet.now p col.now.items) tolls_of_pairs }
    ensures bound { result ≤ 1179630 }
{
    let moment = moment_of(ex, state, col);
    charges_of_pairs(sheet, &moment)
}

/// Whether what all voices cost and what they cost together reach the limit, where there is one.
#[inline(always)]
fn costs_too_much(
    limit: Option<u64>,
    least: u64,
    ex: &Exercise,
    sheet: &Sheet,
    state: &State,
    col: &Column,
) -> bool
    requires little { least ≤ 524280 }
    requires valid { IsValid ex.now }
    requires room { state.now.newest.len < columns_in ex.now }
    ensures { OnTrue result (IsSomeAnd limit (λ most. (p : Columns) → IsStateOf ex.now p state.now
        → most ≤ least + sum_by (toll_at_end ex.now sheet.now p col.now.items) tolls_of_pairs)) }
{
    match limit {
        Some(most) => least + charge_together(ex, sheet, state, col) >= most,
        None => false,
    }
}

/// How many voices, counted from the lowest, prune a column by their cells alone: then every
/// column with the same cells in these voices settles a strict break, or costs the limit or more.
/// None where no such reason was found; there may be one all the same: what a column sounds isn't
/// asked again, since `is_always_dead` tells of it. So many of the lowest voices as have been
/// tried are only asked what they cost: whoever has asked them of an earlier column with the same
/// cells spares the question. Whatever the number is, what is told of a column that is pruned
/// holds; and where nothing is relaxed and the tried voices keep the rules of melody, and S16 and
/// S17 with lower ones, so do those below the last one that prunes, and all where none does. It
/// takes no memory.
#[inline(always)]
pub fn pruned_within(
    ex: &Exercise,
    sheet: &Sheet,
    state: &State,
    col: &Column,
    tried: usize,
    limit: Option<u64>,
) -> Option<usize>
    requires valid { IsValid ex.now }
    requires room { state.now.newest.len < columns_in ex.now }
    requires full { length col.now.items ≡ ex.now.voices }
    ensures some { IfSome result (λ n. 1 ≤ n) }
    ensures few { IfSome result (λ n. n ≤ ex.now.voices) }
    ensures pruned { IfSome result (λ n. PrunesWithin n ex.now sheet.now state.now limit
        col.now.items) }
    ensures sound { IsFairWithin tried ex.now state.now col.now.items
        → IfSome result (λ n. IsFairWithin (n - 1) ex.now state.now col.now.items) }
    ensures fair { IsFairWithin tried ex.now state.now col.now.items
        → IfNone result (IsFairWithin 4 ex.now state.now col.now.items) }
{
    if is_quiet(state.newest.len, col.as_slice()) {
        return None;
    }
    let mut least = 0u64;
    for voice in 0..ex.voices as usize {
        let charge = charge_for(limit, ex, sheet, state, col, voice);
        least += charge;
        if reaches(least, limit) {
            return Some(voice + 1);
        }
        if breaks_untried(voice, tried, ex, state, col) {
            return Some(voice + 1);
        }
    }
    if costs_too_much(limit, least, ex, sheet, state, col) {
        return Some(ex.voices as usize);
    }
    None
}
