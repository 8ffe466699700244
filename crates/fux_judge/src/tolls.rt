//! Tolls that are settled at once, read at a moment.

ghost use Rattle.std.specs.Prelude.{◌≡◌, ◌≤◌, ◌<◌, ◌+◌, false, List, length};
ghost use Rattle.std.specs.List.{sum_by};
ghost use Rattle.fux_grid.specs.declared.cell.Cell.{Cell as ACell};
ghost use Rattle.fux_grid.specs.Columns.{line};
ghost use Rattle.melody_rules.specs.Notes.{AreNotesOf};
ghost use Rattle.fux_judge.specs.Charges.{leap_charge, move_charge, voice_charge};
ghost use Rattle.fux_judge.specs.Links.{others_at_once};
ghost use Rattle.fux_judge.specs.Rules.{cost_at, is_late_toll};
ghost use Rattle.fux_judge.specs.Moments.{IsAfter, IsReadable, pairs_then, toll_then, with_column};
ghost use Rattle.penalty_sheet.specs.Weights.{greatest_toll};

use crate::all_rules::AllRules;
use crate::moment::Moment;
use fux_grid::{Cell, cell_of};
use fux_pitch::Pitch;
use melody_rules::{VoiceNotes, leap_open_after, toll_of_move};
use penalty_sheet::{Sheet, weight};
use rule_law::{RuleCrate, is_free, starts};

/// What a toll that is settled at once costs, without its weight.
#[inline(always)]
#[tactic(auto, unfolding(crate::specs::Rules::toll_at))]
fn cost(toll: u8, m: &Moment<'_>) -> u32
    requires soon { is_late_toll toll ≡ false }
    requires readable { IsReadable m.now }
    ensures value { (p : List (List ACell)) → IsAfter p m.now → result
        ≡ cost_at toll m.now.exercise.now (with_column p m.now) (length p) }
    ensures bound { result ≤ 6 }
{
    AllRules::cost_at_once(
        &m.state.past.parts,
        toll,
        m.exercise,
        m.state.newest.len,
        m.before,
        &m.latest,
        m.column,
    )
}

/// What it costs by its weight. Each toll is asked by its own number, so that what depends on the
/// number alone is settled before the program runs.
#[inline(always)]
fn charge(toll: u8, sheet: &Sheet, m: &Moment<'_>) -> u64
    requires first { 1 ≤ toll }
    requires last { toll ≤ greatest_toll }
    requires soon { is_late_toll toll ≡ false }
    requires readable { IsReadable m.now }
    ensures value { (p : List (List ACell)) → IsAfter p m.now → result ≡ toll_then sheet.now p m.now
        toll }
    ensures bound { result ≤ 393210 }
{
    u64::from(cost(toll, m)) * u64::from(weight(sheet, toll))
}

/// What the tolls of motion and dissonance that are settled at once cost together: those that
/// several voices make.
#[tactic(auto, unfolding(crate::specs::Rules::toll_at))]
pub(crate) fn charges_of_pairs(sheet: &Sheet, m: &Moment<'_>) -> u64
    requires { IsReadable m.now }
    ensures value { (p : List (List ACell)) → IsAfter p m.now → result ≡ pairs_then sheet.now p
        m.now }
    ensures bound { result ≤ 1179630 }
{
    charge(1, sheet, m) + charge(2, sheet, m) + charge(11, sheet, m)
}

/// The weight of the toll that a move to a cell pays by its size: Q7, Q8, Q9 or Q10.
#[inline]
pub(crate) fn charge_of_move(sheet: &Sheet, previous: Option<Pitch>, now: Cell) -> u64
    ensures value { result ≡ move_charge sheet.now previous now }
    ensures bound { result ≤ 65535 }
{
    match toll_of_move(previous, now) {
        Some(toll) => u64::from(weight(sheet, toll)),
        None => 0,
    }
}

/// The weight of Q13, where it stands for a cell of a voice that comes after these notes.
fn charge_of_leap(sheet: &Sheet, voices: &[VoiceNotes; 4], voice: usize, now: Cell) -> u64
    requires { voice < 4 }
    ensures value { (behind : List (List ACell)) → AreNotesOf behind voices.now → result
        ≡ leap_charge sheet.now (line voice behind) now }
    ensures bound { result ≤ 65535 }
{
    if leap_open_after(&voices[voice], now) {
        u64::from(weight(sheet, 13))
    } else {
        0
    }
}

/// What a voice's move costs by the tolls of melody: Q7 to Q10 and Q13. The cantus pays nothing,
/// and nor does a voice that starts no note.
#[inline(always)]
pub(crate) fn charge_of_voice(sheet: &Sheet, m: &Moment<'_>, voice: usize) -> u64
    requires { voice < 4 }
    ensures value { (p : List (List ACell)) → IsAfter p m.now
        → result ≡ voice_charge m.now.exercise.now sheet.now p m.now.column.now voice }
    ensures bound { result ≤ 131070 }
{
    let cell = cell_of(m.column, voice);
    if !starts(cell) {
        return 0;
    }
    if !is_free(m.exercise, voice as u8) {
        return 0;
    }
    charge_of_move(sheet, m.latest.of(voice), cell)
        + charge_of_leap(sheet, &m.state.past.parts.first, voice, cell)
}

/// What the tolls that are settled at once cost together, but for the column's own ones.
#[tactic(auto, unfolding(crate::specs::Rules::toll_at))]
pub(crate) fn charges(sheet: &Sheet, m: &Moment<'_>) -> u64
    requires { IsReadable m.now }
    ensures value { (p : List (List ACell)) → IsAfter p m.now → result
        ≡ sum_by (toll_then sheet.now p m.now) others_at_once }
    ensures bound { result ≤ 7864200 }
{
    charge_of_voice(sheet, m, 0)
        + charge_of_voice(sheet, m, 1)
        + charge_of_voice(sheet, m, 2)
        + charge_of_voice(sheet, m, 3)
        + charge(11, sheet, m)
}
