//! Tolls on the moves of free voices: Q7 to Q10 and Q13.

ghost use Rattle.std.specs.Prelude.{◌≡◌, ◌<◌, ◌≤◌, ℕ, IfSome, length};
ghost use Rattle.fux_grid.specs.Cells.{cell_in};
ghost use Rattle.rule_law.specs.Terms.{is_this};
ghost use Rattle.rule_law.specs.Places.{reading_of};
ghost use Rattle.rule_law.specs.Nearby.{pitch_at, whole_of};
ghost use Rattle.melody_rules.specs.Rows as rows;

use crate::voices::{all_notes_before, open_leaps};
use fux_grid::{Cell, Exercise, Score, cell_of};
use fux_pitch::{Interval, Pitch};
use rule_law::{Latest, is_free, is_repetition, latest_before, move_from};

/// Whether a toll stands for a move.
#[inline]
fn charges_move(toll: u8, i: Interval) -> bool
    ensures { result ≡ rows.charges_move toll i }
{
    let degrees = i.degrees.unsigned_abs();
    match toll {
        7 => is_repetition(i),
        8 => degrees == 2,
        9 => degrees == 3 || degrees == 4,
        _ => degrees >= 5,
    }
}

/// Which of Q7 to Q10 stands for a move.
#[inline]
fn toll_of_interval(i: Interval) -> Option<u8>
    ensures first { IfSome result (λ toll. 7 ≤ toll) }
    ensures last { IfSome result (λ toll. toll ≤ 10) }
    ensures stands { (toll : ℕ) → 7 ≤ toll → toll ≤ 10 → rows.charges_move toll i
        ≡ is_this toll result }
{
    match i.degrees.unsigned_abs() {
        0 if i.semitones == 0 => Some(7),
        0 | 1 => None,
        2 => Some(8),
        3 | 4 => Some(9),
        _ => Some(10),
    }
}

/// Which of Q7 to Q10 a move to a cell pays. By the size of the move there is one at most.
#[inline]
pub fn toll_of_move(previous: Option<Pitch>, now: Cell) -> Option<u8>
    ensures first { IfSome result (λ toll. 7 ≤ toll) }
    ensures last { IfSome result (λ toll. toll ≤ 10) }
    ensures stands { (toll : ℕ) → 7 ≤ toll → toll ≤ 10 → rows.pays_move toll previous now
        ≡ is_this toll result }
{
    match move_from(previous, now) {
        Some(step) => toll_of_interval(step),
        None => None,
    }
}

/// 1 where a toll stands for a free voice, else 0.
#[inline(always)]
fn cost_of_voice(toll: u8, ex: &Exercise, latest: &Latest, now: &[Cell], v: u8) -> u32
    ensures value { result ≡ rows.move_cost toll ex.now v (pitch_at latest.now.pitches v)
        (cell_in now.now v) }
    ensures bound { result ≤ 1 }
{
    if !is_free(ex, v) {
        return 0;
    }
    match move_from(latest.of(v as usize), cell_of(now, v as usize)) {
        Some(step) => u32::from(charges_move(toll, step)),
        None => 0,
    }
}

/// In how many free voices Q7, Q8, Q9 or Q10 stands in a column, from the pitch of each voice's
/// latest note before it.
#[inline(always)]
#[tactic(auto, unfolding(crate::specs::Rows::toll_rows))]
pub fn cost(
    toll: u8,
    ex: &Exercise,
    i: usize,
    before: &[Cell],
    latest: &Latest,
    now: &[Cell],
) -> u32
    ensures value { result ≡ rows.toll_rows toll ex.now i before.now latest.now.pitches now.now }
    ensures bound { result ≤ 4 }
{
    cost_of_voice(toll, ex, latest, now, 0)
        + cost_of_voice(toll, ex, latest, now, 1)
        + cost_of_voice(toll, ex, latest, now, 2)
        + cost_of_voice(toll, ex, latest, now, 3)
}

/// A toll at a place of a score.
pub(crate) fn cost_in_score(toll: u8, ex: &Exercise, score: &Score, i: usize) -> u32
    requires { i < length score.now.columns }
    ensures { result ≡ reading_of (whole_of (rows.toll_rows toll ex.now)) score.now.columns i }
{
    cost(
        toll,
        ex,
        i,
        score.before(i),
        &latest_before(score, i),
        score.column(i).as_slice(),
    )
}

/// Q13 at a place of a score.
pub(crate) fn open_leaps_in_score(ex: &Exercise, score: &Score, i: usize) -> u32
    requires { i < length score.now.columns }
    ensures { result ≡ reading_of (rows.open_leaps ex.now) score.now.columns i }
{
    open_leaps(ex, &all_notes_before(score, i), score.column(i).as_slice())
}
