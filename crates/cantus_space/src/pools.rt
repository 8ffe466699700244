//! The pools of the bars.

ghost use Rattle.std.specs.Prelude.{◌≡◌, ◌<◌, ◌≤◌, ℕ, false, true};
ghost use Rattle.cantus_space.specs.Cantus as cantus;
ghost use Rattle.cantus_space.specs.Cantus.{IsPlan};
ghost use Rattle.cantus_space.specs.Numbers as numbers;

use crate::plan::CantusPlan;
use fux_pitch::{Pitch, final_letter, in_gamut, semitone, spell};
use rhythm_cadence::is_final_in;

/// How many pitches have a number: those of the keys from 24 to 96, as keys are spelled.
pub const PITCHES: usize = 73;

/// The pitch of a number.
pub fn numbered_pitch(plan: &CantusPlan, k: usize) -> Pitch
    requires { k < 73 }
    ensures { result ≡ numbers.numbered_pitch plan.now k }
{
    match spell(k as u8 + 24) {
        Some(pitch) => pitch,
        None => plan.low,
    }
}

/// Whether the pitch lies in the range.
fn is_in_range(plan: &CantusPlan, pitch: Pitch) -> bool
    ensures { result ≡ cantus.is_in_range plan.now pitch }
{
    semitone(plan.low) <= semitone(pitch) && semitone(pitch) <= semitone(plan.high)
}

/// Whether the pitch is in the gamut of a bar and in the range.
pub fn may_sound(plan: &CantusPlan, bar: usize, pitch: Pitch) -> bool
    requires first { 1 ≤ bar }
    requires last { bar ≤ plan.now.bars }
    ensures { result ≡ cantus.may_sound plan.now bar pitch }
{
    let bars = plan.bars;
    in_gamut(plan.mode, bar as u8, bars, pitch) && is_in_range(plan, pitch)
}

/// Whether its letter is one step above the final's.
fn is_step_above(plan: &CantusPlan, pitch: Pitch) -> bool
    ensures { result ≡ cantus.is_step_above plan.now.mode pitch }
{
    pitch.degree() % 7 == (final_letter(plan.mode) + 1) % 7
}

/// Whether the pitch may sound in the bar, and in the last bar but one has such a letter.
fn fits_within(plan: &CantusPlan, bar: usize, pitch: Pitch) -> bool
    requires first { 1 ≤ bar }
    requires last { bar ≤ plan.now.bars }
    ensures { result ≡ cantus.fits_within plan.now bar pitch }
{
    if plan.bars as usize == bar + 1 {
        may_sound(plan, bar, pitch) && is_step_above(plan, pitch)
    } else {
        may_sound(plan, bar, pitch)
    }
}

/// Whether the pitch is of the bar's pool.
pub fn is_in_pool(plan: &CantusPlan, bar: usize, pitch: Pitch) -> bool
    requires first { 1 ≤ bar }
    requires last { bar ≤ plan.now.bars }
    ensures { result ≡ cantus.is_in_pool plan.now bar pitch }
{
    if bar == 1 || bar == plan.bars as usize {
        is_in_range(plan, pitch) && is_final_in(plan.mode, pitch)
    } else {
        fits_within(plan, bar, pitch)
    }
}

/// The least number, from this one on, of a pitch of the bar's pool; the number of all where there
/// is none.
pub fn next_of_pool(plan: &CantusPlan, bar: usize, from: usize) -> usize
    requires first { 1 ≤ bar }
    requires last { bar ≤ plan.now.bars }
    requires from { from ≤ 73 }
    ensures onward { from ≤ result }
    ensures found { result < 73 → cantus.is_in_pool plan.now bar (numbers.numbered_pitch plan.now
        result) ≡ true }
    ensures bound { result ≤ 73 }
    ensures passed { (k : ℕ) → from ≤ k → k < result →
        cantus.is_in_pool plan.now bar (numbers.numbered_pitch plan.now k) ≡ false }
{
    for k in from..PITCHES {
        if is_in_pool(plan, bar, numbered_pitch(plan, k)) {
            return k;
        }
    }
    PITCHES
}
