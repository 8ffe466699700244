//! In how many bars a note may still come.

ghost use Rattle.std.specs.Prelude.{◌≡◌, ◌<◌, ◌≤◌, ℕ, slice_index};
ghost use Rattle.cantus_space.specs.Cantus.{IsPlan};
ghost use Rattle.cantus_space.specs.Rules as rules;

use crate::plan::CantusPlan;
use crate::pools::{PITCHES, may_sound, numbered_pitch};

/// Whether some pitch may sound in a bar.
fn can_start(plan: &CantusPlan, bar: usize) -> bool
    requires first { 1 ≤ bar }
    requires last { bar ≤ plan.now.bars }
    ensures { result ≡ rules.can_start plan.now bar }
{
    for k in 0..PITCHES {
        if may_sound(plan, bar, numbered_pitch(plan, k)) {
            return true;
        }
    }
    false
}

/// In how many of the bars after so many some pitch may sound.
fn count_ahead(plan: &CantusPlan, count: usize) -> u8
    requires plan { IsPlan plan.now }
    requires few { count ≤ plan.now.bars }
    ensures value { result ≡ rules.starts_ahead plan.now count }
    ensures bound { result ≤ 24 }
{
    let mut starts = 0;
    for bar in count + 1..plan.bars as usize + 1 {
        starts += u8::from(can_start(plan, bar));
    }
    starts
}

/// For each number of bars, in how many of those after them some pitch may sound.
pub fn starts_ahead(plan: &CantusPlan) -> [u8; 25]
    requires { IsPlan plan.now }
    ensures { (count : ℕ) → count ≤ plan.now.bars → slice_index result count ≡ rules.starts_ahead
        plan.now count }
{
    let mut ahead = [0; 25];
    for count in 0..plan.bars as usize {
        ahead[count] = count_ahead(plan, count);
    }
    ahead
}
