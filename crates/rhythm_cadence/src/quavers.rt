//! S25: notes of one slot.

ghost use Rattle.std.specs.Prelude.{◌≡◌, ◌-◌, ◌<◌, ◌≤◌, ℕ, true, length};
ghost use Rattle.fux_grid.specs.Columns.{Columns};
ghost use Rattle.rule_law.specs.Places.{reading_ahead, reading_of, settled_by};
ghost use Rattle.rule_law.specs.Voices.{is_free};
ghost use Rattle.rhythm_cadence.specs.Quavers as words;
ghost use Rattle.rhythm_cadence.specs.Quavers.{quaver_row, quaver_enough};

use crate::rhythm::free_voice;
use fux_grid::{Exercise, Score, VoiceSet, cell_of};
use fux_pitch::{Pitch, interval_of};
use rule_law::{ColumnsAround, cell_around, cells_ahead, is_step, next_onset, onset_pitch, starts};

/// Whether a note of exactly one slot starts.
fn starts_quaver<C: ColumnsAround>(around: &C, ex: &Exercise, i: usize, v: u8) -> bool
    requires voices { ex.now.voices ≤ 4 }
    requires place { i < 192 }
    ensures { (s : Columns) (first : ℕ) → C.show around.now ex.now s first → first ≤ i →
        result ≡ reading_ahead (λ _. words.starts_quaver) s i v }
{
    starts(cell_around(around, ex, v, i))
        && !cell_of(cells_ahead(around, ex, i, 0), v as usize).is_hold()
}

/// Whether there are both notes, and one is a step from the other.
pub fn is_step_apart(p: Option<Pitch>, q: Option<Pitch>) -> bool
    ensures { result ≡ words.is_step_apart p q }
{
    match (p, q) {
        (Some(p), Some(q)) => is_step(interval_of(p, q)),
        _ => false,
    }
}

/// Whether the note of a free voice at column `i` is entered and left by a step.
fn is_stepwise<C: ColumnsAround>(around: &C, ex: &Exercise, i: usize, v: u8) -> bool
    requires voices { ex.now.voices ≤ 4 }
    requires place { i < C.size around.now }
    ensures { (s : Columns) (first : ℕ) → C.show around.now ex.now s first → first ≤ i - 1
        → is_free ex.now v ≡ true → result ≡ reading_of words.is_stepwise s i v }
{
    let here = cell_around(around, ex, v, i).pitch();
    if !is_step_apart(around.pitch_before(ex, v, i), here) {
        return false;
    }
    is_step_apart(here, onset_pitch(next_onset(around, ex, v, i)))
}

/// S25 of a free voice.
fn is_bad_quaver<C: ColumnsAround>(around: &C, ex: &Exercise, i: usize, v: u8) -> bool
    requires voices { ex.now.voices ≤ 4 }
    requires few { i < 192 }
    requires place { i < C.size around.now }
    ensures { (s : Columns) (first : ℕ) → C.show around.now ex.now s first → first ≤ i - 1
        → is_free ex.now v ≡ true → result ≡ reading_of words.is_bad_quaver s i v }
{
    starts_quaver(around, ex, i, v) && !is_stepwise(around, ex, i, v)
}

/// S25: whether a note of exactly one slot starts at column `i`, and lacks a previous or a next
/// note, or is entered or left by another move than a step.
pub fn breaks_quaver<C: ColumnsAround>(
    around: &C,
    ex: &Exercise,
    voices: VoiceSet,
    i: usize,
) -> bool
    requires voices { ex.now.voices ≤ 4 }
    requires few { i < 192 }
    requires place { i < C.size around.now }
    ensures { (s : Columns) (first : ℕ) → C.show around.now ex.now s first → first ≤ i - 1 →
        result ≡ reading_of (quaver_row ex.now voices.bits) s i }
{
    match free_voice(ex, voices) {
        Some(v) => is_bad_quaver(around, ex, i, v),
        None => false,
    }
}

/// Whether no column that follows can change that.
pub fn is_quaver_settled(ex: &Exercise, score: &Score, i: usize, voices: VoiceSet) -> bool
    requires { i < length score.now.columns }
    ensures { result ≡ settled_by (quaver_enough ex.now voices.bits) score.now.columns i }
{
    score.kept();
    let bars = usize::from(ex.bars);
    i + 1 < score.len() || score.len() >= 8 * bars
}
