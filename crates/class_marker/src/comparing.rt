//! What is compared of a lesson and an answer.

ghost use Rattle.std.specs.Prelude.{◌≡◌, ◌≢◌, ◌+◌, ◌*◌, ◌<◌, ◌≤◌, ◌&&◌, [], length, not, slice_index_or};
ghost use Rattle.fux_grid.specs.Cells.{cell_in};
ghost use Rattle.fux_grid.specs.Exercises.{IsValid, given_at};
ghost use Rattle.fux_grid.specs.Givens.{fits};
ghost use Rattle.class_marker.specs.Differences as words;
ghost use Rattle.class_marker.specs.Differences.{column_of, is_free_in_both};

use fux_grid::{Exercise, Score, given_at, range};
use fux_pitch::final_letter;

/// Whether the modes are one.
pub(crate) fn same_mode(lesson: &Exercise, answer: &Exercise) -> bool
    ensures { result ≡ words.same_mode lesson.now answer.now }
{
    final_letter(lesson.mode) == final_letter(answer.mode)
}

/// Whether the species and the voices that have them are.
pub(crate) fn same_species(lesson: &Exercise, answer: &Exercise) -> bool
    ensures { result ≡ words.same_species lesson.now answer.now }
{
    lesson.species == answer.species && lesson.species_voice == answer.species_voice
}

/// Whether the pitches of the cantus firmus in a bar are.
pub(crate) fn same_cantus(lesson: &Exercise, answer: &Exercise, bar: u8) -> bool
    requires first { 1 ≤ bar }
    requires lesson { bar ≤ length lesson.now.cantus }
    requires answer { bar ≤ length answer.now.cantus }
    ensures { result ≡ words.same_cantus lesson.now answer.now bar }
{
    let k = bar as usize - 1;
    lesson.cantus.as_slice()[k] == answer.cantus.as_slice()[k]
}

/// Whether the ranges of a voice in a bar are.
fn same_range(lesson: &Exercise, answer: &Exercise, v: u8, bar: u8) -> bool
    requires lesson { IsValid lesson.now }
    requires answer { IsValid answer.now }
    requires lesson_voice { v < lesson.now.voices }
    requires answer_voice { v < answer.now.voices }
    requires lesson_free { v ≢ lesson.now.cantus_voice }
    requires answer_free { v ≢ answer.now.cantus_voice }
    ensures { result ≡ words.same_range lesson.now answer.now v bar }
{
    let (low, high) = range(lesson, v, bar);
    let (least, most) = range(answer, v, bar);
    low == least && high == most
}

/// Whether the ranges of a voice in a bar differ, where it is the cantus in neither.
pub(crate) fn differs_in_range(lesson: &Exercise, answer: &Exercise, v: u8, bar: u8) -> bool
    requires lesson { IsValid lesson.now }
    requires answer { IsValid answer.now }
    requires lesson_voice { v < lesson.now.voices }
    requires answer_voice { v < answer.now.voices }
    ensures { result ≡ (is_free_in_both lesson.now answer.now v
        && not (words.same_range lesson.now answer.now v bar)) }
{
    if v == lesson.cantus_voice || v == answer.cantus_voice {
        return false;
    }
    !same_range(lesson, answer, v, bar)
}

/// Whether the relax lines are the same ones.
pub(crate) fn same_relax(lesson: &Exercise, answer: &Exercise) -> bool
    ensures { result ≡ words.same_relax_lines lesson.now answer.now }
{
    lesson.relax.as_slice() == answer.relax.as_slice()
}

/// Whether what is sung at a slot of a voice's bar fits what the lesson gives there.
fn fits_at(lesson: &Exercise, score: &Score, v: u8, bar: u8, slot: usize) -> bool
    requires first { 1 ≤ bar }
    requires slot { slot < 8 }
    requires lesson { bar ≤ lesson.now.bars }
    requires score { 8 * bar ≤ length score.now.columns }
    ensures { result ≡ words.fits_at lesson.now score.now.columns v bar slot }
{
    let i = 8 * (bar as usize - 1) + slot;
    given_at(lesson, v, i).fits(score.cell(v as usize, i))
}

/// Whether what is sung in a voice's bar fits what the lesson gives there.
pub(crate) fn fits_in_bar(lesson: &Exercise, score: &Score, v: u8, bar: u8) -> bool
    requires first { 1 ≤ bar }
    requires lesson { bar ≤ lesson.now.bars }
    requires score { 8 * bar ≤ length score.now.columns }
    ensures { result ≡ words.fits_in_bar lesson.now score.now.columns v bar }
{
    for slot in 0..8 {
        if !fits_at(lesson, score, v, bar, slot) {
            return false;
        }
    }
    true
}
