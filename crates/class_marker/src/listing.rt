//! What an answer has otherwise than its lesson, in the order of telling.

ghost use Rattle.std.specs.Prelude.{◌≡◌, ◌*◌, ◌<◌, ◌≤◌, ◌++◌, [], ◌∷◌, IfOk, OnOk, List, filter, if◌then◌else◌, length, map, min};
ghost use Rattle.fux_grid.specs.declared.cell.Cell.{Cell};
ghost use Rattle.fux_grid.specs.Exercises.{IsComplete, IsValid};
ghost use Rattle.class_marker.specs.Differences as words;
ghost use Rattle.class_marker.specs.Differences.{common_bars, common_voices, differs, in_each_bar};
ghost use Rattle.class_marker.specs.declared.difference.Difference.TheVariants as told;

use crate::comparing::{
    differs_in_range, fits_in_bar, same_cantus, same_mode, same_relax, same_species,
};
use crate::difference::Difference;
use fux_grid::{Exercise, Score};
use fux_pitch::Memory;
use std::alloc::Global;

/// The fewer of two counts.
fn fewer(n: u8, m: u8) -> u8
    ensures { result ≡ min n m }
{
    if n <= m { n } else { m }
}

/// Appends a difference, where there is one.
fn put_if(out: &mut Vec<Difference>, is_there: bool, difference: Difference) -> Result<(), Memory>
    ensures { OnOk result (out.new.items ≡ out.old.items ++ (if is_there then difference
        ∷ [] else [])) }
{
    if is_there {
        out.push(difference)?;
    }
    Ok(())
}

/// Appends what differs in the lines above the cantus firmus, and in which voice that is.
fn put_head(out: &mut Vec<Difference>, lesson: &Exercise, answer: &Exercise) -> Result<(), Memory>
    ensures { (s : List (List Cell)) → OnOk result (out.new.items ≡ out.old.items
        ++ filter (differs lesson.now answer.now s)
        (told.Mode ∷ told.Voices ∷ told.Bars ∷ told.Species ∷ told.CantusVoice ∷ [])) }
{
    put_if(out, !same_mode(lesson, answer), Difference::Mode)?;
    put_if(out, lesson.voices != answer.voices, Difference::Voices)?;
    put_if(out, lesson.bars != answer.bars, Difference::Bars)?;
    put_if(out, !same_species(lesson, answer), Difference::Species)?;
    let is_other = lesson.cantus_voice != answer.cantus_voice;
    put_if(out, is_other, Difference::CantusVoice)?;
    Ok(())
}

/// Appends the bars in which the cantus firmus differs.
fn put_cantus(out: &mut Vec<Difference>, lesson: &Exercise, answer: &Exercise) -> Result<(), Memory>
    requires lesson { IsValid lesson.now }
    requires answer { IsValid answer.now }
    ensures { (s : List (List Cell)) → OnOk result (out.new.items ≡ out.old.items
        ++ filter (differs lesson.now answer.now s)
        (map (λ bar. told.Cantus bar) (common_bars lesson.now answer.now))) }
{
    let bars = fewer(lesson.bars, answer.bars);
    for bar in 1..bars + 1 {
        let is_other = !same_cantus(lesson, answer, bar);
        put_if(out, is_other, Difference::Cantus { bar })?;
    }
    Ok(())
}

/// Appends the bars of a voice in which its range differs.
fn put_ranges_of(
    out: &mut Vec<Difference>,
    lesson: &Exercise,
    answer: &Exercise,
    voice: u8,
) -> Result<(), Memory>
    requires lesson { IsValid lesson.now }
    requires answer { IsValid answer.now }
    requires lesson_voice { voice < lesson.now.voices }
    requires answer_voice { voice < answer.now.voices }
    ensures { (s : List (List Cell)) → OnOk result (out.new.items ≡ out.old.items
        ++ filter (differs lesson.now answer.now s)
        (map (λ bar. told.Range voice bar) (common_bars lesson.now answer.now))) }
{
    let bars = fewer(lesson.bars, answer.bars);
    for bar in 1..bars + 1 {
        let is_other = differs_in_range(lesson, answer, voice, bar);
        put_if(out, is_other, Difference::Range { voice, bar })?;
    }
    Ok(())
}

/// Appends the bars of all voices in which their ranges differ.
fn put_ranges(out: &mut Vec<Difference>, lesson: &Exercise, answer: &Exercise) -> Result<(), Memory>
    requires lesson { IsValid lesson.now }
    requires answer { IsValid answer.now }
    ensures { (s : List (List Cell)) → OnOk result (out.new.items ≡ out.old.items
        ++ filter (differs lesson.now answer.now s)
        (in_each_bar (λ v bar. told.Range v bar) (common_voices lesson.now answer.now)
        (common_bars lesson.now answer.now))) }
{
    for voice in 0..fewer(lesson.voices, answer.voices) {
        put_ranges_of(out, lesson, answer, voice)?;
    }
    Ok(())
}

/// Appends the bars of a voice in which what is given isn't sung.
fn put_given_of(
    out: &mut Vec<Difference>,
    lesson: &Exercise,
    answer: &Exercise,
    score: &Score,
    voice: u8,
) -> Result<(), Memory>
    requires lesson { IsValid lesson.now }
    requires answer { IsValid answer.now }
    requires complete { IsComplete answer.now score.now }
    ensures { OnOk result (out.new.items ≡ out.old.items
        ++ filter (differs lesson.now answer.now score.now.columns)
        (map (λ bar. told.Given voice bar) (common_bars lesson.now answer.now))) }
{
    let bars = fewer(lesson.bars, answer.bars);
    for bar in 1..bars + 1 {
        let is_other = !fits_in_bar(lesson, score, voice, bar);
        put_if(out, is_other, Difference::Given { voice, bar })?;
    }
    Ok(())
}

/// Appends the bars of all voices in which what is given isn't sung.
fn put_given(
    out: &mut Vec<Difference>,
    lesson: &Exercise,
    answer: &Exercise,
    score: &Score,
) -> Result<(), Memory>
    requires lesson { IsValid lesson.now }
    requires answer { IsValid answer.now }
    requires complete { IsComplete answer.now score.now }
    ensures { OnOk result (out.new.items ≡ out.old.items
        ++ filter (differs lesson.now answer.now score.now.columns)
        (in_each_bar (λ v bar. told.Given v bar) (common_voices lesson.now answer.now)
        (common_bars lesson.now answer.now))) }
{
    for voice in 0..fewer(lesson.voices, answer.voices) {
        put_given_of(out, lesson, answer, score, voice)?;
    }
    Ok(())
}

/// What an answer has otherwise than its lesson, where this is the answer's setting: the mode, the
/// numbers of voices and bars, the species, the voice of the cantus firmus, and then, in the bars
/// and voices that both have, its pitches, the ranges, the relax lines, and given notes that are
/// not sung.
pub fn differences(
    alloc: Global,
    lesson: &Exercise,
    answer: &Exercise,
    score: &Score,
) -> Result<Vec<Difference>, Memory>
    requires lesson { IsValid lesson.now }
    requires answer { IsValid answer.now }
    requires complete { IsComplete answer.now score.now }
    ensures { IfOk result (λ found. found.items ≡ words.differences lesson.now answer.now
        score.now.columns) }
{
    let mut out = Vec::new(alloc);
    put_head(&mut out, lesson, answer)?;
    put_cantus(&mut out, lesson, answer)?;
    put_ranges(&mut out, lesson, answer)?;
    put_if(&mut out, !same_relax(lesson, answer), Difference::Relax)?;
    put_given(&mut out, lesson, answer, score)?;
    Ok(out)
}
