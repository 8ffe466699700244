//! The marks of a setting.

ghost use Rattle.std.specs.Prelude.{◌≡◌, ◌<◌, ◌++◌, IfOk, OnOk, length, reverse, take};
ghost use Rattle.fux_grid.specs.Exercises.{IsComplete, IsValid};
ghost use Rattle.rule_law.specs.Nearby.{previous_pitches};
ghost use Rattle.fux_judge.specs.States.{IsPastOf};
ghost use Rattle.score_marker.specs.Lists.{marks_of_rule};
ghost use Rattle.score_marker.specs.Marks.{AreMarks};
ghost use Rattle.score_marker.specs.Setting.{breaks_of, marks_at, sets_in_order};

use crate::mark::{Mark, mark_if};
use fux_grid::{Exercise, Score, VoiceSet};
use fux_judge::{Past, every_rule};
use fux_pitch::Memory;
use rule_law::Latest;
use std::alloc::Global;

/// Every set of voices, by the ascending lists of their voices: 0, 0 1, 0 1 2, 0 1 2 3, 0 1 3, 0 2,
/// and so on.
const SETS_IN_ORDER: [u8; 15] = [1, 3, 7, 15, 11, 5, 13, 9, 2, 6, 14, 10, 4, 12, 8];

fn voice_sets() -> &'static [u8]
    ensures { result.now ≡ sets_in_order }
{
    &SETS_IN_ORDER
}

/// Appends the marks of one rule at column `i`, after the columns before it.
fn mark_rule(
    marks: &mut Vec<Mark>,
    ex: &Exercise,
    score: &Score,
    i: usize,
    past: &Past,
    latest: &Latest,
    rule: u8,
) -> Result<(), Memory>
    requires valid { IsValid ex.now }
    requires complete { IsComplete ex.now score.now }
    requires place { i < length score.now.columns }
    requires past { IsPastOf ex.now (take i score.now.columns) past.now }
    requires latest { latest.now.pitches ≡ previous_pitches (reverse (take i score.now.columns)) }
    ensures { OnOk result (marks.new.items ≡ marks.old.items
        ++ marks_of_rule (breaks_of ex.now score.now.columns) sets_in_order i rule) }
{
    for bits in voice_sets() {
        let voices = VoiceSet { bits: *bits };
        mark_if(
            past.breaks(rule, ex, score, i, latest, voices),
            marks,
            i,
            rule,
            voices,
        )?;
    }
    Ok(())
}

/// Appends the marks of column `i`, after the columns before it.
pub(crate) fn mark_place(
    marks: &mut Vec<Mark>,
    ex: &Exercise,
    score: &Score,
    i: usize,
    past: &Past,
) -> Result<(), Memory>
    requires valid { IsValid ex.now }
    requires complete { IsComplete ex.now score.now }
    requires place { i < length score.now.columns }
    requires past { IsPastOf ex.now (take i score.now.columns) past.now }
    ensures { OnOk result (marks.new.items ≡ marks.old.items ++ marks_at ex.now score.now.columns
        i) }
{
    let latest = past.latest();
    for rule in every_rule() {
        mark_rule(marks, ex, score, i, past, &latest, *rule)?;
    }
    Ok(())
}

/// Every broken rule of a complete score, relaxed ones among them: by bar, slot and rule, and then
/// by the voices as an ascending list.
pub fn marks(alloc: Global, ex: &Exercise, score: &Score) -> Result<Vec<Mark>, Memory>
    requires valid { IsValid ex.now }
    requires complete { IsComplete ex.now score.now }
    ensures { IfOk result (λ marks. AreMarks ex.now score.now.columns marks.items) }
{
    let mut marks = Vec::new(alloc);
    let mut past = Past::none();
    for i in 0..score.len() {
        mark_place(&mut marks, ex, score, i, &past)?;
        past.note(ex, i, score.column(i).as_slice());
    }
    Ok(marks)
}
