//! Settings of mixed exercises, and their breaks of S27 and S28. S15 is never broken in them.

ghost use Rattle.std.specs.Prelude.{◌≡◌, ◌≤◌, length};
ghost use Rattle.fux_grid.specs.Exercises.{IsValid, columns_in};

use crate::agree::agree;
use crate::mixed_tables::{JUDGED, WORKED};
use crate::parts::{parts, wanted};
use fux_grid::{Exercise, Score};
use score_marker::{Mark, marks};
use short_scores::case_of;
use std::alloc::Global;
use std::fmt::Write;

/// A line for each mark of S15, S27 and S28, with a line's end before it.
fn shown(alloc: Global, marks: &[Mark]) -> Option<String> {
    let mut text = String::new(alloc);
    for mark in marks {
        if matches!(mark.rule, 15 | 27 | 28) {
            let bits = mark.voices.bits;
            write!(text, "\n{} {} S{} {bits}", mark.bar, mark.slot, mark.rule).ok()?;
        }
    }
    Some(text)
}

/// The marks of a score, where it is as long as the exercise.
fn marks_of(alloc: Global, ex: &Exercise, score: &Score) -> Option<String>
    requires valid { IsValid ex.now }
    requires voices { score.now.voices ≡ ex.now.voices }
    requires few { length score.now.columns ≤ columns_in ex.now }
{
    if score.len() != 8 * usize::from(ex.bars) {
        return None;
    }
    let found = marks(alloc, ex, score).ok()?;
    shown(alloc, &found)
}

/// The marks of a setting.
fn marks_in(alloc: Global, text: &str) -> Option<String> {
    let (text, _) = parts(text)?;
    let case = case_of(alloc, text)?;
    marks_of(alloc, &case.exercise, &case.score)
}

#[test]
fn mixed_settings_have_their_breaks(rt: HostRuntime) {
    for table in [WORKED, JUDGED] {
        for text in table.split("\n\n") {
            let found = marks_in(rt.alloc(), text);
            agree(&rt, text, found.as_deref(), wanted(text));
        }
    }
}
