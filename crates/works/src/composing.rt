//! The commands `compose` and `best`.

ghost use Rattle.std.specs.Prelude.{◌≡◌, ◌++◌, IfOk, string_bytes};
ghost use Rattle.fux_grid.specs.Exercises.{IsComplete, IsValid};
ghost use Rattle.fux_text.specs.Lines.{setting_text};
ghost use Rattle.works.specs.Composed.{Composes, ComposesSharply, bound_line, found_output, none_line, penalty_line};
ghost use Rattle.works.specs.Searched.{HasWholeScore};
ghost use Rattle.works.specs.Works.{Answers};

use crate::searching::{Found, best_setting, sharp_setting};
use crate::work::{Output, Stop, Verdict};
use fux_grid::{Exercise, Score};
use fux_pitch::Memory;
use fux_text::write;
use penalty_sheet::Sheet;
use std::alloc::Global;
use std::fmt::Write;
use std::thread::Threads;

/// The best setting of an exercise over a sheet of weights, that there is none, or a bound.
pub fn compose<R: Threads + Sync>(
    rt: &R,
    alloc: Global,
    exercise: &Exercise,
    sheet: &Sheet,
    budget: u32,
) -> Result<Output, Stop>
    requires { IsValid exercise.now }
    ensures { Answers (Composes budget sheet.now exercise.now) result }
{
    match best_setting(rt, alloc, exercise, sheet, budget) {
        Ok(found) => Ok(found_output(alloc, exercise, &found)?),
        Err(stop) => Err(stop),
    }
}

/// The same by sharper floors, which may find it where the budget of `compose` is spent, and do
/// wherever that isn't.
pub fn best<R: Threads + Sync>(
    rt: &R,
    alloc: Global,
    exercise: &Exercise,
    sheet: &Sheet,
    budget: u32,
) -> Result<Output, Stop>
    requires { IsValid exercise.now }
    ensures { Answers (ComposesSharply budget sheet.now exercise.now) result }
{
    match sharp_setting(rt, alloc, exercise, sheet, budget) {
        Ok(found) => Ok(found_output(alloc, exercise, &found)?),
        Err(stop) => Err(stop),
    }
}

/// What is written of what was found, by whichever search.
pub fn found_output(alloc: Global, exercise: &Exercise, found: &Found) -> Result<Output, Memory>
    requires valid { IsValid exercise.now }
    requires complete { HasWholeScore exercise.now found.now }
    ensures { IfOk result (λ output. output ≡ found_output exercise.now found.now) }
{
    match found {
        Found::Best { score, penalty } => Ok(Output::of_text(
            Verdict::Favorable,
            best_text(alloc, exercise, score, *penalty)?,
        )),
        Found::Nothing => Ok(Output::of_text(Verdict::Unfavorable, none_text(alloc)?)),
        Found::Spent { bound } => Ok(Output::of_text(Verdict::Spent, bound_text(alloc, *bound)?)),
    }
}

/// The exercise with a setting, and a penalty.
pub fn best_text(
    alloc: Global,
    exercise: &Exercise,
    score: &Score,
    penalty: u64,
) -> Result<String, Memory>
    requires valid { IsValid exercise.now }
    requires complete { IsComplete exercise.now score.now }
    ensures { IfOk result (λ text. string_bytes text
        ≡ setting_text exercise.now score.now.columns ++ penalty_line penalty) }
{
    let mut text = write(alloc, exercise, Some(score))?;
    write!(text, "; penalty {penalty}\n")?;
    Ok(text)
}

/// That there is none.
pub fn none_text(alloc: Global) -> Result<String, Memory>
    ensures { IfOk result (λ text. string_bytes text ≡ none_line) }
{
    let mut text = String::new(alloc);
    text.push_str("none\n")?;
    Ok(text)
}

/// A bound.
pub fn bound_text(alloc: Global, bound: u64) -> Result<String, Memory>
    ensures { IfOk result (λ text. string_bytes text ≡ bound_line bound) }
{
    let mut text = String::new(alloc);
    write!(text, "spent, at least {bound}\n")?;
    Ok(text)
}
