//! The command `drill`.

ghost use Rattle.std.specs.Prelude.{◌≡◌, IfOk, false, string_bytes, true};
ghost use Rattle.fux_grid.specs.Exercises.{IsValid};
ghost use Rattle.works.specs.Drilled.{AddsDrillLine, Drills, HasDrillLines, IsDrillFound, drill_heading};
ghost use Rattle.works.specs.Searched.{Finds, HasWholeScore};
ghost use Rattle.works.specs.Works.{Answers};

use crate::searching::{Found, best_setting, sharp_setting};
use crate::work::{Output, Stop, Verdict};
use fux_grid::Exercise;
use fux_pitch::Memory;
use fux_text::put_pitches;
use penalty_sheet::default_sheet;
use score_marker::marks;
use std::alloc::Global;
use std::fmt::Write;
use std::thread::Threads;

/// The budget of a drill.
const DRILL_BUDGET: u32 = 200_000;

/// The exercise of a number, and its best setting over the usual weights, with its marks.
pub fn drill<R: Threads + Sync>(
    rt: &R,
    alloc: Global,
    number: u32,
    by_sharper: bool,
) -> Result<Output, Stop>
    ensures { Answers (Drills number by_sharper) result }
{
    let exercise = drill_exercise::drill(alloc, number)?;
    match found_for(rt, alloc, &exercise, by_sharper) {
        Ok(found) => Ok(drill_output(alloc, number, &exercise, &found)?),
        Err(stop) => Err(stop),
    }
}

/// The best setting of an exercise over the usual weights, by sharper floors or the usual ones.
fn found_for<R: Threads + Sync>(
    rt: &R,
    alloc: Global,
    exercise: &Exercise,
    by_sharper: bool,
) -> Result<Found, Stop>
    requires { IsValid exercise.now }
    ensures { Finds exercise.now (IsDrillFound by_sharper exercise.now) result }
{
    let sheet = default_sheet();
    if by_sharper {
        sharp_setting(rt, alloc, exercise, &sheet, DRILL_BUDGET)
    } else {
        best_setting(rt, alloc, exercise, &sheet, DRILL_BUDGET)
    }
}

/// What is written of an exercise and of what was found.
fn drill_output(
    alloc: Global,
    number: u32,
    exercise: &Exercise,
    found: &Found,
) -> Result<Output, Memory>
    requires valid { IsValid exercise.now }
    requires complete { HasWholeScore exercise.now found.now }
    ensures usual { IsDrillFound false exercise.now found.now
        → IfOk result (HasDrillLines number false exercise.now) }
    ensures sharp { IsDrillFound true exercise.now found.now
        → IfOk result (HasDrillLines number true exercise.now) }
{
    let mut text = heading(alloc, number, exercise)?;
    let verdict = put_found(alloc, &mut text, exercise, found)?;
    Ok(Output::of_text(verdict, text))
}

/// The number, and the cantus firmus.
fn heading(alloc: Global, number: u32, exercise: &Exercise) -> Result<String, Memory>
    ensures { IfOk result (λ text. string_bytes text ≡ drill_heading number exercise.now) }
{
    let mut text = String::new(alloc);
    write!(text, "drill {number}\ncantus")?;
    put_pitches(&mut text, exercise.cantus.as_slice())?;
    text.push('\n')?;
    Ok(text)
}

/// Appends the line of what was found.
fn put_found(
    alloc: Global,
    text: &mut String,
    exercise: &Exercise,
    found: &Found,
) -> Result<Verdict, Memory>
    requires valid { IsValid exercise.now }
    requires complete { HasWholeScore exercise.now found.now }
    ensures usual { IsDrillFound false exercise.now found.now → IfOk result
        (AddsDrillLine false exercise.now (string_bytes text.old) (string_bytes text.new)) }
    ensures sharp { IsDrillFound true exercise.now found.now → IfOk result
        (AddsDrillLine true exercise.now (string_bytes text.old) (string_bytes text.new)) }
{
    match found {
        Found::Best { score, penalty } => {
            let count = marks(alloc, exercise, score)?.len();
            write!(text, "best {penalty} marks {count}\n")?;
            Ok(Verdict::Favorable)
        }
        Found::Nothing => {
            text.push_str("none\n")?;
            Ok(Verdict::Unfavorable)
        }
        Found::Spent { bound } => {
            write!(text, "spent, at least {bound}\n")?;
            Ok(Verdict::Spent)
        }
    }
}
