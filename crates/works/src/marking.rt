//! The commands `mark` and `cantus`.

ghost use Rattle.std.specs.Prelude.{◌≡◌, ◌++◌, IfOk, string_bytes};
ghost use Rattle.fux_grid.specs.Exercises.{IsValid};
ghost use Rattle.works.specs.Marked.{CantusMarks, IsOutputOf, Marks, marks_verdict};
ghost use Rattle.works.specs.MarkedCantus.{ChargesCantus, charges_text};
ghost use Rattle.works.specs.Works.{Answers};

use crate::refusal::Refusal;
use crate::work::{Output, Stop, Verdict};
use cantus_space::{PricedSheet, bill_of, bill_text};
use class_marker::{MarkLines, lines_of};
use fux_grid::Exercise;
use fux_pitch::Memory;
use score_marker::cantus_marks;
use std::alloc::Global;

/// What lines of marks say, all in all.
fn verdict_of(lines: &MarkLines) -> Verdict
    ensures { result ≡ marks_verdict lines.now.has_mark }
{
    if lines.has_mark {
        Verdict::Unfavorable
    } else {
        Verdict::Favorable
    }
}

/// The output of lines of marks. It takes no memory.
pub fn output_of(lines: MarkLines) -> Output
    ensures { IsOutputOf lines result }
{
    Output::of_text(verdict_of(&lines), lines.text)
}

/// The marks of the setting of an exercise.
pub fn mark(alloc: Global, ex: &Exercise) -> Result<Output, Stop>
    requires { IsValid ex.now }
    ensures { Answers (Marks ex.now) result }
{
    match class_marker::mark(alloc, ex)? {
        Some(lines) => Ok(output_of(lines)),
        None => Err(Stop::Refused(Refusal::NoSetting)),
    }
}

/// The marks of the cantus firmus of an exercise.
pub fn cantus(alloc: Global, ex: &Exercise) -> Result<Output, Stop>
    requires { IsValid ex.now }
    ensures { Answers (CantusMarks ex.now) result }
{
    let marks = cantus_marks(alloc, ex)?;
    let lines = lines_of(alloc, ex, &marks)?;
    Ok(output_of(lines))
}

/// The lines of what the cantus firmus of an exercise pays over a sheet with prices.
fn charges_text(alloc: Global, ex: &Exercise, priced: &PricedSheet) -> Result<String, Memory>
    requires { IsValid ex.now }
    ensures { IfOk result (λ text. string_bytes text ≡ charges_text priced.now ex.now) }
{
    let bill = bill_of(alloc, &priced.sheet, &priced.prices, ex.cantus.as_slice())?;
    bill_text(alloc, ex.cantus_voice, &bill)
}

/// The output of lines of marks with a text below them.
fn output_above(mut lines: MarkLines, below: &str) -> Result<Output, Memory>
    ensures { IfOk result (λ output. output ≡ record {
      verdict = marks_verdict lines.has_mark;
      bytes = string_bytes lines.text ++ below.now;
    }) }
{
    lines.text.push_str(below)?;
    Ok(output_of(lines))
}

/// The marks of the cantus firmus of an exercise, and what it pays over a sheet with prices.
pub fn cantus_charged(alloc: Global, ex: &Exercise, priced: &PricedSheet) -> Result<Output, Stop>
    requires { IsValid ex.now }
    ensures { Answers (ChargesCantus priced.now ex.now) result }
{
    let marks = cantus_marks(alloc, ex)?;
    let lines = lines_of(alloc, ex, &marks)?;
    let text = charges_text(alloc, ex, priced)?;
    Ok(output_above(lines, text.as_str())?)
}
