//! What `mark` says of an exercise.

ghost use Rattle.std.specs.Prelude.{◌≡◌, IfOk};
ghost use Rattle.fux_grid.specs.Exercises.{IsComplete, IsValid};
ghost use Rattle.score_marker.specs.Marks.{AreMarks};
ghost use Rattle.class_marker.specs.Markings.{AreLinesOf, TellsMarks, TellsSetting};

use fux_grid::{Exercise, Score};
use fux_pitch::Memory;
use score_marker::{Mark, marks, marks_text};
use std::alloc::Global;

/// The lines that tell marks.
#[derive(Drop)]
pub struct MarkLines {
    /// Whether there is a mark.
    pub has_mark: bool,
    /// A line for each mark, and a last one with their number.
    pub text: String,
}

/// The lines that tell these marks of an exercise.
pub fn lines_of(alloc: Global, ex: &Exercise, marks: &[Mark]) -> Result<MarkLines, Memory>
    ensures { IfOk result (AreLinesOf ex.now marks.now) }
{
    Ok(MarkLines {
        has_mark: !marks.is_empty(),
        text: marks_text(alloc, ex, marks)?,
    })
}

/// The lines of the marks of a setting.
fn setting_lines(alloc: Global, ex: &Exercise, score: &Score) -> Result<MarkLines, Memory>
    requires valid { IsValid ex.now }
    requires complete { IsComplete ex.now score.now }
    ensures { IfOk result (TellsMarks ex.now (AreMarks ex.now score.now.columns)) }
{
    let marks = marks(alloc, ex, score)?;
    lines_of(alloc, ex, &marks)
}

/// What the command `mark` writes of an exercise: the marks of its setting, where it has one.
pub fn mark(alloc: Global, ex: &Exercise) -> Result<Option<MarkLines>, Memory>
    requires { IsValid ex.now }
    ensures { IfOk result (TellsSetting ex.now) }
{
    match &ex.setting {
        Some(score) => Ok(Some(setting_lines(alloc, ex, score)?)),
        None => Ok(None),
    }
}
