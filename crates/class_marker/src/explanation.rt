//! What explains an exercise.

ghost use Rattle.std.specs.Prelude.{◌≡◌, IfOk};
ghost use Rattle.fux_grid.specs.Exercises.{AreSpecies, IsComplete, IsValid, as_mixed};
ghost use Rattle.class_marker.specs.Explanations.{AreExplained, ExplainsBy, ExplainsCantus, ExplainsExercise, ExplainsMarks, IsAsked};

use crate::alone::lone_score;
use crate::asking::asked;
use crate::explaining::explained;
use fux_grid::{Exercise, Score, mixed_as};
use fux_pitch::Memory;
use score_marker::{Mark, cantus_marks, marks};
use std::alloc::Global;

/// A text that explains an exercise.
#[derive(Drop)]
pub struct Explanation {
    /// Whether there is a mark.
    pub has_mark: bool,
    /// The marks in words, or what is asked.
    pub text: String,
}

/// These marks of a setting, explained.
fn of_marks(
    alloc: Global,
    ex: &Exercise,
    score: &Score,
    marks: &[Mark],
) -> Result<Explanation, Memory>
    ensures { IfOk result (AreExplained ex.now score.now.columns marks.now) }
{
    Ok(Explanation {
        has_mark: !marks.is_empty(),
        text: explained(alloc, ex, score, marks)?,
    })
}

/// The marks of a setting, explained.
fn of_setting(alloc: Global, ex: &Exercise, score: &Score) -> Result<Explanation, Memory>
    requires valid { IsValid ex.now }
    requires complete { IsComplete ex.now score.now }
    ensures { IfOk result (ExplainsMarks ex.now score.now.columns) }
{
    let marks = marks(alloc, ex, score)?;
    of_marks(alloc, ex, score, &marks)
}

/// What an exercise asks.
fn of_exercise(alloc: Global, ex: &Exercise) -> Result<Explanation, Memory>
    ensures { IfOk result (IsAsked ex.now) }
{
    Ok(Explanation {
        has_mark: false,
        text: asked(alloc, ex)?,
    })
}

/// What explains an exercise: the marks of its setting in words, or where it has none what it asks.
pub fn explain(alloc: Global, ex: &Exercise) -> Result<Explanation, Memory>
    requires { IsValid ex.now }
    ensures { IfOk result (ExplainsExercise ex.now) }
{
    match &ex.setting {
        Some(score) => Ok(of_setting(alloc, ex, score)?),
        None => Ok(of_exercise(alloc, ex)?),
    }
}

/// What explains an exercise with these species of its voices.
pub fn explain_mixed(alloc: Global, ex: &Exercise, species: [u8; 4]) -> Result<Explanation, Memory>
    requires valid { IsValid ex.now }
    requires species { AreSpecies ex.now species }
    ensures { IfOk result (ExplainsBy (as_mixed ex.now species) ex.now.setting) }
{
    let mixed = mixed_as(ex, species);
    match &ex.setting {
        Some(score) => Ok(of_setting(alloc, &mixed, score)?),
        None => Ok(of_exercise(alloc, &mixed)?),
    }
}

/// What explains the marks of the cantus firmus of an exercise, read by itself.
pub fn explain_cantus(alloc: Global, ex: &Exercise) -> Result<Explanation, Memory>
    requires { IsValid ex.now }
    ensures { IfOk result (ExplainsCantus ex.now) }
{
    let score = lone_score(alloc, ex)?;
    let marks = cantus_marks(alloc, ex)?;
    of_marks(alloc, ex, &score, &marks)
}
