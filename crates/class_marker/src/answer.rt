//! What is said of an answer to a lesson.

ghost use Rattle.std.specs.Prelude.{◌≡◌, IfOk};
ghost use Rattle.fux_grid.specs.Exercises.{IsComplete, IsValid};
ghost use Rattle.class_marker.specs.Answers as words;
ghost use Rattle.class_marker.specs.Answers.{TellsAnswer, TellsMarksBy};

use crate::difference_lines::{put_count, put_differences};
use crate::listing::differences;
use crate::marking::{MarkLines, lines_of};
use fux_grid::{Exercise, Score};
use fux_pitch::Memory;
use score_marker::marks;
use std::alloc::Global;

/// The lines that tell of an answer what differs from its lesson, and its marks by the lesson.
#[derive(Drop)]
pub struct AnswerLines {
    /// Whether there is a mark.
    pub has_mark: bool,
    /// Whether something differs.
    pub differs: bool,
    /// A line for each difference; where the answer has the lesson's voices and bars a line for
    /// each mark, and one with the number of marks; and a last one with the number of differences.
    pub text: String,
}

/// Whether the setting of an answer can be marked by a lesson.
pub fn is_markable(lesson: &Exercise, answer: &Exercise) -> bool
    ensures { result ≡ words.is_markable lesson.now answer.now }
{
    lesson.voices == answer.voices && lesson.bars == answer.bars
}

/// The lines of the marks of a score by a lesson, where it can be marked by that.
fn marked(
    alloc: Global,
    lesson: &Exercise,
    answer: &Exercise,
    score: &Score,
) -> Result<MarkLines, Memory>
    requires lesson { IsValid lesson.now }
    requires complete { IsComplete answer.now score.now }
    ensures { IfOk result (TellsMarksBy lesson.now answer.now score.now) }
{
    if !is_markable(lesson, answer) {
        return Ok(MarkLines {
            has_mark: false,
            text: String::new(alloc),
        });
    }
    let marks = marks(alloc, lesson, score)?;
    lines_of(alloc, lesson, &marks)
}

/// What is said of an answer to a lesson, where this is the answer's setting.
pub fn answer_lines(
    alloc: Global,
    lesson: &Exercise,
    answer: &Exercise,
    score: &Score,
) -> Result<AnswerLines, Memory>
    requires lesson { IsValid lesson.now }
    requires answer { IsValid answer.now }
    requires complete { IsComplete answer.now score.now }
    ensures { IfOk result (TellsAnswer lesson.now answer.now score.now) }
{
    let differences = differences(alloc, lesson, answer, score)?;
    let count = differences.len();
    let marked = marked(alloc, lesson, answer, score)?;
    let mut text = String::new(alloc);
    put_differences(&mut text, &differences)?;
    text.push_str(marked.text.as_str())?;
    put_count(&mut text, count)?;
    Ok(AnswerLines {
        has_mark: marked.has_mark,
        differs: count > 0,
        text,
    })
}
