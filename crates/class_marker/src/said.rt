//! What is said of a file of a class.

ghost use Rattle.std.specs.Prelude.{◌≡◌, IfOk, IfSome, option_map};
ghost use Rattle.std.specs.Option.{ForSome, option_copied};
ghost use Rattle.fux_grid.specs.Exercises.{IsValid};
ghost use Rattle.class_marker.specs.Sayings.{IsSaid, IsSaidOf, IsSaidOfText, SaysExercise};

use crate::answer::{AnswerLines, answer_lines};
use crate::one::{Marking, Text, mark_text};
use crate::unmarked::Unmarked;
use fux_grid::Exercise;
use fux_pitch::Memory;
use fux_text::{TextFault, TextKind, read};
use smf_score::JoinFault;
use std::alloc::Global;

/// What is said of a file of a class.
#[derive(Drop)]
pub enum Said {
    /// What differs from the lesson, where there is one, and the marks of the setting.
    Told(AnswerLines),
    /// Why the text of the file is refused.
    Refused(Unmarked),
    /// Why a MIDI file is no setting of the lesson.
    Unjoined(JoinFault),
    /// The file can't be read.
    Unread,
}

/// What is said of a text of more than 65,536 bytes.
const TOO_LONG: Said = Said::Refused(Unmarked::Text {
    kind: TextKind::TooLong,
    line: 1,
    column: 1,
});

/// What `mark` says of a text.
fn say_alone(alloc: Global, text: &Text) -> Result<Said, Memory>
    ensures { IfOk result (IsSaidOfText None text.now) }
{
    match mark_text(alloc, text)? {
        Marking::Marked(lines) => Ok(Said::Told(AnswerLines {
            has_mark: lines.has_mark,
            differs: false,
            text: lines.text,
        })),
        Marking::Refused(why) => Ok(Said::Refused(why)),
    }
}

/// What is said of an answer by a lesson.
fn say_answer(alloc: Global, lesson: &Exercise, answer: &Exercise) -> Result<Said, Memory>
    requires lesson { IsValid lesson.now }
    requires answer { IsValid answer.now }
    ensures { IfOk result (SaysExercise lesson.now answer.now) }
{
    match &answer.setting {
        Some(score) => Ok(Said::Told(answer_lines(alloc, lesson, answer, score)?)),
        None => Ok(Said::Refused(Unmarked::NoSetting)),
    }
}

/// What is said of the text of an answer by a lesson.
fn say_by(alloc: Global, lesson: &Exercise, text: &Text) -> Result<Said, Memory>
    requires { IsValid lesson.now }
    ensures { IfOk result (IsSaidOfText (Some lesson.now) text.now) }
{
    let Text::Bytes(bytes) = text else {
        return Ok(TOO_LONG);
    };
    match read(alloc, bytes) {
        Ok(answer) => say_answer(alloc, lesson, &answer),
        Err(TextFault::At { kind, line, column }) => {
            Ok(Said::Refused(Unmarked::Text { kind, line, column }))
        }
        Err(TextFault::Memory) => Err(Memory),
    }
}

/// What is said of a file, by a lesson where there is one, where this was read of it.
pub fn say(alloc: Global, lesson: Option<&Exercise>, found: &Option<Text>) -> Result<Said, Memory>
    requires { ForSome lesson (λ exercise. IsValid exercise.now) }
    ensures { IfOk result (IsSaidOf (option_copied lesson.entry) found.now) }
{
    let Some(text) = found else {
        return Ok(Said::Unread);
    };
    match lesson {
        Some(lesson) => say_by(alloc, lesson, text),
        None => say_alone(alloc, text),
    }
}
