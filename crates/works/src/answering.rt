//! The command `mark`, on an answer to a lesson.

ghost use Rattle.std.specs.Prelude.{◌≡◌, ℕ, List, IfErr, IfOk, string_bytes};
ghost use Rattle.class_marker.specs.Markings.{IsContent};
ghost use Rattle.command_words.specs.Commands.{mark_answer};
ghost use Rattle.fux_grid.specs.Exercises.{IsValid};
ghost use Rattle.fux_port.specs.Counts.{Rose};
ghost use Rattle.works.specs.Answered.{MarksAnswer, MarksBy, ReadsLesson, answer_verdict};
ghost use Rattle.works.specs.Blame.{Blames, BlamesNoFile, IsUnserved, ServesTask};
ghost use Rattle.works.specs.Little.{ReadsLittle};
ghost use Rattle.works.specs.Endings.{IsMade};
ghost use Rattle.works.specs.Works.{Answers};

use crate::complaint::Complaint;
use crate::content::read_content;
use crate::exercise::{LONGEST_TEXT, exercise_of};
use crate::making::said;
use crate::refusal::Refusal;
use crate::work::{Output, Stop, Verdict};
use class_marker::{AnswerLines, Text, answer_lines};
use fux_grid::Exercise;
use fux_port::Shelf;
use fux_text::{TextFault, TextKind, read};
use std::alloc::Global;

/// What is said of a lesson of more than 65,536 bytes.
const TOO_LONG: Refusal = Refusal::Lesson {
    kind: TextKind::TooLong,
    line: 1,
    column: 1,
};

/// The lesson whose text this is.
pub fn lesson_of(alloc: Global, text: &Text) -> Result<Exercise<'static>, Stop>
    ensures reads { (bytes : List ℕ) → IsContent 65536 text.now bytes → ReadsLesson bytes result }
    ensures valid { IfOk result IsValid }
{
    let Text::Bytes(bytes) = text else {
        return Err(Stop::Refused(TOO_LONG));
    };
    match read(alloc, bytes) {
        Ok(lesson) => Ok(lesson),
        Err(TextFault::At { kind, line, column }) => Err(Stop::Refused(Refusal::Lesson {
            kind,
            line,
            column,
        })),
        Err(TextFault::Memory) => Err(Stop::Memory),
    }
}

/// What lines of an answer say, all in all.
fn verdict_of(lines: &AnswerLines) -> Verdict
    ensures { result ≡ answer_verdict lines.now }
{
    if lines.has_mark || lines.differs {
        Verdict::Unfavorable
    } else {
        Verdict::Favorable
    }
}

/// The output of lines of an answer. It takes no memory.
fn output_of(lines: AnswerLines) -> Output
    ensures { result ≡ record { verdict = answer_verdict lines; bytes = string_bytes lines.text } }
{
    Output::of_text(verdict_of(&lines), lines.text)
}

/// What the setting of an answer has otherwise than the lesson, and its marks by that.
fn mark_by(alloc: Global, lesson: &Exercise, answer: &Exercise) -> Result<Output, Stop>
    requires lesson { IsValid lesson.now }
    requires answer { IsValid answer.now }
    ensures { Answers (MarksBy lesson.now answer.now) result }
{
    let Some(score) = &answer.setting else {
        return Err(Stop::Refused(Refusal::NoSetting));
    };
    Ok(output_of(answer_lines(alloc, lesson, answer, score)?))
}

/// The same of the text of an answer, and of that of a lesson.
fn of_texts(alloc: Global, text: &Text, given: &Text) -> Result<Output, Stop>
    ensures { (bytes lessons : List ℕ) → IsContent 65536 text.now bytes → IsContent 65536 given.now
        lessons → Answers (MarksAnswer lessons bytes) result }
{
    let answer = exercise_of(alloc, text)?;
    let lesson = lesson_of(alloc, given)?;
    mark_by(alloc, &lesson, &answer)
}

/// What the exercise in a file has otherwise than the lesson in another, and its marks by that.
pub fn answer<'a, F: Shelf>(
    alloc: Global,
    name: &'a str,
    lesson: &'a str,
    shelf: &mut F,
) -> Result<Output, Complaint<'a>>
    ensures made { IsMade (mark_answer name.entry.now lesson.entry.now) (F.files shelf.old)
        (Rose (F.faults shelf.old) (F.faults shelf.new)) result }
    ensures served { ServesTask (F.serves shelf.old) (F.files shelf.old)
        (mark_answer name.entry.now lesson.entry.now) → IfErr result BlamesNoFile }
    ensures blamed { IfErr result (Blames (IsUnserved (F.serves shelf.old) (F.files shelf.old)
        (mark_answer name.entry.now lesson.entry.now))) }
    ensures little { ReadsLittle (mark_answer name.entry.now lesson.entry.now)
        (F.files shelf.old) (F.given shelf.old) (F.given shelf.new) }
    ensures files { F.files shelf.new ≡ F.files shelf.old }
{
    let text = read_content(alloc, shelf, name, LONGEST_TEXT)?;
    let given = read_content(alloc, shelf, lesson, LONGEST_TEXT)?;
    said(alloc, name, of_texts(alloc, &text, &given))
}
