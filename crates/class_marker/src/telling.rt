//! What the page says of a file.

ghost use Rattle.std.specs.Prelude.{◌≡◌, ◌≤◌, ℕ, IfOk, List, None, Some, map, string_bytes};
ghost use Rattle.std.specs.Option.{ForSome, option_copied};
ghost use Rattle.class_marker.specs.Markings.{IsContent};
ghost use Rattle.fux_grid.specs.Exercises.{IsValid};
ghost use Rattle.fux_grid.specs.Grid.{Grid};
ghost use Rattle.fux_grid.specs.declared.exercise.Exercise.{Exercise as AnExercise};
ghost use Rattle.class_marker.specs.Differences.{differences as differences_of};
ghost use Rattle.class_marker.specs.Explained.{explained_marks};
ghost use Rattle.score_marker.specs.Marks.{AreMarks};
ghost use Rattle.class_marker.specs.Entries as words;
ghost use Rattle.class_marker.specs.Entries.{ExplainsFaults, IsEntryOf, IsEntryOfExercise, IsEntryOfText, ShowsMarks, ShowsUnmarked, TellsDifferences};

use crate::answer::is_markable;
use crate::difference::Difference;
use crate::difference_lines::put_differences;
use crate::entry::{Entry, Shown};
use crate::explaining::explained;
use crate::listing::differences;
use crate::one::Text;
use fux_grid::Exercise;
use fux_pitch::Memory;
use fux_text::{TextFault, TextKind, read};
use score_marker::{Mark, marks};
use score_picture::inlined;
use std::alloc::Global;
use text_faults::{FoundFault, explained_faults};
use written_notes::SheetMark;

/// A mark as a sheet shows it.
fn shown_mark(mark: Mark) -> SheetMark
    ensures { result ≡ words.shown_mark mark }
{
    SheetMark {
        bar: mark.bar,
        slot: mark.slot,
        rule: mark.rule,
        voices: mark.voices,
    }
}

/// Marks as a sheet shows them.
pub fn shown_marks(alloc: Global, marks: &[Mark]) -> Result<Vec<SheetMark>, Memory>
    ensures { IfOk result (λ shown. shown.items ≡ map words.shown_mark marks.now) }
{
    let mut shown = Vec::new(alloc);
    for mark in marks {
        shown.push(shown_mark(*mark))?;
    }
    Ok(shown)
}

/// A setting with these marks, which are explained, in the picture of an exercise that has it, and
/// with what differs.
fn with_marks(
    alloc: Global,
    ex: &Exercise,
    marks: &[Mark],
    explained: String,
    differences: &[Difference],
) -> Result<Shown, Memory>
    requires { ex.now.voices ≤ 4 }
    ensures marks { (rules : AnExercise) (score : Grid) → AreMarks rules score.columns marks.now
        → string_bytes explained ≡ explained_marks rules score.columns marks.now
        → IfOk result (ShowsMarks rules ex.now score) }
    ensures differences { IfOk result (TellsDifferences differences.now) }
{
    let sheet = shown_marks(alloc, marks)?;
    let mut told = String::new(alloc);
    put_differences(&mut told, differences)?;
    let picture = inlined(alloc, ex, ex, Some(sheet.as_slice()), None)?;
    Ok(Shown {
        differences: told,
        differs: differences.len(),
        marks: Some(marks.len()),
        picture,
        explained,
    })
}

/// A setting as it stands, with what differs.
fn without_marks(
    alloc: Global,
    answer: &Exercise,
    differences: &[Difference],
) -> Result<Shown, Memory>
    requires { answer.now.voices ≤ 4 }
    ensures setting { IfOk result (ShowsUnmarked answer.now) }
    ensures differences { IfOk result (TellsDifferences differences.now) }
{
    let mut told = String::new(alloc);
    put_differences(&mut told, differences)?;
    let picture = inlined(alloc, answer, answer, None, None)?;
    Ok(Shown {
        differences: told,
        differs: differences.len(),
        marks: None,
        picture,
        explained: String::new(alloc),
    })
}

/// The lesson with the setting of an answer. It takes no memory.
fn answered<'a>(lesson: &'a Exercise<'_>, answer: Exercise<'static>) -> Exercise<'a>
    ensures { result ≡ words.answered lesson.now answer.entry }
{
    Exercise {
        mode: lesson.mode,
        voices: lesson.voices,
        bars: lesson.bars,
        species: lesson.species,
        species_voice: lesson.species_voice,
        mixed: lesson.mixed,
        cantus_voice: lesson.cantus_voice,
        cantus: lesson.cantus.lend(),
        ranges: lesson.ranges.lend(),
        relax: lesson.relax.lend(),
        given: lesson.given.lend(),
        setting: answer.setting,
    }
}

/// What the page has of an exercise by itself.
fn alone_entry(alloc: Global, answer: &Exercise) -> Result<Entry, Memory>
    requires { IsValid answer.now }
    ensures { IfOk result (IsEntryOfExercise None answer.now) }
{
    let Some(score) = &answer.setting else {
        return Ok(Entry::Bare);
    };
    let marks = marks(alloc, answer, score)?;
    let told = explained(alloc, answer, score, &marks)?;
    let shown = with_marks(alloc, answer, &marks, told, &[])?;
    Ok(Entry::Setting(shown))
}

/// What an answer has otherwise than its lesson, where it has a setting.
fn differing(alloc: Global, lesson: &Exercise, answer: &Exercise) -> Result<Vec<Difference>, Memory>
    requires lesson { IsValid lesson.now }
    requires answer { IsValid answer.now }
    ensures { (score : Grid) → answer.now.setting ≡ Some score → IfOk result (λ found. found.items
        ≡ differences_of lesson.now answer.now score.columns) }
{
    match &answer.setting {
        Some(score) => differences(alloc, lesson, answer, score),
        None => Ok(Vec::new(alloc)),
    }
}

/// What the page has of an answer by a lesson.
fn lesson_entry(
    alloc: Global,
    lesson: &Exercise,
    answer: Exercise<'static>,
) -> Result<Entry, Memory>
    requires lesson { IsValid lesson.now }
    requires answer { IsValid answer }
    ensures { IfOk result (IsEntryOfExercise (Some lesson.now) answer.entry) }
{
    let Some(_) = &answer.setting else {
        return Ok(Entry::Bare);
    };
    let differences = differing(alloc, lesson, &answer)?;
    if !is_markable(lesson, &answer) {
        let shown = without_marks(alloc, &answer, &differences)?;
        return Ok(Entry::Setting(shown));
    }
    let ex = answered(lesson, answer);
    let Some(score) = &ex.setting else {
        return Ok(Entry::Bare);
    };
    let marks = marks(alloc, lesson, score)?;
    let told = explained(alloc, lesson, score, &marks)?;
    let shown = with_marks(alloc, &ex, &marks, told, &differences)?;
    Ok(Entry::Setting(shown))
}

/// What the page has of an exercise, by a lesson where there is one.
fn exercise_entry(
    alloc: Global,
    lesson: Option<&Exercise>,
    answer: Exercise<'static>,
) -> Result<Entry, Memory>
    requires lesson { ForSome lesson (λ exercise. IsValid exercise.now) }
    requires answer { IsValid answer }
    ensures { IfOk result (IsEntryOfExercise (option_copied lesson.entry) answer.entry) }
{
    match lesson {
        Some(lesson) => lesson_entry(alloc, lesson, answer),
        None => alone_entry(alloc, &answer),
    }
}

/// What the page has of a text at fault.
fn fault_entry(alloc: Global, name: &str, bytes: &[u8], first: FoundFault) -> Result<Entry, Memory>
    ensures { IfOk result (ExplainsFaults name.now bytes.now first) }
{
    let told = explained_faults(alloc, name, bytes, first)?;
    Ok(Entry::Faulty(told))
}

/// The greatest length of a text.
const LONGEST_TEXT: usize = 65536;

/// The first fault of a text that is longer.
const TOO_LONG: FoundFault = FoundFault {
    kind: TextKind::TooLong,
    line: 1,
    column: 1,
};

/// What is told of a text.
fn told_of(bytes: &[u8]) -> &[u8]
    ensures { result.now ≡ words.told_of bytes.now }
{
    if bytes.len() > LONGEST_TEXT {
        return &[];
    }
    bytes
}

/// What the page has of the bytes of a text.
fn bytes_entry(
    alloc: Global,
    lesson: Option<&Exercise>,
    name: &str,
    bytes: &[u8],
) -> Result<Entry, Memory>
    requires { ForSome lesson (λ exercise. IsValid exercise.now) }
    ensures { IfOk result (IsEntryOfText (option_copied lesson.entry) name.now bytes.now) }
{
    match read(alloc, bytes) {
        Ok(answer) => exercise_entry(alloc, lesson, answer),
        Err(TextFault::At { kind, line, column }) => {
            fault_entry(
                alloc,
                name,
                told_of(bytes),
                FoundFault { kind, line, column },
            )
        }
        Err(TextFault::Memory) => Err(Memory),
    }
}

/// What the page has of a text.
fn text_entry(
    alloc: Global,
    lesson: Option<&Exercise>,
    name: &str,
    text: &Text,
) -> Result<Entry, Memory>
    requires { ForSome lesson (λ exercise. IsValid exercise.now) }
    ensures { (bytes : List ℕ) → IsContent 65536 text.now bytes
        → IfOk result (IsEntryOfText (option_copied lesson.entry) name.now bytes) }
{
    match text {
        Text::Bytes(bytes) => bytes_entry(alloc, lesson, name, bytes),
        Text::TooLong => fault_entry(alloc, name, &[], TOO_LONG),
    }
}

/// What the page has of a file under a name, by a lesson where there is one, where this was read of
/// it.
pub fn entry_of(
    alloc: Global,
    lesson: Option<&Exercise>,
    name: &str,
    found: &Option<Text>,
) -> Result<Entry, Memory>
    requires { ForSome lesson (λ exercise. IsValid exercise.now) }
    ensures { IfOk result (IsEntryOf (option_copied lesson.entry) name.now found.now) }
{
    match found {
        Some(text) => text_entry(alloc, lesson, name, text),
        None => Ok(Entry::Unread),
    }
}
