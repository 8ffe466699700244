//! The command `class`, where each name of the list has its place in the report or on the page,
//! also where its file can't be read.

ghost use Rattle.std.specs.Prelude.{◌≡◌, ◌+◌, ◌*◌, ◌≤◌, ℕ, IfErr, IfOk, List, length, map, string_bytes};
ghost use Rattle.std.specs.Option.{ForSome, option_copied};
ghost use Rattle.class_marker.specs.LooseLists.{loose_names};
ghost use Rattle.class_marker.specs.Sayings.{IsSaidOrUnread};
ghost use Rattle.class_marker.specs.Markings.{IsContent};
ghost use Rattle.command_words.specs.Commands.{sheet_named, texts};
ghost use Rattle.command_words.specs.Commands as tasks;
ghost use Rattle.fux_grid.specs.Exercises.{IsValid};
ghost use Rattle.fux_port.specs.Counts.{Rose};
ghost use Rattle.works.specs.Blame.{Blames, BlamesNoFile, IsUnserved, ServesTask};
ghost use Rattle.works.specs.Endings.{IsMade};
ghost use Rattle.works.specs.Little.{ReadsLittle};
ghost use Rattle.works.specs.TaskFiles.{as_list, names_listed};
ghost use Rattle.works.specs.WholeClasses.{AreSaid, IsMadeOf, IsWholeReport, ReportsBy, ReportsNamed, ReportsWhole, SaysOf, limit_of, sought_by, sought_in, whole_output};
ghost use Rattle.works.specs.Works.{Answers, AreContents, IsOfCauses, OnTexts, ReadsOrNot};

use crate::answering::lesson_of;
use crate::complaint::Complaint;
use crate::content::read_content;
use crate::exercise::LONGEST_TEXT;
use crate::making::{read_weights, said};
use crate::paging::page_names;
use crate::playing::LONGEST_MIDI;
use crate::refusal::Refusal;
use crate::work::{Output, Stop, Verdict};
use class_marker::{
    ListFault, Said, Text, WholeReport, put_said, read_loose_list, say, say_joined, whole,
};
use command_words::FileKind;
use fux_grid::Exercise;
use fux_pitch::Memory;
use fux_port::Shelf;
use std::alloc::Global;

/// What was read of the file of a name, or nothing where it can't be read.
pub(crate) fn content_or_none<F: Shelf>(
    alloc: Global,
    shelf: &mut F,
    name: &str,
    limit: usize,
) -> Result<Option<Text>, Memory>
    ensures reads { ReadsOrNot limit (F.files shelf.old) (Rose (F.faults shelf.old) (F.faults shelf.new))
        name.now result }
    ensures little { F.given shelf.new ≤ F.given shelf.old + (limit + 1) }
    ensures files { F.files shelf.new ≡ F.files shelf.old }
    ensures faults { F.faults shelf.old ≤ F.faults shelf.new }
{
    match read_content(alloc, shelf, name, limit) {
        Ok(text) => Ok(Some(text)),
        Err(Complaint::Unreadable { .. }) => Ok(None),
        Err(_) => Err(Memory),
    }
}

/// How many bytes of each file of a class are read at most.
fn limit_of(kind: FileKind) -> usize
    ensures { result ≡ limit_of kind }
{
    match kind {
        FileKind::Text | FileKind::Page => LONGEST_TEXT,
        FileKind::Midi { .. } => LONGEST_MIDI,
    }
}

/// What is said by a lesson of a file of which this was read.
fn say_answer(
    alloc: Global,
    lesson: &Exercise,
    kind: FileKind,
    found: &Option<Text>,
) -> Result<Said, Memory>
    requires { IsValid lesson.now }
    ensures { IfOk result (IsSaidOrUnread (SaysOf (sought_by kind lesson.now)) (limit_of kind)
        found.now) }
{
    match kind {
        FileKind::Text => say(alloc, Some(lesson), found),
        FileKind::Page => say(alloc, Some(lesson), found),
        FileKind::Midi { manner } => say_joined(alloc, lesson, found, manner),
    }
}

/// The same, by a lesson where there is one.
fn say_read(
    alloc: Global,
    lesson: Option<&Exercise>,
    kind: FileKind,
    found: &Option<Text>,
) -> Result<Said, Memory>
    requires { ForSome lesson (λ exercise. IsValid exercise.now) }
    ensures { IfOk result (IsSaidOrUnread (SaysOf (sought_in kind (option_copied lesson.entry)))
        (limit_of kind) found.now) }
{
    match lesson {
        None => say(alloc, None, found),
        Some(lesson) => say_answer(alloc, lesson, kind, found),
    }
}

/// What is said of the files of these names, one after the other.
fn say_names<F: Shelf>(
    alloc: Global,
    lesson: Option<&Exercise>,
    kind: FileKind,
    names: &[String],
    shelf: &mut F,
) -> Result<WholeReport, Memory>
    requires { ForSome lesson (λ exercise. IsValid exercise.now) }
    ensures said { IfOk result (AreSaid (F.files shelf.old)
        (Rose (F.faults shelf.old) (F.faults shelf.new))
        (sought_in kind (option_copied lesson.entry)) (map string_bytes names.now)) }
    ensures little { F.given shelf.new ≤ F.given shelf.old
        + (limit_of kind + 1) * length names.now }
    ensures files { F.files shelf.new ≡ F.files shelf.old }
    ensures faults { F.faults shelf.old ≤ F.faults shelf.new }
{
    let mut report = WholeReport::new(alloc);
    for place in 0..names.len() {
        let name = names[place].as_str();
        let found = content_or_none(alloc, shelf, name, limit_of(kind))?;
        let said = say_read(alloc, lesson, kind, &found)?;
        put_said(&mut report, name, &said)?;
    }
    Ok(report)
}

/// What a report says, all in all.
fn verdict_of(report: &WholeReport) -> Verdict
    ensures { result ≡ (whole_output report.now).verdict }
{
    if report.marked == 0 && report.refused == 0 && report.others == 0 {
        Verdict::Favorable
    } else {
        Verdict::Unfavorable
    }
}

/// The output of a report. It takes no memory.
fn output_of(report: WholeReport) -> Output
    ensures { result ≡ whole_output report }
{
    Output::of_text(verdict_of(&report), report.text)
}

/// The report of the files of these names, by a lesson where there is one.
fn told_names<F: Shelf>(
    alloc: Global,
    lesson: Option<&Exercise>,
    kind: FileKind,
    names: &[String],
    shelf: &mut F,
) -> Result<Output, Memory>
    requires { ForSome lesson (λ exercise. IsValid exercise.now) }
    ensures reported { IfOk result (IsWholeReport (F.files shelf.old)
        (Rose (F.faults shelf.old) (F.faults shelf.new))
        (sought_in kind (option_copied lesson.entry)) (map string_bytes names.now)) }
    ensures little { F.given shelf.new ≤ F.given shelf.old
        + (limit_of kind + 1) * length names.now }
    ensures files { F.files shelf.new ≡ F.files shelf.old }
    ensures faults { F.faults shelf.old ≤ F.faults shelf.new }
{
    let report = say_names(alloc, lesson, kind, names, shelf)?;
    let report = whole(report, names.len(), lesson.is_some())?;
    Ok(output_of(report))
}

/// What is made of the files of these names, by a lesson where there is one: a report, or a page.
fn report_names<F: Shelf>(
    alloc: Global,
    lesson: Option<&Exercise>,
    kind: FileKind,
    names: &[String],
    shelf: &mut F,
) -> Result<Output, Memory>
    requires { ForSome lesson (λ exercise. IsValid exercise.now) }
    ensures reported { IfOk result (IsMadeOf (F.files shelf.old)
        (Rose (F.faults shelf.old) (F.faults shelf.new)) kind (option_copied lesson.entry)
        (map string_bytes names.now)) }
    ensures little { F.given shelf.new ≤ F.given shelf.old
        + (limit_of kind + 1) * length names.now }
    ensures files { F.files shelf.new ≡ F.files shelf.old }
    ensures faults { F.faults shelf.old ≤ F.faults shelf.new }
{
    match kind {
        FileKind::Text => told_names(alloc, lesson, FileKind::Text, names, shelf),
        FileKind::Page => page_names(alloc, lesson, names, shelf),
        FileKind::Midi { manner } => {
            told_names(alloc, lesson, FileKind::Midi { manner }, names, shelf)
        }
    }
}

/// What is made of the files that a list names, by a lesson where there is one.
fn report_list<F: Shelf>(
    alloc: Global,
    lesson: Option<&Exercise>,
    kind: FileKind,
    list: &Text,
    shelf: &mut F,
) -> Result<Output, Stop>
    requires { ForSome lesson (λ exercise. IsValid exercise.now) }
    ensures reported { (bytes : List ℕ) → IsContent 65536 list.now bytes
        → Answers (ReportsBy (F.files shelf.old) (Rose (F.faults shelf.old) (F.faults shelf.new))
        kind bytes (option_copied lesson.entry)) result }
    ensures little { (bytes : List ℕ) → IsContent 65536 list.now bytes → F.given shelf.new
        ≤ F.given shelf.old + (limit_of kind + 1) * length (names_listed (loose_names bytes)) }
    ensures files { F.files shelf.new ≡ F.files shelf.old }
    ensures faults { F.faults shelf.old ≤ F.faults shelf.new }
{
    match read_loose_list(alloc, list) {
        Ok(names) => Ok(report_names(alloc, lesson, kind, &names, shelf)?),
        Err(ListFault::At { line }) => Err(Stop::Refused(Refusal::List { line })),
        Err(ListFault::Memory) => Err(Stop::Memory),
    }
}

/// The same, by the lesson of a text where one is given.
fn of_texts<F: Shelf>(
    alloc: Global,
    list: &Text,
    given: &Option<Text>,
    kind: FileKind,
    shelf: &mut F,
) -> Result<Output, Stop>
    ensures reported { OnTexts list.now given.now
        (λ bytes lessons. Answers (ReportsWhole (F.files shelf.old)
        (Rose (F.faults shelf.old) (F.faults shelf.new)) kind bytes lessons) result) }
    ensures little { (bytes : List ℕ) → IsContent 65536 list.now bytes → F.given shelf.new
        ≤ F.given shelf.old + (limit_of kind + 1) * length (names_listed (loose_names bytes)) }
    ensures files { F.files shelf.new ≡ F.files shelf.old }
    ensures faults { F.faults shelf.old ≤ F.faults shelf.new }
{
    match given {
        None => report_list(alloc, None, kind, list, shelf),
        Some(given) => {
            let lesson = lesson_of(alloc, given)?;
            report_list(alloc, Some(&lesson), kind, list, shelf)
        }
    }
}

/// The report of the files that a list names, in which each name has its place, by the lesson in a
/// file where one is named.
pub fn whole_class<'a, F: Shelf>(
    alloc: Global,
    list: &'a str,
    lesson: Option<&'a str>,
    kind: FileKind,
    shelf: &mut F,
) -> Result<Output, Complaint<'a>>
    ensures made { IsMade (tasks.whole_class list.entry.now (sheet_named lesson.entry) kind)
        (F.files shelf.old) (Rose (F.faults shelf.old) (F.faults shelf.new)) result }
    ensures served { ServesTask (F.serves shelf.old) (F.files shelf.old)
        (tasks.whole_class list.entry.now (sheet_named lesson.entry) kind) → IfErr result BlamesNoFile }
    ensures causes { IsOfCauses (tasks.whole_class list.entry.now (sheet_named lesson.entry) kind)
        (F.files shelf.old) (Rose (F.faults shelf.old) (F.faults shelf.new))
        (λ output told. told ≡ output) result }
    ensures blamed { IfErr result (Blames (IsUnserved (F.serves shelf.old) (F.files shelf.old)
        (tasks.whole_class list.entry.now (sheet_named lesson.entry) kind))) }
    ensures little { ReadsLittle (tasks.whole_class list.entry.now (sheet_named lesson.entry) kind)
        (F.files shelf.old) (F.given shelf.old) (F.given shelf.new) }
    ensures files { F.files shelf.new ≡ F.files shelf.old }
{
    let text = read_content(alloc, shelf, list, LONGEST_TEXT)?;
    let given = read_weights(alloc, shelf, lesson)?;
    said(alloc, list, of_texts(alloc, &text, &given, kind, shelf))
}

/// The report of the files of these names, by the lesson of a text where one is given.
fn of_lesson<F: Shelf>(
    alloc: Global,
    names: &[String],
    given: &Option<Text>,
    kind: FileKind,
    shelf: &mut F,
) -> Result<Output, Stop>
    ensures reported { (lessons : List (List ℕ)) → AreContents 65536 (as_list given.now) lessons
        → Answers (ReportsNamed (F.files shelf.old) (Rose (F.faults shelf.old) (F.faults shelf.new))
        kind (map string_bytes names.now) lessons) result }
    ensures little { F.given shelf.new ≤ F.given shelf.old
        + (limit_of kind + 1) * length names.now }
    ensures files { F.files shelf.new ≡ F.files shelf.old }
    ensures faults { F.faults shelf.old ≤ F.faults shelf.new }
{
    match given {
        None => Ok(report_names(alloc, None, kind, names, shelf)?),
        Some(given) => {
            let lesson = lesson_of(alloc, given)?;
            Ok(report_names(alloc, Some(&lesson), kind, names, shelf)?)
        }
    }
}

/// The report of the files of names that the words give, in which each has its place, by the lesson
/// in a file where one is named.
pub fn whole_files<'a, F: Shelf>(
    alloc: Global,
    names: &'a [String],
    lesson: Option<&'a str>,
    kind: FileKind,
    shelf: &mut F,
) -> Result<Output, Complaint<'a>>
    ensures made { IsMade (tasks.whole_files (texts names.entry.now) (sheet_named lesson.entry) kind)
        (F.files shelf.old) (Rose (F.faults shelf.old) (F.faults shelf.new)) result }
    ensures served { ServesTask (F.serves shelf.old) (F.files shelf.old)
        (tasks.whole_files (texts names.entry.now) (sheet_named lesson.entry) kind)
        → IfErr result BlamesNoFile }
    ensures causes { IsOfCauses
        (tasks.whole_files (texts names.entry.now) (sheet_named lesson.entry) kind)
        (F.files shelf.old) (Rose (F.faults shelf.old) (F.faults shelf.new))
        (λ output told. told ≡ output) result }
    ensures blamed { IfErr result (Blames (IsUnserved (F.serves shelf.old) (F.files shelf.old)
        (tasks.whole_files (texts names.entry.now) (sheet_named lesson.entry) kind))) }
    ensures little { ReadsLittle
        (tasks.whole_files (texts names.entry.now) (sheet_named lesson.entry) kind)
        (F.files shelf.old) (F.given shelf.old) (F.given shelf.new) }
    ensures files { F.files shelf.new ≡ F.files shelf.old }
{
    let given = read_weights(alloc, shelf, lesson)?;
    said(alloc, "", of_lesson(alloc, names, &given, kind, shelf))
}
