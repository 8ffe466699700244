//! The command `class`.

ghost use Rattle.std.specs.Prelude.{◌≡◌, ℕ, ◌+◌, ◌*◌, ◌<◌, ◌≤◌, IfErr, IfOk, List, length, map, string_bytes};
ghost use Rattle.fux_port.specs.Counts.{Rose};
ghost use Rattle.works.specs.Blame.{Blames, BlamesNoFile, BlamesPlace, CouldRead, IsUnserved, IsUnservedIn, ServesNames, ServesTask};
ghost use Rattle.works.specs.Classes.{IsClass, class_verdict};
ghost use Rattle.command_words.specs.Commands.{class_report, texts};
ghost use Rattle.command_words.specs.Commands as tasks;
ghost use Rattle.works.specs.Endings.{IsMade};
ghost use Rattle.works.specs.Listed.{IsUnreadAt, ReadsTexts, ReportsFiles};
ghost use Rattle.works.specs.Little.{ReadsLittle};
ghost use Rattle.works.specs.Works.{AreContents};

use crate::complaint::{Complaint, FileName};
use crate::content::read_content;
use crate::exercise::LONGEST_TEXT;
use crate::making::refused;
use crate::refusal::Refusal;
use crate::work::{Output, Verdict};
use class_marker::{ListFault, Text, read_list, report};
use fux_pitch::{Label, Memory};
use fux_port::Shelf;
use std::alloc::{AllocFailed, Global};
use std::thread::Threads;

/// Why the files that a list names are not read.
#[derive(Drop)]
pub(crate) enum Unread {
    /// The file under the name of this place cannot be read.
    At { place: usize },
    /// There is not enough memory.
    Memory,
}

impl<T: Drop> From<AllocFailed<T>> for Unread {
    ghost use Rattle.works.specs.declared.classing.Unread.TheVariants as unread;

    ghost from_gives = { λ _ fault. fault ≡ unread.Memory };

    fn from(_: AllocFailed<T>) -> Self {
        Unread::Memory
    }
}

/// Reads the files of these names, one after the other.
fn read_texts<F: Shelf>(alloc: Global, shelf: &mut F, names: &[String]) -> Result<Vec<Text>, Unread>
    ensures reads { ReadsTexts (F.files shelf.old) (Rose (F.faults shelf.old) (F.faults shelf.new))
        (map string_bytes names.now) result }
    ensures served { ServesNames (F.serves shelf.old) 65536 (map string_bytes names.now)
        → IfErr result CouldRead }
    ensures blamed { IfErr result (BlamesPlace (F.serves shelf.old) (map string_bytes names.now)) }
    ensures little { F.given shelf.new ≤ F.given shelf.old + 65537 * length names.now }
    ensures files { F.files shelf.new ≡ F.files shelf.old }
    ensures faults { F.faults shelf.old ≤ F.faults shelf.new }
{
    let mut texts = Vec::new(alloc);
    for place in 0..names.len() {
        match read_content(alloc, shelf, names[place].as_str(), LONGEST_TEXT) {
            Ok(text) => texts.push(text)?,
            Err(Complaint::Unreadable { .. }) => return Err(Unread::At { place }),
            Err(_) => return Err(Unread::Memory),
        }
    }
    Ok(texts)
}

/// The complaint about the file under the name of a place.
fn unreadable(names: Vec<String>, place: usize) -> Complaint<'static>
    requires { place < length names.items }
    ensures { IsUnreadAt (map string_bytes names.items) place result }
{
    let mut names = names;
    let name = names.swap_remove(place);
    Complaint::Unreadable {
        name: FileName::Listed(Label::new(name)),
    }
}

/// What a report says, all in all.
fn verdict_of(marked: usize, refused: usize) -> Verdict
    ensures { result ≡ class_verdict marked refused }
{
    if marked == 0 && refused == 0 {
        Verdict::Favorable
    } else {
        Verdict::Unfavorable
    }
}

/// The report of texts under their names.
fn report_output<R: Threads + Sync>(
    rt: &R,
    alloc: Global,
    names: &[String],
    texts: &[Text],
) -> Result<Output, Memory>
    requires { length names.now ≡ length texts.now }
    ensures { IfOk result (λ output. (bytes : List (List ℕ)) → AreContents 65536 texts.now bytes
        → IsClass (map string_bytes names.now) bytes output) }
{
    let report = report(rt, alloc, names, texts)?;
    let verdict = verdict_of(report.marked, report.refused);
    Ok(Output::of_text(verdict, report.text))
}

/// The report of the exercises in the files of these names.
fn report_files<F: Shelf, R: Threads + Sync>(
    rt: &R,
    alloc: Global,
    names: Vec<String>,
    shelf: &mut F,
) -> Result<Output, Complaint<'static>>
    ensures reports { ReportsFiles (F.files shelf.old)
        (Rose (F.faults shelf.old) (F.faults shelf.new)) (map string_bytes names.items) result }
    ensures served { ServesNames (F.serves shelf.old) 65536 (map string_bytes names.items)
        → IfErr result BlamesNoFile }
    ensures blamed { IfErr result (Blames (IsUnservedIn (F.serves shelf.old) 65536
        (map string_bytes names.items))) }
    ensures little { F.given shelf.new ≤ F.given shelf.old + 65537 * length names.items }
    ensures files { F.files shelf.new ≡ F.files shelf.old }
    ensures faults { F.faults shelf.old ≤ F.faults shelf.new }
{
    match read_texts(alloc, shelf, &names) {
        Ok(texts) => match report_output(rt, alloc, &names, &texts) {
            Ok(output) => Ok(output),
            Err(Memory) => Err(Complaint::OutOfMemory),
        },
        Err(Unread::At { place }) => Err(unreadable(names, place)),
        Err(Unread::Memory) => Err(Complaint::OutOfMemory),
    }
}

/// The report of the exercises in the files of names that the words give.
pub fn class_files<'a, F: Shelf, R: Threads + Sync>(
    rt: &R,
    alloc: Global,
    names: &'a [String],
    shelf: &mut F,
) -> Result<Output, Complaint<'a>>
    ensures made { IsMade (tasks.class_files (texts names.entry.now)) (F.files shelf.old)
        (Rose (F.faults shelf.old) (F.faults shelf.new)) result }
    ensures served { ServesTask (F.serves shelf.old) (F.files shelf.old)
        (tasks.class_files (texts names.entry.now)) → IfErr result BlamesNoFile }
    ensures blamed { IfErr result (Blames (IsUnserved (F.serves shelf.old) (F.files shelf.old)
        (tasks.class_files (texts names.entry.now)))) }
    ensures little { ReadsLittle (tasks.class_files (texts names.entry.now))
        (F.files shelf.old) (F.given shelf.old) (F.given shelf.new) }
    ensures files { F.files shelf.new ≡ F.files shelf.old }
{
    match read_texts(alloc, shelf, names) {
        Ok(texts) => match report_output(rt, alloc, names, &texts) {
            Ok(output) => Ok(output),
            Err(Memory) => Err(Complaint::OutOfMemory),
        },
        Err(Unread::At { place }) => Err(Complaint::Unreadable {
            name: FileName::Given(names[place].as_str()),
        }),
        Err(Unread::Memory) => Err(Complaint::OutOfMemory),
    }
}

/// The report of the exercises in the files that a list names.
pub fn class<'a, F: Shelf, R: Threads + Sync>(
    rt: &R,
    alloc: Global,
    list: &'a str,
    shelf: &mut F,
) -> Result<Output, Complaint<'a>>
    ensures made { IsMade (class_report list.entry.now) (F.files shelf.old)
        (Rose (F.faults shelf.old) (F.faults shelf.new)) result }
    ensures served { ServesTask (F.serves shelf.old) (F.files shelf.old)
        (class_report list.entry.now) → IfErr result BlamesNoFile }
    ensures blamed { IfErr result (Blames (IsUnserved (F.serves shelf.old) (F.files shelf.old)
        (class_report list.entry.now))) }
    ensures little { ReadsLittle (class_report list.entry.now)
        (F.files shelf.old) (F.given shelf.old) (F.given shelf.new) }
    ensures files { F.files shelf.new ≡ F.files shelf.old }
{
    let text = read_content(alloc, shelf, list, LONGEST_TEXT)?;
    match read_list(alloc, &text) {
        Ok(names) => report_files(rt, alloc, names, shelf),
        Err(ListFault::At { line }) => Err(refused(alloc, list, &Refusal::List { line })),
        Err(ListFault::Memory) => Err(Complaint::OutOfMemory),
    }
}
