//! What a command makes of its files.

ghost use Rattle.std.specs.Prelude.{◌≡◌, ◌+◌, ◌*◌, ◌≤◌, IfErr, IfOk, length};
ghost use Rattle.fux_grid.specs.Exercises.{IsValid};
ghost use Rattle.fux_port.specs.Counts.{Rose};
ghost use Rattle.fux_port.specs.Promises.{Keeps, ServesWhole};
ghost use Rattle.works.specs.Blame.{Blames, BlamesNoFile, IsReadWithin, IsUnserved, ServesNames, ServesTask};
ghost use Rattle.command_words.specs.Commands.{HasMidiHead, making_task, sheet_named};
ghost use Rattle.works.specs.TaskFiles.{as_list};
ghost use Rattle.works.specs.Complaints.{refusal_text};
ghost use Rattle.works.specs.Endings.{IsMade, Says, SaysRefusal, SaysWithin, SaysWritten};
ghost use Rattle.works.specs.Little.{ReadsLittle};
ghost use Rattle.works.specs.Near.{ChecksTextNear, StopsNear};
ghost use Rattle.works.specs.Works.{Answers, ChecksTexts, MakesOf, MakesOfText, OnTexts, ReadsSheetFile};

use crate::answering::answer;
use crate::cantus_checking::checked_cantus;
use crate::charging::weigh;
use crate::checking::check;
use crate::classing::{class, class_files};
use crate::complaint::{Complaint, FileName};
use crate::composing::{best, compose};
use crate::content::read_content;
use crate::drilling::drill;
use crate::exercise::{LONGEST_TEXT, exercise_of};
use crate::explaining::explain;
use crate::imitating::canon;
use crate::inventing::new_cantus;
use crate::joining::join;
use crate::marking::{cantus, cantus_charged, mark};
use crate::mixing::on_mixed;
use crate::numbering::compose_nth;
use crate::playing::{LONGEST_MIDI, from_smf};
use crate::refusal::{Refusal, refusal_text};
use crate::rendering::{mark_picture, mark_xml, print, to_picture, to_smf, to_xml};
use crate::weighing::{priced_of, sheet_of};
use crate::work::{Halt, Output, Stop, Unmade, Verdict};
use cantus_space::PricedSheet;
use class_marker::Text;
use command_words::{Job, Making};
use fux_grid::Exercise;
use fux_pitch::Memory;
use fux_port::Shelf;
use std::alloc::Global;
use std::thread::Threads;

/// What a command makes of its files, all of which are read before its work.
pub fn make<'a, F: Shelf, R: Threads + Sync>(
    rt: &R,
    alloc: Global,
    making: Making<'a>,
    shelf: &mut F,
) -> Result<Output, Complaint<'a>>
    requires { HasMidiHead making }
    ensures made { IsMade (making_task making.entry) (F.files shelf.old)
        (Rose (F.faults shelf.old) (F.faults shelf.new)) result }
    ensures served { ServesTask (F.serves shelf.old) (F.files shelf.old) (making_task making.entry)
        → IfErr result BlamesNoFile }
    ensures blamed { IfErr result (Blames (IsUnserved (F.serves shelf.old) (F.files shelf.old)
        (making_task making.entry))) }
    ensures little { ReadsLittle (making_task making.entry)
        (F.files shelf.old) (F.given shelf.old) (F.given shelf.new) }
    ensures near { IfOk result (λ output. StopsNear (making_task making.entry) (F.files shelf.old)
        (F.given shelf.old) (F.given shelf.new) (λ line. output.bytes ≡ line)) }
    ensures files { F.files shelf.new ≡ F.files shelf.old }
{
    match making {
        Making::OnExercise { name, sheet, job } => {
            let text = read_content(alloc, shelf, name, LONGEST_TEXT)?;
            let weights = read_weights(alloc, shelf, sheet)?;
            said(alloc, name, of_texts(rt, alloc, &text, &weights, job))
        }
        Making::OnMixed {
            name,
            sheet,
            named,
            job,
        } => on_mixed(rt, alloc, name, sheet, &named, job, shelf),
        Making::Check {
            name,
            certificate,
            sheet,
        } => {
            let text = read_content(alloc, shelf, name, LONGEST_TEXT)?;
            let weights = read_weights(alloc, shelf, sheet)?;
            said_within(
                alloc,
                name,
                certificate,
                check_texts(rt, alloc, &text, &weights, shelf, certificate),
            )
        }
        Making::Explain { name, subject } => {
            let text = read_content(alloc, shelf, name, LONGEST_TEXT)?;
            said(alloc, name, explain(alloc, name, &subject, &text))
        }
        Making::FromSmf { name, head } => {
            let file = read_content(alloc, shelf, name, LONGEST_MIDI)?;
            said(alloc, name, from_smf(alloc, &file, &head))
        }
        Making::JoinSmf {
            lesson,
            name,
            manner,
        } => join(alloc, lesson, name, manner, shelf),
        Making::Drill { number, by_sharper } => {
            said(alloc, "", drill(rt, alloc, number, by_sharper))
        }
        Making::MarkAnswer { name, lesson } => answer(alloc, name, lesson, shelf),
        Making::Class { list } => class(rt, alloc, list, shelf),
        Making::ClassFiles { names } => class_files(rt, alloc, names, shelf),
        Making::Canon {
            name,
            sheet,
            search,
        } => canon(alloc, name, sheet, search, shelf),
        Making::NewCantus {
            wanted,
            sheet,
            search,
        } => new_cantus(alloc, wanted, sheet, search, shelf),
        Making::CheckCantus {
            wanted,
            certificate,
            sheet,
        } => checked_cantus(alloc, wanted, certificate, sheet, shelf),
    }
}

/// Reads the file of the sheet, where one is named.
pub fn read_weights<'a, F: Shelf>(
    alloc: Global,
    shelf: &mut F,
    name: Option<&'a str>,
) -> Result<Option<Text>, Complaint<'a>>
    ensures reads { ReadsSheetFile (F.files shelf.old)
        (Rose (F.faults shelf.old) (F.faults shelf.new)) (sheet_named name.entry) result }
    ensures served { ServesNames (F.serves shelf.old) 65536 (as_list (sheet_named name.entry))
        → IfErr result BlamesNoFile }
    ensures serving { Keeps (F.serves shelf.old) (F.serves shelf.new) }
    ensures little { F.given shelf.new ≤ F.given shelf.old
        + 65537 * length (as_list (sheet_named name.entry)) }
    ensures files { F.files shelf.new ≡ F.files shelf.old }
    ensures faults { F.faults shelf.old ≤ F.faults shelf.new }
{
    match name {
        None => Ok(None),
        Some(name) => Ok(Some(read_content(alloc, shelf, name, LONGEST_TEXT)?)),
    }
}

/// What a job makes of the text of an exercise, and of the file of a sheet where one is given.
fn of_texts<R: Threads + Sync>(
    rt: &R,
    alloc: Global,
    text: &Text,
    weights: &Option<Text>,
    job: Job,
) -> Result<Output, Stop>
    ensures { OnTexts text.now weights.now (λ bytes sheets. Answers (MakesOfText job sheets bytes)
        result) }
{
    let exercise = exercise_of(alloc, text)?;
    let priced = priced_of(alloc, weights)?;
    of_exercise(rt, alloc, &exercise, &priced, job)
}

/// The verdict on the certificate in a file for the exercise of a text, over the file of a sheet
/// where one is given.
fn check_texts<F: Shelf, R: Threads + Sync>(
    rt: &R,
    alloc: Global,
    text: &Text,
    weights: &Option<Text>,
    shelf: &mut F,
    certificate: &str,
) -> Result<Output, Unmade>
    ensures checks { ChecksTexts F.files F.faults certificate.now text.now weights.now shelf.old
        shelf.new result }
    ensures served { ServesWhole (F.serves shelf.old) certificate.now 1073741824
        → IfErr result IsReadWithin }
    ensures little { F.given shelf.new ≤ F.given shelf.old + 1073741825 }
    ensures near { OnTexts text.now weights.now (λ bytes sheets. IfOk result
        (λ output. ChecksTextNear sheets bytes (F.files shelf.old) certificate.now
        (F.given shelf.old) (F.given shelf.new) (λ line. output.bytes ≡ line))) }
    ensures files { F.files shelf.new ≡ F.files shelf.old }
    ensures faults { F.faults shelf.old ≤ F.faults shelf.new }
{
    let exercise = exercise_of(alloc, text)?;
    let sheet = sheet_of(alloc, weights)?;
    check(rt, alloc, &exercise, &sheet, shelf, certificate)
}

/// What a job makes of an exercise, over a sheet with prices.
fn of_exercise<R: Threads + Sync>(
    rt: &R,
    alloc: Global,
    exercise: &Exercise,
    priced: &PricedSheet,
    job: Job,
) -> Result<Output, Stop>
    requires { IsValid exercise.now }
    ensures { Answers (MakesOf job priced.now exercise.now) result }
{
    let sheet = &priced.sheet;
    match job {
        Job::Compose { budget } => compose(rt, alloc, exercise, sheet, budget),
        Job::Best { budget } => best(rt, alloc, exercise, sheet, budget),
        Job::ComposeNth { before, budget } => {
            compose_nth(rt, alloc, exercise, sheet, before, budget)
        }
        Job::Mark => mark(alloc, exercise),
        Job::Weigh { against } => weigh(rt, alloc, exercise, exercise, sheet, against),
        Job::Cantus => cantus(alloc, exercise),
        Job::CantusCharges => cantus_charged(alloc, exercise, priced),
        Job::Print { wrap } => print(alloc, exercise, wrap),
        Job::ToSmf => to_smf(alloc, exercise),
        Job::ToXml => to_xml(alloc, exercise),
        Job::MarkXml => mark_xml(alloc, exercise),
        Job::Picture { penalty } => to_picture(alloc, exercise, sheet, penalty),
        Job::MarkPicture => mark_picture(alloc, exercise),
    }
}

/// The output of an answer, or what is said where there is none, with this name for a text that is
/// refused.
pub fn said<'a>(
    alloc: Global,
    name: &str,
    answer: Result<Output, Stop>,
) -> Result<Output, Complaint<'a>>
    ensures says { Says name.now answer result }
    ensures reads { IfErr result BlamesNoFile }
{
    match answer {
        Ok(output) => Ok(output),
        Err(Stop::Refused(refusal)) => Err(refused(alloc, name, &refusal)),
        Err(Stop::Memory) => Err(Complaint::OutOfMemory),
    }
}

/// The output of an answer of a command that reads while it works, or what is said where there is
/// none, with this name for a text that is refused, and that of the file which is read then.
pub fn said_within<'a>(
    alloc: Global,
    name: &str,
    within: &'a str,
    answer: Result<Output, Unmade>,
) -> Result<Output, Complaint<'a>>
    ensures says { SaysWithin name.now within.entry.now answer result }
    ensures reads { IfErr answer IsReadWithin → IfErr result BlamesNoFile }
{
    match answer {
        Ok(output) => Ok(output),
        Err(Unmade::Stopped(stop)) => said(alloc, name, Err(stop)),
        Err(Unmade::Unreadable) => Err(Complaint::Unreadable {
            name: FileName::Given(within),
        }),
    }
}

/// The complaint about a refused file of this name.
pub fn refused<'a>(alloc: Global, name: &str, refusal: &Refusal) -> Complaint<'a>
    ensures says { SaysRefusal (refusal_text name.now refusal.now) result }
    ensures reads { BlamesNoFile result }
{
    match refusal_text(alloc, name, refusal) {
        Ok(text) => Complaint::Refused { text },
        Err(Memory) => Complaint::OutOfMemory,
    }
}

/// What is said of a command that wrote while it worked, with this name for a text that is refused.
pub fn said_of(
    alloc: Global,
    name: &str,
    answer: Result<Verdict, Halt>,
) -> Result<Verdict, Complaint<'static>>
    ensures says { SaysWritten name.now answer result }
    ensures reads { IfErr result BlamesNoFile }
{
    match answer {
        Ok(verdict) => Ok(verdict),
        Err(Halt::Stopped(Stop::Refused(refusal))) => Err(refused(alloc, name, &refusal)),
        Err(Halt::Stopped(Stop::Memory)) => Err(Complaint::OutOfMemory),
        Err(Halt::Unwritable) => Err(Complaint::Unwritable),
    }
}
