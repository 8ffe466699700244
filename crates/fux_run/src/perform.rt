//! The work of a command on its files.

ghost use Rattle.std.specs.Prelude.{◌≡◌, IfErr, OnOk};
ghost use Rattle.fux_port.specs.Counts.{Rose};
ghost use Rattle.fux_port.specs.Written.{appended};
ghost use Rattle.works.specs.Blame.{Blames, BlamesNoFile, IsUnserved, ServesTask};
ghost use Rattle.command_words.specs.Commands.{HasHead, HasMidiHead, making_task, sheet_named, task_of, texts};
ghost use Rattle.command_words.specs.Commands as tasks;
ghost use Rattle.works.specs.Endings.{Ended, EndsOn};
ghost use Rattle.works.specs.Little.{ReadsLittle};
ghost use Rattle.works.specs.Near.{StopsNear};
ghost use Rattle.works.specs.Works.{IsOfCauses};

use command_words::{Command, FileKind, Making};
use fux_port::{Failed, Shelf, Sink, write_all};
use std::alloc::Global;
use std::thread::Threads;
use works::{Complaint, Verdict, make, perform_cantus, perform_certify, whole_class, whole_files};

/// Does the work of a command, and writes what comes of it.
pub fn perform<'a, F: Shelf, K: Sink, R: Threads + Sync>(
    rt: &R,
    alloc: Global,
    command: Command<'a>,
    shelf: &mut F,
    out: &mut K,
) -> Result<Verdict, Complaint<'a>>
    requires { HasHead command }
    ensures ended { EndsOn F.files F.faults K.written K.faults K.serves
        (Ended (task_of command.entry)) shelf.old shelf.new out.old out.new result }
    ensures served { ServesTask (F.serves shelf.old) (F.files shelf.old) (task_of command.entry)
        → IfErr result BlamesNoFile }
    ensures blamed { IfErr result (Blames (IsUnserved (F.serves shelf.old) (F.files shelf.old)
        (task_of command.entry))) }
    ensures little { ReadsLittle (task_of command.entry) (F.files shelf.old) (F.given shelf.old)
        (F.given shelf.new) }
    ensures near { OnOk result (StopsNear (task_of command.entry) (F.files shelf.old)
        (F.given shelf.old) (F.given shelf.new)
        (λ line. K.written out.new ≡ appended (K.written out.old) line)) }
    ensures causes { IsOfCauses (task_of command.entry) (F.files shelf.old)
        (Rose (F.faults shelf.old) (F.faults shelf.new))
        (λ verdict told. K.written out.new ≡ appended (K.written out.old) told.bytes) result }
    ensures files { F.files shelf.new ≡ F.files shelf.old }
{
    match command {
        Command::Make(making) => perform_making(rt, alloc, making, shelf, out),
        Command::WholeClass { list, lesson, kind } => {
            perform_class(alloc, list, lesson, kind, shelf, out)
        }
        Command::WholeFiles {
            names,
            lesson,
            kind,
        } => perform_files(alloc, names, lesson, kind, shelf, out),
        Command::Certify {
            name,
            sheet,
            budget,
            form,
        } => perform_certify(rt, alloc, name, sheet, budget, form, shelf, out),
        Command::CertifyCantus {
            wanted,
            sheet,
            budget,
        } => perform_cantus(alloc, wanted, sheet, budget, shelf, out),
    }
}

/// Makes something, and writes it. All of the output is made before any of it is written.
fn perform_making<'a, F: Shelf, K: Sink, R: Threads + Sync>(
    rt: &R,
    alloc: Global,
    making: Making<'a>,
    shelf: &mut F,
    out: &mut K,
) -> Result<Verdict, Complaint<'a>>
    requires { HasMidiHead making }
    ensures ended { EndsOn F.files F.faults K.written K.faults K.serves
        (Ended (making_task making.entry)) shelf.old shelf.new out.old out.new result }
    ensures served { ServesTask (F.serves shelf.old) (F.files shelf.old) (making_task making.entry)
        → IfErr result BlamesNoFile }
    ensures blamed { IfErr result (Blames (IsUnserved (F.serves shelf.old) (F.files shelf.old)
        (making_task making.entry))) }
    ensures little { ReadsLittle (making_task making.entry) (F.files shelf.old) (F.given shelf.old)
        (F.given shelf.new) }
    ensures near { OnOk result (StopsNear (making_task making.entry) (F.files shelf.old)
        (F.given shelf.old) (F.given shelf.new)
        (λ line. K.written out.new ≡ appended (K.written out.old) line)) }
    ensures files { F.files shelf.new ≡ F.files shelf.old }
{
    let output = make(rt, alloc, making, shelf)?;
    match write_all(out, output.bytes.as_slice()) {
        Ok(()) => Ok(output.verdict),
        Err(Failed) => Err(Complaint::Unwritable),
    }
}

/// Reports a class in which each name has its place, and writes that. All of the report is made
/// before any of it is written.
fn perform_class<'a, F: Shelf, K: Sink>(
    alloc: Global,
    list: &'a str,
    lesson: Option<&'a str>,
    kind: FileKind,
    shelf: &mut F,
    out: &mut K,
) -> Result<Verdict, Complaint<'a>>
    ensures ended { EndsOn F.files F.faults K.written K.faults K.serves
        (Ended (tasks.whole_class list.entry.now (sheet_named lesson.entry) kind)) shelf.old shelf.new
        out.old out.new result }
    ensures served { ServesTask (F.serves shelf.old) (F.files shelf.old)
        (tasks.whole_class list.entry.now (sheet_named lesson.entry) kind) → IfErr result BlamesNoFile }
    ensures blamed { IfErr result (Blames (IsUnserved (F.serves shelf.old) (F.files shelf.old)
        (tasks.whole_class list.entry.now (sheet_named lesson.entry) kind))) }
    ensures little { ReadsLittle (tasks.whole_class list.entry.now (sheet_named lesson.entry) kind)
        (F.files shelf.old) (F.given shelf.old) (F.given shelf.new) }
    ensures causes { IsOfCauses (tasks.whole_class list.entry.now (sheet_named lesson.entry) kind)
        (F.files shelf.old) (Rose (F.faults shelf.old) (F.faults shelf.new))
        (λ verdict told. K.written out.new ≡ appended (K.written out.old) told.bytes) result }
    ensures files { F.files shelf.new ≡ F.files shelf.old }
{
    let output = whole_class(alloc, list, lesson, kind, shelf)?;
    match write_all(out, output.bytes.as_slice()) {
        Ok(()) => Ok(output.verdict),
        Err(Failed) => Err(Complaint::Unwritable),
    }
}

/// The same of the files of names that the words give.
fn perform_files<'a, F: Shelf, K: Sink>(
    alloc: Global,
    names: &'a [String],
    lesson: Option<&'a str>,
    kind: FileKind,
    shelf: &mut F,
    out: &mut K,
) -> Result<Verdict, Complaint<'a>>
    ensures ended { EndsOn F.files F.faults K.written K.faults K.serves
        (Ended (tasks.whole_files (texts names.entry.now) (sheet_named lesson.entry) kind))
        shelf.old shelf.new out.old out.new result }
    ensures served { ServesTask (F.serves shelf.old) (F.files shelf.old)
        (tasks.whole_files (texts names.entry.now) (sheet_named lesson.entry) kind)
        → IfErr result BlamesNoFile }
    ensures blamed { IfErr result (Blames (IsUnserved (F.serves shelf.old) (F.files shelf.old)
        (tasks.whole_files (texts names.entry.now) (sheet_named lesson.entry) kind))) }
    ensures little { ReadsLittle
        (tasks.whole_files (texts names.entry.now) (sheet_named lesson.entry) kind)
        (F.files shelf.old) (F.given shelf.old) (F.given shelf.new) }
    ensures causes { IsOfCauses
        (tasks.whole_files (texts names.entry.now) (sheet_named lesson.entry) kind)
        (F.files shelf.old) (Rose (F.faults shelf.old) (F.faults shelf.new))
        (λ verdict told. K.written out.new ≡ appended (K.written out.old) told.bytes) result }
    ensures files { F.files shelf.new ≡ F.files shelf.old }
{
    let output = whole_files(alloc, names, lesson, kind, shelf)?;
    match write_all(out, output.bytes.as_slice()) {
        Ok(()) => Ok(output.verdict),
        Err(Failed) => Err(Complaint::Unwritable),
    }
}
