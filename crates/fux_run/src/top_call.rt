//! The top call.

ghost use Rattle.std.specs.Prelude.{◌≡◌, ◌≢◌, ℕ, ◌<◌, ◌⊎◌, Contains, List, Option, None, Some, IfErr, OnOk, codes};
ghost use Rattle.fux_port.specs.Counts.{Rose};
ghost use Rattle.fux_port.specs.Files.{IsMissing};
ghost use Rattle.fux_port.specs.Promises.{Fails, TakesAll};
ghost use Rattle.fux_port.specs.Written.{appended};
ghost use Rattle.works.specs.Blame.{Blames, BlamesNoFile, IsUnserved, ServesTask};
ghost use Rattle.command_words.specs.declared.command.FileKind.{FileKind};
ghost use Rattle.command_words.specs.Commands.{Task, asked, texts, whole_class, whole_files};
ghost use Rattle.works.specs.TaskFiles.{name_in, names_in, names_within};
ghost use Rattle.fux_run.specs.Tellings.{fux_line};
ghost use Rattle.fux_run.specs.Runs.{EndedBy, EndsAs, EndsUnread, IsDone, IsStopped, result_line, result_status};
ghost use Rattle.works.specs.Endings.{EndsOn};
ghost use Rattle.works.specs.Little.{ReadsLittle};
ghost use Rattle.works.specs.Near.{StopsNear};
ghost use Rattle.fux_run.specs.Sinks.{Gets};
ghost use Rattle.fux_run.specs.Statuses.{code_of};
ghost use Rattle.works.specs.Works.{AllHave, AreThere, IsOfCauses, IsReadyFor, TellsCauses, TellsNamedCauses, Works};

use crate::perform::perform;
use crate::status::Status;
use crate::telling::report;
use command_words::parse;
use fux_pitch::Memory;
use fux_port::{Shelf, Sink};
use std::alloc::Global;
use std::thread::Threads;
use works::{Complaint, Verdict};

/// Runs the command that the words after the program's name ask for, and answers the status that
/// the process ends with.
pub fn run<F: Shelf, K: Sink, E: Sink, R: Threads + Sync>(
    rt: &R,
    alloc: Global,
    words: &[String],
    shelf: &mut F,
    out: &mut K,
    err: &mut E,
) -> u8
    ensures known { result < 8 }

    // The words are of no command's form.
    ensures usage { result ≡ code_of Status.Usage → asked (texts words.now) ≡ None }
    ensures form { asked (texts words.now) ≡ None → result ≢ code_of Status.OutOfMemory
        → result ≡ code_of Status.Usage }

    // A read failed by the shelf's fault, or a file is missing; the line names it, and the shelf
    // didn't promise each read of it.
    ensures unreadable { (task : Task) → asked (texts words.now) ≡ Some task
        → result ≡ code_of Status.Unreadable
        → EndsUnread task (F.files shelf.old) (F.serves shelf.old)
        (Rose (F.faults shelf.old) (F.faults shelf.new))
        (Gets E.written E.faults E.serves err.old err.new) }
    ensures missing { (task : Task) → asked (texts words.now) ≡ Some task
        → (name : List ℕ) → Contains (names_in task) name → IsMissing (F.files shelf.old) name
        → result ≢ code_of Status.OutOfMemory → result ≡ code_of Status.Unreadable }
    ensures missing_within { (task : Task) → asked (texts words.now) ≡ Some task
        → (bytes : List (List ℕ)) → AllHave (F.files shelf.old) (names_in task) bytes
        → (name : List ℕ) → Contains (names_within task bytes) name → IsMissing (F.files shelf.old)
        name → result ≢ code_of Status.OutOfMemory → (result ≡ code_of Status.Unreadable)
        ⊎ ((result ≡ code_of Status.Refused) × (IsReadyFor task bytes → ⊥)) }

    // A write to standard output failed. What was written is a front of the output.
    ensures unwritable { result ≡ code_of Status.Unwritable
        → Rose (K.faults out.old) (K.faults out.new) }

    // No device is blamed that promises: each read of the command's files up to their limits, or
    // each write. By `works`, none is that promises to take as many bytes as the output has.
    ensures served { (task : Task) → asked (texts words.now) ≡ Some task
        → ServesTask (F.serves shelf.old) (F.files shelf.old) task → result
        ≢ code_of Status.Unreadable }
    ensures taken { TakesAll (K.serves out.old) → result ≢ code_of Status.Unwritable }

    // Otherwise, unless memory is wanting, the command does its work on its files.
    ensures works { (task : Task) → asked (texts words.now) ≡ Some task → result
        ≢ code_of Status.Unreadable → result ≢ code_of Status.OutOfMemory
        → Works task (F.files shelf.old)
        (EndsAs (name_in task) result (Fails K.faults K.serves out.old out.new) (K.written out.old)
        (K.written out.new) (Gets E.written E.faults E.serves err.old err.new)) }

    // The report of a class in which each name has its place tells of a file that it can't be read
    // only where a read failed by the shelf's fault, or the file is missing.
    ensures causes { (list : List ℕ) → (lesson : Option (List ℕ)) → (kind : FileKind)
        → asked (texts words.now) ≡ Some (whole_class list lesson kind) → IsDone result
        → TellsCauses list lesson kind (F.files shelf.old)
        (Rose (F.faults shelf.old) (F.faults shelf.new))
        (λ told. K.written out.new ≡ appended (K.written out.old) told.bytes) }
    ensures named_causes { (names : List (List ℕ)) → (lesson : Option (List ℕ))
        → (kind : FileKind) → asked (texts words.now) ≡ Some (whole_files names lesson kind)
        → IsDone result → TellsNamedCauses names lesson kind (F.files shelf.old)
        (Rose (F.faults shelf.old) (F.faults shelf.new))
        (λ told. K.written out.new ≡ appended (K.written out.old) told.bytes) }

    // Where nothing fails, the work is done or a file refused.
    ensures complete { (task : Task) → asked (texts words.now) ≡ Some task → (bytes : List (List ℕ))
        → AllHave (F.files shelf.old) (names_in task) bytes → AreThere (F.files shelf.old)
        (names_within task bytes) → (Rose (F.faults shelf.old) (F.faults shelf.new) → ⊥)
        → (Rose (K.faults out.old) (K.faults out.new) → ⊥) → IsDone result
        ⊎ ((result ≡ code_of Status.Refused) ⊎ (result ≡ code_of Status.OutOfMemory)) }

    // Nothing is written to standard output where the run stops before.
    ensures unwritten { IsStopped result → K.written out.new ≡ K.written out.old }

    // Standard error gets the line of the status, or a front of it where it fails.
    ensures silent { IsDone result → E.written err.new ≡ E.written err.old }
    ensures usage_line { result ≡ code_of Status.Usage
        → Gets E.written E.faults E.serves err.old err.new (fux_line (codes "usage")) }
    ensures unwritable_line { result ≡ code_of Status.Unwritable
        → Gets E.written E.faults E.serves err.old err.new (fux_line (codes "cannot write")) }
    ensures memory_line { result ≡ code_of Status.OutOfMemory
        → Gets E.written E.faults E.serves err.old err.new (fux_line (codes "out of memory")) }

    // Of each file of the command at most a byte beyond its limit is read, and of words of no form
    // nothing.
    ensures little { (task : Task) → asked (texts words.now) ≡ Some task
        → ReadsLittle task (F.files shelf.old) (F.given shelf.old) (F.given shelf.new) }
    ensures unread { asked (texts words.now) ≡ None → F.given shelf.new ≡ F.given shelf.old }

    // Of a certificate that is refused, no more is read than a piece, 65,536 bytes, beyond the line
    // by which it is; the line of the verdict on it is what is written.
    ensures near { (task : Task) → asked (texts words.now) ≡ Some task → IsDone result
        → StopsNear task (F.files shelf.old) (F.given shelf.old) (F.given shelf.new)
        (λ line. K.written out.new ≡ appended (K.written out.old) line) }

    ensures files { F.files shelf.new ≡ F.files shelf.old }
{
    let ended = outcome(rt, alloc, words, shelf, out);
    conclude(&ended, err).code()
}

/// Does what the words ask for.
fn outcome<'a, F: Shelf, K: Sink, R: Threads + Sync>(
    rt: &R,
    alloc: Global,
    words: &'a [String],
    shelf: &mut F,
    out: &mut K,
) -> Result<Verdict, Complaint<'a>>
    ensures ended { EndsOn F.files F.faults K.written K.faults K.serves (EndedBy words.entry.now)
        shelf.old shelf.new out.old out.new result }
    ensures served { (task : Task) → asked (texts words.now) ≡ Some task
        → ServesTask (F.serves shelf.old) (F.files shelf.old) task → IfErr result BlamesNoFile }
    ensures blamed { (task : Task) → asked (texts words.now) ≡ Some task
        → IfErr result (Blames (IsUnserved (F.serves shelf.old) (F.files shelf.old) task)) }
    ensures little { (task : Task) → asked (texts words.now) ≡ Some task
        → ReadsLittle task (F.files shelf.old) (F.given shelf.old) (F.given shelf.new) }
    ensures unread { asked (texts words.now) ≡ None → F.given shelf.new ≡ F.given shelf.old }
    ensures near { (task : Task) → asked (texts words.now) ≡ Some task
        → OnOk result (StopsNear task (F.files shelf.old) (F.given shelf.old) (F.given shelf.new)
        (λ line. K.written out.new ≡ appended (K.written out.old) line)) }
    ensures causes { (task : Task) → asked (texts words.now) ≡ Some task
        → IsOfCauses task (F.files shelf.old) (Rose (F.faults shelf.old) (F.faults shelf.new))
        (λ verdict told. K.written out.new ≡ appended (K.written out.old) told.bytes) result }
    ensures files { F.files shelf.new ≡ F.files shelf.old }
{
    match parse(alloc, words) {
        Ok(Some(command)) => perform(rt, alloc, command, shelf, out),
        Ok(None) => Err(Complaint::Usage),
        Err(Memory) => Err(Complaint::OutOfMemory),
    }
}

/// Writes the line of a complaint, if there is one.
fn conclude<E: Sink>(ended: &Result<Verdict, Complaint<'_>>, err: &mut E) -> Status
    ensures status { result ≡ result_status ended.now }
    ensures line { Gets E.written E.faults E.serves err.old err.new (result_line ended.now) }
{
    match ended {
        Ok(verdict) => Status::from(*verdict),
        Err(complaint) => report(complaint, err),
    }
}
