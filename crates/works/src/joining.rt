//! The command `joinsmf`.

ghost use Rattle.std.specs.Prelude.{◌≡◌, ℕ, IfErr, IfOk, List, Some};
ghost use Rattle.class_marker.specs.Markings.{IsContent};
ghost use Rattle.command_words.specs.Commands.{join_smf};
ghost use Rattle.fux_grid.specs.Exercises.{IsGiven, IsValid};
ghost use Rattle.fux_port.specs.Counts.{Rose};
ghost use Rattle.fux_text.specs.Lines.{note_text};
ghost use Rattle.works.specs.Blame.{Blames, BlamesNoFile, IsUnserved, ServesTask};
ghost use Rattle.works.specs.Endings.{IsMade};
ghost use Rattle.works.specs.Joined.{Joins, JoinsSmf};
ghost use Rattle.works.specs.Little.{ReadsLittle};
ghost use Rattle.works.specs.Works.{Answers};

use crate::answering::lesson_of;
use crate::complaint::Complaint;
use crate::content::read_content;
use crate::making::said;
use crate::playing::LONGEST_MIDI;
use crate::refusal::Refusal;
use crate::work::{Output, Stop, Verdict};
use class_marker::Text;
use fux_grid::{Exercise, Score};
use fux_pitch::Memory;
use fux_port::Shelf;
use fux_text::write;
use smf_bytes::ByteFault;
use smf_score::{JoinFault, Manner, SmfFault, join_smf};
use std::alloc::Global;

/// What is said of a MIDI file of more than 1,048,576 bytes.
const TOO_LONG: JoinFault = JoinFault::Smf(SmfFault::Bytes(ByteFault::TooLong));

/// The note text of a lesson with a setting.
fn text_output(alloc: Global, lesson: &Exercise, score: &Score) -> Result<Output, Memory>
    requires lesson { IsValid lesson.now }
    requires score { IsGiven lesson.now score.now }
    ensures { IfOk result (λ output. output ≡ record {
      verdict = Verdict.Favorable;
      bytes = note_text lesson.now (Some score.now);
    }) }
{
    let text = write(alloc, lesson, Some(score))?;
    Ok(Output::of_text(Verdict::Favorable, text))
}

/// The note text of a lesson with the setting that a MIDI file is.
fn joined(alloc: Global, lesson: &Exercise, file: &Text, manner: Manner) -> Result<Output, Stop>
    requires { IsValid lesson.now }
    ensures { (bytes : List ℕ) → IsContent 1048576 file.now bytes
        → Answers (Joins manner bytes lesson.now) result }
{
    let Text::Bytes(bytes) = file else {
        return Err(Stop::Refused(Refusal::Join { fault: TOO_LONG }));
    };
    match join_smf(alloc, lesson, bytes, manner) {
        Ok(score) => Ok(text_output(alloc, lesson, &score)?),
        Err(fault) => match fault {
            JoinFault::Smf(fault) => match fault {
                SmfFault::Memory => Err(Stop::Memory),
                fault => Err(Stop::Refused(Refusal::Join {
                    fault: JoinFault::Smf(fault),
                })),
            },
            fault => Err(Stop::Refused(Refusal::Join { fault })),
        },
    }
}

/// The same of the text of a lesson.
fn of_texts(alloc: Global, given: &Text, file: &Text, manner: Manner) -> Result<Output, Stop>
    ensures { (lessons bytes : List ℕ) → IsContent 1048576 given.now lessons
        → IsContent 1048576 file.now bytes → Answers (JoinsSmf manner lessons bytes) result }
{
    let lesson = lesson_of(alloc, given)?;
    joined(alloc, &lesson, file, manner)
}

/// The note text of the lesson in a file with the setting that the MIDI file in another is.
pub fn join<'a, F: Shelf>(
    alloc: Global,
    lesson: &'a str,
    name: &'a str,
    manner: Manner,
    shelf: &mut F,
) -> Result<Output, Complaint<'a>>
    ensures made { IsMade (join_smf lesson.entry.now name.entry.now manner)
        (F.files shelf.old) (Rose (F.faults shelf.old) (F.faults shelf.new)) result }
    ensures served { ServesTask (F.serves shelf.old) (F.files shelf.old)
        (join_smf lesson.entry.now name.entry.now manner) → IfErr result BlamesNoFile }
    ensures blamed { IfErr result (Blames (IsUnserved (F.serves shelf.old) (F.files shelf.old)
        (join_smf lesson.entry.now name.entry.now manner))) }
    ensures little { ReadsLittle (join_smf lesson.entry.now name.entry.now manner)
        (F.files shelf.old) (F.given shelf.old) (F.given shelf.new) }
    ensures files { F.files shelf.new ≡ F.files shelf.old }
{
    let given = read_content(alloc, shelf, lesson, LONGEST_MIDI)?;
    let file = read_content(alloc, shelf, name, LONGEST_MIDI)?;
    said(alloc, name, of_texts(alloc, &given, &file, manner))
}
