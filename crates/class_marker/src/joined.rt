//! What is said of a MIDI file of a class.

ghost use Rattle.std.specs.Prelude.{◌≡◌, IfOk};
ghost use Rattle.fux_grid.specs.Exercises.{IsGiven, IsValid};
ghost use Rattle.class_marker.specs.Answers.{TellsAnswer};
ghost use Rattle.class_marker.specs.Sayings.{IsSaidJoined, IsSaidOfBytes, IsSaidOfFile, as_answer};

use crate::answer::{AnswerLines, answer_lines};
use crate::one::Text;
use crate::said::Said;
use fux_grid::{Exercise, Score};
use fux_pitch::Memory;
use smf_bytes::ByteFault;
use smf_score::{JoinFault, Manner, SmfFault, join_smf};
use std::alloc::Global;

/// What is said of a MIDI file of more than 1,048,576 bytes.
const TOO_LONG: JoinFault = JoinFault::Smf(SmfFault::Bytes(ByteFault::TooLong));

/// A lesson without a setting. It takes no memory.
fn as_answer<'a>(lesson: &'a Exercise<'_>) -> Exercise<'a>
    ensures value { result ≡ as_answer lesson.now }
    ensures valid { IsValid lesson.now → IsValid result }
{
    Exercise {
        mode: lesson.mode,
        voices: lesson.voices,
        bars: lesson.bars,
        species: lesson.species,
        species_voice: lesson.species_voice,
        mixed: lesson.mixed,
        cantus_voice: lesson.cantus_voice,
        cantus: lesson.cantus.lend(),
        ranges: lesson.ranges.lend(),
        relax: lesson.relax.lend(),
        given: lesson.given.lend(),
        setting: None,
    }
}

/// What is said of a setting of a lesson.
fn setting_lines(alloc: Global, lesson: &Exercise, score: &Score) -> Result<AnswerLines, Memory>
    requires lesson { IsValid lesson.now }
    requires given { IsGiven lesson.now score.now }
    ensures { IfOk result (TellsAnswer lesson.now (as_answer lesson.now) score.now) }
{
    let answer = as_answer(lesson);
    answer_lines(alloc, lesson, &answer, score)
}

/// What is said of a MIDI file by a lesson.
fn say_file(alloc: Global, lesson: &Exercise, file: &Text, manner: Manner) -> Result<Said, Memory>
    requires { IsValid lesson.now }
    ensures { IfOk result (IsSaidOfBytes (IsSaidJoined lesson.now manner) 1048576 file.now) }
{
    let Text::Bytes(bytes) = file else {
        return Ok(Said::Unjoined(TOO_LONG));
    };
    match join_smf(alloc, lesson, bytes, manner) {
        Ok(score) => Ok(Said::Told(setting_lines(alloc, lesson, &score)?)),
        Err(fault) => match fault {
            JoinFault::Smf(fault) => match fault {
                SmfFault::Memory => Err(Memory),
                fault => Ok(Said::Unjoined(JoinFault::Smf(fault))),
            },
            fault => Ok(Said::Unjoined(fault)),
        },
    }
}

/// What is said of a MIDI file by a lesson, where this was read of it.
pub fn say_joined(
    alloc: Global,
    lesson: &Exercise,
    found: &Option<Text>,
    manner: Manner,
) -> Result<Said, Memory>
    requires { IsValid lesson.now }
    ensures { IfOk result (IsSaidOfFile lesson.now manner found.now) }
{
    match found {
        None => Ok(Said::Unread),
        Some(file) => say_file(alloc, lesson, file, manner),
    }
}
