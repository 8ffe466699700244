//! The command `fromsmf`.

ghost use Rattle.std.specs.Prelude.{◌≡◌, ℕ, IfOk, List};
ghost use Rattle.fux_grid.specs.Exercises.{IsValid};
ghost use Rattle.fux_text.specs.Lines.{note_text};
ghost use Rattle.smf_score.specs.Heads.{IsHead};
ghost use Rattle.works.specs.Played.{ReadsMidi};
ghost use Rattle.class_marker.specs.Markings.{IsContent};
ghost use Rattle.works.specs.Works.{Answers};

use crate::refusal::Refusal;
use crate::work::{Output, Stop, Verdict};
use class_marker::Text;
use fux_grid::{Exercise, Head};
use fux_pitch::Memory;
use fux_text::write;
use smf_bytes::ByteFault;
use smf_score::SmfFault;
use std::alloc::Global;

/// The greatest length of a MIDI file, in bytes.
pub const LONGEST_MIDI: usize = 1_048_576;

/// What is said of a longer one.
const TOO_LONG: SmfFault = SmfFault::Bytes(ByteFault::TooLong);

/// The note text of the exercise that a MIDI file is, with its setting.
pub fn from_smf(alloc: Global, file: &Text, head: &Head) -> Result<Output, Stop>
    requires { IsHead head.now }
    ensures { (bytes : List ℕ) → IsContent 1048576 file.now bytes
        → Answers (ReadsMidi head.now bytes) result }
{
    let Text::Bytes(bytes) = file else {
        return Err(Stop::Refused(Refusal::Midi { fault: TOO_LONG }));
    };
    match smf_score::from_smf(alloc, bytes, head) {
        Ok(exercise) => Ok(text_output(alloc, &exercise)?),
        Err(fault) => match fault {
            SmfFault::Memory => Err(Stop::Memory),
            fault => Err(Stop::Refused(Refusal::Midi { fault })),
        },
    }
}

/// The note text of an exercise, with its setting where it has one.
fn text_output(alloc: Global, exercise: &Exercise) -> Result<Output, Memory>
    requires { IsValid exercise.now }
    ensures { IfOk result (λ output. output ≡ record {
      verdict = Verdict.Favorable;
      bytes = note_text exercise.now exercise.now.setting;
    }) }
{
    let text = write(alloc, exercise, exercise.setting.as_ref())?;
    Ok(Output::of_text(Verdict::Favorable, text))
}
