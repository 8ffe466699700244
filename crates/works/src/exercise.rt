//! The exercise of a text.

ghost use Rattle.std.specs.Prelude.{◌≡◌, ℕ, IfOk, List, None};
ghost use Rattle.fux_grid.specs.Exercises.{IsValid};
ghost use Rattle.class_marker.specs.Markings.{IsContent};
ghost use Rattle.works.specs.Texts.{ReadsText};

use crate::refusal::Refusal;
use crate::work::Stop;
use class_marker::Text;
use fux_grid::Exercise;
use fux_text::{TextFault, TextKind, read};
use std::alloc::Global;

/// The greatest length of a text, in bytes.
pub const LONGEST_TEXT: usize = 65_536;

/// What is said of a longer one.
const TOO_LONG: Refusal = Refusal::Text {
    kind: TextKind::TooLong,
    line: 1,
    column: 1,
};

/// The exercise whose text this is.
pub fn exercise_of(alloc: Global, text: &Text) -> Result<Exercise<'static>, Stop>
    ensures reads { (bytes : List ℕ) → IsContent 65536 text.now bytes → ReadsText bytes result }
    ensures valid { IfOk result IsValid }
    ensures unmixed { IfOk result (λ exercise. exercise.mixed ≡ None) }
{
    let Text::Bytes(bytes) = text else {
        return Err(Stop::Refused(TOO_LONG));
    };
    match read(alloc, bytes) {
        Ok(exercise) => Ok(exercise),
        Err(TextFault::At { kind, line, column }) => Err(Stop::Refused(Refusal::Text {
            kind,
            line,
            column,
        })),
        Err(TextFault::Memory) => Err(Stop::Memory),
    }
}
