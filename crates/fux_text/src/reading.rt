//! Reading the note text.

ghost use Rattle.std.specs.Prelude.{IfOk};
ghost use Rattle.fux_grid.specs.Exercises.{IsGiven, IsValid};
ghost use Rattle.fux_grid.specs.Grid.{Grid};
ghost use Rattle.fux_grid.specs.declared.exercise.Exercise.{Exercise};
ghost use Rattle.text_lines.specs.Faults.{Gives};
ghost use Rattle.fux_text.specs.Reading.{exercise_in, setting_alone};
ghost use Rattle.fux_text.specs.Texts.{AreSingLinesOf, Finds, HasFault, HasSingFault, IsTextOf, TellsEach, TellsOnly};

use crate::fault::{TextFault, TextKind};
use crate::fitting::Asked;
use crate::given_lines::given_lines_in;
use crate::head::{head_in, version_line};
use crate::ranges::ranges_in;
use crate::relaxing::relaxes_in;
use crate::setting::{setting_in, sung_score};
use fux_grid::{Exercise, Score};
use fux_pitch::AnyList;
use std::alloc::Global;
use text_lines::Lines;

/// The exercise of a note text.
#[tactic(auto, unfolding(crate::specs::Reading::exercise_in, text_lines::specs::Tables::text_read, text_lines::specs::Tables::table_in))]
fn exercise_in(alloc: Global, bytes: &[u8]) -> Result<Exercise<'static>, TextFault>
    ensures { Gives (λ x. x) result (exercise_in bytes.now) }
{
    let text = Lines::of_text(bytes, TextKind::TooLong, TextKind::NotUtf8)?;
    let (version, text) = version_line(text)?;
    let (mut ex, text) = head_in(alloc, text)?;
    let (ranges, text) = ranges_in(alloc, text, &ex)?;
    let (relax, text) = relaxes_in(alloc, text, &ex)?;
    let (given, text) = given_lines_in(alloc, text, version, &ex)?;
    ex.given = AnyList::new(given);
    let (setting, _) = setting_in(alloc, text, &ex, Asked::Fitting)?;
    ex.ranges = AnyList::new(ranges);
    ex.relax = AnyList::new(relax);
    ex.setting = setting;
    Ok(ex)
}

/// The exercise of a note text of at most 65,536 bytes, or the first fault of the text.
pub fn read(alloc: Global, bytes: &[u8]) -> Result<Exercise<'static>, TextFault>
    // What is read is a valid exercise and has this text, and a fault is the text's first one.
    ensures ok { IfOk result (λ ex. IsTextOf bytes.now ex × IsValid ex) }
    ensures fault { TellsOnly result (HasFault bytes.now) }

    // A note text is read, and a text with a fault is answered by that fault, unless memory runs
    // out.
    ensures only { (ex : Exercise) → IsTextOf bytes.now ex → Finds result ex }
    ensures first { TellsEach result (HasFault bytes.now) }
{
    exercise_in(alloc, bytes)
}

/// The setting of an exercise in a text of its `sing` lines alone.
#[tactic(auto, unfolding(crate::specs::Reading::setting_alone, text_lines::specs::Tables::text_read))]
fn setting_alone(alloc: Global, ex: &Exercise, lines: &[u8]) -> Result<Score, TextFault>
    requires { IsValid ex.now }
    ensures { Gives (λ x. x) result (setting_alone ex.now lines.now) }
{
    let text = Lines::of_text(lines, TextKind::TooLong, TextKind::NotUtf8)?;
    let (score, _) = sung_score(alloc, text, ex, Asked::Nothing)?;
    Ok(score)
}

/// The setting of an exercise in a text of its `sing` lines alone, one for each free voice from the
/// lowest, or the first fault of the text.
pub fn read_sing(alloc: Global, ex: &Exercise, lines: &[u8]) -> Result<Score, TextFault>
    requires { IsValid ex.now }

    // What is read is a setting with the cantus and has these lines, and a fault is their first
    // one.
    ensures ok { IfOk result (λ score. AreSingLinesOf ex.now lines.now score
        × IsGiven ex.now score) }
    ensures fault { TellsOnly result (HasSingFault ex.now lines.now) }

    // Lines of a setting are read, and lines with a fault are answered by that fault, unless memory
    // runs out.
    ensures only { (score : Grid) → AreSingLinesOf ex.now lines.now score → Finds result score }
    ensures first { TellsEach result (HasSingFault ex.now lines.now) }
{
    setting_alone(alloc, ex, lines)
}
