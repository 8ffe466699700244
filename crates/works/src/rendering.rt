//! The commands `print`, `tosmf`, `toxml`, `markxml`, `picture` and `markpicture`.

ghost use Rattle.std.specs.Prelude.{◌≡◌, IfOk, length, nat_lt};
ghost use Rattle.fux_grid.specs.Exercises.{IsValid};
ghost use Rattle.works.specs.Marked.{marks_verdict};
ghost use Rattle.works.specs.Rendered.{MarksPicture, MarksXml, Pictures, Prints, ShowsMarks, WritesSmf, WritesXml, shown_penalty as penalty_shown};
ghost use Rattle.works.specs.Works.{Answers};

use crate::charging::penalty_of;
use crate::refusal::Refusal;
use crate::work::{Output, Stop, Verdict};
use class_marker::shown_marks;
use fux_grid::Exercise;
use fux_pitch::Memory;
use penalty_sheet::Sheet;
use score_marker::{Mark, marks};
use score_picture::picture;
use score_print::print_wrapped;
use std::alloc::Global;
use written_notes::score_xml;

/// The printed score of an exercise: of its setting, or without one of the sheet to hand out; in
/// systems where a width is given.
pub fn print(alloc: Global, ex: &Exercise, wrap: Option<u32>) -> Result<Output, Stop>
    requires { IsValid ex.now }
    ensures { Answers (Prints wrap ex.now) result }
{
    let text = match wrap {
        Some(columns) => print_wrapped(alloc, ex, columns)?,
        None => score_print::print(alloc, ex)?,
    };
    Ok(Output::of_text(Verdict::Favorable, text))
}

/// The MIDI file of the setting of an exercise.
pub fn to_smf(alloc: Global, ex: &Exercise) -> Result<Output, Stop>
    requires { IsValid ex.now }
    ensures { Answers (WritesSmf ex.now) result }
{
    match &ex.setting {
        Some(score) => Ok(Output::of_bytes(
            Verdict::Favorable,
            smf_score::to_smf(alloc, ex, score)?,
        )),
        None => Err(Stop::Refused(Refusal::NoSetting)),
    }
}

/// The MusicXML document of an exercise: of its setting, or without one of the sheet to fill in.
pub fn to_xml(alloc: Global, ex: &Exercise) -> Result<Output, Stop>
    requires { IsValid ex.now }
    ensures { Answers (WritesXml ex.now) result }
{
    Ok(Output::of_text(Verdict::Favorable, score_xml(alloc, ex, ex, None)?))
}

/// What marks say, all in all.
pub fn verdict_of(marks: &[Mark]) -> Verdict
    ensures { result ≡ marks_verdict (nat_lt 0 (length marks.now)) }
{
    if marks.is_empty() {
        Verdict::Favorable
    } else {
        Verdict::Unfavorable
    }
}

/// The MusicXML document of an exercise, with the notes of these marks in red, and with the title of
/// the exercise by whose rules they are.
pub fn marked_document<'e>(
    alloc: Global,
    ex: &Exercise<'e>,
    rules: &Exercise<'e>,
    marks: &[Mark],
) -> Result<Output, Memory>
    requires { IsValid ex.now }
    ensures { IfOk result (ShowsMarks ex.now rules.now marks.now) }
{
    let shown = shown_marks(alloc, marks)?;
    let text = score_xml(alloc, ex, rules, Some(shown.as_slice()))?;
    Ok(Output::of_text(verdict_of(marks), text))
}

/// The MusicXML document of the setting of an exercise, with the notes of its marks in red.
pub fn mark_xml(alloc: Global, ex: &Exercise) -> Result<Output, Stop>
    requires { IsValid ex.now }
    ensures { Answers (MarksXml ex.now ex.now) result }
{
    let Some(score) = &ex.setting else {
        return Err(Stop::Refused(Refusal::NoSetting));
    };
    let marks = marks(alloc, ex, score)?;
    Ok(marked_document(alloc, ex, ex, marks.as_slice())?)
}

/// The penalty of the setting of an exercise over a sheet of weights, where it is wanted.
fn shown_penalty(ex: &Exercise, sheet: &Sheet, wanted: bool) -> Option<u64>
    requires { IsValid ex.now }
    ensures { result ≡ penalty_shown wanted sheet.now ex.now }
{
    if !wanted {
        return None;
    }
    match &ex.setting {
        Some(score) => Some(penalty_of(ex, sheet, score)),
        None => None,
    }
}

/// The picture of an exercise: of its setting, with its penalty over a sheet of weights where that
/// is wanted; or without one of the sheet to fill in.
pub fn to_picture(alloc: Global, ex: &Exercise, sheet: &Sheet, wanted: bool) -> Result<Output, Stop>
    requires { IsValid ex.now }
    ensures { Answers (Pictures wanted sheet.now ex.now) result }
{
    let penalty = shown_penalty(ex, sheet, wanted);
    let text = picture(alloc, ex, ex, None, penalty)?;
    Ok(Output::of_text(Verdict::Favorable, text))
}

/// The picture of the setting of an exercise, with the notes of its marks in red.
pub fn mark_picture(alloc: Global, ex: &Exercise) -> Result<Output, Stop>
    requires { IsValid ex.now }
    ensures { Answers (MarksPicture ex.now ex.now) result }
{
    let Some(score) = &ex.setting else {
        return Err(Stop::Refused(Refusal::NoSetting));
    };
    let marks = marks(alloc, ex, score)?;
    let shown = shown_marks(alloc, marks.as_slice())?;
    let text = picture(alloc, ex, ex, Some(shown.as_slice()), None)?;
    Ok(Output::of_text(verdict_of(marks.as_slice()), text))
}
