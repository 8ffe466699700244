//! The row of a written note or rest.

ghost use Rattle.std.specs.Prelude.{◌≡◌, ◌++◌, ◌<◌, OnOk, string_bytes};
ghost use Rattle.fux_pitch.specs.Pitch.{alter_of};
ghost use Rattle.written_notes.specs.NoteRows.{alter_element, beam_element, duration_element, if_shown, is_tied, note_row, notations, octave_element, pitch_element, rest_element, sign_element, sounding, step_name, tie_elements, type_element, type_name};

use crate::bar::Written;
use crate::beams::{Beam, beam_of};
use crate::marks::{SheetMark, Spot, is_red};
use crate::signs::Sign;
use crate::values::Base;
use fux_pitch::{Memory, Pitch};
use std::fmt::Write;

/// Appends a text, where it is shown.
pub(crate) fn put_if(out: &mut String, shown: bool, text: &str) -> Result<(), Memory>
    ensures { OnOk result (string_bytes out.new ≡ string_bytes out.old ++ if_shown shown text.now) }
{
    if shown {
        out.push_str(text)?;
    }
    Ok(())
}

/// The name of the letter of a degree.
fn step_name(degree: u8) -> &'static str
    ensures { result.now ≡ step_name degree }
{
    match degree % 7 {
        0 => "C",
        1 => "D",
        2 => "E",
        3 => "F",
        4 => "G",
        5 => "A",
        _ => "B",
    }
}

/// The element of a pitch's alteration.
fn alter_element(pitch: Pitch) -> &'static str
    ensures { result.now ≡ alter_element (alter_of pitch) }
{
    match pitch.alter() {
        1 => "<alter>1</alter>",
        -1 => "<alter>-1</alter>",
        _ => "",
    }
}

/// Appends the element of the octave of a degree.
#[tactic(auto, unfolding(crate::specs::NoteRows::octave_element))]
fn put_octave(out: &mut String, degree: u8) -> Result<(), Memory>
    ensures { OnOk result (string_bytes out.new ≡ string_bytes out.old ++ octave_element degree) }
{
    let octave = degree / 7;
    write!(out, "<octave>{octave}</octave>")?;
    Ok(())
}

/// Appends the element of a pitch.
#[tactic(auto, unfolding(crate::specs::NoteRows::pitch_element))]
fn put_pitch(out: &mut String, pitch: Pitch) -> Result<(), Memory>
    ensures { OnOk result (string_bytes out.new ≡ string_bytes out.old ++ pitch_element pitch) }
{
    let degree = pitch.degree();
    out.push_str("<pitch><step>")?;
    out.push_str(step_name(degree))?;
    out.push_str("</step>")?;
    out.push_str(alter_element(pitch))?;
    put_octave(out, degree)?;
    out.push_str("</pitch>")?;
    Ok(())
}

/// The element of a rest of so many slots.
fn rest_element(slots: u8) -> &'static str
    ensures { result.now ≡ rest_element slots }
{
    if slots == 8 {
        "<rest measure=\"yes\"/>"
    } else {
        "<rest/>"
    }
}

/// Appends the element of what sounds.
fn put_sounding(out: &mut String, note: &Written) -> Result<(), Memory>
    ensures { OnOk result (string_bytes out.new ≡ string_bytes out.old ++ sounding note.now) }
{
    match note.pitch {
        Some(pitch) => put_pitch(out, pitch)?,
        None => out.push_str(rest_element(note.slots))?,
    }
    Ok(())
}

/// Appends the elements of a note's ties.
#[tactic(auto, unfolding(crate::specs::NoteRows::tie_elements))]
fn put_ties(out: &mut String, note: &Written) -> Result<(), Memory>
    ensures { OnOk result (string_bytes out.new ≡ string_bytes out.old ++ tie_elements note.now) }
{
    put_if(out, note.tie_in, "<tie type=\"stop\"/>")?;
    put_if(out, note.tie_out, "<tie type=\"start\"/>")?;
    Ok(())
}

/// The name of a base.
fn type_name(base: Base) -> &'static str
    ensures { result.now ≡ type_name base }
{
    match base {
        Base::Whole => "whole",
        Base::Half => "half",
        Base::Quarter => "quarter",
        Base::Eighth => "eighth",
    }
}

/// Appends the elements of a note's value. A rest that fills the bar has none.
#[tactic(auto, unfolding(crate::specs::NoteRows::value_elements))]
fn put_type(out: &mut String, note: &Written) -> Result<(), Memory>
    ensures { OnOk result (string_bytes out.new ≡ string_bytes out.old ++ type_element note.now) }
{
    if note.pitch.is_none() && note.slots == 8 {
        return Ok(());
    }
    let name = type_name(note.value.base);
    write!(out, "<type>{name}</type>")?;
    put_if(out, note.value.dots > 0, "<dot/>")?;
    put_if(out, note.value.dots > 1, "<dot/>")
}

/// The element of a sign.
fn sign_element(sign: Sign) -> &'static str
    ensures { result.now ≡ sign_element sign }
{
    match sign {
        Sign::Plain => "",
        Sign::Sharp => "<accidental>sharp</accidental>",
        Sign::Flat => "<accidental>flat</accidental>",
        Sign::Natural => "<accidental>natural</accidental>",
    }
}

/// The element of a beam.
fn beam_element(beam: Beam) -> &'static str
    ensures { result.now ≡ beam_element beam }
{
    match beam {
        Beam::Without => "",
        Beam::Begins => "<beam number=\"1\">begin</beam>",
        Beam::Ends => "<beam number=\"1\">end</beam>",
    }
}

/// Whether a tie goes into a note, or out of it.
#[tactic(auto, unfolding(crate::specs::NoteRows::is_tied))]
fn is_tied(note: &Written) -> bool
    ensures { result ≡ is_tied note.now }
{
    note.tie_in || note.tie_out
}

/// Appends the notations of a note's ties.
#[tactic(auto, unfolding(crate::specs::NoteRows::notations))]
fn put_notations(out: &mut String, note: &Written) -> Result<(), Memory>
    ensures { OnOk result (string_bytes out.new ≡ string_bytes out.old ++ notations note.now) }
{
    let tied = is_tied(note);
    put_if(out, tied, "<notations>")?;
    put_if(out, note.tie_in, "<tied type=\"stop\"/>")?;
    put_if(out, note.tie_out, "<tied type=\"start\"/>")?;
    put_if(out, tied, "</notations>")?;
    Ok(())
}

/// Appends the element of so many slots.
#[tactic(auto, unfolding(crate::specs::NoteRows::duration_element))]
fn put_duration(out: &mut String, slots: u8) -> Result<(), Memory>
    ensures { OnOk result (string_bytes out.new ≡ string_bytes out.old ++ duration_element slots) }
{
    write!(out, "<duration>{slots}</duration>")?;
    Ok(())
}

/// Appends the row of one of a bar's written notes.
#[tactic(auto, unfolding(crate::specs::NoteRows::note_row))]
pub fn put_note(
    out: &mut String,
    notes: &[Written],
    marks: &[SheetMark],
    spot: &Spot,
) -> Result<(), Memory>
    requires { spot.now.voice < 8 }
    ensures { OnOk result (string_bytes out.new ≡ string_bytes out.old
        ++ note_row notes.now marks.now spot.now) }
{
    let note = &spot.note;
    let red = is_red(marks, spot);
    out.push_str("<note")?;
    put_if(out, red, " color=\"#C00000\"")?;
    out.push_str(">")?;
    put_sounding(out, note)?;
    put_duration(out, note.slots)?;
    put_ties(out, note)?;
    out.push_str("<voice>1</voice>")?;
    put_type(out, note)?;
    out.push_str(sign_element(note.sign))?;
    put_if(out, red, "<notehead color=\"#C00000\">normal</notehead>")?;
    out.push_str(beam_element(beam_of(notes, note)))?;
    put_notations(out, note)?;
    out.push_str("</note>\n")?;
    Ok(())
}
