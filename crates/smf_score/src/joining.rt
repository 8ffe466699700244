//! A file as an answer to a lesson.

ghost use Rattle.std.specs.Prelude.{◌≡◌, ◌<◌, ◌++◌, All, IfOk, OnOk};
ghost use Rattle.std.specs.Option.{option_to_list};
ghost use Rattle.fux_grid.specs.Exercises.{IsGiven, IsValid};
ghost use Rattle.smf_bytes.specs.Events.{file_seen, to_come};
ghost use Rattle.smf_score.specs.Faults as scores;
ghost use Rattle.smf_score.specs.Played.{IsPlayed};
ghost use Rattle.smf_score.specs.Strokes.{IsStroke, strokes_in};
ghost use Rattle.smf_score.specs.JoinFaults.{Gives};
ghost use Rattle.smf_score.specs.Meters.{signatures_in};
ghost use Rattle.smf_score.specs.Joining.{IsJoined, OfFile, ReadsAs, joined_notes};

use crate::fault::SmfFault;
use crate::join_fault::JoinFault;
use crate::joined::joined;
use crate::manner::Manner;
use crate::meters::{Signature, meter_of, signature_of};
use crate::order::put_in_order;
use crate::played::{Layout, Played, notes_of};
use crate::staves::voices_heard;
use crate::strokes::{Stroke, next_event, stroke_of_event};
use fux_grid::{Exercise, Score};
use smf_bytes::{Events, open};
use std::alloc::{AllocError, Global};

/// What the events of a file do to its notes, and its time signatures.
#[derive(Drop)]
struct Heard {
    strokes: Vec<Stroke>,
    signatures: Vec<Signature>,
}

/// Appends a signature, if there is one.
fn push_some(
    signatures: &mut Vec<Signature>,
    signature: Option<Signature>,
) -> Result<(), AllocError>
    ensures { OnOk result (signatures.new.items ≡ signatures.old.items
        ++ option_to_list signature) }
{
    if let Some(signature) = signature {
        signatures.push(signature)?;
    }
    Ok(())
}

/// What the events do that are still to come, and the signatures among them.
fn heard_of(alloc: Global, events: &mut Events<'_>) -> Result<Heard, SmfFault>
    ensures strokes { scores.Gives (λ h. h.strokes.items) result
        (strokes_in (to_come events.old)) }
    ensures signatures { IfOk result (λ h. h.signatures.items
        ≡ signatures_in (to_come events.old)) }
    ensures bounds { IfOk result (λ h. All IsStroke h.strokes.items) }
{
    let mut strokes = Vec::new(alloc);
    let mut signatures = Vec::new(alloc);
    while let Some(answer) = next_event(events) {
        let event = answer?;
        push_some(&mut signatures, signature_of(event))?;
        strokes.push(stroke_of_event(event))?;
    }
    Ok(Heard {
        strokes,
        signatures,
    })
}

/// The answer of notes in order.
#[tactic(auto, unfolding(crate::specs::Joining::joined_notes))]
fn read_notes(
    alloc: Global,
    lesson: &Exercise,
    legato: bool,
    division: u32,
    notes: &[Played],
) -> Result<Score, JoinFault>
    requires lesson { IsValid lesson.now }
    requires division { 0 < division }
    requires notes { All IsPlayed notes.now }
    ensures value { Gives result (joined_notes lesson.now legato division
        notes.now) }
    ensures given { IfOk result (IsGiven lesson.now) }
{
    let voices = voices_heard(alloc, lesson, legato, division, notes)?;
    joined(alloc, lesson, &voices)
}

/// The answer of the events of a file.
fn read_events(
    alloc: Global,
    lesson: &Exercise,
    manner: Manner,
    events: &mut Events<'_>,
) -> Result<Score, JoinFault>
    requires lesson { IsValid lesson.now }
    requires ticks { 0 < events.old.header.division }
    ensures value { ReadsAs result (OfFile lesson.now manner (file_seen events.old)) }
    ensures given { IfOk result (IsGiven lesson.now) }
{
    let layout = Layout {
        format: events.format(),
        top_first: manner.top_first,
    };
    let division = events.division();
    let heard = heard_of(alloc, events)?;
    let wholes = meter_of(division, &heard.signatures)?;
    let mut notes = notes_of(alloc, layout, &heard.strokes)?;
    put_in_order(&mut notes)?;
    let division = wholes * u32::from(division);
    read_notes(alloc, lesson, manner.legato, division, &notes)
}

/// The setting of a lesson that a MIDI file is which was played in a manner, or the first fault of
/// the file. The cantus firmus is found where it sounds in one voice of the file; where it isn't,
/// the first track, or channel, is the lowest voice, or the highest if `manner` says so. Voices
/// that share a track are told apart where they are as many as the lesson has.
pub fn join_smf(
    alloc: Global,
    lesson: &Exercise,
    bytes: &[u8],
    manner: Manner,
) -> Result<Score, JoinFault>
    requires { IsValid lesson.now }
    ensures value { ReadsAs result (IsJoined lesson.now manner bytes.now) }
    ensures given { IfOk result (IsGiven lesson.now) }
{
    let mut events = open(bytes)?;
    read_events(alloc, lesson, manner, &mut events)
}
