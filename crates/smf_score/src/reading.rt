//! A file as an exercise.

ghost use Rattle.fux_grid.specs.declared.exercise.Exercise.{Exercise as AnExercise};
ghost use Rattle.fux_grid.specs.declared.exercise.Head.{Head as AHead};
ghost use Rattle.smf_score.specs.declared.fault.SmfFault.{SmfFault as AFault};
ghost use Rattle.std.specs.Prelude.{ℕ, List, ◌≡◌, Result, ◌<◌, ◌^◌, All, IfOk, length};
ghost use Rattle.fux_grid.specs.Exercises.{IsValid};
ghost use Rattle.smf_bytes.specs.Events.{file_seen};
ghost use Rattle.smf_score.specs.Faults.{Gives};
ghost use Rattle.smf_score.specs.Played.{IsPlayed};
ghost use Rattle.smf_score.specs.Heads.{IsHead};
ghost use Rattle.smf_score.specs.Reading.{IsReading, OfFile, ReadsAs, exercise_of_notes};

use crate::exercise::exercise_of;
use crate::fault::SmfFault;
use crate::order::put_in_order;
use crate::placed::places_of;
use crate::played::{Layout, Played, notes_of};
use crate::strokes::strokes_of;
use fux_grid::{Exercise, Head};
use smf_bytes::{Events, open};
use std::alloc::Global;

/// The exercise of notes in order.
#[tactic(auto, unfolding(crate::specs::Reading::exercise_of_notes))]
fn read_notes(
    alloc: Global,
    head: &Head,
    division: u32,
    notes: &[Played],
) -> Result<Exercise<'static>, SmfFault>
    requires head { IsHead head.now }
    requires division { 0 < division }
    requires notes { All IsPlayed notes.now }
    ensures value { Gives (λ ex. ex) result (exercise_of_notes head.now division notes.now) }
    ensures valid { IfOk result IsValid }
{
    let voices = places_of(alloc, division, notes)?;
    exercise_of(alloc, head, &voices)
}

/// The exercise of the events of a file.
fn read_events(
    alloc: Global,
    head: &Head,
    events: &mut Events<'_>,
) -> Result<Exercise<'static>, SmfFault>
    requires head { IsHead head.now }
    requires ticks { 0 < events.old.header.division }
    ensures value { ReadsAs result (OfFile head.now (file_seen events.old)) }
    ensures valid { IfOk result IsValid }
{
    let layout = Layout {
        format: events.format(),
        top_first: head.top_first,
    };
    let division = u32::from(events.division());
    let strokes = strokes_of(alloc, events)?;
    let mut notes = notes_of(alloc, layout, &strokes)?;
    put_in_order(&mut notes)?;
    read_notes(alloc, head, division, &notes)
}

/// The exercise of a MIDI file, with its notes as the setting, or the first fault of the file.
/// `top_first` of the head says that the first track, or channel, is the highest voice.
pub fn from_smf(alloc: Global, bytes: &[u8], head: &Head) -> Result<Exercise<'static>, SmfFault>
    requires { IsHead head.now }
    ensures value { ReadsAs result (IsReading head.now bytes.now) }
    ensures valid { IfOk result IsValid }
{
    let mut events = open(bytes)?;
    read_events(alloc, head, &mut events)
}

/// The bytes of a file have one reading.
pub fn one_reading()
    ensures { (head : AHead) (bytes : List ℕ) (a b : Result AnExercise AFault) →
        IsReading head bytes a → IsReading head bytes b → a ≡ b }
{}
