//! What the events of a file do to its notes.

ghost use Rattle.std.specs.Prelude.{◌≡◌, All, IfOk, IfSome};
ghost use Rattle.smf_bytes.specs.Events.{IsWithinBounds, TakesFirst, timed_seen, to_come};
ghost use Rattle.smf_score.specs.Faults.{Gives};
ghost use Rattle.smf_score.specs.Strokes.{IsStroke, stroke_of, strokes_in};

use crate::fault::SmfFault;
use smf_bytes::{ByteFault, Event, Events, Kind};
use std::alloc::Global;

/// What an event does to the notes of its track.
#[derive(Clone, Copy)]
pub enum Act {
    /// It strikes a key, and so ends the note before of this channel and key.
    Strike { channel: u8, key: u8 },
    /// It ends the note of this channel and key.
    Release { channel: u8, key: u8 },
    /// It ends all notes of its track.
    End,
    /// It leaves the notes alone.
    Nothing,
}

/// An event as what it does, with its track and its time.
#[derive(Clone, Copy)]
pub struct Stroke {
    pub track: u16,
    pub tick: u64,
    pub act: Act,
}

/// What an event does. A key that is struck with velocity 0 is let go.
pub fn stroke_of_event(event: Event<'_>) -> Stroke
    requires { IsWithinBounds event }
    ensures value { result ≡ stroke_of (timed_seen event.entry) }
    ensures bounds { IsStroke result }
{
    let act = match event.kind {
        Kind::Off { channel, key } => Act::Release { channel, key },
        Kind::On {
            channel,
            key,
            velocity: 0,
        } => Act::Release { channel, key },
        Kind::On { channel, key, .. } => Act::Strike { channel, key },
        Kind::Other { .. } => Act::Nothing,
        Kind::Meta { number, .. } => {
            if number == 0x2F {
                Act::End
            } else {
                Act::Nothing
            }
        }
        Kind::System { .. } => Act::Nothing,
    };
    Stroke {
        track: event.track,
        tick: event.tick,
        act,
    }
}

/// The next event, or the fault that stands in its place.
pub fn next_event<'a>(events: &mut Events<'a>) -> Option<Result<Event<'a>, ByteFault>>
    ensures first { TakesFirst (to_come events.old) result (to_come events.new) }
    ensures bounds { IfSome result (λ answer. IfOk answer IsWithinBounds) }
{
    events.next()
}

/// The events that are still to come as what they do.
pub(crate) fn strokes_of(alloc: Global, events: &mut Events<'_>) -> Result<Vec<Stroke>, SmfFault>
    ensures value { Gives (λ v. v.items) result (strokes_in (to_come events.old)) }
    ensures bounds { IfOk result (λ v. All IsStroke v.items) }
{
    let mut strokes = Vec::new(alloc);
    while let Some(answer) = next_event(events) {
        strokes.push(stroke_of_event(answer?))?;
    }
    Ok(strokes)
}
