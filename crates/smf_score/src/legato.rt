//! Notes that are held to most of their places.

ghost use Rattle.std.specs.Prelude.{◌≡◌, ◌<◌, ◌^◌, All, IfOk, map};
ghost use Rattle.smf_score.specs.Played.{IsPlayed};
ghost use Rattle.smf_score.specs.Legato as words;
ghost use Rattle.smf_score.specs.Legato.{held_to, place_end};
ghost use Rattle.smf_score.specs.Tracks.{ArePlayed};

use crate::played::Played;
use fux_pitch::{List, Memory};
use std::alloc::Global;

/// Where the place of a note ends before these of its voice, where all ends at a tick.
fn place_end(over: u64, later: &[Played]) -> u64
    requires over { over < 2 ^ 48 }
    requires later { All IsPlayed later.now }
    ensures value { result ≡ place_end over later.now }
    ensures early { result < 2 ^ 48 }
{
    match later.split_first() {
        None => over,
        Some((next, _)) => next.start,
    }
}

/// A note whose place ends at a tick, held up to that if it is held to seven tenths of its place.
fn held_to(over: u64, note: Played) -> Played
    requires over { over < 2 ^ 48 }
    requires note { IsPlayed note }
    ensures value { result ≡ held_to over note }
    ensures played { IsPlayed result }
{
    let place = over.saturating_sub(note.start);
    let held = note.end.saturating_sub(note.start);
    if 7 * place <= 10 * held {
        Played {
            end: note.end.max(over),
            ..note
        }
    } else {
        note
    }
}

/// The notes of a voice, where all ends at a tick.
fn held_out(alloc: Global, over: u64, notes: &[Played]) -> Result<Vec<Played>, Memory>
    requires over { over < 2 ^ 48 }
    requires notes { All IsPlayed notes.now }
    ensures value { IfOk result (λ held. held.items ≡ words.held_out over notes.now) }
    ensures played { IfOk result (λ held. All IsPlayed held.items) }
{
    let mut held = Vec::new(alloc);
    let mut rest = notes;
    while let Some((note, later)) = rest.split_first() {
        held.push(held_to(place_end(over, later), *note))?;
        rest = later;
    }
    Ok(held)
}

/// Those of each voice.
pub(crate) fn all_held_out(
    alloc: Global,
    over: u64,
    voices: &[List<Played>],
) -> Result<Vec<List<Played>>, Memory>
    requires over { over < 2 ^ 48 }
    requires voices { ArePlayed voices.now }
    ensures value { IfOk result (λ held. held.items ≡ map (words.held_out over) voices.now) }
    ensures played { IfOk result (λ held. ArePlayed held.items) }
{
    let mut held = Vec::new(alloc);
    for voice in voices {
        held.push(List::new(held_out(alloc, over, voice.as_slice())?))?;
    }
    Ok(held)
}
