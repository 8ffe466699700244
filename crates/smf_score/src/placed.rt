//! The notes of a file by voices on the grid.

ghost use Rattle.std.specs.Prelude.{◌≡◌, ◌*◌, ◌<◌, ◌≤◌, ◌==◌, ◌^◌, length, All, IfOk, nat_lt};
ghost use Rattle.std.specs.List.{prefix_len};
ghost use Rattle.fux_pitch.specs.Spelling.{spelled};
ghost use Rattle.smf_score.specs.Faults.{Gives};
ghost use Rattle.smf_score.specs.Played.{IsPlayed};
ghost use Rattle.smf_score.specs.Ranges.{HaveNotes};
ghost use Rattle.smf_score.specs.Placing.{place_spelled, slot_of, voice_placed, voices_of, voices_placed};

use crate::fault::SmfFault;
use crate::played::Played;
use fux_pitch::{List, Pitch, spell};
use std::alloc::Global;

/// A note on the grid: the slot at which it starts and the one at which it has ended, both counted
/// from the beginning, and its pitch.
#[derive(Clone, Copy)]
pub struct Placed {
    pub start: u64,
    pub end: u64,
    pub pitch: Pitch,
}

/// The slot of a tick, where a quarter note has so many ticks: the nearest one, the later of two.
pub fn slot(division: u32, tick: u64) -> u64
    requires division { 0 < division }
    requires tick { tick < 2 ^ 48 }
    ensures { result ≡ slot_of division tick }
{
    let division = u64::from(division);
    (4 * tick + division) / (2 * division)
}

/// A note on the grid, of which the voice has ended at a slot before, or its fault.
fn place(division: u32, ended: u64, note: &Played) -> Result<Placed, SmfFault>
    requires division { 0 < division }
    requires note { IsPlayed note.now }
    ensures value { result ≡ place_spelled division (nat_lt (slot_of division note.now.start) ended)
        note.now (spelled note.now.key) }
    ensures end { IfOk result (λ placed. placed.end ≡ slot_of division note.now.end) }
{
    let track = note.track;
    let tick = note.start;
    let Some(pitch) = spell(note.key) else {
        return Err(SmfFault::Key { track, tick });
    };
    let start = slot(division, note.start);
    let end = slot(division, note.end);
    if end <= start {
        return Err(SmfFault::ZeroNote { track, tick });
    }
    if start < ended {
        return Err(SmfFault::Overlap { track, tick });
    }
    Ok(Placed { start, end, pitch })
}

/// The notes of a voice on the grid, or its first note at fault.
pub fn place_voice(alloc: Global, division: u32, notes: &[Played]) -> Result<Vec<Placed>, SmfFault>
    requires division { 0 < division }
    requires notes { All IsPlayed notes.now }
    ensures value { Gives (λ v. v.items) result (voice_placed division notes.now) }
    ensures each { IfOk result (λ v. length v.items ≡ length notes.now) }
{
    let mut places = Vec::new(alloc);
    let mut ended = 0;
    for note in notes {
        let placed = place(division, ended, note)?;
        ended = ended.max(placed.end);
        places.push(placed)?;
    }
    Ok(places)
}

/// How many of the first notes are of the voice of a rank.
pub fn run_of(notes: &[Played], rank: u16) -> usize
    ensures value { result ≡ prefix_len (λ note. note.rank == rank) notes.now }
    ensures within { result ≤ length notes.now }
{
    for i in 0..notes.len() {
        if notes[i].rank != rank {
            return i;
        }
    }
    notes.len()
}

/// The notes in order by voices on the grid, or the first note at fault.
pub fn places_of(
    alloc: Global,
    division: u32,
    notes: &[Played],
) -> Result<Vec<List<Placed>>, SmfFault>
    requires division { 0 < division }
    requires notes { All IsPlayed notes.now }
    ensures value { Gives (λ v. v.items) result (voices_placed division (voices_of notes.now)) }
    ensures notes { IfOk result (λ v. HaveNotes v.items) }
{
    let mut voices = Vec::new(alloc);
    let mut rest = notes;
    while let Some((first, others)) = rest.split_first() {
        let (own, later) = rest.split_at(1 + run_of(others, first.rank));
        let voice = place_voice(alloc, division, own)?;
        voices.push(List::new(voice))?;
        rest = later;
    }
    Ok(voices)
}
