//! Placed notes as an exercise with its setting.

ghost use Rattle.std.specs.Prelude.{◌≡◌, ◌+◌, ◌<◌, ◌≤◌, IfOk, length};
ghost use Rattle.smf_score.specs.Faults.{Gives};
ghost use Rattle.fux_grid.specs.Exercises.{IsValid};
ghost use Rattle.smf_score.specs.Ranges.{HaveNotes};
ghost use Rattle.smf_score.specs.Heads.{IsHead};
ghost use Rattle.smf_score.specs.Exercise.{bars_in, exercise_in, last_end, last_slot, voices_in};

use crate::cantus::cantus_of;
use crate::fault::SmfFault;
use crate::grid::{line_of, lines_of};
use crate::placed::Placed;
use crate::ranges::ranges_of;
use fux_grid::{Exercise, Head};
use fux_pitch::{AnyList, List};
use std::alloc::Global;
use voice_lines::score_of;

/// The slot at which the last note of a voice has ended.
fn last_end(notes: &[Placed]) -> u64
    ensures { result ≡ last_end notes.now }
{
    let mut last = 0;
    let mut i = notes.len();
    while i > 0 {
        i -= 1;
        last = last.max(notes[i].end);
    }
    last
}

/// The slot at which the last note of all has ended.
pub fn last_slot(voices: &[List<Placed>]) -> u64
    ensures { result ≡ last_slot voices.now }
{
    let mut last = 0;
    let mut i = voices.len();
    while i > 0 {
        i -= 1;
        last = last.max(last_end(voices[i].as_slice()));
    }
    last
}

/// How many bars there are, the last one whole.
fn bars_of(voices: &[List<Placed>]) -> Result<u8, SmfFault>
    ensures value { result ≡ bars_in voices.now }
    ensures fewest { IfOk result (λ bars. 3 ≤ bars) }
    ensures most { IfOk result (λ bars. bars ≤ 24) }
{
    let last = last_slot(voices);
    let count = last / 8 + u64::from(last % 8 > 0);
    if count < 3 || count > 24 {
        return Err(SmfFault::Bars { count });
    }
    Ok(count as u8)
}

/// How many voices there are, with the cantus and the species voice among them.
fn voices_of(head: &Head, voices: u64) -> Result<u8, SmfFault>
    ensures value { result ≡ voices_in head.now voices }
    ensures fewest { IfOk result (λ count. 2 ≤ count) }
    ensures most { IfOk result (λ count. count ≤ 4) }
    ensures all { IfOk result (λ count. count ≡ voices) }
    ensures cantus { IfOk result (λ count. head.now.cantus_voice < voices) }
    ensures species { IfOk result (λ count. head.now.species_voice < voices) }
{
    let named = u64::from(head.cantus_voice) < voices && u64::from(head.species_voice) < voices;
    if voices < 2 || voices > 4 || !named {
        return Err(SmfFault::VoiceCount {
            count: voices.min(65535) as u16,
        });
    }
    Ok(voices as u8)
}

/// The exercise of the notes of voices, with them as its setting.
#[tactic(auto, unfolding(crate::specs::Exercise::exercise_in))]
pub(crate) fn exercise_of(
    alloc: Global,
    head: &Head,
    notes: &[List<Placed>],
) -> Result<Exercise<'static>, SmfFault>
    requires head { IsHead head.now }
    requires notes { HaveNotes notes.now }
    ensures value { Gives (λ ex. ex) result (exercise_in head.now notes.now) }
    ensures valid { IfOk result IsValid }
{
    let voices = voices_of(head, notes.len() as u64)?;
    let bars = bars_of(notes)?;
    let lines = lines_of(alloc, notes, bars)?;
    let cantus = cantus_of(alloc, line_of(&lines, head.cantus_voice), bars)?;
    let ranges = ranges_of(alloc, head.cantus_voice, notes)?;
    let setting = score_of(alloc, &lines, bars)?;
    Ok(Exercise {
        mode: head.mode,
        voices,
        bars,
        species: head.species,
        species_voice: head.species_voice,
        mixed: None,
        cantus_voice: head.cantus_voice,
        cantus: AnyList::new(cantus),
        ranges: AnyList::new(ranges),
        relax: AnyList::new(Vec::new(alloc)),
        given: AnyList::new(Vec::new(alloc)),
        setting: Some(setting),
    })
}
