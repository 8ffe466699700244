//! The voices of a file on the grid.

ghost use Rattle.std.specs.Prelude.{◌≡◌, ◌*◌, ◌<◌, ◌^◌, All, IfOk};
ghost use Rattle.fux_grid.specs.Exercises.{IsValid};
ghost use Rattle.smf_score.specs.Faults.{Gives};
ghost use Rattle.smf_score.specs.Placing.{voices_placed};
ghost use Rattle.smf_score.specs.Played.{IsPlayed};
ghost use Rattle.smf_score.specs.Staves as words;
ghost use Rattle.smf_score.specs.Staves.{are_shared, is_in_place, placed_apart, placed_held, placed_tracks, upright};
ghost use Rattle.smf_score.specs.Tracks.{ArePlayed};

use crate::fault::SmfFault;
use crate::legato::all_held_out;
use crate::orders::{only, sounding};
use crate::placed::{Placed, place_voice};
use crate::played::Played;
use crate::tracks::{all_apart, tracks_of};
use fux_grid::Exercise;
use fux_pitch::{List, Memory};
use std::alloc::Global;

/// How many slots a lesson has in all its voices.
fn slots_in(lesson: &Exercise) -> usize
    requires { IsValid lesson.now }
    ensures { result ≡ 8 * lesson.now.bars * lesson.now.voices }
{
    8 * usize::from(lesson.bars) * usize::from(lesson.voices)
}

/// Whether voices of a lesson share tracks that have so many notes.
fn are_shared(
    alloc: Global,
    lesson: &Exercise,
    division: u32,
    notes: usize,
    tracks: &[List<Played>],
) -> Result<bool, Memory>
    requires lesson { IsValid lesson.now }
    requires division { 0 < division }
    requires tracks { ArePlayed tracks.now }
    ensures { IfOk result (λ shared. shared ≡ are_shared lesson.now division notes tracks.now) }
{
    if tracks.len() >= usize::from(lesson.voices) || notes > slots_in(lesson) {
        return Ok(false);
    }
    let voices = all_apart(alloc, lesson.voices, division, tracks)?;
    Ok(voices.len() == usize::from(lesson.voices))
}

/// The notes of voices on the grid, or the first note at fault.
fn place_all(
    alloc: Global,
    division: u32,
    voices: &[List<Played>],
) -> Result<Vec<List<Placed>>, SmfFault>
    requires division { 0 < division }
    requires voices { ArePlayed voices.now }
    ensures { Gives (λ v. v.items) result (voices_placed division voices.now) }
{
    let mut placed = Vec::new(alloc);
    for voice in voices {
        let notes = place_voice(alloc, division, voice.as_slice())?;
        placed.push(List::new(notes))?;
    }
    Ok(placed)
}

/// The tick at which a lesson ends, where an eighth of a bar is half of so many ticks.
fn end_of(lesson: &Exercise, division: u32) -> u64
    requires { IsValid lesson.now }
    ensures value { result ≡ 4 * division * lesson.now.bars }
    ensures early { result < 2 ^ 48 }
{
    4 * u64::from(division) * u64::from(lesson.bars)
}

/// The same, held to the end of their places or as they are.
fn place_held(
    alloc: Global,
    lesson: &Exercise,
    legato: bool,
    division: u32,
    voices: &[List<Played>],
) -> Result<Vec<List<Placed>>, SmfFault>
    requires lesson { IsValid lesson.now }
    requires division { 0 < division }
    requires voices { ArePlayed voices.now }
    ensures { Gives (λ v. v.items) result (placed_held lesson.now legato division voices.now) }
{
    if !legato {
        return place_all(alloc, division, voices);
    }
    let held = all_held_out(alloc, end_of(lesson, division), voices)?;
    place_all(alloc, division, &held)
}

/// Whether the cantus sounds in one voice alone, the one of its number.
fn is_in_place(alloc: Global, lesson: &Exercise, voices: &[List<Placed>]) -> Result<bool, Memory>
    ensures { IfOk result (λ is. is ≡ is_in_place lesson.now voices.now) }
{
    let found = sounding(alloc, lesson.cantus.as_slice(), voices)?;
    match only(&found) {
        Some(v) => Ok(v == usize::from(lesson.cantus_voice)),
        None => Ok(false),
    }
}

/// The voices of tracks in their order, or the other way round.
fn upright(
    alloc: Global,
    lesson: &Exercise,
    voices: Vec<List<Placed>>,
    turned: Vec<List<Placed>>,
) -> Result<Vec<List<Placed>>, Memory>
    ensures { IfOk result (λ up. up.items ≡ upright lesson.now voices.items turned.items) }
{
    let is_turned = is_in_place(alloc, lesson, &turned)?;
    let is_upright = is_in_place(alloc, lesson, &voices)?;
    if is_turned && !is_upright {
        Ok(turned)
    } else {
        Ok(voices)
    }
}

/// The voices of tracks that are told apart, or the first note at fault.
fn place_told(
    alloc: Global,
    lesson: &Exercise,
    legato: bool,
    division: u32,
    tracks: &[List<Played>],
) -> Result<Vec<List<Placed>>, SmfFault>
    requires lesson { IsValid lesson.now }
    requires division { 0 < division }
    requires tracks { ArePlayed tracks.now }
    ensures { Gives (λ v. v.items) result (placed_held lesson.now legato division
        (words.all_apart lesson.now.voices division tracks.now)) }
{
    let voices = all_apart(alloc, lesson.voices, division, tracks)?;
    place_held(alloc, lesson, legato, division, &voices)
}

/// The voices that share tracks, or the first note at fault.
fn place_apart(
    alloc: Global,
    lesson: &Exercise,
    legato: bool,
    division: u32,
    mut tracks: Vec<List<Played>>,
) -> Result<Vec<List<Placed>>, SmfFault>
    requires lesson { IsValid lesson.now }
    requires division { 0 < division }
    requires tracks { ArePlayed tracks.items }
    ensures { Gives (λ v. v.items) result (placed_apart lesson.now legato division tracks.items) }
{
    let voices = place_told(alloc, lesson, legato, division, &tracks)?;
    tracks.reverse();
    let turned = place_told(alloc, lesson, legato, division, &tracks)?;
    Ok(upright(alloc, lesson, voices, turned)?)
}

/// The voices of tracks that have so many notes, or the first note at fault.
fn place_tracks(
    alloc: Global,
    lesson: &Exercise,
    legato: bool,
    division: u32,
    notes: usize,
    tracks: Vec<List<Played>>,
) -> Result<Vec<List<Placed>>, SmfFault>
    requires lesson { IsValid lesson.now }
    requires division { 0 < division }
    requires tracks { ArePlayed tracks.items }
    ensures { Gives (λ v. v.items) result (placed_tracks lesson.now legato division notes
        tracks.items) }
{
    if are_shared(alloc, lesson, division, notes, &tracks)? {
        place_apart(alloc, lesson, legato, division, tracks)
    } else {
        place_held(alloc, lesson, legato, division, &tracks)
    }
}

/// The voices of notes in order, or the first note at fault.
pub(crate) fn voices_heard(
    alloc: Global,
    lesson: &Exercise,
    legato: bool,
    division: u32,
    notes: &[Played],
) -> Result<Vec<List<Placed>>, SmfFault>
    requires lesson { IsValid lesson.now }
    requires division { 0 < division }
    requires notes { All IsPlayed notes.now }
    ensures { Gives (λ v. v.items) result (words.voices_heard lesson.now legato division
        notes.now) }
{
    let tracks = tracks_of(alloc, notes)?;
    place_tracks(alloc, lesson, legato, division, notes.len(), tracks)
}
