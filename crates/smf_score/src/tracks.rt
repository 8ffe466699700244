//! The tracks of a file, which may have several voices each.

ghost use Rattle.std.specs.Prelude.{◌≡◌, ◌<◌, ◌++◌, ◌∷◌, [], All, IfOk, OnOk, if◌then◌else◌};
ghost use Rattle.smf_score.specs.Placing.{voices_of};
ghost use Rattle.smf_score.specs.Played.{IsPlayed};
ghost use Rattle.smf_score.specs.Staves as words;
ghost use Rattle.smf_score.specs.Staves.{above, lowest, told_apart};
ghost use Rattle.smf_score.specs.Tracks.{ArePlayed};

use crate::placed::{run_of, slot};
use crate::played::Played;
use fux_pitch::{List, Memory};
use std::alloc::Global;

/// These notes, in memory of their own.
fn copied(alloc: Global, notes: &[Played]) -> Result<Vec<Played>, Memory>
    requires { All IsPlayed notes.now }
    ensures value { IfOk result (λ own. own.items ≡ notes.now) }
    ensures played { IfOk result (λ own. All IsPlayed own.items) }
{
    let mut own = Vec::new(alloc);
    own.extend_from_slice(notes)?;
    Ok(own)
}

/// Notes in order by tracks.
pub(crate) fn tracks_of(alloc: Global, notes: &[Played]) -> Result<Vec<List<Played>>, Memory>
    requires { All IsPlayed notes.now }
    ensures value { IfOk result (λ tracks. tracks.items ≡ voices_of notes.now) }
    ensures played { IfOk result (λ tracks. ArePlayed tracks.items) }
{
    let mut tracks = Vec::new(alloc);
    let mut rest = notes;
    while let Some((first, others)) = rest.split_first() {
        let (own, later) = rest.split_at(1 + run_of(others, first.rank));
        let track = copied(alloc, own)?;
        tracks.push(List::new(track))?;
        rest = later;
    }
    Ok(tracks)
}

/// Whether two notes sound together on the grid.
fn sound_together(division: u32, a: &Played, b: &Played) -> bool
    requires division { 0 < division }
    requires first { IsPlayed a.now }
    requires second { IsPlayed b.now }
    ensures { result ≡ words.sound_together division a.now b.now }
{
    slot(division, a.start) < slot(division, b.end)
        && slot(division, b.start) < slot(division, a.end)
}

/// Whether a lower one of some notes sounds together with a note.
fn is_upper(division: u32, notes: &[Played], note: &Played) -> bool
    requires division { 0 < division }
    requires notes { All IsPlayed notes.now }
    requires note { IsPlayed note.now }
    ensures { result ≡ words.is_upper division notes.now note.now }
{
    for other in notes {
        if other.key < note.key && sound_together(division, other, note) {
            return true;
        }
    }
    false
}

/// The notes together with which no lower one sounds, and the others.
#[derive(Drop)]
struct Layers {
    lowest: Vec<Played>,
    above: Vec<Played>,
}

/// Appends a note, if that is so.
fn push_if(own: &mut Vec<Played>, is_so: bool, note: Played) -> Result<(), Memory>
    requires { IsPlayed note }
    ensures value { OnOk result (own.new.items ≡ own.old.items
        ++ (if is_so then note ∷ [] else [])) }
    ensures played { All IsPlayed own.old.items → All IsPlayed own.new.items }
{
    if is_so {
        own.push(note)?;
    }
    Ok(())
}

/// Notes by what sounds below them.
fn layers_of(alloc: Global, division: u32, notes: &[Played]) -> Result<Layers, Memory>
    requires division { 0 < division }
    requires notes { All IsPlayed notes.now }
    ensures lowest { IfOk result (λ layers. layers.lowest.items ≡ lowest division notes.now) }
    ensures above { IfOk result (λ layers. layers.above.items ≡ above division notes.now) }
    ensures low { IfOk result (λ layers. All IsPlayed layers.lowest.items) }
    ensures high { IfOk result (λ layers. All IsPlayed layers.above.items) }
{
    let mut lowest = Vec::new(alloc);
    let mut above = Vec::new(alloc);
    for note in notes {
        let is_above = is_upper(division, notes, note);
        push_if(&mut lowest, !is_above, *note)?;
        push_if(&mut above, is_above, *note)?;
    }
    Ok(Layers { lowest, above })
}

/// Appends the voices of the notes of a track, from the lowest on.
fn push_apart(
    alloc: Global,
    most: u8,
    division: u32,
    notes: Vec<Played>,
    voices: &mut Vec<List<Played>>,
) -> Result<(), Memory>
    requires division { 0 < division }
    requires notes { All IsPlayed notes.items }
    ensures value { OnOk result (voices.new.items ≡ voices.old.items
        ++ told_apart most division notes.items) }
    ensures played { ArePlayed voices.old.items → ArePlayed voices.new.items }
{
    if notes.is_empty() {
        return Ok(());
    }
    if most == 0 {
        voices.push(List::new(notes))?;
        return Ok(());
    }
    let layers = layers_of(alloc, division, &notes)?;
    voices.push(List::new(layers.lowest))?;
    push_apart(alloc, most - 1, division, layers.above, voices)
}

/// The voices of one track after the other, so many in each and one more.
pub(crate) fn all_apart(
    alloc: Global,
    most: u8,
    division: u32,
    tracks: &[List<Played>],
) -> Result<Vec<List<Played>>, Memory>
    requires division { 0 < division }
    requires tracks { ArePlayed tracks.now }
    ensures value { IfOk result (λ voices. voices.items ≡ words.all_apart most division tracks.now) }
    ensures played { IfOk result (λ voices. ArePlayed voices.items) }
{
    let mut voices = Vec::new(alloc);
    for track in tracks {
        let notes = copied(alloc, track.as_slice())?;
        push_apart(alloc, most, division, notes, &mut voices)?;
    }
    Ok(voices)
}
