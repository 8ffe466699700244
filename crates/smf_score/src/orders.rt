//! Which voice of a file is which voice of the lesson.

ghost use Rattle.std.specs.Prelude.{◌≡◌, ◌<◌, ◌^◌, ◌++◌, [], ◌∷◌, IfOk, OnOk, if◌then◌else◌, slice_index_or};
ghost use Rattle.smf_score.specs.Orders as words;
ghost use Rattle.smf_score.specs.Orders.{among_others, cantus_at, other_voice, only, sounding, voice_in_file};

use crate::placed::Placed;
use fux_grid::Exercise;
use fux_pitch::{List, Memory, Pitch, semitone};
use std::alloc::Global;

/// Whether the keys of the notes of a voice are those of a cantus, one after the other.
fn sounds(cantus: &[Pitch], notes: &[Placed]) -> bool
    ensures { result ≡ words.sounds cantus.now notes.now }
{
    let Some((pitch, others)) = cantus.split_first() else {
        return notes.is_empty();
    };
    let Some((note, later)) = notes.split_first() else {
        return false;
    };
    semitone(note.pitch) == semitone(*pitch) && sounds(others, later)
}

/// The notes of a voice of the file, or none where it isn't there.
fn voice_at(voices: &[List<Placed>], k: usize) -> &[Placed]
    ensures { result.now ≡ slice_index_or voices.now k [] }
{
    match voices.get(k) {
        Some(notes) => notes.as_slice(),
        None => &[],
    }
}

/// Appends a number, if that is so.
fn push_if(found: &mut Vec<usize>, is_so: bool, v: usize) -> Result<(), Memory>
    ensures { OnOk result (found.new.items ≡ found.old.items
        ++ (if is_so then v ∷ [] else [])) }
{
    if is_so {
        found.push(v)?;
    }
    Ok(())
}

/// The voices in which a cantus sounds.
pub(crate) fn sounding(
    alloc: Global,
    cantus: &[Pitch],
    voices: &[List<Placed>],
) -> Result<Vec<usize>, Memory>
    ensures { IfOk result (λ found. found.items ≡ sounding cantus.now voices.now) }
{
    let mut found = Vec::new(alloc);
    for v in 0..voices.len() {
        let is_here = sounds(cantus, voice_at(voices, v));
        push_if(&mut found, is_here, v)?;
    }
    Ok(found)
}

/// What a list has, where that is one thing.
pub(crate) fn only(found: &[usize]) -> Option<usize>
    ensures { result ≡ only found.now }
{
    let (one, others) = found.split_first()?;
    match others.split_first() {
        None => Some(*one),
        Some(_) => None,
    }
}

/// The voice of the file that is the lesson's cantus.
pub(crate) fn cantus_at(
    alloc: Global,
    lesson: &Exercise,
    voices: &[List<Placed>],
) -> Result<usize, Memory>
    ensures { IfOk result (λ at. at ≡ cantus_at lesson.now voices.now) }
{
    let found = sounding(alloc, lesson.cantus.as_slice(), voices)?;
    Ok(only(&found).unwrap_or(usize::from(lesson.cantus_voice)))
}

/// The number of a voice among those other than one.
fn among_others(one: usize, v: usize) -> usize
    ensures { result ≡ among_others one v }
{
    if v < one { v } else { v.saturating_sub(1) }
}

/// The voice of a number among those other than one.
fn other_voice(one: usize, k: usize) -> usize
    requires { k < 2 ^ 32 }
    ensures { result ≡ other_voice one k }
{
    if k < one { k } else { k + 1 }
}

/// Of so many voices, the voice of the file that is a voice of the lesson, where one of the file is
/// its cantus.
fn voice_in_file(count: usize, cantus: usize, found: usize, v: usize) -> usize
    requires { v < 2 ^ 32 }
    ensures { result ≡ voice_in_file count cantus found v }
{
    if found == cantus {
        v
    } else if found < count && count - 1 - found == cantus {
        (count - 1).saturating_sub(v)
    } else if v == cantus {
        found
    } else {
        other_voice(found, among_others(cantus, v))
    }
}

/// The notes of a voice of the lesson, where this voice of the file is its cantus.
pub(crate) fn voice_of<'a>(
    lesson: &Exercise,
    voices: &'a [List<Placed>],
    found: usize,
    v: u8,
) -> &'a [Placed]
    requires { found ≡ cantus_at lesson.now voices.now }
    ensures { result.now ≡ words.voice_of lesson.now voices.now v }
{
    let cantus = usize::from(lesson.cantus_voice);
    voice_at(
        voices,
        voice_in_file(voices.len(), cantus, found, usize::from(v)),
    )
}
