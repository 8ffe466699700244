//! Whether a voice is the lesson's cantus.

ghost use Rattle.std.specs.Prelude.{◌≡◌, ◌+◌, ◌<◌, ◌≤◌, ◌/◌, ◌==◌, ◌++◌, [], ◌∷◌, IfOk, OnOk, if◌then◌else◌, length};
ghost use Rattle.std.specs.List.{list_all};
ghost use Rattle.smf_score.specs.LessonCantus as words;
ghost use Rattle.smf_score.specs.LessonCantus.{are_late, bar_fault, begins_at, in_bar, note_fault};

use crate::fault::SmfFault;
use crate::join_fault::JoinFault;
use crate::placed::Placed;
use fux_pitch::{Memory, Pitch, semitone};
use std::alloc::Global;

/// The slot of its bar at which a note begins.
fn begins_at(note: &Placed) -> u8
    ensures value { result ≡ begins_at note.now }
    ensures within { result < 8 }
{
    (note.start % 8) as u8
}

/// Whether notes begin at this slot of their bars.
fn all_begin_at(notes: &[Placed], slot: u8) -> bool
    ensures { result ≡ list_all (λ note. begins_at note == slot) notes.now }
{
    for note in notes {
        if begins_at(note) != slot {
            return false;
        }
    }
    true
}

/// Whether notes begin at one place of their bars that isn't the first.
pub(crate) fn are_late(notes: &[Placed]) -> bool
    ensures { result ≡ are_late notes.now }
{
    let Some((first, others)) = notes.split_first() else {
        return false;
    };
    let slot = begins_at(first);
    slot != 0 && all_begin_at(others, slot)
}

/// Whether a note begins in a bar.
fn is_in_bar(bar: u8, note: &Placed) -> bool
    ensures { result ≡ (note.now.start / 8 == bar) }
{
    note.start / 8 == u64::from(bar)
}

/// Appends a note, if that is so.
fn push_if(own: &mut Vec<Placed>, is_so: bool, note: Placed) -> Result<(), Memory>
    ensures { OnOk result (own.new.items ≡ own.old.items ++ (if is_so then note ∷ [] else [])) }
{
    if is_so {
        own.push(note)?;
    }
    Ok(())
}

/// The notes that begin in a bar.
fn in_bar(alloc: Global, bar: u8, notes: &[Placed]) -> Result<Vec<Placed>, Memory>
    ensures { IfOk result (λ own. own.items ≡ in_bar bar notes.now) }
{
    let mut own = Vec::new(alloc);
    for note in notes {
        push_if(&mut own, is_in_bar(bar, note), *note)?;
    }
    Ok(own)
}

/// What is wrong with a note that begins in a bar of a pitch.
fn note_fault(bar: u8, pitch: Pitch, note: &Placed) -> Option<JoinFault>
    requires { bar < 24 }
    ensures { result ≡ note_fault bar pitch note.now }
{
    let end = 8 * u64::from(bar) + 8;
    let slot = begins_at(note);
    let bar = bar + 1;
    if slot != 0 {
        Some(JoinFault::OffGrid { bar, slot })
    } else if note.end < end {
        let slot = (note.end % 8) as u8;
        Some(JoinFault::OffGrid { bar, slot })
    } else if end < note.end {
        Some(JoinFault::Smf(SmfFault::NotWhole { bar }))
    } else if semitone(note.pitch) == semitone(pitch) {
        None
    } else {
        Some(JoinFault::Cantus { bar })
    }
}

/// What is wrong with the notes that begin in a bar.
fn bar_fault(bar: u8, pitch: Pitch, own: &[Placed]) -> Option<JoinFault>
    requires { bar < 24 }
    ensures { result ≡ bar_fault bar pitch own.now }
{
    let not_whole = JoinFault::Smf(SmfFault::NotWhole { bar: bar + 1 });
    let Some((note, others)) = own.split_first() else {
        return Some(not_whole);
    };
    match others.split_first() {
        None => note_fault(bar, pitch, note),
        Some(_) => Some(not_whole),
    }
}

/// The first fault of a voice as a cantus from a bar on.
pub(crate) fn cantus_fault(
    alloc: Global,
    bar: u8,
    cantus: &[Pitch],
    notes: &[Placed],
) -> Result<Option<JoinFault>, Memory>
    requires { bar + length cantus.now ≤ 24 }
    ensures { IfOk result (λ fault. fault ≡ words.cantus_fault bar cantus.now notes.now) }
{
    let Some((pitch, later)) = cantus.split_first() else {
        return Ok(None);
    };
    let own = in_bar(alloc, bar, notes)?;
    match bar_fault(bar, *pitch, &own) {
        Some(fault) => Ok(Some(fault)),
        None => cantus_fault(alloc, bar + 1, later, notes),
    }
}
