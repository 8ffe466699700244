//! Where heads stand, and how their stems go.

ghost use Rattle.std.specs.Prelude.{◌≡◌, ◌≤◌};
ghost use Rattle.fux_pitch.specs.Pitch.{degree_of};
ghost use Rattle.sheet_layout.specs.Heads.{goes_up, head_of as head_for, head_with, height as height_of, other_degree as other_degree_of, other_slot, pitch_at, stem_x as x_of_stem, tip as tip_of};

use crate::spacing::slot_x;
use fux_pitch::Pitch;
use written_notes::{Beam, Written, beam_of};

/// What the notes of a bar of a voice have in common: the degree of its staff's middle line, the
/// bar's width, where ties to the next bar end, and whether the bar begins a system.
#[derive(Clone, Copy, Debug, PartialEq, Eq)]
pub struct NotePlace {
    pub middle: u8,
    pub width: u16,
    pub tie_end: u32,
    pub first: bool,
}

/// A head: where it stands; where the next slot stands, and the height of the other head under its
/// beam; whether its stem goes up; and its beam.
#[derive(Clone, Copy, Debug, PartialEq, Eq)]
pub struct Head {
    pub x: u16,
    pub y: u16,
    pub next: u16,
    pub far: u16,
    pub up: bool,
    pub beam: Beam,
}

/// The height of a degree.
fn height(middle: u8, degree: u8) -> u16
    ensures value { result ≡ height_of middle degree }
    ensures most { result ≤ 1620 }
{
    (600 + 4 * u16::from(middle)).saturating_sub(4 * u16::from(degree))
}

/// The slot of the other quaver under a note's beam, for a note without a beam its own.
fn other_slot(beam: Beam, slot: u8) -> u16
    ensures { result ≡ other_slot beam slot }
{
    let slot = u16::from(slot);
    match beam {
        Beam::Without => slot,
        Beam::Begins => slot + 1,
        Beam::Ends => slot.saturating_sub(1),
    }
}

/// The pitch at a slot of these notes.
fn pitch_at(notes: &[Written], slot: u16) -> Option<Pitch>
    ensures { result ≡ pitch_at notes.now slot }
{
    for other in notes {
        if u16::from(other.slot) == slot {
            return other.pitch;
        }
    }
    None
}

/// The degree of the other quaver under a note's beam, its own where there is none.
fn other_degree(notes: &[Written], note: &Written, degree: u8) -> u8
    ensures { result ≡ other_degree_of notes.now note.now degree }
{
    match pitch_at(notes, other_slot(beam_of(notes, note), note.slot)) {
        Some(pitch) => pitch.degree(),
        None => degree,
    }
}

/// Whether a stem goes up.
fn goes_up(middle: u8, degree: u8, other: u8) -> bool
    ensures { result ≡ goes_up middle degree other }
{
    u16::from(degree) + u16::from(other) < 2 * u16::from(middle)
}

/// Where a stem ends.
pub fn tip(up: bool, y: u16, other: u16) -> u32
    ensures value { result ≡ tip_of up y other }
    ensures most { result ≤ 66000 }
{
    let y = u32::from(y);
    let other = u32::from(other);
    if up {
        y.min(other + 6).saturating_sub(28).min(600)
    } else {
        (y.max(other.saturating_sub(6)) + 28).max(600)
    }
}

/// Where a stem stands.
pub fn stem_x(up: bool, x: u16) -> u32
    ensures { result ≡ x_of_stem up x }
{
    let x = u32::from(x);
    if up { x + 5 } else { x.saturating_sub(5) }
}

/// The head of one of these notes with this degree, where the other head under its beam has that
/// one, among the notes of all voices.
fn head_with(
    all: &[Written],
    notes: &[Written],
    middle: u8,
    note: &Written,
    degree: u8,
    other: u8,
) -> Head
    ensures { result ≡ head_with all.now notes.now middle note.now degree other }
{
    Head {
        x: slot_x(all, note.slot),
        y: height(middle, degree),
        next: slot_x(all, note.slot.min(7) + 1),
        far: height(middle, other),
        up: goes_up(middle, degree, other),
        beam: beam_of(notes, note),
    }
}

/// The head of one of these notes with a pitch, among the notes of all voices.
pub fn head_of(all: &[Written], notes: &[Written], middle: u8, note: &Written, pitch: Pitch) -> Head
    ensures { result ≡ head_for all.now notes.now middle note.now pitch }
{
    let degree = pitch.degree();
    let other = other_degree(notes, note, degree);
    head_with(all, notes, middle, note, degree, other)
}
