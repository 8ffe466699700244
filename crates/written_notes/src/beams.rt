//! Beams.

ghost use Rattle.std.specs.Prelude.{◌≡◌};
ghost use Rattle.written_notes.specs.Beams.{beam_of as beam_in, is_beamed as beamed_in, is_quaver as has_quaver, partner_of, quaver_at};

use crate::bar::Written;
use crate::values::Base;

/// What a beam does at a note.
#[derive(Clone, Copy, Debug, PartialEq, Eq, Default)]
pub enum Beam {
    #[default]
    Without,
    Begins,
    Ends,
}

/// Whether this is a quaver, and no rest.
fn is_quaver(note: &Written) -> bool
    ensures { result ≡ has_quaver note.now }
{
    note.value.base == Base::Eighth && note.pitch.is_some()
}

/// The other slot of the same quarter.
fn partner_of(slot: u8) -> u16
    ensures { result ≡ partner_of slot }
{
    let slot = u16::from(slot);
    if slot % 2 == 0 { slot + 1 } else { slot - 1 }
}

/// Whether a slot has a quaver.
fn has_quaver_at(notes: &[Written], slot: u16) -> bool
    ensures { result ≡ quaver_at notes.now slot }
{
    notes
        .iter()
        .any(|other| is_quaver(other) && u16::from(other.slot) == slot)
}

/// Whether a note is a quaver whose quarter has another one.
fn is_beamed(notes: &[Written], note: &Written) -> bool
    ensures { result ≡ beamed_in notes.now note.now }
{
    is_quaver(note) && has_quaver_at(notes, partner_of(note.slot))
}

/// The beam of one of these written notes: two quavers of one quarter have one.
pub fn beam_of(notes: &[Written], note: &Written) -> Beam
    ensures { result ≡ beam_in notes.now note.now }
{
    if !is_beamed(notes, note) {
        Beam::Without
    } else if note.slot % 2 == 0 {
        Beam::Begins
    } else {
        Beam::Ends
    }
}
