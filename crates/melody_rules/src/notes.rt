//! What a search keeps of the notes of a voice.

ghost use Rattle.std.specs.Prelude.{◌≡◌, ◌≤◌, [], ◌∷◌, List, length, pos, if◌then◌else◌};
ghost use Rattle.std.specs.Int.{int_max, int_min};
ghost use Rattle.fux_grid.specs.declared.cell.Cell.{Cell};
ghost use Rattle.fux_grid.specs.declared.cell.Cell.TheVariants.{Start};
ghost use Rattle.fux_grid.specs.Columns.{line, earlier};
ghost use Rattle.melody_rules.specs.Notes.{IsNotesOf};
ghost use Rattle.melody_rules.specs.Rows as rows;

use crate::windows::{
    goes_on_after_leap, leaves_leap_open, outlines_badly, spans_over, turns, turns_at_tritone,
};
use fux_grid::{Cell, Score};
use fux_pitch::{Pitch, semitone};

/// What later notes of a voice are judged by: the pitches of its latest note, of the one before it
/// and of its latest turning note, and the greatest and the least key of its notes (0 and 127
/// without notes).
#[derive(Clone, Copy, Debug, PartialEq, Eq)]
pub struct VoiceNotes {
    pub last: Option<Pitch>,
    pub before: Option<Pitch>,
    pub turning: Option<Pitch>,
    pub greatest: u8,
    pub least: u8,
}

/// A tenth in semitones.
const TENTH: u8 = 16;

/// No notes.
pub fn silent() -> VoiceNotes
    ensures { IsNotesOf [] result }
{
    VoiceNotes {
        last: None,
        before: None,
        turning: None,
        greatest: 0,
        least: 127,
    }
}

/// The greater key.
#[inline]
pub(crate) fn higher(key: u8, other: u8) -> u8
    ensures { pos result ≡ int_max (pos key) (pos other) }
{
    if key > other { key } else { other }
}

/// The lesser key.
#[inline]
pub(crate) fn lower(key: u8, other: u8) -> u8
    ensures { pos result ≡ int_min (pos key) (pos other) }
{
    if key < other { key } else { other }
}

/// Takes in a note that starts.
#[inline]
fn start_note(notes: &mut VoiceNotes, pitch: Pitch)
    ensures { (cells : List Cell) → IsNotesOf cells notes.old → IsNotesOf (Start pitch ∷ cells)
        notes.new }
{
    let key = semitone(pitch);
    notes.turning = turning_after(notes, pitch);
    notes.before = notes.last;
    notes.last = Some(pitch);
    notes.greatest = higher(key, notes.greatest);
    notes.least = lower(key, notes.least);
}

/// The latest turning note, once a further note starts.
#[inline]
fn turning_after(notes: &VoiceNotes, pitch: Pitch) -> Option<Pitch>
    ensures { result ≡ (if rows.turns notes.now.before notes.now.last (Start pitch)
        then notes.now.last else notes.now.turning) }
{
    if turns(notes.before, notes.last, Cell::Start(pitch)) {
        notes.last
    } else {
        notes.turning
    }
}

/// Takes in one more cell of a voice.
#[inline]
pub fn note(notes: &mut VoiceNotes, cell: Cell)
    ensures { (cells : List Cell) → IsNotesOf cells notes.old → IsNotesOf (cell ∷ cells) notes.new }
{
    match cell {
        Cell::Start(pitch) => start_note(notes, pitch),
        Cell::Hold(_) => {}
        Cell::Rest => {}
    }
}

/// The notes of a voice after one more cell.
pub fn noted(notes: &VoiceNotes, cell: Cell) -> VoiceNotes
    ensures { (cells : List Cell) → IsNotesOf cells notes.now → IsNotesOf (cell ∷ cells) result }
{
    let mut longer = *notes;
    note(&mut longer, cell);
    longer
}

/// The notes of a voice that start in the first `n` columns of a score.
pub fn notes_before(score: &Score, v: u8, n: usize) -> VoiceNotes
    requires { n ≤ length score.now.columns }
    ensures { IsNotesOf (line v (earlier score.now.columns n)) result }
{
    let mut notes = silent();
    for j in 0..n {
        note(&mut notes, score.cell(v as usize, j));
    }
    notes
}

/// S9: a note starts with which the notes span more than a tenth, as they didn't before.
#[inline]
pub(crate) fn widens(notes: &VoiceNotes, now: Cell) -> bool
    ensures { (cells : List Cell) → IsNotesOf cells notes.now → result
        ≡ rows.widens (rows.pitches cells) now }
{
    match now {
        Cell::Start(pitch) => {
            let key = semitone(pitch);
            spans_over(TENTH, higher(key, notes.greatest), lower(key, notes.least))
                && !spans_over(TENTH, notes.greatest, notes.least)
        }
        _ => false,
    }
}

/// Whether S6, S7, S8 or S9 is broken by a cell of a voice with these notes.
pub fn breaks_after(rule: u8, notes: &VoiceNotes, now: Cell) -> bool
    ensures { (cells : List Cell) → IsNotesOf cells notes.now → result ≡ rows.window_rule rule
        (rows.pitches cells) now }
{
    match rule {
        6 => outlines_badly(notes.before, notes.last, now),
        7 => goes_on_after_leap(notes.before, notes.last, now),
        8 => turns_at_tritone(notes.turning, notes.before, notes.last, now),
        _ => widens(notes, now),
    }
}

/// Whether Q13 stands for a cell of a voice with these notes.
pub fn leap_open_after(notes: &VoiceNotes, now: Cell) -> bool
    ensures { (cells : List Cell) → IsNotesOf cells notes.now → result ≡ rows.leaves_open
        (rows.pitches cells) now }
{
    leaves_leap_open(notes.before, notes.last, now)
}
