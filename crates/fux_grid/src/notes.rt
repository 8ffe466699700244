//! The notes of a voice. A voice that the score doesn't have rests.

ghost use Rattle.std.specs.Prelude.{◌≡◌, ◌+◌, ◌<◌, ◌≤◌, ◌↔◌, ◌∷◌, ℕ, false, length, IfSome, IfNone, IsTrue, MatchOption};
ghost use Rattle.fux_grid.specs.declared.cell.Cell.{Cell};
ghost use Rattle.fux_grid.specs.declared.cell.Note.{Note};
ghost use Rattle.fux_grid.specs.Cells.{is_hold, before_note, first_of};
ghost use Rattle.fux_grid.specs.Columns.{cell_at, sound_at, earlier, note_before, line, notes_up_to, onsets_since};
ghost use Rattle.fux_grid.specs.Notes.{IsNote, IsNoteAt, IsPreviousNote, IsNextNote, IsFirstOnset, NoStart};

use crate::cell::{Cell, Note, Onset};
use crate::score::Score;
use fux_pitch::Pitch;

/// The pitch that a voice sounds at a column.
pub fn sounding(score: &Score, v: u8, i: usize) -> Option<Pitch>
    requires { i < length score.now.columns }
    ensures { result ≡ sound_at score.now.columns v i }
{
    score.cell(v as usize, i).pitch()
}

/// Where the note at a column begins; the column itself where the voice rests.
fn note_start(score: &Score, v: u8, i: usize) -> usize
    requires { i < length score.now.columns }
    ensures bound { result ≤ i }
    ensures before { before_note (line v (earlier score.now.columns (i + 1))) ≡
        line v (earlier score.now.columns result) }
    ensures held { (k : ℕ) → result < k → k ≤ i → IsTrue (is_hold (cell_at score.now.columns v k)) }
    ensures begins { is_hold (cell_at score.now.columns v result) ≡ false }
{
    score.kept();
    let mut j = i;
    while j > 0 {
        match score.cell(v as usize, j) {
            Cell::Hold(_) => j -= 1,
            Cell::Rest => return j,
            Cell::Start(_) => return j,
        }
    }
    0
}

/// The first column after one that has no hold of the voice, or the score's length.
fn note_end(score: &Score, v: u8, i: usize) -> usize
    requires { i < length score.now.columns }
    ensures after { i < result }
    ensures held { (k : ℕ) → i < k → k < result → IsTrue (is_hold (cell_at score.now.columns v k)) }
    ensures ends { is_hold (cell_at score.now.columns v result) ≡ false }
{
    let end = score.len();
    for j in i + 1..end {
        if !score.cell(v as usize, j).is_hold() {
            return j;
        }
    }
    end
}

/// The latest note of a voice that starts in the first n columns, as far as these have it.
pub fn note_behind(score: &Score, v: u8, n: usize) -> Option<Note>
    requires { n ≤ length score.now.columns }
    ensures value { result ≡ first_of (notes_up_to score.now.columns v n) }
    ensures start { IfSome result (λ note. note.start < n) }
    ensures rest { IfSome result (λ note. notes_up_to score.now.columns v n ≡
        note ∷ notes_up_to score.now.columns v note.start) }
{
    let mut j = n;
    let mut held = 0;
    while j > 0 {
        j -= 1;
        match score.cell(v as usize, j) {
            Cell::Rest => held = 0,
            Cell::Hold(_) => held += 1,
            Cell::Start(pitch) => {
                return Some(Note {
                    start: j,
                    len: held + 1,
                    pitch,
                });
            }
        }
    }
    None
}

/// The first place at column n or later where a note of a voice starts.
pub fn onset_ahead(score: &Score, v: u8, n: usize) -> Option<Onset>
    requires { n ≤ length score.now.columns }
    ensures value { result ≡ first_of (onsets_since score.now.columns v n) }
    ensures start { IfSome result (λ onset. onset.start < length score.now.columns) }
    ensures rest { IfSome result (λ onset. onsets_since score.now.columns v n ≡
        onset ∷ onsets_since score.now.columns v (onset.start + 1)) }
    ensures first { IfSome result (IsFirstOnset score.now.columns v n) }
    ensures none { IfNone result (NoStart score.now.columns v n (length score.now.columns)) }
{
    for j in n..score.len() {
        if let Cell::Start(pitch) = score.cell(v as usize, j) {
            return Some(Onset { start: j, pitch });
        }
    }
    None
}

/// The note of a voice at a column.
pub fn note_at(score: &Score, v: u8, i: usize) -> Option<Note>
    requires { i < length score.now.columns }
    ensures found { (note : Note) → (result ≡ Some note) ↔ IsNoteAt score.now.columns v i note }
    ensures rest { (result ≡ None) ↔ (cell_at score.now.columns v i ≡ Cell.Rest) }
    ensures sounds { IfSome result (λ note. sound_at score.now.columns v i ≡ Some note.pitch) }
{
    score.kept();
    let start = note_start(score, v, i);
    match score.cell(v as usize, start) {
        Cell::Start(pitch) => Some(Note {
            start,
            len: note_end(score, v, i) - start,
            pitch,
        }),
        _ => None,
    }
}

/// The latest note of a voice that is over at a column: the one before the note there, or before
/// the column at a rest.
pub fn prev_note(score: &Score, v: u8, i: usize) -> Option<Note>
    requires { i < length score.now.columns }
    ensures value { result ≡ note_before score.now.columns v i }
    ensures found { (note : Note) →
        (result ≡ Some note) ↔ IsPreviousNote score.now.columns v i note }
    ensures none { (result ≡ None) ↔
        ((note : Note) → IsNote score.now.columns v note → note.start + note.len ≤ i → ⊥) }

    // It ends at or before the start of the note at the column.
    ensures before { IfSome result (λ note. (here : Note) → IsNoteAt score.now.columns v i here →
        note.start + note.len ≤ here.start) }
{
    note_behind(score, v, note_start(score, v, i))
}

/// The earliest note of a voice that starts after a column.
pub fn next_note(score: &Score, v: u8, i: usize) -> Option<Note>
    requires { i < length score.now.columns }
    ensures found { (note : Note) → (result ≡ Some note) ↔ IsNextNote score.now.columns v i note }
    ensures none { (result ≡ None) ↔
        ((note : Note) → IsNote score.now.columns v note → i < note.start → ⊥) }
{
    score.kept();
    let onset = onset_ahead(score, v, i + 1)?;
    Some(Note {
        start: onset.start,
        len: note_end(score, v, onset.start) - onset.start,
        pitch: onset.pitch,
    })
}
