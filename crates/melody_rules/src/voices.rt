//! The notes of all voices, and what is read from them.

ghost use Rattle.std.specs.Prelude.{◌≡◌, ◌≤◌, ◌∷◌, [], List, length};
ghost use Rattle.fux_grid.specs.declared.cell.Cell.{Cell};
ghost use Rattle.fux_grid.specs.Cells.{cell_in};
ghost use Rattle.fux_grid.specs.Columns.{line, earlier};
ghost use Rattle.rule_law.specs.Nearby.{previous_pitches};
ghost use Rattle.melody_rules.specs.Notes.{AnswersAfter, AreNotesOf, IsNotesOf};
ghost use Rattle.melody_rules.specs.Rows as rows;

use crate::notes::{VoiceNotes, breaks_after, leap_open_after, note, notes_before, silent};
use fux_grid::{Cell, Exercise, Score, VoiceSet, cell_of};
use rule_law::{Latest, is_free, voice_of};

/// No notes of any voice.
pub fn all_silent() -> [VoiceNotes; 4]
    ensures { AreNotesOf [] result }
{
    [silent(), silent(), silent(), silent()]
}

/// Takes in one more column of all voices. A voice that has no cell in it keeps its notes.
#[inline]
pub fn note_all(voices: &mut [VoiceNotes; 4], column: &[Cell])
    ensures { (behind : List (List Cell)) → AreNotesOf behind voices.old
        → AreNotesOf (column.now ∷ behind) voices.new }
{
    for v in 0..column.len().min(4) {
        note(&mut voices[v], cell_of(column, v));
    }
}

/// The notes of all voices that start in the first `n` columns of a score.
pub fn all_notes_before(score: &Score, n: usize) -> [VoiceNotes; 4]
    requires { n ≤ length score.now.columns }
    ensures { AreNotesOf (earlier score.now.columns n) result }
{
    [
        notes_before(score, 0, n),
        notes_before(score, 1, n),
        notes_before(score, 2, n),
        notes_before(score, 3, n),
    ]
}

/// The pitch of each voice's latest note.
pub fn latest_of_notes(voices: &[VoiceNotes; 4]) -> Latest
    ensures { (behind : List (List Cell)) → AreNotesOf behind voices.now → result.pitches
        ≡ previous_pitches behind }
{
    Latest {
        pitches: [
            voices[0].last,
            voices[1].last,
            voices[2].last,
            voices[3].last,
        ],
    }
}

/// Whether S6, S7, S8 or S9 is broken in a column that comes after these notes.
pub fn breaks_looking_back(
    rule: u8,
    ex: &Exercise,
    set: VoiceSet,
    voices: &[VoiceNotes; 4],
    now: &[Cell],
) -> bool
    ensures { AnswersAfter (rows.window_rows rule ex.now set.bits) voices.now now.now result }
{
    match voice_of(set) {
        Some(v) => {
            if v >= ex.voices || !is_free(ex, v) {
                return false;
            }
            breaks_after(rule, &voices[v as usize], cell_of(now, v as usize))
        }
        None => false,
    }
}

/// 1 where Q13 stands for a free voice, else 0.
#[inline]
fn open_leap(ex: &Exercise, notes: &VoiceNotes, now: &[Cell], v: u8) -> u32
    ensures value { (cells : List Cell) → IsNotesOf cells notes.now → result ≡ rows.open_leap ex.now
        v cells (cell_in now.now v) }
    ensures bound { result ≤ 1 }
{
    u32::from(is_free(ex, v) && leap_open_after(notes, cell_of(now, v as usize)))
}

/// In how many free voices Q13 stands in a column that comes after these notes.
#[tactic(auto, unfolding(crate::specs::Rows::open_leaps))]
pub fn open_leaps(ex: &Exercise, voices: &[VoiceNotes; 4], now: &[Cell]) -> u32
    ensures value { AnswersAfter (rows.open_leaps ex.now) voices.now now.now result }
    ensures bound { result ≤ 4 }
{
    open_leap(ex, &voices[0], now, 0)
        + open_leap(ex, &voices[1], now, 1)
        + open_leap(ex, &voices[2], now, 2)
        + open_leap(ex, &voices[3], now, 3)
}
