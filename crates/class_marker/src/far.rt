//! Notes far back that count for a break.

ghost use Rattle.std.specs.Prelude.{◌≡◌, ◌<◌, ◌≤◌, IfSome, length, max};
ghost use Rattle.fux_grid.specs.Columns.{notes_up_to};
ghost use Rattle.class_marker.specs.Notes as words;

use crate::columns::latest_start;
use fux_grid::{Note, Score, note_behind};
use fux_pitch::{Pitch, interval_of};
use rule_law::opposite_ways;

/// Whether a note of the middle pitch turns.
fn is_turned(before: Pitch, here: Pitch, after: Pitch) -> bool
    ensures { result ≡ words.is_turned before here after }
{
    opposite_ways(interval_of(before, here), interval_of(here, after))
}

/// Where the latest turning note starts of a note and those before it, behind which another comes;
/// where the oldest of them starts, if none turns.
fn turning_from(score: &Score, v: u8, after: Note, here: Note) -> usize
    requires { here.start ≤ length score.now.columns }
    ensures value { result
        ≡ words.turning_from after here (notes_up_to score.now.columns v here.start) }
    ensures bound { result ≤ length score.now.columns }
{
    let mut after = after;
    let mut here = here;
    while let Some(before) = note_behind(score, v, here.start) {
        if is_turned(before.pitch, here.pitch, after.pitch) {
            return here.start;
        }
        after = here;
        here = before;
    }
    here.start
}

/// Where the turning note starts before the note that the note at a column makes one.
pub fn turning_start(score: &Score, v: u8, i: usize) -> usize
    requires { i < length score.now.columns }
    ensures value { result ≡ words.turning_start score.now.columns v i }
    ensures bound { result ≤ length score.now.columns }
{
    let start = latest_start(score, v, i);
    let Some(last) = note_behind(score, v, start) else {
        return start;
    };
    let Some(here) = note_behind(score, v, last.start) else {
        return last.start;
    };
    turning_from(score, v, last, here)
}

/// How many semitones a note lies from a pitch.
fn away(p: Pitch, note: Note) -> u16
    ensures { result ≡ words.away p note }
{
    interval_of(p, note.pitch).semitones.unsigned_abs()
}

/// Of two notes the one that is farther from a pitch, of two that are as far the first.
fn farther(p: Pitch, note: Note, other: Note) -> Note
    ensures value { result ≡ words.farther p note other }
    ensures bound { result.start ≤ max note.start other.start }
{
    if away(p, note) < away(p, other) {
        return other;
    }
    note
}

/// Of a note and those before it the one that is farthest from its pitch.
fn farthest(score: &Score, v: u8, note: Note) -> Note
    requires { note.start ≤ length score.now.columns }
    ensures value { result
        ≡ words.farthest note.pitch note (notes_up_to score.now.columns v note.start) }
    ensures bound { result.start ≤ length score.now.columns }
{
    let mut far = note;
    let mut end = note.start;
    while let Some(other) = note_behind(score, v, end) {
        far = farther(note.pitch, far, other);
        end = other.start;
    }
    far
}

/// Where the note starts that is farthest from the one at a column, of those so far.
pub fn farthest_start(score: &Score, v: u8, i: usize) -> usize
    requires { i < length score.now.columns }
    ensures value { result ≡ words.farthest_start score.now.columns v i }
    ensures bound { result ≤ length score.now.columns }
{
    let _ = score.len();
    match note_behind(score, v, i + 1) {
        Some(note) => farthest(score, v, note).start,
        None => i,
    }
}

/// Where the note far back starts that counts for a rule, where one does.
pub fn far_start(rule: u8, score: &Score, v: u8, i: usize) -> Option<usize>
    requires { i < length score.now.columns }
    ensures value { result ≡ words.far_start rule score.now.columns v i }
    ensures bound { IfSome result (λ start. start ≤ length score.now.columns) }
{
    match rule {
        8 => Some(turning_start(score, v, i)),
        9 => Some(farthest_start(score, v, i)),
        _ => None,
    }
}
