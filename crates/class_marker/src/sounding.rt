//! The intervals that count for a break.

ghost use Rattle.std.specs.Prelude.{◌≡◌, ◌<◌, [], length, slice_index_or};
ghost use Rattle.fux_grid.specs.Columns.{sound_at};
ghost use Rattle.rule_law.specs.Terms.{lowest_voice};
ghost use Rattle.class_marker.specs.Sounding as words;

use crate::columns::{next_start, previous_start, third_start};
use crate::far::{farthest_start, turning_start};
use fux_grid::{Exercise, Score, sounding};
use fux_pitch::Pitch;
use rule_law::lowest;

/// The pitch that a voice sounds at a column; none beyond the end.
fn sound(score: &Score, v: u8, i: usize) -> Option<Pitch>
    ensures { result ≡ sound_at score.now.columns v i }
{
    if i < score.len() {
        sounding(score, v, i)
    } else {
        None
    }
}

/// The pitches that two voices sound at a column, where both do.
fn both_sound(score: &Score, v: u8, w: u8, i: usize) -> Option<(Pitch, Pitch)>
    ensures { result ≡ words.both_sound score.now.columns v w i }
{
    match (sound(score, v, i), sound(score, w, i)) {
        (Some(p), Some(q)) => Some((p, q)),
        _ => None,
    }
}

/// The column before column `i` that counts for two voices.
fn earlier_column(rule: u8, i: usize) -> usize
    ensures { result ≡ words.earlier_column rule i }
{
    if rule == 18 {
        return i.saturating_sub(8);
    }
    i.saturating_sub(1)
}

/// What two voices sound first.
pub fn sounded_first(rule: u8, score: &Score, v: u8, w: u8, i: usize) -> Option<(Pitch, Pitch)>
    ensures { result ≡ words.sounded_first rule score.now.columns v w i }
{
    if rule == 20 {
        return both_sound(score, v, w, i);
    }
    if i == 0 {
        return None;
    }
    both_sound(score, v, w, earlier_column(rule, i))
}

/// And what then.
pub fn sounded_then(rule: u8, score: &Score, v: u8, w: u8, i: usize) -> Option<(Pitch, Pitch)>
    requires { i < 2040 }
    ensures { result ≡ words.sounded_then rule score.now.columns v w i }
{
    if rule == 20 {
        return both_sound(score, v, w, i + 4);
    }
    both_sound(score, v, w, i)
}

/// The pitches that a voice sounds at two columns.
fn sung(score: &Score, v: u8, from: usize, to: usize) -> Option<(Pitch, Pitch)>
    ensures { result ≡ words.sung score.now.columns v from to }
{
    match (sound(score, v, from), sound(score, v, to)) {
        (Some(p), Some(q)) => Some((p, q)),
        _ => None,
    }
}

/// What a voice sings first.
pub fn sung_first(rule: u8, score: &Score, v: u8, i: usize) -> Option<(Pitch, Pitch)>
    requires { i < length score.now.columns }
    ensures { result ≡ words.sung_first rule score.now.columns v i }
{
    if rule == 7 {
        return sung(
            score,
            v,
            third_start(score, v, i),
            previous_start(score, v, i),
        );
    }
    if rule == 25 {
        return sung(score, v, previous_start(score, v, i), i);
    }
    None
}

/// Whether a rule is of the move to the note at its place.
fn is_of_a_move(rule: u8) -> bool
    ensures { result ≡ words.is_of_a_move rule }
{
    rule == 4 || rule == 5 || rule == 7 || rule == 26 || rule == 33
}

/// What the lowest voice of a column and another one sound; where that is the lowest itself, the
/// cantus and that one.
fn with_lowest(ex: &Exercise, score: &Score, v: u8, i: usize) -> Option<(Pitch, Pitch)>
    requires { i < length score.now.columns }
    ensures { result ≡ words.with_lowest ex.now score.now.columns v i
        (lowest_voice (slice_index_or score.now.columns i [])) }
{
    let w = lowest(score.column(i).as_slice())? as u8;
    if w == v {
        return both_sound(score, v, ex.cantus_voice, i);
    }
    both_sound(score, w, v, i)
}

/// What a voice sings then, or alone.
pub fn sung_then(ex: &Exercise, rule: u8, score: &Score, v: u8, i: usize) -> Option<(Pitch, Pitch)>
    requires { i < length score.now.columns }
    ensures { result ≡ words.sung_then ex.now rule score.now.columns v i }
{
    if is_of_a_move(rule) {
        return sung(score, v, previous_start(score, v, i), i);
    }
    match rule {
        6 => sung(score, v, third_start(score, v, i), i),
        8 => sung(
            score,
            v,
            turning_start(score, v, i),
            previous_start(score, v, i),
        ),
        9 => sung(score, v, farthest_start(score, v, i), i),
        25 => sung(score, v, i, next_start(score, v, i)),
        12 => with_lowest(ex, score, v, i),
        _ => None,
    }
}
