//! From which column to which a voice's notes count for a break.

ghost use Rattle.std.specs.Prelude.{◌≡◌, ◌<◌, ◌≤◌, length};
ghost use Rattle.class_marker.specs.Notes as words;

use fux_grid::{Cell, Exercise, Score, note_behind, onset_ahead, species_of};

/// Where the latest note of a voice starts that starts before a column; the column, where none
/// does.
fn start_before(score: &Score, v: u8, n: usize) -> usize
    requires { n ≤ length score.now.columns }
    ensures value { result ≡ words.start_before score.now.columns v n }
    ensures bound { result ≤ n }
{
    match note_behind(score, v, n) {
        Some(note) => note.start,
        None => n,
    }
}

/// Where the note of a voice starts that sounds at a column.
pub fn latest_start(score: &Score, v: u8, i: usize) -> usize
    requires { i < length score.now.columns }
    ensures value { result ≡ words.latest_start score.now.columns v i }
    ensures bound { result ≤ length score.now.columns }
{
    let _ = score.len();
    start_before(score, v, i + 1)
}

/// Where the note before that starts.
pub fn previous_start(score: &Score, v: u8, i: usize) -> usize
    requires { i < length score.now.columns }
    ensures value { result ≡ words.previous_start score.now.columns v i }
    ensures bound { result ≤ length score.now.columns }
{
    start_before(score, v, latest_start(score, v, i))
}

/// Where the note before that one starts.
pub fn third_start(score: &Score, v: u8, i: usize) -> usize
    requires { i < length score.now.columns }
    ensures { result ≡ words.third_start score.now.columns v i }
{
    start_before(score, v, previous_start(score, v, i))
}

/// Where the first note of a voice behind a column starts; the column, where none does.
pub fn next_start(score: &Score, v: u8, i: usize) -> usize
    requires { i < length score.now.columns }
    ensures value { result ≡ words.next_start score.now.columns v i }
    ensures bound { result < length score.now.columns }
{
    let _ = score.len();
    match onset_ahead(score, v, i + 1) {
        Some(onset) => onset.start,
        None => i,
    }
}

/// Whether a rule is of two moves of a voice.
fn has_two_moves(rule: u8) -> bool
    ensures { result ≡ words.has_two_moves rule }
{
    rule == 6 || rule == 7 || rule == 22
}

/// Whether the note before doesn't count for a rule.
fn is_of_one_note(rule: u8) -> bool
    ensures { result ≡ words.is_of_one_note rule }
{
    rule == 9 || rule == 20 || rule == 28
}

/// The first column of which a voice's notes count for a break at column `i`.
pub fn first_column(rule: u8, score: &Score, v: u8, i: usize) -> usize
    requires { i < length score.now.columns }
    ensures { result ≡ words.first_column rule score.now.columns v i }
{
    if rule == 3 {
        return i;
    }
    if rule == 18 {
        return latest_start(score, v, i.saturating_sub(8));
    }
    if is_of_one_note(rule) {
        return latest_start(score, v, i);
    }
    if has_two_moves(rule) {
        return third_start(score, v, i);
    }
    previous_start(score, v, i)
}

/// Where the last note starts that may excuse one at a column, in this species.
fn excusing_start(species: u8, score: &Score, v: u8, i: usize) -> usize
    requires { i < length score.now.columns }
    ensures value { result ≡ words.excusing_start species score.now.columns v i }
    ensures bound { result < length score.now.columns }
{
    let next = next_start(score, v, i);
    if species == 3 || species == 5 {
        return next_start(score, v, next);
    }
    next
}

/// The same of a voice that starts a note at the column, else the column.
fn last_of_excuse(ex: &Exercise, score: &Score, v: u8, i: usize) -> usize
    requires { i < length score.now.columns }
    ensures value { result ≡ words.last_of_excuse ex.now score.now.columns v i }
    ensures bound { result < length score.now.columns }
{
    match score.cell(v as usize, i) {
        Cell::Start(_) => excusing_start(species_of(ex, v), score, v, i),
        _ => i,
    }
}

/// The last column of which they count.
pub fn last_column(ex: &Exercise, rule: u8, score: &Score, v: u8, i: usize) -> usize
    requires { i < length score.now.columns }
    ensures value { result ≡ words.last_column ex.now rule score.now.columns v i }
    ensures few { result < 200 }
{
    let _ = score.len();
    if rule == 3 {
        return i + 7;
    }
    if rule == 20 {
        return i + 4;
    }
    if rule == 28 {
        return i + 3;
    }
    if rule == 25 {
        return next_start(score, v, i);
    }
    if rule == 15 || rule == 27 {
        return last_of_excuse(ex, score, v, i);
    }
    i
}
