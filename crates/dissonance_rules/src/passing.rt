//! S15: notes that start within a bar and clash, and what makes them good: passing notes, neighbors
//! and the cambiata.

ghost use Rattle.std.specs.Prelude.{◌≡◌, ◌+◌, ◌-◌, ◌*◌, ◌<◌, ◌≤◌, ◌&&◌, ℕ, IfSome, true, not, nat_lt, drop};
ghost use Rattle.fux_grid.specs.Cells.{first_of};
ghost use Rattle.fux_grid.specs.Columns.{Columns};
ghost use Rattle.fux_grid.specs.Exercises.{IsValid};
ghost use Rattle.rule_law.specs.After.{second_of};
ghost use Rattle.rule_law.specs.Bars as terms;
ghost use Rattle.rule_law.specs.Places.{reading_of};
ghost use Rattle.rule_law.specs.Voices as voices;
ghost use Rattle.dissonance_rules.specs.Passing as words;
ghost use Rattle.dissonance_rules.specs.Told.{is_open_within};
ghost use Rattle.rule_law.specs.Within.{notes_within};

use fux_grid::{Cell, Exercise, Onset, cell_of, is_mixed, species_of};
use fux_pitch::{Pitch, interval_of};
use rule_law::{
    ColumnsAround, begins_bar, cell_around, cells_ahead, falls, is_clash, is_clean, is_free,
    is_step, lies_above, next_onset, note_within, onset_pitch, same_way, starts,
};

/// A passing note: the move to it and the move from it are steps the same way.
pub fn is_passing(previous: Option<Pitch>, here: Option<Pitch>, next: Option<Pitch>) -> bool
    ensures { result ≡ words.is_passing previous here next }
{
    match (previous, here, next) {
        (Some(p), Some(q), Some(r)) => {
            let (to, from) = (interval_of(p, q), interval_of(q, r));
            is_step(to) && is_step(from) && same_way(to, from)
        }
        _ => false,
    }
}

/// A neighbor: both are steps, and the next note has the pitch of the previous one.
pub fn is_neighbor(previous: Option<Pitch>, here: Option<Pitch>, next: Option<Pitch>) -> bool
    ensures { result ≡ words.is_neighbor previous here next }
{
    match (previous, here, next) {
        (Some(p), Some(q), Some(r)) => {
            is_step(interval_of(p, q)) && is_step(interval_of(q, r)) && p == r
        }
        _ => false,
    }
}

/// Whether there are both pitches, and the second is a step below the first.
pub fn falls_by_step(p: Option<Pitch>, q: Option<Pitch>) -> bool
    ensures { result ≡ words.falls_by_step p q }
{
    match (p, q) {
        (Some(p), Some(q)) => {
            let to = interval_of(p, q);
            is_step(to) && falls(to)
        }
        _ => false,
    }
}

/// A cambiata: the note falls by a step; the next note lies two degrees below it, and is clean at
/// its start; the note after that lies one degree above the next.
pub fn is_cambiata(
    previous: Option<Pitch>,
    here: Option<Pitch>,
    next: Option<Pitch>,
    clean: bool,
    after: Option<Pitch>,
) -> bool
    ensures { result ≡ words.is_cambiata previous here next clean after }
{
    falls_by_step(previous, here)
        && lies_above(2, here, next)
        && clean
        && lies_above(1, after, next)
}

/// Whether neighbors and cambiatas are good too.
pub(crate) fn has_ornaments(species: u8) -> bool
    ensures { result ≡ words.has_ornaments species }
{
    species == 3 || species == 5
}

/// Whether a note is good: a passing note, or in species 3 and 5 a neighbor or a cambiata.
pub fn is_good(
    species: u8,
    previous: Option<Pitch>,
    here: Option<Pitch>,
    next: Option<Pitch>,
    clean: bool,
    after: Option<Pitch>,
) -> bool
    ensures { result ≡ words.is_good species previous here next clean after }
{
    if is_passing(previous, here, next) {
        return true;
    }
    has_ornaments(species)
        && (is_neighbor(previous, here, next) || is_cambiata(previous, here, next, clean, after))
}

/// Whether a note of `v` starts, and it clashes with `w`.
pub fn starts_in_clash(now: &[Cell], v: usize, w: usize) -> bool
    ensures { result ≡ words.starts_in_clash now.now v w }
{
    starts(cell_of(now, v)) && is_clash(now, v, w)
}

/// Whether a note of `v` starts within a bar, and clashes with `w`.
#[inline]
fn clashes_within_bar(i: usize, now: &[Cell], v: usize, w: usize) -> bool
    ensures { result ≡ (not (terms.begins_bar i) && words.starts_in_clash now.now v w) }
{
    !begins_bar(i) && starts_in_clash(now, v, w)
}

/// Whether so many columns have one of the last bar.
#[inline]
pub(crate) fn reaches_last_bar(ex: &Exercise, columns: usize) -> bool
    requires { IsValid ex.now }
    ensures { result ≡ nat_lt (8 * (ex.now.bars - 1)) columns }
{
    let bars = usize::from(ex.bars);
    columns > 8 * (bars - 1)
}

/// The next two notes that a voice starts after a column.
#[derive(Clone, Copy, Debug, PartialEq, Eq)]
struct NextNotes {
    first: Option<Onset>,
    second: Option<Onset>,
}

/// Those after column `i`, in the first columns of the list.
fn next_notes<C: ColumnsAround>(around: &C, ex: &Exercise, i: usize, v: u8, end: usize) -> NextNotes
    requires voices { ex.now.voices ≤ 4 }
    requires within { end ≤ C.size around.now }
    requires place { i < end }
    ensures first { (s : Columns) (first : ℕ) → C.show around.now ex.now s first → first ≤ i →
        result.first ≡ first_of (notes_within s end v (i + 1)) }
    ensures second { (s : Columns) (first : ℕ) → C.show around.now ex.now s first → first ≤ i →
        result.second ≡ second_of (notes_within s end v (i + 1)) }
    ensures later { IfSome result.first (λ onset. i < onset.start) }
    ensures there { IfSome result.first (λ onset. onset.start < end) }
{
    let first = note_within(around, ex, v, i + 1, end);
    let second = match first {
        Some(onset) => note_within(around, ex, v, onset.start + 1, end),
        None => None,
    };
    NextNotes { first, second }
}

/// Whether a voice is clean where a note starts.
fn is_clean_at<C: ColumnsAround>(
    around: &C,
    ex: &Exercise,
    i: usize,
    v: u8,
    note: Option<Onset>,
) -> bool
    requires voices { ex.now.voices ≤ 4 }
    requires later { IfSome note (λ onset. i < onset.start) }
    requires there { IfSome note (λ onset. onset.start < 192) }
    ensures { (s : Columns) (first : ℕ) → C.show around.now ex.now s first → first ≤ i →
        result ≡ words.starts_clean i (drop (i + 1) s) v note }
{
    match note {
        Some(onset) => is_clean(
            cells_ahead(around, ex, i, onset.start - (i + 1)),
            v as usize,
        ),
        None => false,
    }
}

/// Whether by its pitches a note may be a cambiata, as far as the next note.
#[inline]
fn bends_down(previous: Option<Pitch>, here: Option<Pitch>, next: Option<Pitch>) -> bool
    ensures { result ≡ words.bends_down previous here next }
{
    falls_by_step(previous, here) && lies_above(2, here, next)
}

/// Whether a voice is clean where a note starts, which is asked only where it is said to matter.
fn is_clean_where<C: ColumnsAround>(
    around: &C,
    ex: &Exercise,
    i: usize,
    v: u8,
    note: Option<Onset>,
    asked: bool,
) -> bool
    requires voices { ex.now.voices ≤ 4 }
    requires later { IfSome note (λ onset. i < onset.start) }
    requires there { IfSome note (λ onset. onset.start < 192) }
    ensures { (s : Columns) (first : ℕ) → C.show around.now ex.now s first → first ≤ i →
        result ≡ (asked && words.starts_clean i (drop (i + 1) s) v note) }
{
    if !asked {
        return false;
    }
    is_clean_at(around, ex, i, v, note)
}

/// Whether the note of a free voice that starts at column `i` is good, by the next two notes. That
/// the voice is clean at the next one is asked only where it may be a cambiata.
fn is_good_by_two<C: ColumnsAround>(around: &C, ex: &Exercise, i: usize, v: u8) -> bool
    requires voices { ex.now.voices ≤ 4 }
    requires room { C.size around.now ≤ 192 }
    requires place { i < C.size around.now }
    ensures { (s : Columns) (first : ℕ) → C.show around.now ex.now s first → first ≤ i - 1
        → voices.is_free ex.now v ≡ true → result ≡ reading_of (words.is_good_in ex.now) s i v }
{
    let next = next_notes(around, ex, i, v, around.count());
    let previous = around.pitch_before(ex, v, i);
    let now = cell_around(around, ex, v, i);
    let here = now.pitch();
    let follows = onset_pitch(next.first);
    let after = onset_pitch(next.second);
    let bent = bends_down(previous, here, follows);
    let clean = is_clean_where(around, ex, i, v, next.first, bent);
    is_good(species_of(ex, v), previous, here, follows, clean, after)
}

/// Whether the note of a free voice that starts at column `i` is good. The note after the next one
/// is looked for only where it may be a cambiata.
pub(crate) fn is_good_note<C: ColumnsAround>(around: &C, ex: &Exercise, i: usize, v: u8) -> bool
    requires voices { ex.now.voices ≤ 4 }
    requires room { C.size around.now ≤ 192 }
    requires place { i < C.size around.now }
    ensures { (s : Columns) (first : ℕ) → C.show around.now ex.now s first → first ≤ i - 1
        → voices.is_free ex.now v ≡ true → result ≡ reading_of (words.is_good_in ex.now) s i v }
{
    let previous = around.pitch_before(ex, v, i);
    let here = cell_around(around, ex, v, i).pitch();
    let follows = onset_pitch(next_onset(around, ex, v, i));
    if !bends_down(previous, here, follows) {
        return is_good(species_of(ex, v), previous, here, follows, false, None);
    }
    is_good_by_two(around, ex, i, v)
}

/// Whether a free voice starts a note at column `i` that isn't good.
pub(crate) fn starts_badly<C: ColumnsAround>(around: &C, ex: &Exercise, i: usize, v: u8) -> bool
    requires voices { ex.now.voices ≤ 4 }
    requires room { C.size around.now ≤ 192 }
    requires place { i < C.size around.now }
    ensures { (s : Columns) (first : ℕ) → C.show around.now ex.now s first → first ≤ i - 1 →
        result ≡ reading_of (words.starts_badly ex.now) s i v }
{
    if !starts(cell_around(around, ex, v, i)) || !is_free(ex, v) {
        return false;
    }
    !is_good_note(around, ex, i, v)
}

/// S15, for one way to name the voices, where one species is given: whether a note of `v`, a free
/// voice, starts within a bar and clashes with `w`, and isn't good.
pub(crate) fn clashes_badly<C: ColumnsAround>(
    around: &C,
    ex: &Exercise,
    i: usize,
    v: u8,
    w: u8,
) -> bool
    requires voices { ex.now.voices ≤ 4 }
    requires room { C.size around.now ≤ 192 }
    requires place { i < C.size around.now }
    ensures { (s : Columns) (first : ℕ) → C.show around.now ex.now s first → first ≤ i - 1
        → voices.is_free ex.now v ≡ true → result ≡ words.clashes_badly_at ex.now s i v w }
{
    if is_mixed(ex) || !clashes_within_bar(i, around.cells(ex, i), v as usize, w as usize) {
        return false;
    }
    !is_good_note(around, ex, i, v)
}

/// Whether S15 is open for one way to name the voices in the first columns of the list.
pub(crate) fn is_open_clash<C: ColumnsAround>(
    around: &C,
    ex: &Exercise,
    i: usize,
    end: usize,
    v: u8,
    w: u8,
) -> bool
    requires valid { IsValid ex.now }
    requires within { end ≤ C.size around.now }
    requires place { i < end }
    ensures { (s : Columns) (first : ℕ) → C.show around.now ex.now s first → first ≤ i →
        result ≡ is_open_within ex.now s end i v w }
{
    if !starts_in_clash(around.cells(ex, i), v as usize, w as usize) {
        return false;
    }
    if reaches_last_bar(ex, end) {
        return false;
    }
    let next = next_notes(around, ex, i, v, end);
    if has_ornaments(species_of(ex, v)) {
        return next.second.is_none();
    }
    next.first.is_none()
}
