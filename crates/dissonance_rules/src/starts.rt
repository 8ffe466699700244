//! What is kept of a prefix for S15 and S27: where each voice's latest notes start.

ghost use Rattle.std.specs.Prelude.{◌≡◌, ◌≤◌, ◌<◌, ◌+◌, ◌++◌, ◌∷◌, ◌||◌, [], List, ℕ, IfSome, Some, false, length, slice_index_or};
ghost use Rattle.fux_grid.specs.declared.cell.Cell.{Cell as ACell};
ghost use Rattle.fux_grid.specs.Cells.{cell_in};
ghost use Rattle.fux_grid.specs.Columns.{Columns};
ghost use Rattle.fux_grid.specs.Exercises.{species_in};
ghost use Rattle.rule_law.specs.Bars as bars;
ghost use Rattle.rule_law.specs.RuleCrates.{KeptWith};
ghost use Rattle.dissonance_rules.specs.Starts as words;
ghost use Rattle.dissonance_rules.specs.Starts.{AreStartsOf, IsStartsOf, is_told_at};

use crate::passing::has_ornaments;
use fux_grid::{Cell, Exercise, cell_of, species_of};
use rule_law::{begins_bar, is_free, starts};

/// Behind which columns the latest note of a voice starts, the one before it, and the note that the
/// latest one tells of: 0 where there is none.
#[derive(Clone, Copy, Debug, PartialEq, Eq)]
pub struct LatestStarts {
    latest: u8,
    second: u8,
    told: u8,
}

/// No note has started.
pub(crate) fn no_starts() -> LatestStarts
    ensures { (species v : ℕ) → IsStartsOf species [] v result }
{
    LatestStarts {
        latest: 0,
        second: 0,
        told: 0,
    }
}

/// Behind which column the note starts that the next one tells of.
#[inline]
fn next_told(species: u8, kept: &LatestStarts) -> u8
    ensures { result ≡ words.next_told species kept.now }
{
    if has_ornaments(species) {
        kept.second
    } else {
        kept.latest
    }
}

/// Takes in the cell of a voice in one column more, column `i`.
#[inline]
fn note_cell(ex: &Exercise, v: u8, i: usize, kept: &mut LatestStarts, cell: Cell)
    requires { i < 192 }
    ensures { (p : Columns) (col : List ACell) → length p ≡ i → cell ≡ cell_in col v
        → IsStartsOf (species_in ex.now v) p v kept.old
        → IsStartsOf (species_in ex.now v) (p ++ col ∷ []) v kept.new }
{
    if !starts(cell) {
        return;
    }
    kept.told = next_told(species_of(ex, v), kept);
    kept.second = kept.latest;
    kept.latest = i as u8 + 1;
}

/// Takes in one column more, column `i`. A voice that has no cell in it starts no note.
#[inline]
pub(crate) fn note_starts(voices: &mut [LatestStarts; 4], ex: &Exercise, i: usize, column: &[Cell])
    requires { i < 192 }
    ensures { KeptWith (AreStartsOf ex.now) i column.now voices.old voices.new }
{
    for v in 0..column.len().min(4) {
        note_cell(ex, v as u8, i, &mut voices[v], cell_of(column, v));
    }
}

/// Behind which column the latest note of a voice starts.
#[inline]
fn latest_of(voices: &[LatestStarts; 4], v: u8) -> usize
    requires { v < 4 }
    ensures { result ≡ (slice_index_or voices.now v words.no_starts).latest }
{
    usize::from(voices[v as usize].latest)
}

/// Behind which column the note of a voice starts that its latest one tells of.
#[inline]
fn told_of(voices: &[LatestStarts; 4], v: u8) -> usize
    requires { v < 4 }
    ensures { result ≡ (slice_index_or voices.now v words.no_starts).told }
{
    usize::from(voices[v as usize].told)
}

/// The place of the note that the latest one of a voice tells of, where that one starts in the last
/// of so many columns, and the place is one from a first one on, before this column and within a
/// bar.
#[inline]
pub(crate) fn told_place(
    voices: &[LatestStarts; 4],
    v: u8,
    first: usize,
    last: usize,
) -> Option<usize>
    requires voice { v < 4 }
    requires last { last < 192 }
    ensures from { IfSome result (λ place. first ≤ place) }
    ensures before { IfSome result (λ place. place < last) }
    ensures told { (i : ℕ) → (slice_index_or voices.now v words.no_starts).latest ≡ last + 1
        → (slice_index_or voices.now v words.no_starts).told ≡ i + 1 → first ≤ i → i < last
        → bars.begins_bar i ≡ false → result ≡ Some i }
{
    if latest_of(voices, v) != last + 1 {
        return None;
    }
    let told = told_of(voices, v);
    if told <= first || told > last {
        return None;
    }
    if begins_bar(told - 1) {
        return None;
    }
    Some(told - 1)
}

/// Whether the latest note of a voice tells what its note at a place is.
#[inline]
fn is_told(voices: &[LatestStarts; 4], place: usize, v: u8) -> bool
    requires place { place < 192 }
    requires voice { v < 4 }
    ensures { result ≡ is_told_at voices.now place v }
{
    told_of(voices, v) == place + 1
}

/// Whether the latest note of one of two voices tells what its note at a place is.
#[inline]
pub(crate) fn one_tells(voices: &[LatestStarts; 4], place: usize, v: u8, w: u8) -> bool
    requires place { place < 192 }
    requires first { v < 4 }
    requires second { w < 4 }
    ensures { result ≡ (is_told_at voices.now place v || is_told_at voices.now place w) }
{
    is_told(voices, place, v) || is_told(voices, place, w)
}

/// Whether a free voice starts a note in a column.
#[inline]
fn starts_free(ex: &Exercise, now: &[Cell], v: u8) -> bool
    ensures { result ≡ words.starts_free ex.now now.now v }
{
    is_free(ex, v) && starts(cell_of(now, v as usize))
}

/// Whether a free voice starts a note at a place, whose cells these are, and the columns don't tell
/// yet what it is.
#[inline]
fn is_untold(voices: &[LatestStarts; 4], ex: &Exercise, now: &[Cell], place: usize, v: u8) -> bool
    requires { v < 4 }
    ensures { result ≡ words.is_untold ex.now voices.now now.now place v }
{
    if !starts_free(ex, now, v) {
        return false;
    }
    told_of(voices, v) <= place
}

/// Whether it starts one there, of which its latest note tells, which starts in the last of so many
/// columns.
#[inline]
fn is_told_now(
    voices: &[LatestStarts; 4],
    ex: &Exercise,
    now: &[Cell],
    place: usize,
    len: usize,
    v: u8,
) -> bool
    requires place { place < 192 }
    requires voice { v < 4 }
    ensures { result ≡ words.is_told_now ex.now voices.now now.now place len v }
{
    if !starts_free(ex, now, v) {
        return false;
    }
    told_of(voices, v) == place + 1 && latest_of(voices, v) == len
}

/// Whether the last of so many columns settles that two voices clash at a place, whose cells these
/// are: it tells of a note there, and none is untold.
#[inline]
pub(crate) fn closes_pair(
    voices: &[LatestStarts; 4],
    ex: &Exercise,
    now: &[Cell],
    place: usize,
    len: usize,
    v: u8,
    w: u8,
) -> bool
    requires place { place < 192 }
    requires first { v < 4 }
    requires second { w < 4 }
    ensures { result ≡ words.closes_pair ex.now voices.now now.now place len v w }
{
    if is_untold(voices, ex, now, place, v) || is_untold(voices, ex, now, place, w) {
        return false;
    }
    is_told_now(voices, ex, now, place, len, v) || is_told_now(voices, ex, now, place, len, w)
}
