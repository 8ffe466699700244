//! S22: the cadence at the beginning of the last bar.

ghost use Rattle.std.specs.Prelude.{◌≡◌, ◌-◌, ◌==◌, ◌<◌, ◌≤◌, ◌&&◌, [], ℕ, nat_lt, length, reverse, slice_index_or};
ghost use Rattle.std.specs.List.{list_all};
ghost use Rattle.fux_grid.specs.Cells.{is_hold};
ghost use Rattle.fux_grid.specs.Columns.{Columns, HistoryFollows};
ghost use Rattle.fux_grid.specs.Exercises.{IsValid};
ghost use Rattle.rule_law.specs.Forms.{set_of_all};
ghost use Rattle.rule_law.specs.Places.{reading_back, reading_of};
ghost use Rattle.rhythm_cadence.specs.BarCells as bars;
ghost use Rattle.rhythm_cadence.specs.Cadence as words;
ghost use Rattle.rhythm_cadence.specs.Cadence.{cadence_row};

use crate::bar_cells::bar_behind;
use crate::rows::{begins_last_bar, is_final};
use fux_grid::{Cell, Exercise, VoiceSet, cell_of, species_of};
use fux_pitch::Pitch;
use rule_law::{ColumnsAround, cell_around, interval_in, is_leading, lies_above};

/// The slot of the last bar but one on which the leading note starts, by the voice's species.
pub fn leading_slot(species: u8) -> usize
    ensures value { result ≡ words.leading_slot species }
    ensures bound { result < 8 }
{
    match species {
        1 => 0,
        3 => 6,
        _ => 4,
    }
}

/// Whether a final starts in the cell.
fn starts_final(ex: &Exercise, cell: Cell) -> bool
    ensures { result ≡ words.starts_final ex.now cell }
{
    match cell {
        Cell::Start(p) => is_final(ex, p),
        _ => false,
    }
}

/// Whether a pitch is the leading note, one degree below the final.
fn is_lead(ex: &Exercise, last: Option<Pitch>, lead: Option<Pitch>) -> bool
    ensures { result ≡ words.is_lead ex.now last lead }
{
    match lead {
        Some(p) => is_leading(ex.mode, p) && lies_above(1, last, Some(p)),
        None => false,
    }
}

/// Whether a voice lies a seventh above the cantus, or a second below it, but for octaves.
pub fn is_suspended(ex: &Exercise, column: &[Cell], v: u8) -> bool
    ensures { result ≡ words.is_suspended ex.now column.now v }
{
    let wanted = if ex.cantus_voice < v { 6 } else { 1 };
    match interval_in(column, v as usize, ex.cantus_voice as usize) {
        Some(size) => size.degrees.unsigned_abs() % 7 == wanted,
        None => false,
    }
}

/// Whether the leading note of a species is prepared by a suspension.
pub fn has_suspension(species: u8) -> bool
    ensures { result ≡ words.has_suspension species }
{
    species == 4 || species == 5
}

/// Whether a voice holds a pitch one degree above the leading note, suspended so.
fn holds_suspension(ex: &Exercise, column: &[Cell], lead: Option<Pitch>, v: u8) -> bool
    ensures { result ≡ words.holds_suspension ex.now column.now lead v }
{
    let cell = cell_of(column, v as usize);
    cell.is_hold() && lies_above(1, cell.pitch(), lead) && is_suspended(ex, column, v)
}

/// Whether the set has all voices, and no others.
#[inline]
fn has_all_voices(ex: &Exercise, voices: VoiceSet) -> bool
    ensures { result ≡ (voices.bits == set_of_all ex.now.voices) }
{
    match ex.voices {
        2 => voices.bits == 3,
        3 => voices.bits == 7,
        _ => voices.bits == 15,
    }
}

/// Whether all these cells hold a note.
fn are_held(cells: &[Cell]) -> bool
    ensures { result ≡ list_all is_hold cells.now }
{
    cells.iter().all(|cell| cell.is_hold())
}

/// The pitch of the note that is held in exactly so many of the newest of these cells, and started
/// before them.
fn held_pitch(cells: &[Cell], held: usize) -> Option<Pitch>
    requires { held < length cells.now }
    ensures { result ≡ words.held_pitch held cells.now }
{
    if !are_held(&cells[..held]) {
        return None;
    }
    match cells[held] {
        Cell::Start(p) => Some(p),
        _ => None,
    }
}

/// Whether a voice shows its cadence at column `i`, by its cells in the bar before and by the
/// column that began that bar.
fn ends_well<C: ColumnsAround>(around: &C, ex: &Exercise, i: usize, v: u8) -> bool
    requires voices { ex.now.voices ≤ 4 }
    requires place { 8 ≤ i }
    ensures { (s : Columns) (first : ℕ) → C.show around.now ex.now s first → first ≤ i - 8 → result
        ≡ words.ends_well ex.now (slice_index_or s (i - 8) []) (bars.bar_behind s v i)
        (slice_index_or s i []) v }
{
    let cell = cell_around(around, ex, v, i);
    if !starts_final(ex, cell) {
        return false;
    }
    let species = species_of(ex, v);
    let lead = held_pitch(&bar_behind(around, ex, v, i), 7 - leading_slot(species));
    if !is_lead(ex, cell.pitch(), lead) {
        return false;
    }
    !has_suspension(species) || holds_suspension(ex, around.cells(ex, i - 8), lead, v)
}

/// Whether a voice is there and shows its cadence at column `i`, the beginning of the last bar: it
/// starts the final there, after the leading note one degree below, which began on its slot of the
/// bar before: the first for species 1 and the cantus, the seventh for species 3, the fifth for the
/// others. In species 4 and 5 a suspension came before it.
pub fn shows_cadence<C: ColumnsAround>(around: &C, ex: &Exercise, i: usize, v: u8) -> bool
    requires voices { ex.now.voices ≤ 4 }
    requires place { 8 ≤ i }
    ensures { (s : Columns) (first : ℕ) → C.show around.now ex.now s first → first ≤ i - 8 → i
        < length s → HistoryFollows (reverse s) → result
        ≡ (nat_lt v ex.now.voices && reading_back (words.shows_cadence ex.now) s i v) }
{
    v < ex.voices && ends_well(around, ex, i, v)
}

/// S22: whether at column `i`, if the last bar begins there, no voice shows its cadence. It is
/// broken for the set of all voices.
pub fn breaks_cadence<C: ColumnsAround>(
    around: &C,
    ex: &Exercise,
    voices: VoiceSet,
    i: usize,
) -> bool
    requires { IsValid ex.now }
    ensures { (s : Columns) (first : ℕ) → C.show around.now ex.now s first → first ≤ i - 8 → i
        < length s → HistoryFollows (reverse s) → result
        ≡ reading_of (cadence_row ex.now voices.bits) s i }
{
    if !begins_last_bar(ex, i) || !has_all_voices(ex, voices) {
        return false;
    }
    !(shows_cadence(around, ex, i, 0)
        || shows_cadence(around, ex, i, 1)
        || shows_cadence(around, ex, i, 2)
        || shows_cadence(around, ex, i, 3))
}
