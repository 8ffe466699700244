//! The words of the rules.

ghost use Rattle.std.specs.Prelude.{◌≡◌, ◌≤◌, ◌&&◌, length, IfSome};
ghost use Rattle.std.specs.List.{position};
ghost use Rattle.fux_pitch.specs.Size.{IsShort, is_perfect_size, reduced};
ghost use Rattle.fux_grid.specs.Columns.{line, earlier};
ghost use Rattle.rule_law.specs.Terms as terms;

use fux_grid::{Cell, Score, cell_of, note_behind};
use fux_pitch::{Interval, Pitch, interval_of, is_consonant_within, is_perfect, reduce};

/// Whether a note starts in the cell.
pub fn starts(cell: Cell) -> bool
    ensures { result ≡ terms.starts cell }
{
    match cell {
        Cell::Rest => false,
        Cell::Hold(_) => false,
        Cell::Start(_) => true,
    }
}

/// The interval between two cells that sound.
pub fn interval_of_cells(c: Cell, d: Cell) -> Option<Interval>
    ensures value { result ≡ terms.interval_of_cells c d }
    ensures short { IfSome result IsShort }
{
    match (c.pitch(), d.pitch()) {
        (Some(p), Some(q)) => Some(interval_of(p, q)),
        _ => None,
    }
}

/// The lowest voice that sounds.
pub fn lowest(column: &[Cell]) -> Option<usize>
    ensures { result ≡ position terms.sounds column.now }
{
    column.iter().position(|cell| cell.pitch().is_some())
}

/// Whether the voice is the lowest that sounds.
fn is_lowest(column: &[Cell], v: usize) -> bool
    ensures { result ≡ terms.is_lowest column.now v }
{
    match lowest(column) {
        Some(w) => w == v,
        None => false,
    }
}

/// Whether two voices clash in a column. Which voice is the lowest is asked only of a fourth or a
/// diminished fifth.
pub fn is_clash(column: &[Cell], v: usize, w: usize) -> bool
    ensures { result ≡ terms.clash column.now v w }
{
    let (Some(p), Some(q)) = (cell_of(column, v).pitch(), cell_of(column, w).pitch()) else {
        return false;
    };
    let size = reduce(interval_of(p, q));
    if is_consonant_within(size, true) {
        return false;
    }
    if !is_consonant_within(size, false) {
        return true;
    }
    is_lowest(column, v) || is_lowest(column, w)
}

/// Whether the voice clashes with no other.
pub fn is_clean(column: &[Cell], v: usize) -> bool
    ensures { result ≡ terms.is_clean column.now v }
{
    !(is_clash(column, v, 0)
        || is_clash(column, v, 1)
        || is_clash(column, v, 2)
        || is_clash(column, v, 3))
}

/// The pitch of the latest note of a voice before a column.
pub fn previous_pitch(score: &Score, v: u8, i: usize) -> Option<Pitch>
    requires { i ≤ length score.now.columns }
    ensures { result ≡ terms.previous_pitch (line v (earlier score.now.columns i)) }
{
    match note_behind(score, v, i) {
        Some(n) => Some(n.pitch),
        None => None,
    }
}

/// The move to the note that starts in a cell.
pub fn move_from(previous: Option<Pitch>, now: Cell) -> Option<Interval>
    ensures { result ≡ terms.move_from previous now }
{
    match (previous, now) {
        (Some(p), Cell::Start(q)) => Some(interval_of(p, q)),
        _ => None,
    }
}

/// Whether the voice starts a note of another pitch than it sounds before.
pub fn moves(before: Cell, now: Cell) -> bool
    ensures { result ≡ terms.moves before now }
{
    match (before.pitch(), now) {
        (Some(p), Cell::Start(q)) => p != q,
        _ => false,
    }
}

/// Whether the interval is that of a repetition.
pub fn is_repetition(i: Interval) -> bool
    ensures { result ≡ terms.is_repetition i }
{
    i.degrees == 0 && i.semitones == 0
}

/// Whether both are equal perfect intervals.
#[inline]
pub fn equal_perfects(i: Interval, j: Interval) -> bool
    requires first { IsShort i }
    requires second { IsShort j }
    ensures { result ≡ (is_perfect_size i && terms.same_size (reduced i) (reduced j)) }
{
    is_perfect(i) && reduce(i) == reduce(j)
}

/// Whether a voice sounds in the cell.
#[inline]
pub fn is_sounding(cell: Cell) -> bool
    ensures { result ≡ terms.sounds cell }
{
    cell.pitch().is_some()
}

/// Whether a move is a step.
#[inline]
pub fn is_step(i: Interval) -> bool
    ensures { result ≡ terms.is_step i }
{
    i.degrees.unsigned_abs() == 1
}

/// Whether a move is a leap.
#[inline]
pub fn is_leap(i: Interval) -> bool
    ensures { result ≡ terms.is_leap i }
{
    i.degrees.unsigned_abs() >= 2
}

/// Whether a move rises.
#[inline]
pub fn rises(i: Interval) -> bool
    ensures { result ≡ terms.rises i }
{
    i.semitones > 0
}

/// Whether a move falls.
#[inline]
pub fn falls(i: Interval) -> bool
    ensures { result ≡ terms.falls i }
{
    i.semitones < 0
}

/// Whether two moves both rise or both fall.
#[inline]
pub fn same_way(i: Interval, j: Interval) -> bool
    ensures { result ≡ terms.same_way i j }
{
    rises(i) && rises(j) || falls(i) && falls(j)
}

/// Whether one of two moves rises and the other falls.
#[inline]
pub fn opposite_ways(i: Interval, j: Interval) -> bool
    ensures { result ≡ terms.opposite_ways i j }
{
    rises(i) && falls(j) || falls(i) && rises(j)
}

/// The interval between two voices that sound in a column.
#[inline]
pub fn interval_in(column: &[Cell], v: usize, w: usize) -> Option<Interval>
    ensures value { result ≡ terms.interval_in column.now v w }
    ensures short { IfSome result IsShort }
{
    interval_of_cells(cell_of(column, v), cell_of(column, w))
}

/// Whether the reduced size of the interval is this one.
#[inline]
pub fn is_reduced_to(i: Interval, degrees: u8, semitones: u8) -> bool
    requires { IsShort i }
    ensures { result ≡ terms.is_reduced_to degrees semitones i }
{
    let size = reduce(i);
    size.degrees == i16::from(degrees) && size.semitones == i16::from(semitones)
}
