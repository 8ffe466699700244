//! Whole bars, and whether one may come next in a canon.

ghost use Rattle.std.specs.Prelude.{◌≡◌, ◌<◌, ◌≤◌, ℕ, false, length};
ghost use Rattle.canon_space.specs.Canons as canons;
ghost use Rattle.canon_space.specs.Canons.{IsCanon};
ghost use Rattle.canon_space.specs.Kept.{history_of};
ghost use Rattle.canon_space.specs.Paths as paths;

use crate::canon::Canon;
use fux_grid::{Cell, cell_of};
use fux_pitch::{Pitch, in_gamut, semitone, spell};
use rhythm_cadence::is_final_in;

/// How many cells a voice may begin a bar with: a rest, or a note on each of the keys from 24 to
/// 96.
pub const CELLS: usize = 74;

/// The cells with which a bar begins, the lower voice first. Its notes are held to its end.
#[derive(Clone, Copy, Debug, PartialEq, Eq)]
pub struct Bar {
    pub(crate) cells: [Cell; 2],
}

impl Bar {
    /// Both voices rest.
    pub(crate) const RESTS: Bar = Bar {
        cells: [Cell::Rest; 2],
    };
}

/// The cell of a number: 0 is a rest, and notes are counted from 1 on by their keys.
fn numbered_cell(number: usize) -> Cell
    requires { number < 74 }
    ensures { result ≡ paths.numbered_cell number }
{
    if number == 0 {
        return Cell::Rest;
    }
    match spell(number as u8 + 23) {
        Some(pitch) => Cell::Start(pitch),
        None => Cell::Rest,
    }
}

/// The bar of a child's number.
pub fn numbered_bar(k: usize) -> Bar
    requires { k < 5476 }
    ensures { result.cells ≡ paths.numbered_bar k }
{
    Bar {
        cells: [numbered_cell(k / CELLS), numbered_cell(k % CELLS)],
    }
}

/// The bar that begins so many bars before the one after these bars, which stand from the oldest to
/// the newest; no cells where there is none.
pub fn bar_before(bars: &[Bar], count: usize) -> &[Cell]
    requires { 1 ≤ count }
    ensures { result.now ≡ canons.bar_before count (history_of bars.now) }
{
    if count > bars.len() {
        return &[];
    }
    &bars[bars.len() - count].cells
}

/// Whether a pitch may sound for a voice in a bar, counted from 1: it is in the bar's gamut and in
/// the voice's range.
fn may_sound(canon: &Canon, v: usize, bar: usize, pitch: Pitch) -> bool
    requires voice { v < 2 }
    requires first { 1 ≤ bar }
    requires last { bar ≤ canon.now.bars }
    ensures { result ≡ canons.may_sound canon.now v bar pitch }
{
    let (low, high) = canon.ranges[v];
    in_gamut(canon.mode, bar as u8, canon.bars, pitch)
        && semitone(low) <= semitone(pitch)
        && semitone(pitch) <= semitone(high)
}

/// Whether a voice has a whole note by this cell in the bar after these bars.
fn has_note(canon: &Canon, behind: &[Bar], v: usize, cell: Cell) -> bool
    requires voice { v < 2 }
    requires room { length behind.now < canon.now.bars }
    ensures { result ≡ canons.has_note canon.now (history_of behind.now) v cell }
{
    match cell {
        Cell::Start(pitch) => may_sound(canon, v, behind.len() + 1, pitch),
        _ => false,
    }
}

/// Whether the follower's note has as many degrees more than the leader's note of so many bars
/// before as the canon asks.
fn follows_leader(canon: &Canon, behind: &[Bar], cell: Cell) -> bool
    requires { IsCanon canon.now }
    ensures { result ≡ canons.follows_leader canon.now (history_of behind.now) cell }
{
    let led = bar_before(behind, canon.delay as usize);
    match (cell_of(led, canon.leader as usize), cell) {
        (Cell::Start(p), Cell::Start(q)) => {
            i16::from(q.degree()) == i16::from(p.degree()) + i16::from(canon.shift)
        }
        _ => false,
    }
}

/// Whether the follower rests, or follows the leader, where it is to.
fn follower_fits(canon: &Canon, behind: &[Bar], cell: Cell) -> bool
    requires canon { IsCanon canon.now }
    requires room { length behind.now < canon.now.bars }
    ensures { result ≡ canons.follower_fits canon.now (history_of behind.now) cell }
{
    if behind.len() < canon.delay as usize {
        return cell == Cell::Rest;
    }
    follows_leader(canon, behind, cell) && has_note(canon, behind, 1 - canon.leader as usize, cell)
}

/// Whether the bar after these bars is as a canon setting asks.
pub fn is_canon_bar(canon: &Canon, behind: &[Bar], now: &Bar) -> bool
    requires canon { IsCanon canon.now }
    requires two { length now.now.cells ≡ 2 }
    requires room { length behind.now < canon.now.bars }
    ensures { result ≡ canons.is_canon_bar canon.now (history_of behind.now) now.now.cells }
{
    let leader = canon.leader as usize;
    has_note(canon, behind, leader, cell_of(&now.cells, leader))
        && follower_fits(canon, behind, cell_of(&now.cells, 1 - leader))
}

/// Whether a voice does in the bar after these bars, by this cell, as is asked of it.
fn fits(canon: &Canon, behind: &[Bar], v: usize, cell: Cell) -> bool
    requires canon { IsCanon canon.now }
    requires voice { v < 2 }
    requires room { length behind.now < canon.now.bars }
    ensures { result ≡ canons.fits canon.now (history_of behind.now) v cell }
{
    if v == canon.leader as usize {
        has_note(canon, behind, v, cell)
    } else {
        follower_fits(canon, behind, cell)
    }
}

/// The least number, from this one on, of a cell that fits a voice in the bar after these bars; 74
/// where none does.
fn next_cell(canon: &Canon, behind: &[Bar], v: usize, from: usize) -> usize
    requires canon { IsCanon canon.now }
    requires voice { v < 2 }
    requires room { length behind.now < canon.now.bars }
    requires from { from ≤ 74 }
    ensures onward { from ≤ result }
    ensures most { result ≤ 74 }
    ensures passed { (n : ℕ) → from ≤ n → n < result →
        canons.fits canon.now (history_of behind.now) v (paths.numbered_cell n) ≡ false }
{
    for number in from..CELLS {
        if fits(canon, behind, v, numbered_cell(number)) {
            return number;
        }
    }
    CELLS
}

/// The least number of a cell of voice 1 to look at, where those of a child's number and on are
/// looked at and voice 0 has this cell.
fn upper_from(from: usize, lower: usize) -> usize
    ensures { result ≡ paths.upper_from from lower }
{
    if lower == from / CELLS {
        from % CELLS
    } else {
        0
    }
}

/// The least number of a bar, from this one on, both of whose cells may fit after these bars; the
/// number of all where none does.
pub fn next_bar(canon: &Canon, behind: &[Bar], from: usize) -> usize
    requires canon { IsCanon canon.now }
    requires room { length behind.now < canon.now.bars }
    requires from { from < 5476 }
    ensures onward { from ≤ result }
    ensures passed { (k : ℕ) → from ≤ k → k < result → paths.both_fit canon.now
        (history_of behind.now) k ≡ false }
{
    let lower = next_cell(canon, behind, 0, from / CELLS);
    if lower == CELLS {
        return CELLS * CELLS;
    }
    CELLS * lower + next_cell(canon, behind, 1, upper_from(from, lower))
}

/// Whether the leader opens on the mode's final, unless there are bars before.
pub fn opens_on_final(canon: &Canon, behind: &[Bar], now: &Bar) -> bool
    ensures { result ≡ canons.opens_on_final canon.now (history_of behind.now) now.now.cells }
{
    if !behind.is_empty() {
        return true;
    }
    match cell_of(&now.cells, canon.leader as usize) {
        Cell::Start(pitch) => is_final_in(canon.mode, pitch),
        _ => false,
    }
}
