//! The runs of a bar: cells that one note or one rest fills.

ghost use Rattle.std.specs.Prelude.{◌≡◌, ◌+◌, ◌<◌, ◌≤◌, length};
ghost use Rattle.written_notes.specs.Runs.{goes_on as cells_go_on, begins as run_begins, held_on, run_at as run_from, run_length as length_from};

use crate::signs::{Sign, sign_at};
use fux_grid::{Cell, cell_of};

/// A note or a rest within a bar: its first slot, how many slots it has, its first cell, the cell
/// behind it, and its sign.
#[derive(Clone, Copy, Debug, PartialEq, Eq)]
pub struct Run {
    pub slot: u8,
    pub slots: u8,
    pub cell: Cell,
    pub after: Cell,
    pub sign: Sign,
}

/// Whether a cell goes on with the note or the rest of the cell before it.
fn goes_on(before: Cell, next: Cell) -> bool
    ensures { result ≡ cells_go_on before next }
{
    match next {
        Cell::Rest => matches!(before, Cell::Rest),
        Cell::Hold(_) => !matches!(before, Cell::Rest),
        Cell::Start(_) => false,
    }
}

/// Whether a run begins at a slot of a bar.
pub fn begins(bar: &[Cell], slot: u8) -> bool
    requires { slot < length bar.now }
    ensures { result ≡ run_begins bar.now slot }
{
    let slot = slot as usize;
    slot == 0 || !goes_on(bar[slot - 1], bar[slot])
}

/// How many cells, from one on, go on with a cell.
fn held(first: Cell, cells: &[Cell]) -> usize
    ensures value { result ≡ held_on first cells.now }
    ensures most { result ≤ length cells.now }
{
    for (count, cell) in cells.iter().enumerate() {
        if !goes_on(first, *cell) {
            return count;
        }
    }
    cells.len()
}

/// How many slots the run has that begins at a slot.
fn run_length(bar: &[Cell], slot: u8) -> u8
    requires there { slot < length bar.now }
    requires short { length bar.now ≤ 8 }
    ensures value { result ≡ length_from bar.now slot }
    ensures within { slot + result ≤ length bar.now }
    ensures least { 1 ≤ result }
{
    let first = slot as usize;
    1 + held(bar[first], &bar[first + 1..]) as u8
}

/// The run that begins at a slot of a bar, where this is the first cell behind the bar.
pub fn run_at(bar: &[Cell], next: Cell, slot: u8) -> Run
    requires there { slot < length bar.now }
    requires whole { length bar.now ≡ 8 }
    ensures value { result ≡ run_from bar.now next slot }
    ensures within { result.slot + result.slots ≤ 8 }
{
    let slots = run_length(bar, slot);
    let end = (slot + slots) as usize;
    Run {
        slot,
        slots,
        cell: bar[slot as usize],
        after: if end < 8 { bar[end] } else { next },
        sign: sign_at(bar, slot),
    }
}
