//! The written notes and rests of a bar.

ghost use Rattle.std.specs.Prelude.{◌≡◌, ◌+◌, ◌++◌, ◌<◌, ◌≤◌, length};
ghost use Rattle.arrayvec.specs.ArrayVec.{array_vec_len};
ghost use Rattle.written_notes.specs.Bars.{bar_cells, bar_notes as notes_of_bar, cells_notes, note_of, head_of, tail_of, run_notes, notes_at};

use crate::runs::{Run, begins, run_at};
use crate::signs::Sign;
use crate::values::{NoteValue, value_of};
use arrayvec::ArrayVec;
use fux_grid::{Cell, cell_of};
use fux_pitch::Pitch;

/// A written note or rest of a bar: its first slot, how many slots it has, its value, its pitch
/// where it is a note, whether it is tied to the note before it and to the one behind it, and its
/// sign.
#[derive(Clone, Copy, Debug, PartialEq, Eq, Default)]
pub struct Written {
    pub slot: u8,
    pub slots: u8,
    pub value: NoteValue,
    pub pitch: Option<Pitch>,
    pub tie_in: bool,
    pub tie_out: bool,
    pub sign: Sign,
}

/// The one note or rest of a run.
fn note_of(run: &Run) -> Written
    ensures { result ≡ note_of run.now }
{
    let pitch = run.cell.pitch();
    Written {
        slot: run.slot,
        slots: run.slots,
        value: value_of(run.slots),
        pitch,
        tie_in: run.cell.is_hold(),
        tie_out: pitch.is_some() && run.after.is_hold(),
        sign: run.sign,
    }
}

/// The first four slots of a run.
fn head_of(run: &Run) -> Written
    ensures { result ≡ head_of run.now }
{
    let pitch = run.cell.pitch();
    Written {
        slot: run.slot,
        slots: 4,
        value: value_of(4),
        pitch,
        tie_in: run.cell.is_hold(),
        tie_out: pitch.is_some(),
        sign: run.sign,
    }
}

/// The fifth slot of a run.
fn tail_of(run: &Run) -> Written
    requires { run.now.slot ≤ 8 }
    ensures { result ≡ tail_of run.now }
{
    let pitch = run.cell.pitch();
    Written {
        slot: run.slot + 4,
        slots: 1,
        value: value_of(1),
        pitch,
        tie_in: pitch.is_some(),
        tie_out: pitch.is_some() && run.after.is_hold(),
        sign: Sign::Plain,
    }
}

/// Appends the written notes of a run.
pub fn put_run(notes: &mut ArrayVec<Written, 16>, run: &Run)
    requires room { array_vec_len notes.old ≤ 14 }
    requires place { run.now.slot ≤ 8 }
    ensures items { notes.new.items ≡ notes.old.items ++ run_notes run.now }
    ensures few { array_vec_len notes.new ≤ array_vec_len notes.old + 2 }
{
    if run.slots == 5 {
        notes.push(head_of(run));
        notes.push(tail_of(run));
    } else {
        notes.push(note_of(run));
    }
}

/// Appends the written notes that begin with the run at a slot, where one begins there.
fn put_at(notes: &mut ArrayVec<Written, 16>, bar: &[Cell], next: Cell, slot: u8)
    requires room { array_vec_len notes.old ≤ 14 }
    requires there { slot < 8 }
    requires whole { length bar.now ≡ 8 }
    ensures items { notes.new.items ≡ notes.old.items ++ notes_at bar.now next slot }
    ensures few { array_vec_len notes.new ≤ array_vec_len notes.old + 2 }
{
    if begins(bar, slot) {
        put_run(notes, &run_at(bar, next, slot));
    }
}

/// The written notes and rests of eight cells, where `next` is the cell behind them.
fn notes_of(cells: &[Cell], next: Cell) -> ArrayVec<Written, 16>
    requires { length cells.now ≡ 8 }
    ensures { result.items ≡ cells_notes cells.now next }
{
    let mut notes = ArrayVec::new();
    for slot in 0..8 {
        put_at(&mut notes, cells, next, slot);
    }
    notes
}

/// The cells of a bar, counted from 0, rests beyond the line's end.
pub fn bar_cells(line: &[Cell], bar: u8) -> [Cell; 8]
    ensures value { result ≡ bar_cells line.now bar }
    ensures whole { length result ≡ 8 }
{
    let first = 8 * bar as usize;
    [
        cell_of(line, first),
        cell_of(line, first + 1),
        cell_of(line, first + 2),
        cell_of(line, first + 3),
        cell_of(line, first + 4),
        cell_of(line, first + 5),
        cell_of(line, first + 6),
        cell_of(line, first + 7),
    ]
}

/// The written notes and rests of a bar of a voice's line, in their order. Bars are counted from 0.
pub fn bar_notes(line: &[Cell], bar: u8) -> ArrayVec<Written, 16>
    ensures { result.items ≡ notes_of_bar line.now bar }
{
    let cells = bar_cells(line, bar);
    notes_of(&cells, cell_of(line, 8 * bar as usize + 8))
}
