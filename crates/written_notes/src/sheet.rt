//! The written notes of a bar on a sheet: what is given is written apart from what is left blank.

ghost use Rattle.std.specs.Prelude.{◌≡◌, ◌+◌, ◌++◌, ◌<◌, ◌≤◌, length};
ghost use Rattle.arrayvec.specs.ArrayVec.{array_vec_len};
ghost use Rattle.written_notes.specs.Sheets.{given_notes as notes_given, is_left as left_blank, is_rest as gives_rest, part_at as part_from, part_begins as part_begins_there, part_length as length_of_part, part_notes, rests_at as rests_there, sheet_notes as notes_on_sheet};

use crate::bar::{Written, bar_cells, bar_notes, put_run};
use crate::runs::{Run, begins, run_at};
use arrayvec::ArrayVec;
use fux_grid::{Cell, Exercise, Given, cell_of, given_at};

/// Whether a rest is given.
fn is_rest(given: Given) -> bool
    ensures { result ≡ gives_rest given }
{
    matches!(given, Given::Rest)
}

/// Whether a rest is given at a slot of a bar of a voice.
fn rests_at(ex: &Exercise, v: u8, bar: u8, slot: u8) -> bool
    requires bar { bar < ex.now.bars }
    requires slot { slot < 8 }
    ensures { result ≡ rests_there ex.now v bar slot }
{
    is_rest(given_at(ex, v, 8 * bar as usize + slot as usize))
}

/// Whether a part of a bar with these cells begins at a slot.
fn part_begins(ex: &Exercise, v: u8, bar: u8, cells: &[Cell], slot: u8) -> bool
    requires bar { bar < ex.now.bars }
    requires slot { slot < 8 }
    requires whole { length cells.now ≡ 8 }
    ensures { result ≡ part_begins_there ex.now v bar cells.now slot }
{
    let before = rests_at(ex, v, bar, slot.saturating_sub(1));
    let here = rests_at(ex, v, bar, slot);
    begins(cells, slot) || before != here
}

/// How many slots the part has that begins at a slot.
fn part_length(ex: &Exercise, v: u8, bar: u8, cells: &[Cell], slot: u8) -> u8
    requires bar { bar < ex.now.bars }
    requires slot { slot < 8 }
    requires whole { length cells.now ≡ 8 }
    ensures value { result ≡ length_of_part ex.now v bar cells.now slot }
    ensures within { slot + result ≤ 8 }
{
    for next in slot + 1..8 {
        if part_begins(ex, v, bar, cells, next) {
            return next - slot;
        }
    }
    8 - slot
}

/// The part that begins at a slot, where this is the first cell behind the bar.
fn part_at(ex: &Exercise, v: u8, bar: u8, cells: &[Cell], next: Cell, slot: u8) -> Run
    requires bar { bar < ex.now.bars }
    requires slot { slot < 8 }
    requires whole { length cells.now ≡ 8 }
    ensures value { result ≡ part_from ex.now v bar cells.now next slot }
    ensures within { result.slot ≤ 8 }
{
    let run = run_at(cells, next, slot);
    let slots = part_length(ex, v, bar, cells, slot);
    let end = (slot + slots) as usize;
    Run {
        slots,
        after: if end < 8 { cells[end] } else { next },
        ..run
    }
}

/// Appends the written notes of the part at a slot, where one begins there.
fn put_part(
    notes: &mut ArrayVec<Written, 16>,
    ex: &Exercise,
    v: u8,
    bar: u8,
    cells: &[Cell],
    next: Cell,
    slot: u8,
)
    requires room { array_vec_len notes.old ≤ 14 }
    requires bar { bar < ex.now.bars }
    requires slot { slot < 8 }
    requires whole { length cells.now ≡ 8 }
    ensures items { notes.new.items ≡ notes.old.items
        ++ part_notes ex.now v bar cells.now next slot }
    ensures few { array_vec_len notes.new ≤ array_vec_len notes.old + 2 }
{
    if part_begins(ex, v, bar, cells, slot) {
        put_run(notes, &part_at(ex, v, bar, cells, next, slot));
    }
}

/// The written notes of a bar of a voice's line without a setting.
fn given_notes(ex: &Exercise, v: u8, line: &[Cell], bar: u8) -> ArrayVec<Written, 16>
    requires { bar < ex.now.bars }
    ensures { result.items ≡ notes_given ex.now v line.now bar }
{
    let cells = bar_cells(line, bar);
    let next = cell_of(line, 8 * bar as usize + 8);
    let mut notes = ArrayVec::new();
    for slot in 0..8 {
        put_part(&mut notes, ex, v, bar, &cells, next, slot);
    }
    notes
}

/// The written notes and rests of a bar of a voice's line on the sheet of an exercise, in their
/// order: of its setting; without one, each rest is given or left blank. Bars are counted from 0.
pub fn sheet_notes(ex: &Exercise, v: u8, line: &[Cell], bar: u8) -> ArrayVec<Written, 16>
    requires { bar < ex.now.bars }
    ensures { result.items ≡ notes_on_sheet ex.now v line.now bar }
{
    if ex.setting.is_some() {
        bar_notes(line, bar)
    } else {
        given_notes(ex, v, line, bar)
    }
}

/// Whether a rest at a slot of a bar is left blank.
pub fn is_left(ex: &Exercise, v: u8, bar: u8, slot: u8) -> bool
    requires { bar < ex.now.bars }
    ensures { result ≡ left_blank ex.now v bar slot }
{
    ex.setting.is_none() && slot < 8 && !rests_at(ex, v, bar, slot)
}
