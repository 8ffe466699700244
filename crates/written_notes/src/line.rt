//! The line of a voice on a sheet.

ghost use Rattle.std.specs.Prelude.{◌≡◌, ◌<◌, ◌++◌, IfOk, OnOk};
ghost use Rattle.fux_grid.specs.Exercises.{cantus_cell};
ghost use Rattle.written_notes.specs.Lines.{cantus_bar, cantus_line, given_line, line_of, sheet_cell, sung_line, unset_line};

use fux_grid::{Cell, Exercise, Given, Score, given_at};
use fux_pitch::{List, Memory, Pitch};
use std::alloc::Global;

/// What stands on a sheet for what is given, behind a cell: what is left blank is a rest, and a tie
/// goes on with what sounds.
fn sheet_cell(given: Given, before: Cell) -> Cell
    ensures { result ≡ sheet_cell given before }
{
    match given {
        Given::Blank | Given::Rest => Cell::Rest,
        Given::Start(p) => Cell::Start(p),
        Given::Hold(p) => Cell::Hold(p),
        Given::Tied => match before {
            Cell::Rest => Cell::Rest,
            Cell::Hold(p) | Cell::Start(p) => Cell::Hold(p),
        },
    }
}

/// The line of a voice of a setting.
fn sung_line(alloc: Global, score: &Score, v: u8) -> Result<Vec<Cell>, Memory>
    ensures { IfOk result (λ line. line.items ≡ sung_line score.now.columns v) }
{
    let mut line = Vec::new(alloc);
    for i in 0..score.len() {
        line.push(score.cell(v as usize, i))?;
    }
    Ok(line)
}

/// The cell of a pitch of the cantus at a slot.
fn cantus_cell(slot: u8, pitch: Pitch) -> Cell
    requires { slot < 8 }
    ensures { result ≡ cantus_cell slot pitch }
{
    if slot == 0 {
        Cell::Start(pitch)
    } else {
        Cell::Hold(pitch)
    }
}

/// Appends a bar of the cantus.
fn put_cantus_bar(line: &mut Vec<Cell>, pitch: Pitch) -> Result<(), Memory>
    ensures { OnOk result (line.new.items ≡ line.old.items ++ cantus_bar pitch) }
{
    for slot in 0..8 {
        line.push(cantus_cell(slot, pitch))?;
    }
    Ok(())
}

/// The line of the cantus: each pitch fills a bar.
fn cantus_line(alloc: Global, cantus: &[Pitch]) -> Result<Vec<Cell>, Memory>
    ensures { IfOk result (λ line. line.items ≡ cantus_line cantus.now) }
{
    let mut line = Vec::new(alloc);
    for pitch in cantus {
        put_cantus_bar(&mut line, *pitch)?;
    }
    Ok(line)
}

/// The line of a free voice without a setting: what is given, and rests.
fn given_line(alloc: Global, ex: &Exercise, v: u8) -> Result<Vec<Cell>, Memory>
    ensures { IfOk result (λ line. line.items ≡ given_line ex.now v) }
{
    let mut line = Vec::new(alloc);
    let mut cell = Cell::Rest;
    for i in 0..8 * ex.bars as usize {
        cell = sheet_cell(given_at(ex, v, i), cell);
        line.push(cell)?;
    }
    Ok(line)
}

/// The line of a voice without a setting.
fn unset_line(alloc: Global, ex: &Exercise, v: u8) -> Result<Vec<Cell>, Memory>
    ensures { IfOk result (λ line. line.items ≡ unset_line ex.now v) }
{
    if v == ex.cantus_voice {
        cantus_line(alloc, ex.cantus.as_slice())
    } else {
        given_line(alloc, ex, v)
    }
}

/// The cells of a voice on the sheet of an exercise: those of its setting; without one, the cantus,
/// what is given, and rests.
pub fn voice_line(alloc: Global, ex: &Exercise, v: u8) -> Result<List<Cell>, Memory>
    ensures { IfOk result (λ line. line ≡ line_of ex.now v) }
{
    let line = match &ex.setting {
        Some(score) => sung_line(alloc, score, v)?,
        None => unset_line(alloc, ex, v)?,
    };
    Ok(List::new(line))
}
