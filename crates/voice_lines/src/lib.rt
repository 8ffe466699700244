//! Lines of cells, one for each voice, as scores.
#![tactic(auto)]

ghost use Rattle.std.specs.Prelude.{◌≡◌, ◌*◌, ◌≤◌, ◌++◌, IfOk, OnOk, length};
ghost use Rattle.std.specs.List.{AllByRecursion};
ghost use Rattle.fux_grid.specs.declared.cell.Cell.TheVariants.{Rest};
ghost use Rattle.voice_lines.specs.Lines.{LineFollows, cantus_cells, column_of, note_cells, score_of};

use fux_grid::{Cell, Column, Score, cell_of};
use fux_pitch::{List, Memory, Pitch};
use std::alloc::Global;

/// The column of lines of cells at a slot.
fn column_of(lines: &[List<Cell>], slot: usize) -> Column
    requires { length lines.now ≤ 4 }
    ensures { result.items ≡ column_of lines.now slot }
{
    let mut column = Column::new();
    for line in lines {
        column.push(cell_of(line.as_slice(), slot));
    }
    column
}

/// Appends the cells of a note of a whole bar.
fn put_note(cells: &mut Vec<Cell>, pitch: Pitch) -> Result<(), Memory>
    ensures { OnOk result (cells.new.items ≡ cells.old.items ++ note_cells pitch 8) }
{
    let held = Cell::Hold(pitch);
    cells.extend_from_slice(&[Cell::Start(pitch), held, held, held, held, held, held, held])?;
    Ok(())
}

/// The cells of a cantus: a whole note in each bar.
pub fn cantus_cells(alloc: Global, cantus: &[Pitch]) -> Result<Vec<Cell>, Memory>
    ensures { IfOk result (λ cells. cells.items ≡ cantus_cells cantus.now) }
{
    let mut cells = Vec::new(alloc);
    for pitch in cantus {
        put_note(&mut cells, *pitch)?;
    }
    Ok(cells)
}

/// The score of lines of cells of so many bars. Behind its end a line rests.
pub fn score_of(alloc: Global, lines: &[List<Cell>], bars: u8) -> Result<Score, Memory>
    requires least { 2 ≤ length lines.now }
    requires most { length lines.now ≤ 4 }
    requires short { bars ≤ 24 }
    requires follow { AllByRecursion (LineFollows Rest) lines.now }
    ensures { IfOk result (λ score. score ≡ score_of (8 * bars) lines.now) }
{
    let mut score = Score::new(alloc, lines.len() as u8)?;
    for i in 0..8 * usize::from(bars) {
        let _ = score.push(column_of(lines, i));
    }
    Ok(score)
}
