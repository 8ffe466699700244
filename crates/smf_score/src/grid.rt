//! The cells of placed notes.

ghost use Rattle.std.specs.Prelude.{◌≡◌, ◌<◌, [], ◌++◌, IfOk, OnOk, length, replicate, slice_index_or};
ghost use Rattle.smf_score.specs.Sounding.{cells_of, lines_of};

use crate::placed::Placed;
use fux_grid::Cell;
use fux_pitch::List;
use std::alloc::{AllocError, Global};

/// Appends a cell so many times.
fn push_times(cells: &mut Vec<Cell>, cell: Cell, count: u64) -> Result<(), AllocError>
    ensures ok { OnOk result (cells.new.items ≡ cells.old.items ++ replicate count cell) }
{
    for _ in 0..count {
        cells.push(cell)?;
    }
    Ok(())
}

/// The cells of a voice from the beginning up to a slot.
pub fn cells_of(alloc: Global, notes: &[Placed], over: u64) -> Result<Vec<Cell>, AllocError>
    ensures { IfOk result (λ cells. cells.items ≡ cells_of 0 over notes.now) }
{
    let mut cells = Vec::new(alloc);
    let mut at = 0;
    for note in notes {
        push_times(&mut cells, Cell::Rest, note.start.saturating_sub(at))?;
        cells.push(Cell::Start(note.pitch))?;
        let len = note.end.saturating_sub(note.start);
        push_times(&mut cells, Cell::Hold(note.pitch), len.saturating_sub(1))?;
        at = note.end;
    }
    push_times(&mut cells, Cell::Rest, over.saturating_sub(at))?;
    Ok(cells)
}

/// The cells of each voice in so many bars.
pub(crate) fn lines_of(
    alloc: Global,
    voices: &[List<Placed>],
    bars: u8,
) -> Result<Vec<List<Cell>>, AllocError>
    ensures { IfOk result (λ lines. lines.items ≡ lines_of bars voices.now) }
{
    let mut lines = Vec::new(alloc);
    for notes in voices {
        let cells = cells_of(alloc, notes.as_slice(), 8 * u64::from(bars))?;
        lines.push(List::new(cells))?;
    }
    Ok(lines)
}

/// The cells of a voice.
pub(crate) fn line_of(lines: &[List<Cell>], voice: u8) -> &[Cell]
    requires { voice < length lines.now }
    ensures { result.now ≡ slice_index_or lines.now voice [] }
{
    lines[voice as usize].as_slice()
}
