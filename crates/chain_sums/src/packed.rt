//! Columns as numbers that go in reading order.

ghost use Rattle.std.specs.Prelude.{◌≡◌, ◌<◌};
ghost use Rattle.fux_grid.specs.Cells.{cell_in, held};
ghost use Rattle.chain_sums.specs.Packed as specs;
ghost use Rattle.chain_sums.specs.Still as still;

use fux_grid::{Cell, cell_of};
use fux_pitch::{Pitch, semitone};

/// The room of a voice in a column's number.
const VOICE: u64 = 65536;

/// The number of a pitch.
fn packed_pitch(pitch: Pitch) -> u16
    ensures value { result ≡ specs.packed_pitch pitch }
    ensures bound { result < 8192 }
{
    u16::from(semitone(pitch)) * 64 + u16::from(pitch.degree())
}

/// The number of a cell.
fn packed_cell(cell: Cell) -> u16
    ensures value { result ≡ specs.packed_cell cell }
    ensures bound { result < 32768 }
{
    match cell {
        Cell::Rest => 0,
        Cell::Hold(pitch) => 8192 + packed_pitch(pitch),
        Cell::Start(pitch) => 16384 + packed_pitch(pitch),
    }
}

/// The number of the cell of a voice in a column, that of a rest where the column has none.
fn packed_voice(column: &[Cell], v: usize) -> u64
    ensures value { result ≡ specs.packed_cell (cell_in column.now v) }
    ensures bound { result < 32768 }
{
    u64::from(packed_cell(cell_of(column, v)))
}

/// The number of a column.
pub(crate) fn packed(column: &[Cell]) -> u64
    ensures { result ≡ specs.packed column.now }
{
    let lower = packed_voice(column, 0) * VOICE + packed_voice(column, 1);
    let upper = packed_voice(column, 2) * VOICE + packed_voice(column, 3);
    lower * (VOICE * VOICE) + upper
}

/// The number of the cell that goes on with what a voice sounds in a column.
fn packed_voice_held(column: &[Cell], v: usize) -> u64
    ensures value { result ≡ specs.packed_cell (held (cell_in column.now v)) }
    ensures bound { result < 32768 }
{
    u64::from(packed_cell(cell_of(column, v).held()))
}

/// The number of the column that goes on with all that a column sounds.
pub(crate) fn packed_held(column: &[Cell]) -> u64
    ensures { result ≡ still.packed_held column.now }
{
    let lower = packed_voice_held(column, 0) * VOICE + packed_voice_held(column, 1);
    let upper = packed_voice_held(column, 2) * VOICE + packed_voice_held(column, 3);
    lower * (VOICE * VOICE) + upper
}
