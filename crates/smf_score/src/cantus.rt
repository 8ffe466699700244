//! The cantus of a line of cells.

ghost use Rattle.std.specs.Prelude.{◌≡◌, ◌+◌, ◌*◌, ◌<◌, ◌≤◌, IfOk, length};
ghost use Rattle.std.specs.List.{list_all};
ghost use Rattle.smf_score.specs.Faults.{Gives};
ghost use Rattle.smf_score.specs.Cantus.{cantus_in, holds, whole_note};

use crate::fault::SmfFault;
use fux_grid::Cell;
use fux_pitch::Pitch;
use std::alloc::Global;

/// How many slots a bar has.
const BAR: usize = 8;

/// Whether a pitch is held in a cell.
fn holds_pitch(cell: Cell, pitch: Pitch) -> bool
    ensures { result ≡ holds pitch cell }
{
    match cell {
        Cell::Hold(held) => held == pitch,
        _ => false,
    }
}

/// Whether a pitch is held in each of some cells.
fn is_held(cells: &[Cell], pitch: Pitch) -> bool
    ensures { result ≡ list_all (holds pitch) cells.now }
{
    for cell in cells {
        if !holds_pitch(*cell, pitch) {
            return false;
        }
    }
    true
}

/// The pitch that starts in the first of some cells and is held in the others.
fn whole_note(cells: &[Cell]) -> Option<Pitch>
    ensures { result ≡ whole_note cells.now }
{
    let (first, others) = cells.split_first()?;
    match *first {
        Cell::Start(pitch) if is_held(others, pitch) => Some(pitch),
        _ => None,
    }
}

/// The cantus of so many bars, or the first bar that isn't one whole note.
pub(crate) fn cantus_of(alloc: Global, cells: &[Cell], bars: u8) -> Result<Vec<Pitch>, SmfFault>
    requires few { bars ≤ 24 }
    requires long { 8 * bars ≤ length cells.now }
    ensures { Gives (λ v. v.items) result (cantus_in bars cells.now) }
{
    let mut cantus = Vec::new(alloc);
    let mut rest = cells;
    for bar in 0..bars {
        let (own, later) = rest.split_at(BAR);
        let Some(pitch) = whole_note(own) else {
            return Err(SmfFault::NotWhole { bar: bar + 1 });
        };
        cantus.push(pitch)?;
        rest = later;
    }
    Ok(cantus)
}
