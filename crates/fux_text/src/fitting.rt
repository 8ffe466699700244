//! Which cells a voice of a setting may have, where notes are given.

ghost use Rattle.std.specs.Prelude.{◌≡◌};
ghost use Rattle.fux_text.specs.Fitting.{asks, line_fits};

use fux_grid::{Cell, Exercise, cell_of, given_at};

/// What is asked of the cells of a `sing` line.
#[derive(Clone, Copy)]
pub enum Asked {
    /// They fit what the exercise gives.
    Fitting,
    /// Nothing.
    Nothing,
}

/// Whether each cell of a voice fits what the exercise gives of it.
#[tactic(auto, unfolding(crate::specs::Fitting::line_fits))]
fn line_fits(ex: &Exercise, v: u8, cells: &[Cell]) -> bool
    ensures { result ≡ line_fits ex.now v cells.now }
{
    for i in 0..8 * usize::from(ex.bars) {
        if !given_at(ex, v, i).fits(cell_of(cells, i)) {
            return false;
        }
    }
    true
}

/// Whether a voice may have these cells.
pub fn asks(asked: Asked, ex: &Exercise, v: u8, cells: &[Cell]) -> bool
    ensures { result ≡ asks asked ex.now v cells.now }
{
    match asked {
        Asked::Fitting => line_fits(ex, v, cells),
        Asked::Nothing => true,
    }
}
