//! The floors of prefixes, by tables.

ghost use Rattle.std.specs.Prelude.{◌≡◌, ◌<◌};
ghost use Rattle.fux_grid.specs.Exercises.{IsValid, columns_in};

use floor_tables::Tables;
use fux_grid::{Cell, Exercise, cell_of};
use fux_judge::{State, step};
use fux_pitch::parse_pitch;
use penalty_sheet::Sheet;

/// The cell of voice 1 at a place, by the name of its note in each bar.
fn cell_at(notes: &str, i: usize) -> Option<Cell> {
    let name = notes.split(' ').nth(i / 8)?;
    let pitch = parse_pitch(name.as_bytes())?;
    if i % 8 == 0 {
        return Some(Cell::Start(pitch));
    }
    Some(Cell::Hold(pitch))
}

/// The number of the column of a place in which voice 1 has this cell.
fn number_of(tables: &Tables<'_>, i: usize, cell: Cell) -> Option<usize>
    requires { i < columns_in tables.now.exercise }
{
    for k in 0..tables.width(i) {
        if cell_of(tables.column(i, k), 1) == cell {
            return Some(k);
        }
    }
    None
}

/// The floor of the prefix of a length, in which voice 1 has these notes, one for each bar.
pub fn floor(
    exercise: &Exercise,
    sheet: &Sheet,
    tables: &Tables<'_>,
    notes: &str,
    length: usize,
) -> Option<u64>
    requires valid { IsValid exercise.now }
    requires same { tables.now.exercise ≡ exercise.now }
{
    let mut state = State::start(exercise);
    let mut paid = 0u64;
    let mut floor = None;
    for _ in 0..length {
        let i = state.newest.len;
        if i >= 8 * usize::from(exercise.bars) {
            return None;
        }
        let k = number_of(tables, i, cell_at(notes, i)?)?;
        if k >= tables.width(i) {
            return None;
        }
        let column = tables.column(i, k);
        if column.len() != usize::from(exercise.voices) {
            return None;
        }
        let verdict = step(exercise, sheet, &state, column);
        paid = paid.saturating_add(verdict.paid);
        floor = match tables.rest_of_number(i, k) {
            Some(rest) => Some(paid.saturating_add(verdict.least).saturating_add(rest)),
            None => None,
        };
        state = verdict.state;
    }
    Some(floor?)
}
