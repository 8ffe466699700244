//! The chains of an exercise.

ghost use Rattle.std.specs.Prelude.{◌≡◌, ◌<◌};
ghost use Rattle.std.specs.Bool.{OnTrue};
ghost use Rattle.fux_grid.specs.Exercises.{IsValid, columns_in};
ghost use Rattle.fux_grid.specs.Menus.{cells_at};
ghost use Rattle.floor_tables.specs.Tables.{Task};

use chain_sums::Links;
use fux_grid::{Cell, Column, Exercise, VoiceCells, menu, voice_cells, width};
use fux_judge::{column_cost, link_cost, move_cost, pair_cost_from};
use fux_pitch::Memory;
use penalty_sheet::Sheet;
use rule_law::begins_bar;
use std::alloc::Global;
use std::marker::Model;

/// The columns of an exercise's menus, and what two neighbors cost by a sheet.
#[derive(Drop)]
pub(crate) struct ColumnLinks<'a> {
    exercise: &'a Exercise<'a>,
    sheet: &'a Sheet,
}

impl<'a> Model for ColumnLinks<'a> {
    ghost use Rattle.fux_grid.specs.Exercises.{IsValid};
    ghost use Rattle.floor_tables.specs.Tables.{Task};

    ghost Value = { Task };

    ghost view = { λ l. record { exercise = l.exercise.now; sheet = l.sheet.now } };

    ghost invariant = { λ l. IsValid l.exercise.now };
}

impl<'a> ColumnLinks<'a> {
    /// Those of this exercise by this sheet.
    pub(crate) fn new(exercise: &'a Exercise<'a>, sheet: &'a Sheet) -> ColumnLinks<'a>
        requires { IsValid exercise.now }
        ensures { result ≡ record { exercise = exercise.entry.now; sheet = sheet.entry.now } }
    {
        ColumnLinks { exercise, sheet }
    }
}

/// Whether a voice may have the same cells at two places.
fn has_same_cells(exercise: &Exercise, v: u8, i: usize, j: usize) -> bool
    requires valid { IsValid exercise.now }
    requires voice { v < exercise.now.voices }
    requires first { i < columns_in exercise.now }
    requires second { j < columns_in exercise.now }
    ensures { OnTrue result (cells_at exercise.now i v ≡ cells_at exercise.now j v) }
{
    voice_cells(exercise, v, i).as_slice() == voice_cells(exercise, v, j).as_slice()
}

impl<'a> Links for ColumnLinks<'a> {
    ghost use Rattle.fux_judge.specs.Links.{column_of};
    ghost use Rattle.fux_judge.specs.Moves.{move_of};
    ghost use Rattle.floor_tables.specs.Floors.{chains_of};
    ghost use Rattle.floor_tables.specs.Moves as law;

    ghost chains = { λ task. chains_of task.exercise task.sheet };

    ghost own = { λ task. column_of task.exercise task.sheet };

    ghost moves = { λ task. move_of task.exercise task.sheet };

    ghost least_moves = { λ task. law.least_moves task.exercise task.sheet };

    fn places(&self) -> usize {
        8 * self.exercise.bars as usize
    }

    fn voices(&self) -> usize {
        self.exercise.voices as usize
    }

    fn width(&self, i: usize) -> u64 {
        width(self.exercise, i)
    }

    fn menu(&self, alloc: Global, i: usize) -> Result<Vec<Column>, Memory> {
        menu(alloc, self.exercise, i).map_err(|_| Memory)
    }

    fn cells(&self, i: usize, v: usize) -> VoiceCells {
        if v < self.exercise.voices as usize {
            return voice_cells(self.exercise, v as u8, i);
        }
        let mut rest = VoiceCells::new();
        rest.push(Cell::Rest);
        rest
    }

    fn has_same_menu(&self, i: usize, j: usize) -> bool {
        for v in 0..self.exercise.voices {
            if !has_same_cells(self.exercise, v, i, j) {
                return false;
            }
        }
        true
    }

    // where no bar begins, no rule and no toll of neighbors speaks of a column in which nothing
    // starts
    fn holds_freely(&self, i: usize) -> bool {
        !begins_bar(i)
    }

    fn cost(&self, i: usize, prev: Option<&Column>, next: &Column) -> Option<u64> {
        link_cost(self.exercise, self.sheet, i, prev, next)
    }

    fn own_cost(&self, i: usize, next: &Column) -> Option<u64> {
        column_cost(self.exercise, self.sheet, i, next)
    }

    fn move_cost(&self, i: usize, v: usize, before: Cell, next: Cell) -> Option<u64> {
        move_cost(self.exercise, self.sheet, i, v as u8, before, next)
    }

    fn cost_from(
        &self,
        i: usize,
        prev: &Column,
        next: &Column,
        known: u64,
        moved: u64,
    ) -> Option<u64> {
        let pair = pair_cost_from(self.exercise, self.sheet, i, prev, next, moved)?;
        Some(known + pair)
    }
}
