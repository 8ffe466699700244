//! What their own tolls cost the columns of the menus, asked once for each.

ghost use Rattle.std.specs.Prelude.{◌≡◌, ◌<◌, IfOk, slice_index_or};
ghost use Rattle.std.specs.Bool.{OnFalse};
ghost use Rattle.fux_grid.specs.Exercises.{IsValid, columns_in};
ghost use Rattle.fux_grid.specs.Grid.{items_of};
ghost use Rattle.species_space.specs.Own.{AreFree, AreOwnCosts, AreOwnRows};

use crate::blocks::column_at;
use floor_tables::Tables;
use fux_grid::{Column, Exercise};
use fux_judge::own_charge;
use fux_pitch::Memory;
use penalty_sheet::Sheet;
use std::alloc::Global;

/// What its own tolls cost each column of a menu. Where they cost none of them anything, nothing is
/// kept.
#[derive(Drop)]
pub(crate) struct OwnCosts {
    pub(crate) costs: Vec<u32>,
}

impl OwnCosts {
    /// What they cost the column of a number.
    #[inline]
    pub(crate) fn of(&self, k: usize) -> u64
        ensures { result ≡ slice_index_or self.now.costs.items k 0 }
    {
        if k >= self.costs.len() {
            return 0;
        }
        u64::from(self.costs[k])
    }
}

/// Whether its own tolls cost some column of a menu anything.
fn costs_some(exercise: &Exercise, sheet: &Sheet, i: usize, columns: &[Column]) -> bool
    requires valid { IsValid exercise.now }
    requires place { i < columns_in exercise.now }
    ensures { OnFalse result (AreFree exercise.now sheet.now i (items_of columns.now)) }
{
    for k in 0..columns.len() {
        let cost = own_charge(exercise, sheet, i, column_at(columns, k));
        if cost != 0 {
            return true;
        }
    }
    false
}

/// What its own tolls cost each column of a menu.
fn own_costs(
    alloc: Global,
    exercise: &Exercise,
    sheet: &Sheet,
    i: usize,
    columns: &[Column],
) -> Result<OwnCosts, Memory>
    requires valid { IsValid exercise.now }
    requires place { i < columns_in exercise.now }
    ensures { IfOk result (λ own. AreOwnCosts exercise.now sheet.now i (items_of columns.now)
        own.costs.items) }
{
    if !costs_some(exercise, sheet, i, columns) {
        return Ok(OwnCosts {
            costs: Vec::new(alloc),
        });
    }
    let count = columns.len();
    let mut costs = Vec::with_capacity(alloc, count)?;
    for k in 0..count {
        let cost = own_charge(exercise, sheet, i, column_at(columns, k));
        costs.push_reserved(cost as u32);
    }
    Ok(OwnCosts { costs })
}

/// The same of all menus of an exercise.
pub(crate) fn own_rows(
    alloc: Global,
    exercise: &Exercise,
    sheet: &Sheet,
    tables: &Tables<'_>,
) -> Result<Vec<OwnCosts>, Memory>
    requires valid { IsValid exercise.now }
    requires tables { tables.now.exercise ≡ exercise.now }
    ensures { IfOk result (λ rows. AreOwnRows exercise.now sheet.now rows.items) }
{
    let columns = 8 * exercise.bars as usize;
    let mut rows = Vec::with_capacity(alloc, columns)?;
    for i in 0..columns {
        let row = own_costs(alloc, exercise, sheet, i, tables.columns(i))?;
        rows.push_reserved(row);
    }
    Ok(rows)
}
