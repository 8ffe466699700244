//! A menu, as the tables keep it.

ghost use Rattle.std.specs.Prelude.{◌≡◌, ◌<◌, ◌≤◌, List, [], length, map, slice_index_or, IfOk};
ghost use Rattle.std.specs.Bool.{OnTrue};
ghost use Rattle.fux_grid.specs.declared.cell.Cell.{Cell as ACell};
ghost use Rattle.fux_grid.specs.Grid.{items_of};
ghost use Rattle.fux_grid.specs.Menus.{IsAscending};
ghost use Rattle.fux_grid.specs.Cells.{held};
ghost use Rattle.chain_sums.specs.Chains.{AreFull};
ghost use Rattle.chain_sums.specs.Menus.{FindsColumn, HaveSameColumns, IsMenuOf, IsPacked, columns_of};
ghost use Rattle.chain_sums.specs.Packed as specs;

use crate::packed::{packed, packed_held};
use fux_grid::Column;
use fux_pitch::Memory;
use std::alloc::Global;

/// The columns that may stand at a place, and their numbers, which rise.
#[derive(Drop)]
pub(crate) struct Menu {
    columns: Vec<Column>,
    numbers: Vec<u64>,
}

/// The numbers of columns.
fn packed_columns(alloc: Global, columns: &[Column]) -> Result<Vec<u64>, Memory>
    ensures { IfOk result (λ numbers. numbers.items ≡ map specs.packed (items_of columns.now)) }
{
    let mut numbers = Vec::with_capacity(alloc, columns.len())?;
    for k in 0..columns.len() {
        numbers.push_reserved(packed(columns[k].as_slice()));
    }
    Ok(numbers)
}

impl Menu {
    /// The menu of these columns.
    pub(crate) fn new(alloc: Global, voices: usize, columns: Vec<Column>) -> Result<Menu, Memory>
        requires order { IsAscending (items_of columns.items) }
        requires full { AreFull voices (items_of columns.items) }
        requires few { voices ≤ 4 }
        ensures columns { IfOk result (IsMenuOf (items_of columns.items)) }
        ensures packed { IfOk result (IsPacked voices) }
    {
        let _ = voices;
        let numbers = packed_columns(alloc, &columns)?;
        Ok(Menu { columns, numbers })
    }

    /// How many columns there are.
    pub(crate) fn len(&self) -> usize
        ensures { result ≡ length self.now.columns.items }
    {
        self.columns.len()
    }

    /// The columns.
    pub(crate) fn as_slice(&self) -> &[Column]
        ensures { result.now ≡ self.now.columns.items }
    {
        self.columns.as_slice()
    }

    /// The column of a number.
    pub(crate) fn column(&self, k: usize) -> &Column
        requires { k < length self.now.columns.items }
        ensures { result.now.items ≡ slice_index_or (columns_of self.now) k [] }
    {
        &self.columns[k]
    }

    /// Whether another menu has the same columns: their numbers tell.
    pub(crate) fn has_columns_of(&self, other: &Menu) -> bool
        ensures { OnTrue result (HaveSameColumns self.now other.now) }
    {
        self.numbers.as_slice() == other.numbers.as_slice()
    }

    /// Where the column of a number stands; none only where no column has it. One place where it
    /// may well stand is looked at first.
    fn place_of_number(&self, number: u64, likely: usize) -> Option<usize>
        ensures { (d : List ACell) → specs.packed d ≡ number → FindsColumn self.now d result }
    {
        if likely < self.numbers.len() && self.numbers[likely] == number {
            return Some(likely);
        }
        match self.numbers.binary_search(&number) {
            Ok(k) => Some(k),
            Err(_) => None,
        }
    }

    /// Where a column of the menu stands in it; none only for another column.
    pub(crate) fn place_of(&self, column: &Column) -> Option<usize>
        ensures { FindsColumn self.now column.now.items result }
    {
        self.place_of_number(packed(column.as_slice()), 0)
    }

    /// Where the column stands that goes on with all that a column sounds, at the likely place or
    /// at another; none only where the menu hasn't got it.
    pub(crate) fn place_of_held(&self, column: &Column, likely: usize) -> Option<usize>
        ensures { FindsColumn self.now (map held column.now.items) result }
    {
        self.place_of_number(packed_held(column.as_slice()), likely)
    }
}
