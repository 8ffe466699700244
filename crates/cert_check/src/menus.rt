//! The menus of an exercise.

ghost use Rattle.std.specs.Prelude.{◌≡◌, ◌<◌, ◌≤◌, ◌^◌, true, length, IfErr, IfOk, OnOk};
ghost use Rattle.cert_check.specs.Faults.{TellsMenu, TellsWidth};
ghost use Rattle.cert_check.specs.Menus.{AddsMenu, AreMenus, HasMenu};
ghost use Rattle.chain_sums.specs.Still.{IsStill, all_hold};
ghost use Rattle.fux_grid.specs.Exercises.{IsValid, columns_in};
ghost use Rattle.fux_grid.specs.Grid.{items_of};
ghost use Rattle.fux_grid.specs.Cells.{is_hold};

use crate::entries::EntryFault;
use fux_grid::{Cell, Column, Exercise, MenuFault, menu, place_of};
use fux_pitch::Memory;
use std::alloc::Global;

/// The menus of an exercise's places, in their order.
#[derive(Drop)]
pub(crate) struct Menus {
    pub(crate) columns: Vec<Vec<Column>>,
    /// How many columns the menus before each place have together.
    pub(crate) before: Vec<usize>,
    /// How many all have together.
    pub(crate) total: usize,
    /// Whether each column of a menu is known to hold all it sounds, and to sound in each voice.
    pub(crate) still: Vec<bool>,
}

/// Whether a cell holds a note.
fn holds(cell: Cell) -> bool
    ensures { result ≡ is_hold cell }
{
    match cell {
        Cell::Rest => false,
        Cell::Hold(_) => true,
        Cell::Start(_) => false,
    }
}

/// Whether each cell of a column holds a note.
fn all_cells_hold(column: &[Cell]) -> bool
    ensures { result ≡ all_hold column.now }
{
    for cell in column {
        if !holds(*cell) {
            return false;
        }
    }
    true
}

/// Whether each column does.
fn is_still(columns: &[Column]) -> bool
    ensures { result ≡ true → IsStill (items_of columns.now) }
{
    for k in 0..columns.len() {
        if !all_cells_hold(columns[k].as_slice()) {
            return false;
        }
    }
    true
}

/// The menu of a place, where it isn't too wide.
fn menu_at(alloc: Global, ex: &Exercise, i: usize) -> Result<Vec<Column>, EntryFault>
    requires valid { IsValid ex.now }
    requires place { i < columns_in ex.now }
    ensures made { IfOk result (HasMenu ex.now i) }
    ensures wide { IfErr result (TellsMenu ex.now i) }
{
    match menu(alloc, ex, i) {
        Ok(columns) => Ok(columns),
        Err(MenuFault::TooWide { count }) => Err(EntryFault::TooWide {
            place: place_of(i),
            count,
        }),
        Err(MenuFault::Memory) => Err(EntryFault::Memory),
    }
}

impl Menus {
    /// Those of an exercise, up to the first one that is too wide.
    pub(crate) fn of(alloc: Global, ex: &Exercise) -> Result<Menus, EntryFault>
        requires { IsValid ex.now }
        ensures made { IfOk result (AreMenus ex.now) }
        ensures wide { IfErr result (TellsWidth ex.now) }
    {
        let mut menus = Menus {
            columns: Vec::new(alloc),
            before: Vec::new(alloc),
            total: 0,
            still: Vec::new(alloc),
        };
        for i in 0..8 * ex.bars as usize {
            let columns = match menu_at(alloc, ex, i) {
                Ok(columns) => columns,
                Err(fault) => return Err(fault),
            };
            match menus.push(columns) {
                Ok(()) => {}
                Err(Memory) => return Err(EntryFault::Memory),
            }
        }
        Ok(menus)
    }

    /// Appends the menu of the next place.
    fn push(&mut self, columns: Vec<Column>) -> Result<(), Memory>
        requires few { self.old.total ≤ 2 ^ 32 }
        requires narrow { length columns.items ≤ 8192 }
        ensures { OnOk result (AddsMenu self.old columns self.new) }
    {
        let width = columns.len();
        self.still.push(is_still(&columns))?;
        self.columns.push(columns)?;
        self.before.push(self.total)?;
        self.total += width;
        Ok(())
    }
}
