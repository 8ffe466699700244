//! Menus whose columns hold all they sound: at most one column of such a menu follows another, and
//! it is found by its number.

ghost use Rattle.std.specs.Prelude.{◌≡◌, ◌<◌, ◌^◌, Some, length};
ghost use Rattle.std.specs.Bool.{OnTrue};
ghost use Rattle.chain_sums.specs.Chains.{IsLeast};
ghost use Rattle.chain_sums.specs.Menus.{IsMenuOf, IsPacked, columns_of};
ghost use Rattle.chain_sums.specs.Rows.{AllAtMost, IsOneCostAboveRow, IsRow};
ghost use Rattle.fux_grid.specs.Cells as specs;
ghost use Rattle.chain_sums.specs.Still.{IsStill, all_hold};

use crate::least::sum_of;
use crate::links::Links;
use crate::menu::Menu;
use fux_grid::{Cell, Column};

/// Whether a cell holds a note.
fn is_hold(cell: Cell) -> bool
    ensures { result ≡ specs.is_hold cell }
{
    match cell {
        Cell::Hold(_) => true,
        _ => false,
    }
}

/// Whether each cell of a column holds a note.
fn all_cells_hold(column: &[Cell]) -> bool
    ensures { result ≡ all_hold column.now }
{
    for cell in column {
        if !is_hold(*cell) {
            return false;
        }
    }
    true
}

/// Whether each column of a menu holds all it sounds, and sounds in each voice.
pub(crate) fn is_still(menu: &Menu) -> bool
    ensures { OnTrue result (IsStill (columns_of menu.now)) }
{
    for k in 0..menu.len() {
        if !all_cells_hold(menu.column(k).as_slice()) {
            return false;
        }
    }
    true
}

/// The least sum over the chains that begin at a place, behind a column, where each column of the
/// place's menu holds all it sounds. The one that follows is looked for first under a number that
/// is likely to be its own, as that of `prev` in the menu before.
pub(crate) fn least_of_held<L: Links>(
    links: &L,
    i: usize,
    prev: &Column,
    likely: usize,
    menu: &Menu,
    row: &[Option<u64>],
) -> Option<u64>
    requires place { i < (L.chains links.now).places }
    requires menu { IsMenuOf ((L.chains links.now).menu i) menu.now }
    requires packed { IsPacked (L.chains links.now).voices menu.now }
    requires full { length prev.now.items ≡ (L.chains links.now).voices }
    requires still { IsStill ((L.chains links.now).menu i) }
    requires row { IsRow (L.chains links.now) i row.now }
    requires small { AllAtMost (2 ^ 62) row.now }
    ensures least { IsLeast (L.chains links.now) i (Some prev.now.items) result }
    ensures bound { IsOneCostAboveRow row.now result }
{
    let k = menu.place_of_held(prev, likely)?;
    if k >= menu.len() {
        return None;
    }
    sum_of(links, i, Some(prev), menu.column(k), row[k])
}
