//! Menus in which nothing is held: each of their columns follows every column.

ghost use Rattle.std.specs.Bool.{OnTrue};
ghost use Rattle.chain_sums.specs.Fresh.{AllFollowAll, FollowsAll};
ghost use Rattle.chain_sums.specs.Menus.{columns_of};

use crate::menu::Menu;
use fux_grid::Cell;

/// Whether nothing is held in a column.
fn is_fresh(column: &[Cell]) -> bool
    ensures { OnTrue result (FollowsAll column.now) }
{
    for cell in column {
        if cell.is_hold() {
            return false;
        }
    }
    true
}

/// Whether nothing is held in any column of a menu.
pub(crate) fn are_fresh(menu: &Menu) -> bool
    ensures { OnTrue result (AllFollowAll (columns_of menu.now)) }
{
    for k in 0..menu.len() {
        if !is_fresh(menu.column(k).as_slice()) {
            return false;
        }
    }
    true
}
