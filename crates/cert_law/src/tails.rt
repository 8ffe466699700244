//! Tails: what the columns behind a prefix cost at least together.

ghost use Rattle.std.specs.Prelude.{◌≡◌, ◌<◌, [], length, slice_index_or};
ghost use Rattle.cert_law.specs.Alone.{IsAlone};
ghost use Rattle.cert_law.specs.Bases.{Basis, IsTailBehind, tail_by};
ghost use Rattle.cert_law.specs.Known.{IsNextNumber};
ghost use Rattle.fux_grid.specs.Exercises.{columns_in};
ghost use Rattle.fux_grid.specs.Menus.{menu_of};

use floor_tables::Tables;
use fux_grid::{Cell, Column, cells_follow};

/// The columns of an exercise's menus, and the tail of each prefix that ends with one of them: by
/// tables, or as entries state it.
pub trait Tails {
    ghost basis: { Self → Basis };

    /// How many columns the menu of a place has.
    fn width(&self, i: usize) -> usize
        requires { i < columns_in (basis self.now).exercise }
        ensures { result ≡ length (menu_of (basis self.now).exercise i) };

    /// The column of a number in the menu of a place.
    fn column(&self, i: usize, k: usize) -> &Column
        requires place { i < columns_in (basis self.now).exercise }
        requires within { k < length (menu_of (basis self.now).exercise i) }
        ensures { result.now.items ≡ slice_index_or (menu_of (basis self.now).exercise i) k [] };

    /// The least of the rules S10, S11, S13 and S14 that the column of a number breaks by itself, or
    /// that it breaks none, where that was found before.
    fn alone(&self, i: usize, k: usize) -> Option<Option<u8>>
        requires place { i < columns_in (basis self.now).exercise }
        requires within { k < length (menu_of (basis self.now).exercise i) }
        ensures { IsAlone (basis self.now).exercise i
            (slice_index_or (menu_of (basis self.now).exercise i) k []) result }
    {
        let _ = (i, k);
        None
    }

    /// The number of the first column of a place's menu, from this number on, that follows these
    /// cells. The hint is the number of a column that often does.
    fn next(&self, i: usize, before: &[Cell], from: usize, hint: usize) -> Option<usize>
        requires { i < columns_in (basis self.now).exercise }
        ensures { IsNextNumber (menu_of (basis self.now).exercise i) before.now from result }
    {
        let _ = hint;
        let width = self.width(i);
        let mut k = from;
        while k < width {
            if cells_follow(before, self.column(i, k).as_slice()) {
                return Some(k);
            }
            k += 1;
        }
        None
    }

    /// The tail of the empty prefix.
    fn start(&self) -> Option<u64>
        ensures { result ≡ tail_by (basis self.now) [] };

    /// The tail of the prefixes that end at a place with the column of a number.
    fn behind(&self, i: usize, k: usize) -> Option<u64>
        requires place { i < columns_in (basis self.now).exercise }
        requires within { k < length (menu_of (basis self.now).exercise i) }
        ensures { IsTailBehind (basis self.now) i k result };
}

impl<'a> Tails for Tables<'a> {
    ghost use Rattle.cert_law.specs.Bases.{basis_of};

    ghost basis = { basis_of };

    fn width(&self, i: usize) -> usize {
        Tables::width(self, i)
    }

    fn column(&self, i: usize, k: usize) -> &Column {
        Tables::column(self, i, k)
    }

    fn start(&self) -> Option<u64> {
        Tables::start(self)
    }

    fn behind(&self, i: usize, k: usize) -> Option<u64> {
        self.rest_of_number(i, k)
    }
}
