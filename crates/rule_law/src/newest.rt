//! The newest columns of a list of columns.

ghost use Rattle.std.specs.Prelude.{◌≡◌, ◌==◌, ◌≤◌, ◌<◌, ◌+◌, [], ℕ, List, length, take, slice_index_or};
ghost use Rattle.fux_grid.specs.declared.cell.Cell.{Cell as ACell};
ghost use Rattle.rule_law.specs.Newest.{AreNewestOf, GrowBy};

use fux_grid::{Cell, cell_of};

/// The cells of four voices; rests where there are fewer.
#[derive(Clone, Copy, Debug, PartialEq, Eq)]
pub struct ColumnCells {
    cells: [Cell; 4],
}

impl ColumnCells {
    /// Four rests.
    const RESTS: ColumnCells = ColumnCells {
        cells: [Cell::Rest; 4],
    };

    /// The cells of a column.
    #[inline]
    fn of(column: &[Cell]) -> ColumnCells
        ensures { length column.now ≤ 4 → take (length column.now) result.cells ≡ column.now }
    {
        ColumnCells {
            cells: [
                cell_of(column, 0),
                cell_of(column, 1),
                cell_of(column, 2),
                cell_of(column, 3),
            ],
        }
    }
}

/// How many columns a list has, and the newest 25 of them: a column and the three bars before it,
/// as far back as a rule or a toll looks from the column that settles it. Column `i` is kept at `i
/// % 32`, which takes no division. It has a fixed size and takes no memory.
#[derive(Clone, Copy, Debug, PartialEq, Eq)]
pub struct NewestColumns {
    /// How many columns the list has.
    pub len: usize,
    columns: [ColumnCells; 32],
}

impl NewestColumns {
    /// Those of the empty list.
    pub fn none() -> NewestColumns
        ensures { (voices : ℕ) → AreNewestOf voices [] result }
    {
        NewestColumns {
            len: 0,
            columns: [ColumnCells::RESTS; 32],
        }
    }

    /// How many columns the list has.
    #[inline]
    pub fn len(&self) -> usize
        ensures { (voices : ℕ) (s : List (List ACell)) → AreNewestOf voices s self.now → result
            ≡ length s }
    {
        self.len
    }

    /// Whether the list is empty.
    #[inline]
    pub fn is_empty(&self) -> bool
        ensures { (voices : ℕ) (s : List (List ACell)) → AreNewestOf voices s self.now → result
            ≡ (length s == 0) }
    {
        self.len == 0
    }

    /// Adds a column behind the list.
    #[inline]
    pub fn push(&mut self, column: &[Cell])
        requires room { self.old.len < 192 }
        ensures newest { GrowBy column.now self.old self.new }
        ensures count { self.new.len ≡ self.old.len + 1 }
    {
        self.columns[self.len % 32] = ColumnCells::of(column);
        self.len += 1;
    }

    /// Those of the list with one column more.
    #[inline]
    pub fn with(&self, column: &[Cell]) -> NewestColumns
        requires room { self.now.len < 192 }
        ensures newest { GrowBy column.now self.now result }
        ensures count { result.len ≡ self.now.len + 1 }
    {
        let mut next = *self;
        next.push(column);
        next
    }

    /// The cells of column `i`, of so many voices; none where the list has no such column.
    #[inline]
    pub fn at(&self, i: usize, voices: usize) -> &[Cell]
        requires { voices ≤ 4 }
        ensures { (s : List (List ACell)) → AreNewestOf voices s self.now → length s ≤ i + 25
            → result.now ≡ slice_index_or s i [] }
    {
        if i >= self.len {
            return &[];
        }
        &self.columns[i % 32].cells[..voices]
    }
}
