//! What the moves of single voices cost, from each cell of one menu to each cell of the next: there
//! are few, and most columns that may not be neighbors may not for a move of one voice.

ghost use Rattle.std.specs.Prelude.{◌≡◌, ◌<◌, ◌≤◌, ◌^◌, ℕ, Option, length, slice_index_or, IfOk, IfSome};
ghost use Rattle.fux_grid.specs.declared.cell.Cell.{Cell as ACell};
ghost use Rattle.fux_grid.specs.Cells.{cell_in};
ghost use Rattle.chain_sums.specs.declared.moves.CellNumbers.{CellNumbers as Numbers};
ghost use Rattle.chain_sums.specs.Menus.{columns_of};
ghost use Rattle.chain_sums.specs.Moves.{AreChoirMoves, AreMovesOf, AreMovesTo, AreNumbersAt, AreNumbersOf, AreRowsFrom, AreVoiceMoves, IsNumberAmong, IsRowFrom, moves_sum};

use crate::links::Links;
use crate::menu::Menu;
use fux_grid::{Cell, Column, VoiceCells, cell_of};
use fux_pitch::Memory;
use std::alloc::Global;

/// What a voice's moves from a cell cost, to each of some cells.
#[derive(Drop)]
struct MovesFrom {
    cell: Cell,
    costs: Vec<Option<u64>>,
}

/// What a voice's moves cost, from each of some cells to each of others.
#[derive(Drop)]
pub(crate) struct VoiceMoves {
    to: VoiceCells,
    from: Vec<MovesFrom>,
}

/// The same of each voice; where there are fewer than four, the others rest.
#[derive(Drop)]
pub(crate) struct Choir {
    bass: VoiceMoves,
    tenor: VoiceMoves,
    alto: VoiceMoves,
    soprano: VoiceMoves,
}

/// The numbers of a column's cells, each among those to which its voice may move.
#[derive(Clone, Copy)]
pub(crate) struct CellNumbers {
    bass: u8,
    tenor: u8,
    alto: u8,
    soprano: u8,
}

/// What a voice's moves from one cell cost, by the numbers of the cells to which it may move.
#[derive(Clone, Copy)]
pub(crate) struct VoiceRow<'a> {
    moves: &'a VoiceMoves,
    costs: &'a [Option<u64>],
}

/// The same of each voice, from the cells of one column.
#[derive(Clone, Copy)]
pub(crate) struct ChoirRows<'a> {
    bass: VoiceRow<'a>,
    tenor: VoiceRow<'a>,
    alto: VoiceRow<'a>,
    soprano: VoiceRow<'a>,
}

/// The moves from the columns of one menu to those of the next.
#[derive(Drop)]
pub(crate) struct Moves {
    choir: Choir,
    /// For each column of the next menu the numbers of its cells.
    numbers: Vec<CellNumbers>,
}

/// The number of a cell among others: as many as there are where it isn't among them.
fn number_in(cells: &[Cell], cell: Cell) -> usize
    ensures number { IsNumberAmong cells.now cell result }
    ensures within { result ≤ length cells.now }
{
    for k in 0..cells.len() {
        if cells[k] == cell {
            return k;
        }
    }
    cells.len()
}

/// What a voice's moves from a cell to others cost.
fn costs_from<L: Links>(
    alloc: Global,
    links: &L,
    i: usize,
    v: usize,
    cell: Cell,
    to: &[Cell],
) -> Result<Vec<Option<u64>>, Memory>
    requires place { i < (L.chains links.now).places }
    requires voice { v < 4 }
    ensures { IfOk result (λ row. AreMovesTo (L.moves links.now i v cell) to.now row.items) }
{
    let mut costs = Vec::with_capacity(alloc, to.len())?;
    for k in 0..to.len() {
        costs.push_reserved(links.move_cost(i, v, cell, to[k]));
    }
    Ok(costs)
}

impl VoiceMoves {
    /// What a voice's moves to a place cost, from the cells that it may have at the place before.
    fn new<L: Links>(alloc: Global, links: &L, i: usize, v: usize) -> Result<VoiceMoves, Memory>
        requires later { 0 < i }
        requires place { i < (L.chains links.now).places }
        requires voice { v < 4 }
        ensures { IfOk result (λ it. AreVoiceMoves (L.moves links.now i v) it) }
    {
        let to = links.cells(i, v);
        let cells = links.cells(i - 1, v);
        let mut from = Vec::with_capacity(alloc, cells.len())?;
        for k in 0..cells.len() {
            let cell = cells[k];
            let costs = costs_from(alloc, links, i, v, cell, &to)?;
            from.push_reserved(MovesFrom { cell, costs });
        }
        Ok(VoiceMoves { to, from })
    }

    /// The number of a cell to which the voice may move.
    fn number(&self, cell: Cell) -> u8
        ensures { IsNumberAmong self.now.to.items cell result }
    {
        number_in(&self.to, cell) as u8
    }

    /// What the moves from a cell cost; nothing is told of a cell that isn't among those of the
    /// table.
    fn row(&self, cell: Cell) -> VoiceRow<'_>
        ensures { (moves : ACell → ACell → Option ℕ) → AreVoiceMoves moves self.now
            → IsRowFrom moves self.now cell result }
    {
        for k in 0..self.from.len() {
            if self.from[k].cell == cell {
                return VoiceRow {
                    moves: self,
                    costs: &self.from[k].costs,
                };
            }
        }
        VoiceRow {
            moves: self,
            costs: &[],
        }
    }
}

impl<'a> VoiceRow<'a> {
    /// What the voice's move from a column to another costs; where the row doesn't tell, it's
    /// found.
    #[inline(always)]
    fn cost<L: Links>(
        &self,
        links: &L,
        i: usize,
        v: usize,
        number: u8,
        before: &Column,
        next: &Column,
    ) -> Option<u64>
        requires place { i < (L.chains links.now).places }
        requires voice { v < 4 }
        requires row { AreMovesTo (L.moves links.now i v (cell_in before.now.items v))
            self.now.moves.now.to.items self.now.costs.now }
        requires number { IsNumberAmong self.now.moves.now.to.items (cell_in next.now.items v)
            number }
        ensures value { result ≡ L.moves links.now i v (cell_in before.now.items v)
            (cell_in next.now.items v) }
        ensures bound { IfSome result (λ cost. cost ≤ 2 ^ 50) }
    {
        let k = number as usize;
        if k < self.costs.len() {
            return self.costs[k];
        }
        links.move_cost(i, v, cell_of(before, v), cell_of(next, v))
    }
}

impl Choir {
    /// What the moves to a place cost.
    fn new<L: Links>(alloc: Global, links: &L, i: usize) -> Result<Choir, Memory>
        requires later { 0 < i }
        requires place { i < (L.chains links.now).places }
        ensures { IfOk result (AreChoirMoves (L.moves links.now i)) }
    {
        Ok(Choir {
            bass: VoiceMoves::new(alloc, links, i, 0)?,
            tenor: VoiceMoves::new(alloc, links, i, 1)?,
            alto: VoiceMoves::new(alloc, links, i, 2)?,
            soprano: VoiceMoves::new(alloc, links, i, 3)?,
        })
    }

    /// The numbers of a column's cells.
    fn numbers(&self, column: &Column) -> CellNumbers
        ensures { AreNumbersOf self.now column.now.items result }
    {
        CellNumbers {
            bass: self.bass.number(cell_of(column, 0)),
            tenor: self.tenor.number(cell_of(column, 1)),
            alto: self.alto.number(cell_of(column, 2)),
            soprano: self.soprano.number(cell_of(column, 3)),
        }
    }

    /// The numbers of the cells of each column of a menu.
    fn numbers_of(&self, alloc: Global, menu: &Menu) -> Result<Vec<CellNumbers>, Memory>
        ensures numbers { IfOk result (λ numbers. AreNumbersAt self.now (columns_of menu.now)
            numbers.items) }
        ensures beside { IfOk result (λ numbers. length numbers.items
            ≡ length menu.now.columns.items) }
    {
        let mut numbers = Vec::with_capacity(alloc, menu.len())?;
        for k in 0..menu.len() {
            numbers.push_reserved(self.numbers(menu.column(k)));
        }
        Ok(numbers)
    }
}

impl Moves {
    /// The moves to a place from the one before, with the numbers of the cells of its menu.
    pub(crate) fn new<L: Links>(
        alloc: Global,
        links: &L,
        i: usize,
        next: &Menu,
    ) -> Result<Moves, Memory>
        requires later { 0 < i }
        requires place { i < (L.chains links.now).places }
        ensures { IfOk result (AreMovesOf (L.moves links.now i) (columns_of next.now)) }
    {
        let choir = Choir::new(alloc, links, i)?;
        let numbers = choir.numbers_of(alloc, next)?;
        Ok(Moves { choir, numbers })
    }

    /// What the moves from a column cost.
    pub(crate) fn rows_from(&self, before: &Column) -> ChoirRows<'_>
        ensures { (moves : ℕ → ACell → ACell → Option ℕ) → AreChoirMoves moves self.now.choir
            → AreRowsFrom moves self.now.choir before.now.items result }
    {
        ChoirRows {
            bass: self.choir.bass.row(cell_of(before, 0)),
            tenor: self.choir.tenor.row(cell_of(before, 1)),
            alto: self.choir.alto.row(cell_of(before, 2)),
            soprano: self.choir.soprano.row(cell_of(before, 3)),
        }
    }
}

impl<'a> ChoirRows<'a> {
    /// What the moves of all voices cost together, from the column whose rows these are to one that
    /// has these numbers.
    #[inline(always)]
    pub(crate) fn sum<L: Links>(
        &self,
        links: &L,
        i: usize,
        moves: &Moves,
        before: &Column,
        k: usize,
        next: &Column,
    ) -> Option<u64>
        requires place { i < (L.chains links.now).places }
        requires rows { AreRowsFrom (L.moves links.now i) moves.now.choir before.now.items
            self.now }
        requires within { k < length moves.now.numbers.items }
        requires numbers { (d : Numbers) → AreNumbersOf moves.now.choir next.now.items
            (slice_index_or moves.now.numbers.items k d) }
        ensures value { result ≡ moves_sum (L.moves links.now i) before.now.items next.now.items }
        ensures bound { IfSome result (λ cost. cost ≤ 2 ^ 52) }
    {
        let numbers = moves.numbers[k];
        let bass = self.bass.cost(links, i, 0, numbers.bass, before, next)?;
        let tenor = self.tenor.cost(links, i, 1, numbers.tenor, before, next)?;
        let alto = self.alto.cost(links, i, 2, numbers.alto, before, next)?;
        let soprano = self
            .soprano
            .cost(links, i, 3, numbers.soprano, before, next)?;
        Some(bass + (tenor + (alto + soprano)))
    }
}
