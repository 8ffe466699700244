//! What chains are made of.

ghost use Rattle.std.specs.Prelude.{◌≡◌, ◌≤◌, ◌<◌, ◌^◌, ℕ, length, IfOk, IfSome, List, Option, Some};
ghost use Rattle.std.specs.Bool.{OnTrue};
ghost use Rattle.std.specs.List.{Contains};
ghost use Rattle.fux_grid.specs.declared.cell.Cell.{Cell as ACell};
ghost use Rattle.fux_grid.specs.Grid.{items_of};
ghost use Rattle.fux_grid.specs.Menus.{IsAscending};
ghost use Rattle.chain_sums.specs.Chains.{AreFull, Chains, IsKnown, IsLeastCost, given};
ghost use Rattle.chain_sums.specs.Moves.{AreLeastMoves, moves_sum};
ghost use Rattle.chain_sums.specs.Still.{HoldingIsFree};

use fux_grid::{Cell, Column, VoiceCells};
use fux_pitch::Memory;
use std::alloc::Global;

/// Columns that may stand side by side: the menu of each place, and what a column costs there
/// behind another.
pub trait Links {
    ghost chains: { Self → Chains };

    /// What a column costs at a place at least, whatever stands before it.
    ghost own: { Self → ℕ → List ACell → Option ℕ };

    /// What a voice's move from one cell to another costs at a place.
    ghost moves: { Self → ℕ → ℕ → ACell → ACell → Option ℕ };

    /// Behind another a column costs at least what it costs by itself and what the moves of the
    /// voices cost.
    ghost least_moves: { (it : Self) (i : ℕ) → AreLeastMoves (chains it) i (own it i) (moves it i) };

    /// How many places there are.
    fn places(&self) -> usize
        ensures value { result ≡ (chains self.now).places }
        ensures bound { result ≤ 192 };

    /// How many voices each column has.
    fn voices(&self) -> usize
        ensures value { result ≡ (chains self.now).voices }
        ensures few { result ≤ 4 };

    /// How many columns the menu of a place has.
    fn width(&self, i: usize) -> u64
        requires { i < (chains self.now).places }
        ensures { result ≡ length ((chains self.now).menu i) };

    /// The menu of a place, in reading order. It is asked for where no menu is too wide.
    fn menu(&self, alloc: Global, i: usize) -> Result<Vec<Column>, Memory>
        requires { i < (chains self.now).places }
        ensures value { IfOk result (λ menu. items_of menu.items ≡ (chains self.now).menu i) }
        ensures order { IfOk result (λ menu. IsAscending (items_of menu.items)) }
        ensures full { IfOk result (λ menu. AreFull (chains self.now).voices (items_of menu.items)) };

    /// The cells that a voice may have at a place. A cell that isn't among them changes no sum: its
    /// moves are found one by one.
    fn cells(&self, i: usize, v: usize) -> VoiceCells
        requires place { i < (chains self.now).places }
        requires voice { v < 4 };

    /// Whether two places are known to have the same menu: then it is made once.
    fn has_same_menu(&self, i: usize, j: usize) -> bool
        requires first { i < (chains self.now).places }
        requires second { j < (chains self.now).places }
        ensures { OnTrue result ((chains self.now).menu i ≡ (chains self.now).menu j) };

    /// Whether a column that holds all it sounds is known to cost nothing at a place, behind any
    /// column.
    fn holds_freely(&self, i: usize) -> bool
        requires { i < (chains self.now).places }
        ensures { OnTrue result (HoldingIsFree (chains self.now) i) };

    /// What `next` costs at a place, behind `prev`, which is lacking at the first place. None where
    /// the two may not be neighbors. It is asked of columns that follow one another.
    fn cost(&self, i: usize, prev: Option<&Column>, next: &Column) -> Option<u64>
        requires place { i < (chains self.now).places }
        requires choice { Contains ((chains self.now).menu i) next.now.items }
        ensures value { result ≡ (chains self.now).cost i (given prev.entry) next.now.items }
        ensures bound { IfSome result (λ cost. cost ≤ 2 ^ 53) };

    /// What `next` costs at a place at least, whatever stands before it. None only where it may
    /// stand behind no column. A higher answer spares more work, and changes no sum.
    fn own_cost(&self, i: usize, next: &Column) -> Option<u64>
        requires place { i < (chains self.now).places }
        requires choice { Contains ((chains self.now).menu i) next.now.items }
        ensures value { result ≡ own self.now i next.now.items }
        ensures least { IsLeastCost (chains self.now) i next.now.items result }
        ensures bound { IfSome result (λ cost. cost ≤ 2 ^ 52) };

    /// What the move of a voice from one cell to another costs at a place. None only where no
    /// column with such a cell may be the neighbor of one with the other.
    fn move_cost(&self, i: usize, v: usize, before: Cell, next: Cell) -> Option<u64>
        requires place { i < (chains self.now).places }
        requires voice { v < 4 }
        ensures value { result ≡ moves self.now i v before next }
        ensures bound { IfSome result (λ cost. cost ≤ 2 ^ 50) };

    /// The same as `cost`, where it is known what `next` costs at least, and what the moves of the
    /// voices cost together: that needn't be found again.
    fn cost_from(
        &self,
        i: usize,
        prev: &Column,
        next: &Column,
        known: u64,
        moved: u64,
    ) -> Option<u64>
        requires place { i < (chains self.now).places }
        requires choice { Contains ((chains self.now).menu i) next.now.items }
        requires known { IsKnown (own self.now i next.now.items) known }
        requires moved { IsKnown (moves_sum (moves self.now i) prev.now.items next.now.items)
            moved }
        ensures value { result ≡ (chains self.now).cost i (Some prev.now.items) next.now.items }
        ensures bound { IfSome result (λ cost. cost ≤ 2 ^ 53) };
}
