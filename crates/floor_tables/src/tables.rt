//! Tables of the least sums over the chains of an exercise.

ghost use Rattle.std.specs.Prelude.{◌≡◌, ◌<◌, ◌≤◌, ◌^◌, [], OnOk, IfOk, IfErr, IfSome, length, slice_index_or};
ghost use Rattle.std.specs.Bool.{OnTrue};
ghost use Rattle.std.specs.List.{Contains};
ghost use Rattle.fux_grid.specs.Exercises.{IsValid, columns_in};
ghost use Rattle.fux_grid.specs.Grid.{items_of};
ghost use Rattle.fux_grid.specs.Menus.{menu_of};
ghost use Rattle.floor_tables.specs.Tables.{AreNarrow, IsRest, IsStart, TellsWidth};

use crate::links::ColumnLinks;
use chain_sums::{Gate, Open, TableFault};
use fux_grid::{Column, Exercise};
use penalty_sheet::Sheet;
use std::alloc::Global;
use std::marker::Model;
use std::thread::Threads;

/// For each column of an exercise's menus the least that the columns behind it cost together, by
/// the rules and tolls that read no more than two neighbors.
#[derive(Drop)]
pub struct Tables<'a> {
    exercise: &'a Exercise<'a>,
    sheet: &'a Sheet,
    sums: chain_sums::Tables,
}

impl<'a> Model for Tables<'a> {
    ghost use Rattle.fux_grid.specs.Exercises.{IsValid};
    ghost use Rattle.chain_sums.specs.Tables.{AreTablesOf};
    ghost use Rattle.floor_tables.specs.Floors.{chains_of};
    ghost use Rattle.floor_tables.specs.Tables.{Task};

    ghost Value = { Task };

    ghost view = { λ t. record { exercise = t.exercise.now; sheet = t.sheet.now } };

    ghost invariant = { λ t. IsValid t.exercise.now × AreTablesOf (chains_of t.exercise.now t.sheet.now) t.sums };
}

/// How many columns of a row one thread works.
const PIECE: usize = 2048;

/// The tables of an exercise by a sheet, each row worked in pieces of so many columns. They are the
/// same for every piece and every gate. All memory is taken here.
pub fn tables_cut<'a, R: Threads + Sync, G: Gate>(
    rt: &R,
    alloc: Global,
    ex: &'a Exercise<'a>,
    sheet: &'a Sheet,
    piece: usize,
    gate: &G,
) -> Result<Tables<'a>, TableFault>
    requires valid { IsValid ex.now }
    requires some { 1 ≤ piece }
    ensures made { IfOk result (λ t. t ≡ record { exercise = ex.entry.now; sheet = sheet.entry.now }) }
    ensures narrow { OnOk result (AreNarrow ex.entry.now) }
    ensures wide { IfErr result (TellsWidth ex.entry.now) }
{
    let links = ColumnLinks::new(ex, sheet);
    let sums = chain_sums::Tables::fill(rt, alloc, &links, piece, gate)?;
    Ok(Tables {
        exercise: ex,
        sheet,
        sums,
    })
}

/// The tables of an exercise by a sheet. All memory is taken here.
pub fn fill_tables<'a, R: Threads + Sync>(
    rt: &R,
    alloc: Global,
    ex: &'a Exercise<'a>,
    sheet: &'a Sheet,
) -> Result<Tables<'a>, TableFault>
    requires { IsValid ex.now }
    ensures made { IfOk result (λ t. t ≡ record { exercise = ex.entry.now; sheet = sheet.entry.now }) }
    ensures narrow { OnOk result (AreNarrow ex.entry.now) }
    ensures wide { IfErr result (TellsWidth ex.entry.now) }
{
    tables_cut(rt, alloc, ex, sheet, PIECE, &Open)
}

impl<'a> Tables<'a> {
    /// The least sum over the chains that go on behind a column of place `i`. None exactly where no
    /// chain reaches the end.
    pub fn rest(&self, i: usize, col: &Column) -> Option<u64>
        requires place { i < columns_in self.now.exercise }
        requires choice { Contains (menu_of self.now.exercise i) col.now.items }
        ensures rest { IsRest self.now.exercise self.now.sheet i col.now.items result }
        ensures small { IfSome result (λ sum. sum ≤ 2 ^ 61) }
    {
        self.sums.rest(i, col)
    }

    /// The same behind the column that has a number in the place's menu: nothing is searched.
    #[inline]
    pub fn rest_of_number(&self, i: usize, k: usize) -> Option<u64>
        requires place { i < columns_in self.now.exercise }
        requires choice { k < length (menu_of self.now.exercise i) }
        ensures rest { IsRest self.now.exercise self.now.sheet i
            (slice_index_or (menu_of self.now.exercise i) k []) result }
        ensures small { IfSome result (λ sum. sum ≤ 2 ^ 61) }
    {
        self.sums.rest_of_number(i, k)
    }

    /// The columns of the menu of a place, in reading order.
    #[inline]
    pub fn columns(&self, i: usize) -> &[Column]
        requires { i < columns_in self.now.exercise }
        ensures { items_of result.now ≡ menu_of self.now.exercise i }
    {
        self.sums.columns(i)
    }

    /// How many columns the menu of a place has.
    pub fn width(&self, i: usize) -> usize
        requires { i < columns_in self.now.exercise }
        ensures { result ≡ length (menu_of self.now.exercise i) }
    {
        self.columns(i).len()
    }

    /// The column of a number in the menu of a place.
    pub fn column(&self, i: usize, k: usize) -> &Column
        requires place { i < columns_in self.now.exercise }
        requires within { k < length (menu_of self.now.exercise i) }
        ensures { result.now.items ≡ slice_index_or (menu_of self.now.exercise i) k [] }
    {
        &self.columns(i)[k]
    }

    /// Whether the menu of two places is kept once for both.
    pub fn has_same_menu(&self, i: usize, j: usize) -> bool
        requires first { i < columns_in self.now.exercise }
        requires second { j < columns_in self.now.exercise }
        ensures { OnTrue result (menu_of self.now.exercise i ≡ menu_of self.now.exercise j) }
    {
        self.sums.has_same_menu(i, j)
    }

    /// The least sum over all chains. None exactly where there is no chain.
    pub fn start(&self) -> Option<u64>
        ensures start { IsStart self.now.exercise self.now.sheet result }
        ensures small { IfSome result (λ sum. sum ≤ 2 ^ 61) }
    {
        self.sums.start()
    }
}
