//! The tails by which claims are told and judged, over tables.

ghost use Rattle.std.specs.Prelude.{◌≡◌, ◌<◌, IfOk};
ghost use Rattle.cert_law.specs.Known.{IsNextNumber};
ghost use Rattle.floor_tables.specs.Tables.{AreNarrow};
ghost use Rattle.fux_grid.specs.Exercises.{IsValid, columns_in};
ghost use Rattle.fux_grid.specs.Menus.{menu_of};
ghost use Rattle.price_check.specs.Blocks.{AreAllBlocks};
ghost use Rattle.species_space.specs.Blocks.{AreBlocksOf, IsCut, columns_seen};

use cert_law::{AloneTables, Tails};
use floor_tables::Tables;
use fux_grid::{Cell, Column, Exercise};
use fux_pitch::Memory;
use species_space::{Blocks, MenuView};
use std::alloc::Global;
use std::marker::Model;

/// Tables, what each column breaks by itself, and the blocks of each menu, by which the column that
/// comes next is found.
#[derive(Drop)]
pub struct MenuTails<'a> {
    tables: AloneTables<'a>,
    blocks: Vec<Blocks>,
}

impl<'a> Model for MenuTails<'a> {
    ghost use Rattle.floor_tables.specs.Tables.{Task};
    ghost use Rattle.price_check.specs.Blocks.{AreAllBlocks};

    ghost Value = { Task };

    ghost view = { λ t. t.tables };

    ghost invariant = { λ t. AreAllBlocks t.tables.exercise t.blocks.items };
}

/// The blocks of the menu of a place.
fn blocks_at(tables: &Tables<'_>, i: usize) -> Blocks
    requires narrow { AreNarrow tables.now.exercise }
    requires place { i < columns_in tables.now.exercise }
    ensures { AreBlocksOf (menu_of tables.now.exercise i) result }
{
    Blocks::new(tables.columns(i))
}

/// The blocks of all menus.
fn blocks_of(alloc: Global, ex: &Exercise, tables: &Tables<'_>) -> Result<Vec<Blocks>, Memory>
    requires valid { IsValid ex.now }
    requires narrow { AreNarrow ex.now }
    requires same { tables.now.exercise ≡ ex.now }
    ensures { IfOk result (λ blocks. AreAllBlocks ex.now blocks.items) }
{
    let places = 8 * ex.bars as usize;
    let mut blocks = Vec::with_capacity(alloc, places)?;
    for i in 0..places {
        let cut = blocks_at(tables, i);
        blocks.push_reserved(cut);
    }
    Ok(blocks)
}

/// The number of the first column of a menu, from this number on, that follows these cells.
fn next_in(menu: &MenuView<'_>, before: &[Cell], from: usize, hint: usize) -> Option<usize>
    requires { IsCut menu.now }
    ensures { IsNextNumber (columns_seen menu.now) before.now from result }
{
    if from > menu.len() {
        return None;
    }
    let next = menu.next_that_follows(before, from, hint);
    if next >= menu.len() {
        return None;
    }
    Some(next)
}

impl<'a> MenuTails<'a> {
    /// The tables of an exercise, and what is found of their menus. All memory is taken here.
    pub fn new(
        alloc: Global,
        ex: &'a Exercise<'a>,
        tables: &'a Tables<'a>,
    ) -> Result<MenuTails<'a>, Memory>
        requires valid { IsValid ex.now }
        requires narrow { AreNarrow ex.now }
        requires same { tables.now.exercise ≡ ex.now }
        ensures { IfOk result (λ it. it ≡ tables.entry.now) }
    {
        let blocks = blocks_of(alloc, ex, tables)?;
        let told = AloneTables::new(alloc, ex, tables)?;
        Ok(MenuTails {
            tables: told,
            blocks,
        })
    }

    /// The tables.
    pub fn tables(&self) -> &Tables<'a>
        ensures { result.now ≡ self.now }
    {
        self.tables.tables()
    }

    /// The menu of a place, with its blocks.
    fn menu(&self, i: usize) -> MenuView<'_>
        requires { i < columns_in self.now.exercise }
        ensures columns { columns_seen result ≡ menu_of self.now.exercise i }
        ensures cut { IsCut result }
    {
        let blocks = &self.blocks[i];
        MenuView {
            columns: self.tables.tables().columns(i),
            blocks,
            undead: &[],
        }
    }
}

impl<'a> Tails for MenuTails<'a> {
    ghost use Rattle.cert_law.specs.Bases.{basis_of};

    ghost basis = { basis_of };

    fn width(&self, i: usize) -> usize {
        self.tables.width(i)
    }

    fn column(&self, i: usize, k: usize) -> &Column {
        self.tables.column(i, k)
    }

    fn alone(&self, i: usize, k: usize) -> Option<Option<u8>> {
        self.tables.alone(i, k)
    }

    fn next(&self, i: usize, before: &[Cell], from: usize, hint: usize) -> Option<usize> {
        next_in(&self.menu(i), before, from, hint)
    }

    fn start(&self) -> Option<u64> {
        self.tables.start()
    }

    fn behind(&self, i: usize, k: usize) -> Option<u64> {
        self.tables.behind(i, k)
    }
}
