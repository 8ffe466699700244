//! What each column of an exercise's menus breaks by itself, found once.

ghost use Rattle.std.specs.Prelude.{◌≡◌, ◌<◌, [], IfOk, length, slice_index_or};
ghost use Rattle.cert_law.specs.Alone.{AreAlone, IsAlone, IsAloneRow};
ghost use Rattle.fux_grid.specs.declared.exercise.Exercise.{Exercise as AnExercise};
ghost use Rattle.fux_grid.specs.Exercises.{IsValid, columns_in};
ghost use Rattle.fux_grid.specs.Menus.{menu_of};
ghost use Rattle.fux_judge.specs.Told.{least_alone};

use crate::tails::Tails;
use floor_tables::Tables;
use fux_grid::{Column, Exercise};
use fux_judge::alone_rule;
use fux_pitch::{List, Memory};
use rule_law::is_quiet;
use std::alloc::Global;
use std::marker::Model;

/// The tables of an exercise, and for each column of its menus the least of the rules S10, S11, S13
/// and S14 that it breaks by itself.
#[derive(Drop)]
pub struct AloneTables<'a> {
    tables: &'a Tables<'a>,
    rules: Vec<List<Option<u8>>>,
}

impl<'a> Model for AloneTables<'a> {
    ghost use Rattle.cert_law.specs.Alone.{AreAlone};
    ghost use Rattle.floor_tables.specs.Tables.{Task};

    ghost Value = { Task };

    ghost view = { λ t. t.tables.now };

    ghost invariant = { λ t. AreAlone t.tables.now.exercise t.rules.items };
}

/// The least of these rules that a column of a place breaks by itself. Where nothing begins in it,
/// none is asked.
fn alone_of<'a>(ex: &'a Exercise<'a>, i: usize, column: &'a Column) -> Option<u8>
    requires valid { IsValid ex.now }
    requires place { i < columns_in ex.now }
    ensures { result ≡ least_alone ex.now i column.now.items }
{
    if is_quiet(i, column.as_slice()) {
        return None;
    }
    alone_rule(ex, i, column)
}

/// What the columns of a place break by themselves.
fn row_of<'a>(
    alloc: Global,
    ex: &'a Exercise<'a>,
    tables: &'a Tables<'a>,
    i: usize,
) -> Result<List<Option<u8>>, Memory>
    requires valid { IsValid ex.now }
    requires same { tables.now.exercise ≡ ex.now }
    requires place { i < columns_in ex.now }
    ensures { IfOk result (IsAloneRow ex.now i) }
{
    let width = tables.width(i);
    let mut row = Vec::with_capacity(alloc, width)?;
    for k in 0..width {
        let told = alone_of(ex, i, tables.column(i, k));
        row.push_reserved(told);
    }
    Ok(List::new(row))
}

/// What the columns of all places break by themselves.
fn rows_of<'a>(
    alloc: Global,
    ex: &'a Exercise<'a>,
    tables: &'a Tables<'a>,
) -> Result<Vec<List<Option<u8>>>, Memory>
    requires valid { IsValid ex.now }
    requires same { tables.now.exercise ≡ ex.now }
    ensures { IfOk result (λ rows. AreAlone ex.now rows.items) }
{
    let places = 8 * ex.bars as usize;
    let mut rows = Vec::with_capacity(alloc, places)?;
    for i in 0..places {
        let row = row_of(alloc, ex, tables, i)?;
        rows.push_reserved(row);
    }
    Ok(rows)
}

/// What is told of the column of a number at a place.
fn told_in(rules: &[List<Option<u8>>], i: usize, k: usize) -> Option<Option<u8>>
    ensures { (ex : AnExercise) → AreAlone ex rules.now
        → IsAlone ex i (slice_index_or (menu_of ex i) k []) result }
{
    if i >= rules.len() {
        return None;
    }
    let row = rules[i].as_slice();
    if k >= row.len() {
        return None;
    }
    Some(row[k])
}

impl<'a> AloneTables<'a> {
    /// The tables, and what is found of each column. All memory is taken here.
    pub fn new(
        alloc: Global,
        ex: &'a Exercise<'a>,
        tables: &'a Tables<'a>,
    ) -> Result<AloneTables<'a>, Memory>
        requires valid { IsValid ex.now }
        requires same { tables.now.exercise ≡ ex.now }
        ensures { IfOk result (λ it. it ≡ tables.entry.now) }
    {
        let rules = rows_of(alloc, ex, tables)?;
        Ok(AloneTables { tables, rules })
    }

    /// The tables.
    pub fn tables(&self) -> &Tables<'a>
        ensures { result.now ≡ self.now }
    {
        self.tables
    }
}

impl<'a> Tails for AloneTables<'a> {
    ghost use Rattle.cert_law.specs.Bases.{basis_of};

    ghost basis = { basis_of };

    fn width(&self, i: usize) -> usize {
        self.tables.width(i)
    }

    fn column(&self, i: usize, k: usize) -> &Column {
        self.tables.column(i, k)
    }

    fn alone(&self, i: usize, k: usize) -> Option<Option<u8>> {
        told_in(self.rules.as_slice(), i, k)
    }

    fn start(&self) -> Option<u64> {
        self.tables.start()
    }

    fn behind(&self, i: usize, k: usize) -> Option<u64> {
        self.tables.rest_of_number(i, k)
    }
}
