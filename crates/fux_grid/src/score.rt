//! A list of columns.

ghost use Rattle.std.specs.Prelude.{◌≡◌, ◌+◌, ◌==◌, ◌<◌, ◌≤◌, ◌↔◌, [], ◌∷◌, ◌++◌, length, All, IfOk, OnOk, OnErr, slice_index_or, IsTrue, IsOk, reverse, drop};
ghost use Rattle.std.specs.Result.{result_err};
ghost use Rattle.fux_grid.specs.Cells.{cell_in};
ghost use Rattle.fux_grid.specs.Faults.{hold_fault, lowest_misfit, push_fault};
ghost use Rattle.fux_grid.specs.Columns.{ColumnFollows, FollowsLast, HistoryFollows, cells_before, newest_column, earlier};

use crate::cell::{Cell, Column};
use fux_pitch::Memory;
use std::alloc::Global;
use std::marker::Model;

/// Room for 24 bars of eight columns.
const MOST_COLUMNS: usize = 192;

/// Why a column was not taken. A voice is the lowest one at fault.
#[derive(Clone, Copy, Debug, PartialEq, Eq)]
pub enum GridFault {
    /// The score has 192 columns.
    Full,
    /// The column doesn't have one cell for each voice.
    Voices,
    /// The first column of a score holds a pitch that nothing started.
    HoldAtStart { voice: u8 },
    /// The voice holds a pitch where it rested before.
    HoldAfterRest { voice: u8 },
    /// The voice holds another pitch than the one that it sounded before.
    HoldMoved { voice: u8 },
}

/// Columns that follow one another.
#[derive(Drop)]
pub struct Score {
    voices: u8,
    columns: Vec<Column>,
}

impl Model for Score {
    ghost use Rattle.fux_grid.specs.Grid.{Grid, IsScore, items_of};

    ghost Value = { Grid };

    ghost view = { λ s. record { voices = s.voices; columns = items_of s.columns.items } };

    ghost invariant = { λ s. IsScore s.voices s.columns };
}

/// Whether each cell of `next` may follow the one of its voice in `prev`; with no `prev`, whether
/// `next` may come first.
pub fn follows(prev: Option<&Column>, next: &Column) -> bool
    ensures { IsTrue result ↔ ColumnFollows (cells_before prev.entry) next.now.items }
{
    match prev {
        Some(column) => cells_follow(column, next),
        None => cells_follow(&[], next),
    }
}

/// Whether each cell may follow the one of its voice; a voice that `prev` lacks rests there.
pub fn cells_follow(prev: &[Cell], next: &[Cell]) -> bool
    ensures { IsTrue result ↔ ColumnFollows prev.now next.now }
{
    for v in 0..next.len() {
        if !cell_of(next, v).follows(cell_of(prev, v)) {
            return false;
        }
    }
    true
}

/// The cell of a voice in a column, a rest where the column has none.
pub fn cell_of(column: &[Cell], v: usize) -> Cell
    ensures { result ≡ cell_in column.now v }
{
    if v < column.len() {
        column[v]
    } else {
        Cell::Rest
    }
}

impl Score {
    /// The empty score, with room for 192 columns.
    pub fn new(alloc: Global, voices: u8) -> Result<Score, Memory>
        requires least { 2 ≤ voices }
        requires most { voices ≤ 4 }
        ensures { IfOk result (λ s. s ≡ record { voices = voices; columns = [] }) }
    {
        let columns = Vec::with_capacity(alloc, MOST_COLUMNS)?;
        Ok(Score { voices, columns })
    }

    /// How many columns there are.
    pub fn len(&self) -> usize
        ensures value { result ≡ length self.now.columns }
        ensures bound { result ≤ 192 }
    {
        self.columns.len()
    }

    /// How many voices there are.
    pub fn voices(&self) -> u8
        ensures value { result ≡ self.now.voices }
        ensures bound { result ≤ 4 }
    {
        self.voices
    }

    /// The column at a place.
    pub fn column(&self, i: usize) -> &Column
        requires { i < length self.now.columns }
        ensures value { result.now.items ≡ slice_index_or self.now.columns i [] }
        ensures full { length result.now.items ≡ self.now.voices }
    {
        &self.columns[i]
    }

    /// Whether there is no column.
    pub fn is_empty(&self) -> bool
        ensures { result ≡ (length self.now.columns == 0) }
    {
        self.len() == 0
    }

    /// What each score keeps. It does nothing; callers that prove something about a score learn
    /// this from it.
    pub fn kept(&self)
        ensures fewest { 2 ≤ self.now.voices }
        ensures most { self.now.voices ≤ 4 }
        ensures few { length self.now.columns ≤ 192 }
        ensures full { All (λ col. length col ≡ self.now.voices) self.now.columns }
        ensures follows { HistoryFollows (reverse self.now.columns) }
    {
        let _ = &self.columns;
    }

    /// The cells of the newest column; none where there is no column.
    pub fn newest(&self) -> &[Cell]
        ensures { result.now ≡ newest_column (reverse self.now.columns) }
    {
        self.before(self.len())
    }

    /// The lowest voice whose cell may not come next.
    fn misfit(&self, col: &Column) -> Option<u8>
        ensures value { result ≡ lowest_misfit (newest_column (reverse self.now.columns))
            col.now.items }
        ensures fits { length col.now.items ≤ 4 → result ≡ None →
            FollowsLast self.now.columns col.now.items }
    {
        let newest = self.newest();
        for v in 0..4u8 {
            if !cell_of(col, v as usize).follows(cell_of(newest, v as usize)) {
                return Some(v);
            }
        }
        None
    }

    /// Why a hold of this voice may not come next.
    fn hold_fault(&self, voice: u8) -> GridFault
        ensures { result ≡ hold_fault (reverse self.now.columns) voice }
    {
        if self.is_empty() {
            return GridFault::HoldAtStart { voice };
        }
        match cell_of(self.newest(), voice as usize) {
            Cell::Rest => GridFault::HoldAfterRest { voice },
            _ => GridFault::HoldMoved { voice },
        }
    }

    /// Appends a column. It takes no memory.
    pub fn push(&mut self, col: Column) -> Result<(), GridFault>
        ensures ok { OnOk result (self.new ≡ record self.old {
          columns = self.old.columns ++ col.items
              ∷ [];
        }) }
        ensures err { OnErr result (self.new ≡ self.old) }
        ensures fault { result_err result ≡ push_fault self.old col.items }

        // What a taken column has, and that such a column is taken where there is room.
        ensures width { IsOk result → length col.items ≡ self.old.voices }
        ensures follows { IsOk result → FollowsLast self.old.columns col.items }
        ensures taken { length self.old.columns < 192 → length col.items ≡ self.old.voices →
            FollowsLast self.old.columns col.items → IsOk result }
    {
        if self.len() == MOST_COLUMNS {
            return Err(GridFault::Full);
        }
        if col.len() != self.voices as usize {
            return Err(GridFault::Voices);
        }
        if let Some(voice) = self.misfit(&col) {
            return Err(self.hold_fault(voice));
        }
        self.columns.push_reserved(col);
        Ok(())
    }

    /// The cells of the column before a place; none at the first place.
    pub fn before(&self, i: usize) -> &[Cell]
        requires { i ≤ length self.now.columns }
        ensures { result.now ≡ newest_column (earlier self.now.columns i) }
    {
        if i == 0 {
            return &[];
        }
        self.column(i - 1).as_slice()
    }

    /// The cells of the column that stands k columns after the next one; none where there is no
    /// such column.
    pub fn later(&self, i: usize, k: usize) -> &[Cell]
        requires { i < length self.now.columns }
        ensures { result.now ≡ slice_index_or (drop (i + 1) self.now.columns) k [] }
    {
        let after = self.len() - i - 1;
        if k >= after {
            return &[];
        }
        self.column(i + 1 + k).as_slice()
    }

    /// The cells of the column that stands k columns before the one before a place; none where
    /// there is no such column.
    pub fn behind(&self, i: usize, k: usize) -> &[Cell]
        requires { i ≤ length self.now.columns }
        ensures { result.now ≡ slice_index_or (earlier self.now.columns i) k [] }
    {
        if k >= i {
            return &[];
        }
        self.column(i - 1 - k).as_slice()
    }

    /// The cell of a voice at a place, a rest where there is no such voice.
    pub fn cell(&self, v: usize, i: usize) -> Cell
        requires { i < length self.now.columns }
        ensures { result ≡ cell_in (slice_index_or self.now.columns i []) v }
    {
        cell_of(self.column(i).as_slice(), v)
    }
}
