//! What is kept of a prefix.

ghost use Rattle.std.specs.Prelude.{◌≡◌, ◌<◌, ◌≤◌, ◌+◌, ◌==◌, [], List, length, reverse};
ghost use Rattle.fux_grid.specs.declared.cell.Cell.{Cell as ACell};
ghost use Rattle.fux_grid.specs.declared.exercise.Exercise.{Exercise as AnExercise};
ghost use Rattle.fux_grid.specs.Columns.{newest_column};
ghost use Rattle.fux_grid.specs.Exercises.{IsValid, columns_in};
ghost use Rattle.fux_grid.specs.Menus.{IsInMenu};
ghost use Rattle.fux_judge.specs.States.{IsReadOf, IsStateOf};
ghost use Rattle.fux_judge.specs.Still.{IsStillPlace};
ghost use Rattle.fux_judge.specs.Verdicts.{Grown};

use crate::ahead::{LineAhead, all_ahead_at_start, pass_all};
use crate::gauges::{LineGauges, all_ungauged, gauge_all};
use crate::past::Past;
use fux_grid::{Cell, Column, Exercise};
use rule_law::NewestColumns;

/// What is kept of a prefix of any length, enough to judge each column that may follow: how many
/// columns it has, the newest of them, and a part for each crate of rules that looks further back.
/// It has a fixed size and takes no memory.
#[derive(Clone, Copy, Debug, PartialEq, Eq)]
pub struct State {
    /// How many columns the prefix has, and the newest of them.
    pub newest: NewestColumns,
    /// What the crates of rules keep of it.
    pub(crate) past: Past,
    pub(crate) gauges: [LineGauges; 4],
    pub(crate) ahead: [LineAhead; 4],
}

impl State {
    /// The state of the empty prefix.
    pub fn start(ex: &Exercise) -> State
        ensures { IsStateOf ex.now [] result }
    {
        State {
            newest: NewestColumns::none(),
            past: Past::none(),
            gauges: all_ungauged(),
            ahead: all_ahead_at_start(ex),
        }
    }

    /// Adds a column behind the prefix.
    #[inline(always)]
    pub fn add(&mut self, ex: &Exercise, col: &Column)
        requires valid { IsValid ex.now }
        requires room { self.old.newest.len < columns_in ex.now }
        requires full { length col.now.items ≡ ex.now.voices }
        ensures state { Grown ex.now self.old col.now.items (λ longer. IsStateOf ex.now longer
            self.new) }
        ensures length { self.new.newest.len ≡ self.old.newest.len + 1 }
    {
        let cells = col.as_slice();
        let i = self.newest.len;
        self.past.note(ex, i, cells);
        gauge_all(ex, i, &mut self.gauges, cells);
        pass_all(ex, i, &mut self.ahead, cells);
        self.newest.push(cells);
    }

    /// Takes over from another state what rules and tolls read of its prefix, and adds a column
    /// behind it. What is kept of the lines stays, whatever it is of.
    #[inline(always)]
    pub(crate) fn read_on(&mut self, ex: &Exercise, state: &State, col: &Column)
        requires valid { IsValid ex.now }
        requires room { state.now.newest.len < columns_in ex.now }
        requires full { length col.now.items ≡ ex.now.voices }
        ensures read { Grown ex.now state.now col.now.items (λ longer. IsReadOf ex.now longer
            self.new) }
        ensures length { self.new.newest.len ≡ state.now.newest.len + 1 }
    {
        let cells = col.as_slice();
        let i = state.newest.len;
        self.newest = state.newest;
        self.past = state.past;
        self.past.note(ex, i, cells);
        self.newest.push(cells);
    }

    /// Takes over what is kept of the lines, and takes the column in there too.
    #[inline(always)]
    pub(crate) fn weigh_on(&mut self, ex: &Exercise, state: &State, col: &Column)
        requires valid { IsValid ex.now }
        requires room { state.now.newest.len < columns_in ex.now }
        requires full { length col.now.items ≡ ex.now.voices }
        ensures state { Grown ex.now state.now col.now.items (λ longer.
            IsReadOf ex.now longer self.old → IsStateOf ex.now longer self.new) }
        ensures length { self.new.newest.len ≡ self.old.newest.len }
    {
        let cells = col.as_slice();
        let i = state.newest.len;
        self.gauges = state.gauges;
        self.ahead = state.ahead;
        gauge_all(ex, i, &mut self.gauges, cells);
        pass_all(ex, i, &mut self.ahead, cells);
    }

    /// Adds a column of the menu of a place at which nothing can begin: there what the crates of
    /// rules and the gauges keep stays, and what lies ahead of them.
    #[inline(always)]
    pub fn add_still(&mut self, ex: &Exercise, col: &Column)
        requires valid { IsValid ex.now }
        requires room { self.old.newest.len < columns_in ex.now }
        requires full { length col.now.items ≡ ex.now.voices }
        requires menu { IsInMenu ex.now self.old.newest.len col.now.items }
        requires still { IsStillPlace ex.now self.old.newest.len }
        ensures state { Grown ex.now self.old col.now.items (λ longer. IsStateOf ex.now longer
            self.new) }
        ensures length { self.new.newest.len ≡ self.old.newest.len + 1 }
    {
        let _ = ex;
        let cells = col.as_slice();
        self.newest.push(cells);
    }

    /// How many columns the prefix has.
    #[inline]
    pub fn len(&self) -> usize
        ensures { (ex : AnExercise) (p : List (List ACell)) → IsStateOf ex p self.now → result
            ≡ length p }
    {
        self.newest.len
    }

    /// Whether the prefix is empty.
    #[inline]
    pub fn is_empty(&self) -> bool
        ensures { (ex : AnExercise) (p : List (List ACell)) → IsStateOf ex p self.now → result
            ≡ (length p == 0) }
    {
        self.newest.len == 0
    }

    /// The cells of the last column; none where there is none.
    #[inline]
    pub fn before(&self, ex: &Exercise) -> &[Cell]
        requires { ex.now.voices ≤ 4 }
        ensures { (p : List (List ACell)) → IsStateOf ex.now p self.now → result.now
            ≡ newest_column (reverse p) }
    {
        if self.newest.len == 0 {
            return &[];
        }
        self.newest.at(self.newest.len - 1, ex.voices as usize)
    }
}
