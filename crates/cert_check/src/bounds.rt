//! What there is through each column at least: no entry has to be compared with more where it is no
//! more than that.

ghost use Rattle.std.specs.Prelude.{◌+◌, ◌^◌, ◌<◌, ◌≤◌, length, IfOk, IfSome};
ghost use Rattle.cert_check.specs.Boards.{AreBounds, IsBoard, IsBound, IsBoundOf};
ghost use Rattle.cert_law.specs.Entries.{number_in};
ghost use Rattle.fux_grid.specs.Exercises.{columns_in};
ghost use Rattle.fux_grid.specs.Menus.{menu_of};

use crate::board::Board;
use cert_text::Potential;
use fux_judge::column_cost;
use fux_pitch::Memory;
use std::alloc::Global;

/// A sum, or the greatest number of 32 bits where it is above that.
fn at_most(cost: u64, number: u32) -> u32
    requires { cost ≤ 2 ^ 24 }
    ensures { result ≤ cost + number }
{
    (cost + u64::from(number)).min(u64::from(u32::MAX)) as u32
}

impl<'a> Board<'a> {
    /// What there is through the column with a number in the menu of a place at least: what it
    /// costs by itself, together with what is stated for it.
    fn least_through(&self, i: usize, k: usize) -> Option<u32>
        requires board { IsBoard self.now }
        requires place { i < columns_in self.now.exercise.now }
        requires within { k < length (menu_of self.now.exercise.now i) }
        ensures { IsBound self.now.exercise.now self.now.sheet.now self.now.stated.now i k result }
    {
        let own = column_cost(self.exercise, self.sheet, i, self.column(i, k));
        bound_of(own, self.entry_of(i, k))
    }

    /// The same of each column, counted through all menus.
    pub(crate) fn bounds(&self, alloc: Global) -> Result<Vec<Option<u32>>, Memory>
        requires { IsBoard self.now }
        ensures { IfOk result (λ bounds. AreBounds self.now.exercise.now self.now.sheet.now
            self.now.stated.now bounds.items) }
    {
        let mut bounds = Vec::with_capacity(alloc, self.menus.total)?;
        for number in 0..self.menus.total {
            let (i, k) = self.place_of(number);
            bounds.push(self.least_through(i, k))?;
        }
        Ok(bounds)
    }
}

/// What a column costs by itself, together with what is stated for it; none where it may not stand
/// there, or nothing is stated.
fn bound_of(own: Option<u64>, entry: Potential) -> Option<u32>
    requires { IfSome own (λ cost. cost ≤ 2 ^ 24) }
    ensures { IsBoundOf own (number_in entry) result }
{
    match (own, entry) {
        (Some(cost), Potential::Least(number)) => Some(at_most(cost, number)),
        _ => None,
    }
}
