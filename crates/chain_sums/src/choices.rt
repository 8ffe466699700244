//! The least sum behind a column, from all that is known of the columns that may come next.

ghost use Rattle.std.specs.Prelude.{◌≡◌, ◌<◌, ◌≤◌, ◌^◌, ◌+◌, ◌↔◌, ℕ, [], Some, None, IsTrue, IsSomeAnd, length, slice_index_or};
ghost use Rattle.std.specs.Bool.{OnTrue};
ghost use Rattle.fux_grid.specs.Columns.{ColumnFollows};
ghost use Rattle.chain_sums.specs.Chains.{IsKnown, IsLeast};
ghost use Rattle.chain_sums.specs.Choices.{AreChoices, IsNoLess};
ghost use Rattle.chain_sums.specs.Fresh.{FollowsAll};
ghost use Rattle.chain_sums.specs.Moves.{AreRowsFrom};
ghost use Rattle.chain_sums.specs.Rows.{IsAtMost, AllAtMost, IsOneCostAboveRow};
ghost use Rattle.chain_sums.specs.Sums as sums;
ghost use Rattle.chain_sums.specs.Sums.{sum_behind};

use crate::candidates::Candidate;
use crate::least::{lesser, plus};
use crate::links::Links;
use crate::menu::Menu;
use crate::moves::{ChoirRows, Moves};
use fux_grid::{Column, follows};

/// The columns that may come next.
#[derive(Clone, Copy)]
pub(crate) struct Choices<'a> {
    /// The menu of their place.
    pub(crate) menu: &'a Menu,
    /// The least sums behind them.
    pub(crate) sums: &'a [Option<u64>],
    /// Those that may have a sum, by what it is at least.
    pub(crate) candidates: &'a [Candidate],
    /// What the moves to them cost.
    pub(crate) moves: &'a Moves,
    /// Whether it is known that each follows every column.
    pub(crate) always: bool,
}

/// Whether a sum is there that is at most a bound.
fn is_reached(least: Option<u64>, bound: u64) -> bool
    ensures { OnTrue result (IsSomeAnd least (λ x. x ≤ bound)) }
{
    match least {
        Some(x) => x <= bound,
        None => false,
    }
}

/// Whether a column that costs so much has no lesser sum than one that is there.
fn is_no_less(least: Option<u64>, cost: u64, rest: Option<u64>) -> bool
    requires cost { cost ≤ 2 ^ 53 }
    requires small { IsAtMost (2 ^ 62) rest }
    ensures { OnTrue result (IsNoLess least cost rest) }
{
    match rest {
        Some(x) => is_reached(least, cost + x),
        None => true,
    }
}

/// Whether a column follows another. One that follows every column isn't looked at.
fn may_follow(always: bool, prev: &Column, column: &Column) -> bool
    requires { OnTrue always (FollowsAll column.now.items) }
    ensures { IsTrue result ↔ ColumnFollows prev.now.items column.now.items }
{
    always || follows(Some(prev), column)
}

impl<'a> Choices<'a> {
    /// The lesser of a sum and of a candidate's behind a column. What the moves of the voices cost
    /// is asked first: mostly it tells that the candidate has no sum there, or no lesser one.
    #[inline(always)]
    fn lesser_with<L: Links>(
        &self,
        links: &L,
        i: usize,
        prev: &Column,
        rows: &ChoirRows<'_>,
        candidate: &Candidate,
        least: Option<u64>,
    ) -> Option<u64>
        requires place { i < (L.chains links.now).places }
        requires choices { AreChoices (L.chains links.now) (L.own links.now i) (L.moves links.now i)
            i self.now }
        requires rows { AreRowsFrom (L.moves links.now i) self.now.moves.now.choir prev.now.items
            rows.now }
        requires number { candidate.now.number < length ((L.chains links.now).menu i) }
        requires known { IsKnown (L.own links.now i (slice_index_or ((L.chains links.now).menu i)
            candidate.now.number [])) candidate.now.own }
        ensures value { result ≡ sums.lesser least (sum_behind (L.chains links.now) i
            (Some prev.now.items) (slice_index_or ((L.chains links.now).menu i) candidate.now.number
            []) (slice_index_or self.now.sums.now candidate.now.number None)) }
        ensures bound { (most : ℕ) → AllAtMost most self.now.sums.now → IsAtMost (most + 2 ^ 53)
            least → IsAtMost (most + 2 ^ 53) result }
    {
        let k = candidate.number;
        let next = self.menu.column(k);
        let Some(moved) = rows.sum(links, i, self.moves, prev, k, next) else {
            return least;
        };
        let rest = self.sums[k];
        if is_no_less(least, candidate.own + moved, rest) {
            return least;
        }
        if !may_follow(self.always, prev, next) {
            return least;
        }
        let cost = links.cost_from(i, prev, next, candidate.own, moved);
        lesser(least, plus(cost, rest))
    }

    /// The least sum over the chains that begin at the place, behind a column: the candidates are
    /// tried until no later one can have a lesser sum.
    pub(crate) fn least_behind<L: Links>(&self, links: &L, i: usize, prev: &Column) -> Option<u64>
        requires place { i < (L.chains links.now).places }
        requires choices { AreChoices (L.chains links.now) (L.own links.now i) (L.moves links.now i)
            i self.now }
        ensures least { IsLeast (L.chains links.now) i (Some prev.now.items) result }
        ensures bound { IsOneCostAboveRow self.now.sums.now result }
    {
        let rows = self.moves.rows_from(prev);
        let mut least = None;
        for candidate in self.candidates {
            if is_reached(least, candidate.bound) {
                return least;
            }
            least = self.lesser_with(links, i, prev, &rows, candidate, least);
        }
        least
    }
}
