//! Whether an entry is true.

ghost use Rattle.std.specs.Prelude.{◌≡◌, ◌↔◌, ◌+◌, ◌<◌, ◌≤◌, ◌^◌, IsTrue, Some, length};
ghost use Rattle.std.specs.Bool.{OnTrue};
ghost use Rattle.cert_check.specs.Boards.{AllowsFrom, FollowsAlone, IsBoard, IsTrueAt};
ghost use Rattle.cert_law.specs.Entries.{AllowsSum, IsTrueBefore, IsTrueEntry, entry_count, number_in};
ghost use Rattle.cert_law.specs.Entries as law;
ghost use Rattle.cert_text.specs.declared.potential.Potential.TheVariants as potential;
ghost use Rattle.chain_sums.specs.Chains.{plus};
ghost use Rattle.fux_grid.specs.Exercises.{columns_in};
ghost use Rattle.fux_grid.specs.Menus.{menu_of};
ghost use Rattle.fux_judge.specs.Links.{given};

use crate::board::Board;
use cert_text::Potential;
use fux_grid::{Column, cells_follow};
use fux_judge::link_cost;
use rule_law::cells_of;

/// Whether an entry allows a sum. Both are compared in 64 bits: a sum may be above all numbers that
/// are stated.
fn allows(entry: Potential, sum: Option<u64>) -> bool
    ensures { IsTrue result ↔ AllowsSum entry sum }
{
    match (entry, sum) {
        (_, None) => true,
        (Potential::Least(least), Some(sum)) => u64::from(least) <= sum,
        (Potential::NoChain, Some(_)) => false,
    }
}

/// What is stated, and what it costs to come there, together.
fn sum_with(cost: u64, entry: Potential) -> Option<u64>
    requires { cost ≤ 2 ^ 53 }
    ensures { result ≡ plus (Some cost) (number_in entry) }
{
    match entry {
        Potential::Least(number) => Some(cost + u64::from(number)),
        Potential::NoChain => None,
    }
}

/// Whether an entry allows each sum that is no less than this one, or none where there is none.
/// Then no cost has to be found.
#[inline(always)]
fn allows_from(entry: Potential, least: Option<u32>) -> bool
    ensures { OnTrue result (AllowsFrom entry least) }
{
    match (least, entry) {
        (None, _) => true,
        (Some(least), Potential::Least(number)) => number <= least,
        (Some(_), Potential::NoChain) => false,
    }
}

/// Whether an entry states that nothing is to come.
fn is_end(entry: Potential) -> bool
    ensures { IsTrue result ↔ entry ≡ potential.Least 0 }
{
    match entry {
        Potential::Least(number) => number == 0,
        Potential::NoChain => false,
    }
}

impl<'a> Board<'a> {
    /// What the column of a number in a place's menu costs behind another or behind none, together
    /// with what is stated for it.
    fn sum_through(&self, i: usize, prev: Option<&'a Column>, k: usize) -> Option<u64>
        requires board { IsBoard self.now }
        requires place { i < columns_in self.now.exercise.now }
        requires within { k < length (menu_of self.now.exercise.now i) }
        ensures { result ≡ law.sum_through self.now.exercise.now self.now.sheet.now
            self.now.stated.now i (given prev.entry) k }
    {
        let next = self.column(i, k);
        if !cells_follow(cells_of(prev), next.as_slice()) {
            return None;
        }
        let cost = link_cost(self.exercise, self.sheet, i, prev, next)?;
        sum_with(cost, self.entry_of(i, k))
    }

    /// Whether an entry of a column before a place, or of the start, allows the sum through the
    /// column of a number there.
    #[inline(always)]
    fn allows_through(&self, i: usize, prev: Option<&'a Column>, entry: Potential, k: usize) -> bool
        requires board { IsBoard self.now }
        requires place { i < columns_in self.now.exercise.now }
        requires within { k < length (menu_of self.now.exercise.now i) }
        ensures { IsTrue result ↔ AllowsSum entry (law.sum_through self.now.exercise.now
            self.now.sheet.now self.now.stated.now i (given prev.entry) k) }
    {
        if allows_from(entry, self.bound_of(i, k)) {
            return true;
        }
        allows(entry, self.sum_through(i, prev, k))
    }

    /// Whether an entry is true of a column before a place, or of the start.
    fn is_true_before(&self, i: usize, prev: Option<&'a Column>, entry: Potential) -> bool
        requires board { IsBoard self.now }
        requires place { i < columns_in self.now.exercise.now }
        ensures { IsTrue result ↔ IsTrueBefore self.now.exercise.now self.now.sheet.now
            self.now.stated.now i (given prev.entry) entry }
    {
        for k in 0..self.width(i) {
            if !self.allows_through(i, prev, entry, k) {
                return false;
            }
        }
        true
    }

    /// Whether the column of a number is known to be the only one of a place's menu that follows
    /// another: it does, and all hold what they sound.
    fn follows_alone(&self, i: usize, prev: &Column, k: usize) -> bool
        requires board { IsBoard self.now }
        requires place { i < columns_in self.now.exercise.now }
        ensures { OnTrue result (FollowsAlone self.now.exercise.now i prev.now.items k) }
    {
        if !self.menus.still[i] || k >= self.width(i) {
            return false;
        }
        cells_follow(prev.as_slice(), self.column(i, k).as_slice())
    }

    /// Whether an entry is true of the column of a number before the next place. The one that
    /// follows alone has the same number there mostly; else all are gone through.
    fn is_true_behind(&self, i: usize, k: usize, entry: Potential) -> bool
        requires board { IsBoard self.now }
        requires place { i + 1 < columns_in self.now.exercise.now }
        requires within { k < length (menu_of self.now.exercise.now i) }
        ensures { IsTrue result ↔ IsTrueBefore self.now.exercise.now self.now.sheet.now
            self.now.stated.now (i + 1) (Some (law.menu_column self.now.exercise.now i k)) entry }
    {
        let prev = self.column(i, k);
        if self.follows_alone(i + 1, prev, k) {
            return self.allows_through(i + 1, Some(prev), entry, k);
        }
        self.is_true_before(i + 1, Some(prev), entry)
    }

    /// Whether the entry of the column with a number in the menu of a place is true.
    fn is_true_at(&self, i: usize, k: usize) -> bool
        requires board { IsBoard self.now }
        requires place { i < columns_in self.now.exercise.now }
        requires within { k < length (menu_of self.now.exercise.now i) }
        ensures { IsTrue result ↔ IsTrueAt self.now.exercise.now self.now.sheet.now
            self.now.stated.now i k }
    {
        let entry = self.entry_of(i, k);
        if i + 1 < self.menus.columns.len() {
            self.is_true_behind(i, k, entry)
        } else {
            is_end(entry)
        }
    }

    /// Whether the entry of a number is true.
    pub(crate) fn is_true(&self, n: usize) -> bool
        requires board { IsBoard self.now }
        requires within { n < entry_count self.now.exercise.now }
        ensures { IsTrue result ↔ IsTrueEntry self.now.exercise.now self.now.sheet.now
            self.now.stated.now n }
    {
        if n == 0 {
            return self.is_true_before(0, None, self.entry(0));
        }
        let (i, k) = self.place_of(n - 1);
        self.is_true_at(i, k)
    }
}
