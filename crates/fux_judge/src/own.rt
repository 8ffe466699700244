//! What its own tolls cost a column.

ghost use Rattle.std.specs.Prelude.{◌≡◌, ◌≤◌, ◌<◌, ◌^◌, true, None, IfSome};
ghost use Rattle.fux_grid.specs.Exercises.{IsValid, columns_in};
ghost use Rattle.fux_judge.specs.Links.{IsOwnCost, cost_between, is_toll_between, own_of, own_toll};
ghost use Rattle.penalty_sheet.specs.Weights.{greatest_toll};

use crate::all_rules::AllRules;
use fux_grid::{Cell, Column, Exercise};
use penalty_sheet::{Sheet, weight};
use rule_law::{Latest, RuleCrate, is_quiet};

/// What a toll of neighbors costs column `i`, where nothing stands before it, without its weight.
#[inline(always)]
fn cost(toll: u8, ex: &Exercise, i: usize, now: &[Cell]) -> u32
    requires toll { is_toll_between toll ≡ true }
    requires valid { IsValid ex.now }
    requires place { i < columns_in ex.now }
    ensures value { result ≡ cost_between ex.now i None now.now toll }
    ensures bound { result ≤ 6 }
{
    AllRules::cost_between(toll, ex, i, &[], &Latest::NONE, now)
}

/// What it costs it by its weight.
#[inline(always)]
fn charge(toll: u8, sheet: &Sheet, ex: &Exercise, i: usize, now: &[Cell]) -> u64
    requires kind { is_toll_between toll ≡ true }
    requires first { 1 ≤ toll }
    requires last { toll ≤ greatest_toll }
    requires valid { IsValid ex.now }
    requires place { i < columns_in ex.now }
    ensures value { result ≡ own_toll ex.now sheet.now i now.now toll }
    ensures bound { result ≤ 393210 }
{
    u64::from(cost(toll, ex, i, now)) * u64::from(weight(sheet, toll))
}

/// What the tolls of a column cost it together. Each is asked by its own number, so that what
/// depends on the number alone is settled before the program runs.
#[inline(always)]
#[tactic(auto, unfolding(crate::specs::Rules::toll_at))]
fn charges(sheet: &Sheet, ex: &Exercise, i: usize, now: &[Cell]) -> u64
    requires valid { IsValid ex.now }
    requires place { i < columns_in ex.now }
    ensures value { result ≡ own_of ex.now sheet.now i now.now }
    ensures bound { result ≤ 2 ^ 24 }
{
    charge(1, sheet, ex, i, now)
        + charge(2, sheet, ex, i, now)
        + charge(3, sheet, ex, i, now)
        + charge(4, sheet, ex, i, now)
        + charge(5, sheet, ex, i, now)
        + charge(6, sheet, ex, i, now)
        + charge(15, sheet, ex, i, now)
}

/// What its own tolls cost column `i`, by weight, whatever stands before it.
pub fn own_charge(ex: &Exercise, sheet: &Sheet, i: usize, col: &Column) -> u64
    requires valid { IsValid ex.now }
    requires place { i < columns_in ex.now }
    ensures { IsOwnCost ex.now sheet.now i col.now.items result }
{
    let now = col.as_slice();
    if is_quiet(i, now) {
        return 0;
    }
    charges(sheet, ex, i, now)
}

/// The same where it may be known already: then no toll is asked.
#[inline(always)]
pub(crate) fn known_charge(
    known: Option<u64>,
    ex: &Exercise,
    sheet: &Sheet,
    i: usize,
    col: &Column,
) -> u64
    requires valid { IsValid ex.now }
    requires place { i < columns_in ex.now }
    requires known { IfSome known (IsOwnCost ex.now sheet.now i col.now.items) }
    ensures { IsOwnCost ex.now sheet.now i col.now.items result }
{
    match known {
        Some(cost) => cost,
        None => own_charge(ex, sheet, i, col),
    }
}
