//! What a column decides by itself, and with the one before it.

ghost use Rattle.std.specs.Prelude.{◌≡◌, ◌≤◌, ◌<◌, ◌+◌, ◌*◌, ◌^◌, ◌&&◌, true, Option, IsTrue, IfSome, Some, length, nat_le};
ghost use Rattle.std.specs.List.{find, list_all, list_any, sum_by};
ghost use Rattle.fux_grid.specs.Exercises.{IsValid, columns_in};
ghost use Rattle.fux_judge.specs.Links.{IsLeastOfLinks, column_of, given, is_rule_between, is_toll_between, link_of, pair_of};
ghost use Rattle.fux_judge.specs.Neighbors.{IsLink, breaks_at_link, breaks_strictly_at_link, charge_at_link, cost_at_link, is_strict_for};
ghost use Rattle.fux_judge.specs.Penalties.{is_strict_at};
ghost use Rattle.fux_judge.specs.Told.{alone_rules, least_alone};
ghost use Rattle.penalty_sheet.specs.Weights.{greatest_toll};

use crate::all_rules::{AllRules, form_of};
use crate::numbers::{column_rules, column_tolls};
use crate::pairs::{breaks_pair_rule, pair_charges};
use fux_grid::{Cell, Column, Exercise, VoiceSet, bar_of};
use penalty_sheet::{Sheet, price_at, weight};
use rule_law::{RuleCrate, cells_of, is_quiet, latest_of_column, sets_of};

/// The rules from S10 to S14 that a column decides by itself.
const ALONE_RULES: [u8; 4] = [10, 11, 13, 14];

/// A column of a setting, and the one before it.
#[derive(Clone, Copy)]
pub(crate) struct Link<'a> {
    exercise: &'a Exercise<'a>,
    /// The column's number.
    place: usize,
    /// The column before it; none where it is the setting's first.
    prev: Option<&'a Column>,
    /// The cells of that one.
    before: &'a [Cell],
    /// The cells of the column.
    next: &'a [Cell],
}

/// The link of two columns.
#[inline]
pub(crate) fn link_between<'a>(
    ex: &'a Exercise<'a>,
    i: usize,
    prev: Option<&'a Column>,
    next: &'a Column,
) -> Link<'a>
    requires valid { IsValid ex.now }
    requires place { i < columns_in ex.now }
    ensures link { IsLink result }
    ensures exercise { result.exercise ≡ ex.entry }
    ensures number { result.place ≡ i }
    ensures prev { result.prev ≡ prev.entry }
    ensures next { result.next.now ≡ next.now.items }
{
    Link {
        exercise: ex,
        place: i,
        prev,
        before: cells_of(prev),
        next: next.as_slice(),
    }
}

/// Whether a rule of neighbors is broken there for a set of voices.
#[inline(always)]
fn is_broken(rule: u8, voices: VoiceSet, link: &Link<'_>) -> bool
    requires rule { is_rule_between rule ≡ true }
    requires link { IsLink link.now }
    ensures { result ≡ breaks_at_link link.now rule voices.bits }
{
    let (ex, i, before, next) = (link.exercise, link.place, link.before, link.next);
    let latest = &latest_of_column(before);
    AllRules::breaks_between(rule, ex, voices, i, before, latest, next)
}

/// Whether it is strictly broken there for a set of voices.
#[inline(always)]
pub(crate) fn is_strictly_broken(rule: u8, voices: VoiceSet, link: &Link<'_>) -> bool
    requires rule { is_rule_between rule ≡ true }
    requires link { IsLink link.now }
    ensures { result ≡ (breaks_at_link link.now rule voices.bits
        && is_strict_at rule link.now.exercise.now voices.bits link.now.place) }
{
    if !is_broken(rule, voices, link) {
        return false;
    }
    price_at(link.exercise, rule, voices, bar_of(link.place)).is_strict()
}

/// Whether it is strictly broken there for one of these sets of voices.
fn is_strictly_broken_for(sets: &[u8], rule: u8, link: &Link<'_>) -> bool
    requires rule { is_rule_between rule ≡ true }
    requires link { IsLink link.now }
    ensures { result ≡ is_strict_for link.now rule sets.now }
{
    for bits in sets {
        if is_strictly_broken(rule, VoiceSet { bits: *bits }, link) {
            return true;
        }
    }
    false
}

/// Whether it is strictly broken there.
fn breaks_rule(rule: u8, link: &Link<'_>) -> bool
    requires rule { is_rule_between rule ≡ true }
    requires link { IsLink link.now }
    ensures { result ≡ breaks_strictly_at_link link.now rule }
{
    is_strictly_broken_for(sets_of(form_of(rule), link.exercise.voices), rule, link)
}

/// Whether one of these rules of neighbors is strictly broken there.
fn breaks_one(rules: &[u8], link: &Link<'_>) -> bool
    requires numbers { IsTrue (list_all is_rule_between rules.now) }
    requires link { IsLink link.now }
    ensures { result ≡ list_any (breaks_strictly_at_link link.now) rules.now }
{
    for rule in rules {
        if breaks_rule(*rule, link) {
            return true;
        }
    }
    false
}

/// The first of these rules of neighbors that is strictly broken there.
fn first_of(rules: &[u8], link: &Link<'_>) -> Option<u8>
    requires numbers { IsTrue (list_all is_rule_between rules.now) }
    requires link { IsLink link.now }
    ensures { result ≡ find (breaks_strictly_at_link link.now) rules.now }
{
    for rule in rules {
        if breaks_rule(*rule, link) {
            return Some(*rule);
        }
    }
    None
}

/// The rules from S10 to S14 that a column decides by itself, as a list.
#[tactic(auto, unfolding(crate::specs::Rules::rule_at))]
fn decided_alone() -> &'static [u8]
    ensures value { result.now ≡ alone_rules }
    ensures kinds { IsTrue (list_all is_rule_between result.now) }
{
    &ALONE_RULES
}

/// The least of the rules S10, S11, S13 and S14 that a column of place `i` breaks strictly,
/// whatever stands before it.
pub fn alone_rule<'a>(ex: &'a Exercise<'a>, i: usize, col: &'a Column) -> Option<u8>
    requires valid { IsValid ex.now }
    requires place { i < columns_in ex.now }
    ensures { result ≡ least_alone ex.now i col.now.items }
{
    let link = link_between(ex, i, None, col);
    first_of(decided_alone(), &link)
}

/// What a toll of neighbors costs there, without its weight.
#[inline(always)]
fn cost(toll: u8, link: &Link<'_>) -> u32
    requires toll { is_toll_between toll ≡ true }
    requires link { IsLink link.now }
    ensures value { result ≡ cost_at_link link.now toll }
    ensures bound { result ≤ 6 }
{
    let (ex, i, before, next) = (link.exercise, link.place, link.before, link.next);
    let latest = &latest_of_column(before);
    AllRules::cost_between(toll, ex, i, before, latest, next)
}

/// What a toll of neighbors costs there, by its weight.
#[inline(always)]
pub(crate) fn charge(toll: u8, sheet: &Sheet, link: &Link<'_>) -> u64
    requires kind { is_toll_between toll ≡ true }
    requires first { 1 ≤ toll }
    requires last { toll ≤ greatest_toll }
    requires link { IsLink link.now }
    ensures value { result ≡ charge_at_link sheet.now link.now toll }
    ensures bound { result ≤ 393210 }
{
    u64::from(cost(toll, link)) * u64::from(weight(sheet, toll))
}

/// What these tolls of neighbors cost there together, by weight.
fn charges(tolls: &[u8], sheet: &Sheet, link: &Link<'_>) -> u64
    requires kinds { IsTrue (list_all is_toll_between tolls.now) }
    requires numbers { IsTrue (list_all (λ toll. nat_le 1 toll && nat_le toll greatest_toll)
        tolls.now) }
    requires few { length tolls.now ≤ greatest_toll }
    requires link { IsLink link.now }
    ensures value { result ≡ sum_by (charge_at_link sheet.now link.now) tolls.now }
    ensures bound { result ≤ 2 ^ 24 }
{
    let mut sum = 0u64;
    for toll in tolls {
        sum += charge(*toll, sheet, link);
    }
    sum
}

/// What a column costs by itself at place `i`, whatever stands before it: the tolls of a column, by
/// weight. None exactly where it makes a strict break of a rule of a column.
pub fn column_cost<'a>(
    ex: &'a Exercise<'a>,
    sheet: &Sheet,
    i: usize,
    next: &'a Column,
) -> Option<u64>
    requires valid { IsValid ex.now }
    requires place { i < columns_in ex.now }
    ensures value { result ≡ column_of ex.now sheet.now i next.now.items }
    ensures least { IsLeastOfLinks ex.now sheet.now i next.now.items result }
    ensures bound { IfSome result (λ cost. cost ≤ 2 ^ 24) }
{
    if is_quiet(i, next.as_slice()) {
        return Some(0);
    }
    let link = link_between(ex, i, None, next);
    if breaks_one(column_rules(), &link) {
        return None;
    }
    Some(charges(column_tolls(), sheet, &link))
}

/// What a column costs at place `i` behind `prev`, by the rules and tolls of pairs alone. None
/// exactly where the two make a strict break of one of these rules.
pub fn pair_cost<'a>(
    ex: &'a Exercise<'a>,
    sheet: &Sheet,
    i: usize,
    prev: Option<&'a Column>,
    next: &'a Column,
) -> Option<u64>
    requires valid { IsValid ex.now }
    requires place { i < columns_in ex.now }
    ensures value { result ≡ pair_of ex.now sheet.now i (given prev.entry) next.now.items }
    ensures bound { IfSome result (λ cost. cost ≤ 2 ^ 24) }
{
    if is_quiet(i, next.as_slice()) {
        return Some(0);
    }
    let link = link_between(ex, i, prev, next);
    if breaks_pair_rule(&link) {
        return None;
    }
    Some(pair_charges(sheet, &link))
}

/// What a column costs at place `i` behind `prev` by the rules and tolls that read two neighbors
/// alone: the tolls of a column and of a pair, by weight. None exactly where the two make a strict
/// break of such a rule.
pub fn link_cost<'a>(
    ex: &'a Exercise<'a>,
    sheet: &Sheet,
    i: usize,
    prev: Option<&'a Column>,
    next: &'a Column,
) -> Option<u64>
    requires valid { IsValid ex.now }
    requires place { i < columns_in ex.now }
    ensures value { result ≡ link_of ex.now sheet.now i (given prev.entry) next.now.items }
    ensures bound { IfSome result (λ cost. cost ≤ 2 ^ 53) }
{
    let own = column_cost(ex, sheet, i, next)?;
    let pair = pair_cost(ex, sheet, i, prev, next)?;
    Some(own + pair)
}
