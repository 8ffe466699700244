//! Breaks that a column settles at earlier places.

ghost use Rattle.std.specs.Prelude.{◌≡◌, ◌≤◌, ◌<◌, ◌+◌, ◌-◌, ◌*◌, true, ◌==◌, length};
ghost use Rattle.std.specs.List.{list_any, sum_by};
ghost use Rattle.fux_grid.specs.Exercises.{IsValid, columns_in};
ghost use Rattle.rule_law.specs.Rulebooks.{newly_breaks};
ghost use Rattle.fux_judge.specs.Penalties.{newly_broken_at, new_price};
ghost use Rattle.fux_judge.specs.Rules.{is_late, late_rules, rule_at};
ghost use Rattle.fux_judge.specs.Late.{AddsLateBreaks, AnswersFor, HaveNoPlace, MayBeAsked, SettleNothing, SettlesAmong, TellsAtPlace, TellsOfNewest, end_of_places};
ghost use Rattle.fux_judge.specs.Steps as steps;

use crate::all_rules::{AllRules, form_of};
use crate::numbers::every_late_rule;
use crate::state::State;
use fux_grid::{Exercise, VoiceSet, bar_of};
use penalty_sheet::price_at;
use rule_law::{LatePlaces, LateQuestion, RuleCrate, RuleSet, sets_of};

/// Where column `i` may settle a late rule, as its crate says.
#[inline(always)]
#[tactic(auto, unfolding(crate::specs::Rules::rule_at))]
fn places_at(rule: u8, ex: &Exercise, i: usize) -> LatePlaces
    requires late { is_late rule ≡ true }
    requires valid { IsValid ex.now }
    requires place { i < columns_in ex.now }
    ensures first { result.first ≡ (rule_at rule).first ex.now i }
    ensures count { result.count ≡ (rule_at rule).count ex.now i }
    ensures few { result.count ≤ 24 }
{
    AllRules::places_settled(rule, ex, i)
}

/// Where the newest column may settle a late rule.
#[inline(always)]
fn places_of(rule: u8, ex: &Exercise, next: &State) -> LatePlaces
    requires late { is_late rule ≡ true }
    requires valid { IsValid ex.now }
    requires begun { 0 < next.now.newest.len }
    requires room { next.now.newest.len ≤ columns_in ex.now }
    ensures first { result.first ≡ (rule_at rule).first ex.now (next.now.newest.len - 1) }
    ensures count { result.count ≡ (rule_at rule).count ex.now (next.now.newest.len - 1) }
    ensures within { result.first + result.count ≤ next.now.newest.len }
    ensures few { result.count ≤ 24 }
{
    places_at(rule, ex, next.newest.len - 1)
}

/// Those of these places that are left once what is kept and the newest columns are looked at, as
/// its crate says.
#[inline(always)]
#[tactic(auto, unfolding(crate::specs::Rules::rule_at))]
fn places_left(rule: u8, ex: &Exercise, next: &State) -> LatePlaces
    requires late { is_late rule ≡ true }
    requires valid { IsValid ex.now }
    requires begun { 0 < next.now.newest.len }
    requires room { next.now.newest.len ≤ columns_in ex.now }
    ensures from { (rule_at rule).first ex.now (next.now.newest.len - 1) ≤ result.first }
    ensures to { result.first + result.count ≤ end_of_places rule ex.now (next.now.newest.len - 1) }
    ensures within { result.first + result.count ≤ next.now.newest.len }
    ensures left { SettlesAmong rule ex.now next.now result.first result.count }
{
    AllRules::places_left(&next.past.parts, &next.newest, rule, ex)
}

/// Whether the newest column settles a break of a late rule, at one of its places, as its crate
/// says.
#[tactic(auto, unfolding(crate::specs::Rules::rule_at))]
#[inline(always)]
fn breaks_at(rule: u8, ex: &Exercise, next: &State, voices: VoiceSet, place: usize) -> bool
    requires late { is_late rule ≡ true }
    requires valid { IsValid ex.now }
    requires begun { 0 < next.now.newest.len }
    requires room { next.now.newest.len ≤ columns_in ex.now }
    ensures { TellsAtPlace rule ex.now next.now place (λ p col. newly_breaks (rule_at rule) ex.now
        voices.bits p col place) result }
{
    AllRules::breaks_late(&next.past.parts, &next.newest, rule, ex, voices, place)
}

/// Whether that is a strict break.
fn breaks_strictly_at(rule: u8, ex: &Exercise, next: &State, voices: VoiceSet, place: usize) -> bool
    requires late { is_late rule ≡ true }
    requires valid { IsValid ex.now }
    requires begun { 0 < next.now.newest.len }
    requires room { next.now.newest.len ≤ columns_in ex.now }
    requires place { place < columns_in ex.now }
    ensures { TellsAtPlace rule ex.now next.now place (λ p col. newly_broken_at rule ex.now
        voices.bits p col place) result }
{
    if !breaks_at(rule, ex, next, voices, place) {
        return false;
    }
    price_at(ex, rule, voices, bar_of(place)).is_strict()
}

/// The price of a relaxed break that the column settles there.
fn price_settled(rule: u8, ex: &Exercise, next: &State, voices: VoiceSet, place: usize) -> u64
    requires late { is_late rule ≡ true }
    requires valid { IsValid ex.now }
    requires begun { 0 < next.now.newest.len }
    requires room { next.now.newest.len ≤ columns_in ex.now }
    requires place { place < columns_in ex.now }
    ensures value { TellsAtPlace rule ex.now next.now place (λ p col. new_price ex.now p col place
        rule voices.bits) result }
    ensures bound { result ≤ 10000 }
{
    if !breaks_at(rule, ex, next, voices, place) {
        return 0;
    }
    u64::from(price_at(ex, rule, voices, bar_of(place)).amount())
}

/// Whether the newest column settles a strict break of a late rule at a place, for one of these
/// sets of voices.
fn breaks_for(rule: u8, ex: &Exercise, next: &State, place: usize, sets: &[u8]) -> bool
    requires late { is_late rule ≡ true }
    requires valid { IsValid ex.now }
    requires begun { 0 < next.now.newest.len }
    requires room { next.now.newest.len ≤ columns_in ex.now }
    requires place { place < columns_in ex.now }
    ensures { TellsAtPlace rule ex.now next.now place (λ p col. steps.newly_broken_for sets.now rule
        ex.now p col place) result }
{
    for bits in sets {
        if breaks_strictly_at(rule, ex, next, VoiceSet { bits: *bits }, place) {
            return true;
        }
    }
    false
}

/// What it settles of prices there.
fn prices_for(rule: u8, ex: &Exercise, next: &State, place: usize, sets: &[u8]) -> u64
    requires late { is_late rule ≡ true }
    requires valid { IsValid ex.now }
    requires begun { 0 < next.now.newest.len }
    requires room { next.now.newest.len ≤ columns_in ex.now }
    requires place { place < columns_in ex.now }
    requires few { length sets.now ≤ 6 }
    ensures value { TellsAtPlace rule ex.now next.now place
        (λ p col. sum_by (new_price ex.now p col place rule) sets.now) result }
    ensures bound { result ≤ 60000 }
{
    let mut sum = 0u64;
    for bits in sets {
        let price = price_settled(rule, ex, next, VoiceSet { bits: *bits }, place);
        sum += price;
    }
    sum
}

/// Whether the newest column settles a strict break of a late rule.
#[inline(always)]
pub(crate) fn is_broken_late(rule: u8, ex: &Exercise, next: &State) -> bool
    requires late { is_late rule ≡ true }
    requires valid { IsValid ex.now }
    requires begun { 0 < next.now.newest.len }
    requires room { next.now.newest.len ≤ columns_in ex.now }
    ensures { TellsOfNewest ex.now next.now (λ p col. steps.breaks_late ex.now p col rule) result }
{
    let places = places_left(rule, ex, next);
    if places.count == 0 {
        return false;
    }
    let sets = sets_of(form_of(rule), ex.voices);
    for k in 0..places.count {
        if breaks_for(rule, ex, next, places.first + k, sets) {
            return true;
        }
    }
    false
}

/// What it settles of the prices of a late rule.
fn prices_of_late(rule: u8, ex: &Exercise, next: &State) -> u64
    requires late { is_late rule ≡ true }
    requires valid { IsValid ex.now }
    requires begun { 0 < next.now.newest.len }
    requires room { next.now.newest.len ≤ columns_in ex.now }
    ensures value { TellsOfNewest ex.now next.now (λ p col. steps.prices_late ex.now p col rule)
        result }
    ensures bound { result ≤ 1440000 }
{
    let places = places_of(rule, ex, next);
    let sets = sets_of(form_of(rule), ex.voices);
    let mut sum = 0u64;
    for k in 0..places.count {
        let prices = prices_for(rule, ex, next, places.first + k, sets);
        sum += prices;
    }
    sum
}

/// The late rules that have no place which column `i` may settle, whatever the column is.
pub(crate) fn without_place(ex: &Exercise, i: usize) -> RuleSet
    requires valid { IsValid ex.now }
    requires place { i < columns_in ex.now }
    ensures { HaveNoPlace ex.now i result.bits }
{
    let mut idle = RuleSet::EMPTY;
    for rule in every_late_rule() {
        let places = places_at(*rule, ex, i);
        idle = idle.with(*rule, places.count == 0);
    }
    idle
}

/// The question whether the newest column settles a strict break of a late rule. Of rules of which
/// it is known to settle none there nothing is read.
#[derive(Clone, Copy)]
struct BreaksLate<'a> {
    exercise: &'a Exercise<'a>,
    idle: RuleSet,
    next: &'a State,
}

impl LateQuestion for BreaksLate<'_> {
    ghost is_ready = { λ it. MayBeAsked it.exercise.now it.next.now
        × SettleNothing it.exercise.now (it.next.now.newest.len - 1) it.idle.bits };

    ghost may_ask = { λ _. is_late };

    ghost is_answered_by = { λ it test. AnswersFor it.exercise.now it.next.now test };

    #[inline(always)]
    fn ask(&self, rule: u8) -> bool {
        if self.idle.has(rule) {
            return false;
        }
        is_broken_late(rule, self.exercise, self.next)
    }
}

/// Whether the newest column settles a strict break of some late rule. Of rules of which it is
/// known to settle none there nothing is read.
#[inline(always)]
pub(crate) fn settles_late_break(ex: &Exercise, idle: RuleSet, next: &State) -> bool
    requires valid { IsValid ex.now }
    requires begun { 0 < next.now.newest.len }
    requires room { next.now.newest.len ≤ columns_in ex.now }
    requires idle { SettleNothing ex.now (next.now.newest.len - 1) idle.bits }
    ensures { TellsOfNewest ex.now next.now (λ p col. list_any (steps.breaks_late ex.now p col)
        late_rules) result }
{
    AllRules::asks_some(&BreaksLate {
        exercise: ex,
        idle,
        next,
    })
}

/// A set with the late rules added of which the newest column settles a strict break. Most columns
/// settle none, and that is told sooner than which.
pub(crate) fn with_late(set: RuleSet, ex: &Exercise, next: &State) -> RuleSet
    requires valid { IsValid ex.now }
    requires begun { 0 < next.now.newest.len }
    requires room { next.now.newest.len ≤ columns_in ex.now }
    ensures { AddsLateBreaks ex.now next.now set.bits result.bits }
{
    if !settles_late_break(ex, RuleSet::EMPTY, next) {
        return set;
    }
    let mut broken = set;
    for rule in every_late_rule() {
        let on = is_broken_late(*rule, ex, next);
        broken = broken.with(*rule, on);
    }
    broken
}

/// What the newest column settles of the prices of all late rules, each asked.
fn prices_of_all_late(ex: &Exercise, next: &State) -> u64
    requires valid { IsValid ex.now }
    requires begun { 0 < next.now.newest.len }
    requires room { next.now.newest.len ≤ columns_in ex.now }
    ensures value { TellsOfNewest ex.now next.now (λ p col. sum_by (steps.prices_late ex.now p col)
        late_rules) result }
    ensures bound { result ≤ 17280000 }
{
    let mut sum = 0u64;
    for rule in every_late_rule() {
        let prices = prices_of_late(*rule, ex, next);
        sum += prices;
    }
    sum
}

/// The same. Where nothing is relaxed none is asked.
#[inline(always)]
pub(crate) fn late_prices(ex: &Exercise, next: &State) -> u64
    requires valid { IsValid ex.now }
    requires begun { 0 < next.now.newest.len }
    requires room { next.now.newest.len ≤ columns_in ex.now }
    ensures value { TellsOfNewest ex.now next.now (λ p col. sum_by (steps.prices_late ex.now p col)
        late_rules) result }
    ensures bound { result ≤ 17280000 }
{
    if ex.relax.as_slice().is_empty() {
        return 0;
    }
    prices_of_all_late(ex, next)
}
