//! What a column settles of late tolls.

ghost use Rattle.std.specs.Prelude.{◌≡◌, ◌≤◌, ◌<◌, ◌+◌, ◌-◌, true, ◌&&◌, nat_le, IsTrue};
ghost use Rattle.std.specs.List.{sum_by};
ghost use Rattle.fux_grid.specs.Exercises.{IsValid, columns_in};
ghost use Rattle.rule_law.specs.Rulebooks.{newly_costs};
ghost use Rattle.fux_judge.specs.Penalties.{new_toll};
ghost use Rattle.fux_judge.specs.Links.{other_late_tolls};
ghost use Rattle.fux_judge.specs.Rules.{is_late_toll, toll_at};
ghost use Rattle.fux_judge.specs.Late.{TellsAtPlaceOfCost, TellsOfNewest};
ghost use Rattle.fux_judge.specs.Steps as steps;
ghost use Rattle.penalty_sheet.specs.Weights.{greatest_toll};

use crate::all_rules::AllRules;
use crate::state::State;
use fux_grid::Exercise;
use penalty_sheet::{Sheet, weight};
use rule_law::{LatePlaces, RuleCrate, is_quiet};

/// Where column `i` may settle what a late toll costs, as its crate says.
#[inline(always)]
#[tactic(auto, unfolding(crate::specs::Rules::toll_at))]
fn places_at(toll: u8, ex: &Exercise, i: usize) -> LatePlaces
    requires late { is_late_toll toll ≡ true }
    requires valid { IsValid ex.now }
    requires place { i < columns_in ex.now }
    ensures first { result.first ≡ (toll_at toll).first ex.now i }
    ensures count { result.count ≡ (toll_at toll).count ex.now i }
    ensures few { result.count ≤ 24 }
{
    AllRules::toll_places(toll, ex, i)
}

/// Where the newest column may settle what a late toll costs.
#[inline(always)]
fn places_of(toll: u8, ex: &Exercise, next: &State) -> LatePlaces
    requires late { is_late_toll toll ≡ true }
    requires valid { IsValid ex.now }
    requires begun { 0 < next.now.newest.len }
    requires room { next.now.newest.len ≤ columns_in ex.now }
    ensures first { result.first ≡ (toll_at toll).first ex.now (next.now.newest.len - 1) }
    ensures count { result.count ≡ (toll_at toll).count ex.now (next.now.newest.len - 1) }
    ensures within { result.first + result.count ≤ next.now.newest.len }
    ensures few { result.count ≤ 24 }
{
    places_at(toll, ex, next.newest.len - 1)
}

/// What the newest column settles of a late toll at one of its places, without its weight, as its
/// crate says.
#[inline(always)]
#[tactic(auto, unfolding(crate::specs::Rules::toll_at))]
fn cost_at(toll: u8, ex: &Exercise, next: &State, place: usize) -> u32
    requires late { is_late_toll toll ≡ true }
    requires valid { IsValid ex.now }
    requires begun { 0 < next.now.newest.len }
    requires room { next.now.newest.len ≤ columns_in ex.now }
    ensures value { TellsAtPlaceOfCost toll ex.now next.now place
        (λ p col. newly_costs (toll_at toll) ex.now p col place) result }
    ensures bound { result ≤ 6 }
{
    AllRules::cost_late(&next.newest, toll, ex, place)
}

/// What it settles there by the toll's weight.
#[inline(always)]
fn charge_at(toll: u8, sheet: &Sheet, ex: &Exercise, next: &State, place: usize) -> u64
    requires number { IsTrue (nat_le 1 toll && (nat_le toll greatest_toll && is_late_toll toll)) }
    requires valid { IsValid ex.now }
    requires begun { 0 < next.now.newest.len }
    requires room { next.now.newest.len ≤ columns_in ex.now }
    ensures value { TellsAtPlaceOfCost toll ex.now next.now place
        (λ p col. new_toll ex.now sheet.now p col place toll) result }
    ensures bound { result ≤ 393210 }
{
    u64::from(cost_at(toll, ex, next, place)) * u64::from(weight(sheet, toll))
}

/// What the newest column settles of a late toll.
#[inline(always)]
fn charges_of(toll: u8, sheet: &Sheet, ex: &Exercise, next: &State) -> u64
    requires number { IsTrue (nat_le 1 toll && (nat_le toll greatest_toll && is_late_toll toll)) }
    requires valid { IsValid ex.now }
    requires begun { 0 < next.now.newest.len }
    requires room { next.now.newest.len ≤ columns_in ex.now }
    ensures value { TellsOfNewest ex.now next.now (λ p col. steps.toll_late ex.now sheet.now p col
        toll) result }
    ensures bound { result ≤ 9437040 }
{
    let places = places_of(toll, ex, next);
    let mut sum = 0u64;
    for k in 0..places.count {
        let charge = charge_at(toll, sheet, ex, next, places.first + k);
        sum += charge;
    }
    sum
}

/// The same of a toll that may weigh nothing, which then isn't asked.
#[inline(always)]
fn weighed_charges_of(toll: u8, sheet: &Sheet, ex: &Exercise, next: &State) -> u64
    requires number { IsTrue (nat_le 1 toll && (nat_le toll greatest_toll && is_late_toll toll)) }
    requires valid { IsValid ex.now }
    requires begun { 0 < next.now.newest.len }
    requires room { next.now.newest.len ≤ columns_in ex.now }
    ensures value { TellsOfNewest ex.now next.now (λ p col. steps.toll_late ex.now sheet.now p col
        toll) result }
    ensures bound { result ≤ 9437040 }
{
    if weight(sheet, toll) == 0 {
        return 0;
    }
    charges_of(toll, sheet, ex, next)
}

/// What it settles of Q16.
#[inline(always)]
#[tactic(auto, unfolding(crate::specs::Rules::toll_at))]
pub(crate) fn pattern_charge(sheet: &Sheet, ex: &Exercise, next: &State) -> u64
    requires valid { IsValid ex.now }
    requires begun { 0 < next.now.newest.len }
    requires room { next.now.newest.len ≤ columns_in ex.now }
    ensures value { TellsOfNewest ex.now next.now (λ p col. steps.toll_late ex.now sheet.now p col 16)
        result }
    ensures bound { result ≤ 9437040 }
{
    charges_of(16, sheet, ex, next)
}

/// What the newest column settles of all late tolls but its own. Each is asked by its own number, so
/// that what depends on the number alone is settled before the program runs. Where neither a bar nor
/// a note begins, Q16 alone may cost something. Q21 weighs nothing by the usual sheet.
#[inline(always)]
#[tactic(auto, unfolding(crate::specs::Rules::toll_at))]
pub(crate) fn late_charges(sheet: &Sheet, ex: &Exercise, next: &State) -> u64
    requires valid { IsValid ex.now }
    requires begun { 0 < next.now.newest.len }
    requires room { next.now.newest.len ≤ columns_in ex.now }
    ensures value { TellsOfNewest ex.now next.now
        (λ p col. sum_by (steps.toll_late ex.now sheet.now p col) other_late_tolls) result }
    ensures bound { result ≤ 37748160 }
{
    let i = next.newest.len - 1;
    if is_quiet(i, next.newest.at(i, ex.voices as usize)) {
        return charges_of(16, sheet, ex, next);
    }
    charges_of(12, sheet, ex, next)
        + charges_of(14, sheet, ex, next)
        + charges_of(16, sheet, ex, next)
        + weighed_charges_of(21, sheet, ex, next)
}
