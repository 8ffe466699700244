//! One column more, where it settles no strict break.

ghost use Rattle.std.specs.Prelude.{◌≡◌, ◌≤◌, ◌<◌, ◌+◌, true, false, IfNone, IfSome, IsTrue, length};
ghost use Rattle.std.specs.List.{list_any};
ghost use Rattle.fux_grid.specs.Exercises.{IsValid, columns_in};
ghost use Rattle.fux_grid.specs.Menus.{IsInMenu};
ghost use Rattle.rule_law.specs.Voices.{has_rule};
ghost use Rattle.fux_judge.specs.Gauges.{least_of};
ghost use Rattle.fux_judge.specs.Late.{SettleNothing};
ghost use Rattle.fux_judge.specs.Links.{IsOwnCost};
ghost use Rattle.fux_judge.specs.Rules.{rules_at_once};
ghost use Rattle.fux_judge.specs.Penalties.{newly_paid, settles_break};
ghost use Rattle.fux_judge.specs.Pruning.{IsToldColumn};
ghost use Rattle.fux_judge.specs.States.{IsStateOf};
ghost use Rattle.fux_judge.specs.Verdicts.{GoingOn, Grown, GrownPrefix, PaysMore};

use crate::late::{late_prices, settles_late_break};
use crate::late_tolls::late_charges;
use crate::lines::least;
use crate::numbers::all_at_once;
use crate::own::known_charge;
use crate::state::State;
use crate::verdict::{any_of, moment_of, paid_now, readings};
use fux_grid::{Column, Exercise};
use penalty_sheet::Sheet;
use rule_law::RuleSet;

/// Whether a set has a rule that is settled at once.
#[inline]
fn has_some(set: RuleSet) -> bool
    ensures { result ≡ list_any (has_rule set.bits) rules_at_once }
{
    set.bits != 0 && any_of(all_at_once(), set)
}

/// What a column costs that settles no strict break.
#[derive(Clone, Copy, Debug, PartialEq, Eq)]
pub struct Price {
    /// The tolls, by their weights, and the prices that the column settles.
    pub paid: u64,
    /// What the lines of the free voices will cost at least, by the gauges and their weights.
    pub least: u64,
}

/// What a column that settles no strict break costs; none where it settles one, and then no more is
/// read than tells so: nothing of late rules of which it is known to settle none there, and where
/// it is told of a column of the menu what it keeps, and nothing is relaxed, of those settled at
/// once S12 alone. What its own tolls cost the column isn't asked where it is known. The state of
/// the longer prefix is written into the place that is given.
pub fn step_unbroken(
    ex: &Exercise,
    sheet: &Sheet,
    idle: RuleSet,
    told: bool,
    own: Option<u64>,
    state: &State,
    col: &Column,
    next: &mut State,
) -> Option<Price>
    requires valid { IsValid ex.now }
    requires room { state.now.newest.len < columns_in ex.now }
    requires full { length col.now.items ≡ ex.now.voices }
    requires idle { SettleNothing ex.now state.now.newest.len idle.bits }
    requires told { IsTrue told → IsToldColumn ex.now state.now col.now.items }
    requires menu { IsTrue told → IsInMenu ex.now state.now.newest.len col.now.items }
    requires own { IfSome own (IsOwnCost ex.now sheet.now state.now.newest.len col.now.items) }
    ensures state { IfSome result (λ _. Grown ex.now state.now col.now.items
        (λ longer. IsStateOf ex.now longer next.new)) }

    // After an orderly prefix: no strict break is settled where there is a price, and one is where
    // there is none; and what the column settles of tolls and prices.
    ensures broken { GoingOn ex.now state.now col.now.items
        (λ p added. IfNone result (settles_break ex.now p added ≡ true)) }
    ensures unbroken { GoingOn ex.now state.now col.now.items
        (λ p added. IfSome result (λ _. settles_break ex.now p added ≡ false)) }
    ensures settled { GoingOn ex.now state.now col.now.items (λ p added.
        IfSome result (λ it. it.paid ≡ newly_paid ex.now sheet.now p added)) }
    ensures paid { GoingOn ex.now state.now col.now.items
        (λ p added. IfSome result (λ it. PaysMore ex.now sheet.now p added it.paid)) }
    ensures bound { IfSome result (λ it. it.paid ≤ 134217728) }
    ensures least { GrownPrefix ex.now state.now col.now.items (λ longer.
        IfSome result (λ it. it.least ≡ least_of ex.now sheet.now longer)) }
    ensures least_bound { IfSome result (λ it. it.least ≤ 334490640) }
{
    next.read_on(ex, state, col);
    if settles_late_break(ex, idle, next) {
        return None;
    }
    let moment = moment_of(ex, state, col);
    let (at_once, paid) = readings(sheet, &moment, told);
    if has_some(at_once) {
        return None;
    }
    next.weigh_on(ex, state, col);
    let own = known_charge(own, ex, sheet, state.newest.len, col);
    let paid = paid + own + late_charges(sheet, ex, next) + late_prices(ex, next);
    let least = least(ex, sheet, next);
    Some(Price { paid, least })
}

/// What a column costs that is known to settle no strict break, as a search knows of one that it
/// comes back to: no rule is asked whether it is broken strictly, nor what its own tolls cost the
/// column. The state of the longer prefix is written into the place that is given.
pub fn step_again(
    ex: &Exercise,
    sheet: &Sheet,
    own: u64,
    state: &State,
    col: &Column,
    next: &mut State,
) -> Price
    requires valid { IsValid ex.now }
    requires room { state.now.newest.len < columns_in ex.now }
    requires full { length col.now.items ≡ ex.now.voices }
    requires own { IsOwnCost ex.now sheet.now state.now.newest.len col.now.items own }
    ensures state { Grown ex.now state.now col.now.items (λ longer. IsStateOf ex.now longer
        next.new) }

    // After an orderly prefix, what the column settles of tolls and prices, whether it settles a
    // strict break or not.
    ensures settled { GoingOn ex.now state.now col.now.items (λ p added. result.paid
        ≡ newly_paid ex.now sheet.now p added) }
    ensures paid { GoingOn ex.now state.now col.now.items (λ p added. PaysMore ex.now sheet.now p
        added result.paid) }
    ensures bound { result.paid ≤ 134217728 }
    ensures least { GrownPrefix ex.now state.now col.now.items (λ longer. result.least
        ≡ least_of ex.now sheet.now longer) }
    ensures least_bound { result.least ≤ 334490640 }
{
    *next = *state;
    next.add(ex, col);
    let at_once = paid_now(sheet, &moment_of(ex, state, col));
    Price {
        paid: at_once + own + late_charges(sheet, ex, next) + late_prices(ex, next),
        least: least(ex, sheet, next),
    }
}
