//! One column more, at a place at which nothing can begin.

ghost use Rattle.std.specs.Prelude.{◌≡◌, ◌≤◌, ◌<◌, ◌+◌, true, false, IfNone, IfSome, length};
ghost use Rattle.fux_grid.specs.Exercises.{IsValid, columns_in};
ghost use Rattle.fux_grid.specs.Menus.{IsInMenu};
ghost use Rattle.fux_judge.specs.Late.{SettleNothing};
ghost use Rattle.fux_judge.specs.Penalties.{newly_paid, settles_break};
ghost use Rattle.fux_judge.specs.States.{IsStateOf};
ghost use Rattle.fux_judge.specs.Still.{IsStillPlace, KeepsLeast};
ghost use Rattle.fux_judge.specs.Verdicts.{GoingOn, Grown, PaysMore};

use crate::late::{late_prices, settles_late_break};
use crate::late_tolls::pattern_charge;
use crate::state::State;
use fux_grid::{Column, Exercise};
use penalty_sheet::Sheet;
use rule_law::RuleSet;

/// What a column of the menu costs at a place at which nothing can begin, where it settles no strict
/// break; none where it settles one. Late rules and Q16 alone speak of such a column, and what the
/// lines cost at least stays. The state of the longer prefix is written into the place that is
/// given.
pub fn step_still(
    ex: &Exercise,
    sheet: &Sheet,
    idle: RuleSet,
    state: &State,
    col: &Column,
    next: &mut State,
) -> Option<u64>
    requires valid { IsValid ex.now }
    requires room { state.now.newest.len < columns_in ex.now }
    requires full { length col.now.items ≡ ex.now.voices }
    requires idle { SettleNothing ex.now state.now.newest.len idle.bits }
    requires menu { IsInMenu ex.now state.now.newest.len col.now.items }
    requires still { IsStillPlace ex.now state.now.newest.len }
    ensures state { IfSome result (λ _. Grown ex.now state.now col.now.items
        (λ longer. IsStateOf ex.now longer next.new)) }

    // After an orderly prefix: no strict break is settled where there is a cost, and one is where
    // there is none; and what the column settles of tolls and prices.
    ensures broken { GoingOn ex.now state.now col.now.items
        (λ p added. IfNone result (settles_break ex.now p added ≡ true)) }
    ensures unbroken { GoingOn ex.now state.now col.now.items
        (λ p added. IfSome result (λ _. settles_break ex.now p added ≡ false)) }
    ensures settled { GoingOn ex.now state.now col.now.items
        (λ p added. IfSome result (λ paid. paid ≡ newly_paid ex.now sheet.now p added)) }
    ensures paid { GoingOn ex.now state.now col.now.items
        (λ p added. IfSome result (λ paid. PaysMore ex.now sheet.now p added paid)) }
    ensures bound { IfSome result (λ paid. paid ≤ 134217728) }
    ensures least { KeepsLeast ex.now sheet.now state.now col.now.items }
{
    *next = *state;
    next.add_still(ex, col);
    if settles_late_break(ex, idle, next) {
        return None;
    }
    Some(pattern_charge(sheet, ex, next) + late_prices(ex, next))
}

/// What such a column costs that is known to settle no strict break: no rule is asked whether it is
/// broken strictly. The state of the longer prefix is written into the place that is given.
pub fn again_still(
    ex: &Exercise,
    sheet: &Sheet,
    state: &State,
    col: &Column,
    next: &mut State,
) -> u64
    requires valid { IsValid ex.now }
    requires room { state.now.newest.len < columns_in ex.now }
    requires full { length col.now.items ≡ ex.now.voices }
    requires menu { IsInMenu ex.now state.now.newest.len col.now.items }
    requires still { IsStillPlace ex.now state.now.newest.len }
    ensures state { Grown ex.now state.now col.now.items (λ longer. IsStateOf ex.now longer
        next.new) }

    // After an orderly prefix, what the column settles of tolls and prices, whether it settles a
    // strict break or not.
    ensures settled { GoingOn ex.now state.now col.now.items (λ p added. result
        ≡ newly_paid ex.now sheet.now p added) }
    ensures paid { GoingOn ex.now state.now col.now.items (λ p added. PaysMore ex.now sheet.now p
        added result) }
    ensures bound { result ≤ 134217728 }
    ensures least { KeepsLeast ex.now sheet.now state.now col.now.items }
{
    *next = *state;
    next.add_still(ex, col);
    pattern_charge(sheet, ex, next) + late_prices(ex, next)
}
