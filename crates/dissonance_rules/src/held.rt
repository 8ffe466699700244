//! The places at which the newest column may settle S19, S20, S21 and S28: a free voice holds a note
//! there.

ghost use Rattle.std.specs.Prelude.{◌≡◌, ◌<◌, ◌≤◌, ◌+◌, ◌-◌, false};
ghost use Rattle.fux_grid.specs.Exercises.{IsValid, columns_in};
ghost use Rattle.dissonance_rules.specs.Book.{late_count, late_first};
ghost use Rattle.dissonance_rules.specs.Clashes.{is_told_later};
ghost use Rattle.dissonance_rules.specs.Starts.{LeavesPlaces};

use crate::ligatures::some_free_hold;
use fux_grid::{Exercise, is_mixed, slot_of};
use rule_law::{LatePlaces, NewestColumns, begins_bar};

/// The places of S19, S20, S21 and S28: the column's own, where it begins a bar, and for S20 and
/// S28 the beginning of its bar, from its middle and the column before.
pub(crate) fn suspension_places(rule: u8, ex: &Exercise, i: usize) -> LatePlaces
    ensures first { is_told_later rule ≡ false → result.first ≡ late_first rule ex.now i }
    ensures count { is_told_later rule ≡ false → result.count ≡ late_count rule ex.now i }
    ensures near { i ≤ result.first + 4 }
    ensures few { result.count ≤ 1 }
{
    match rule {
        20 => LatePlaces::own(slot_of(i) == 4, i.saturating_sub(4)),
        28 => LatePlaces::own(is_mixed(ex) && slot_of(i) == 3, i.saturating_sub(3)),
        _ => LatePlaces::own(begins_bar(i), i),
    }
}

/// Those of these places at which a free voice holds a note: no other is suspended.
#[inline(always)]
pub(crate) fn held_left(newest: &NewestColumns, rule: u8, ex: &Exercise) -> LatePlaces
    requires valid { IsValid ex.now }
    requires begun { 0 < newest.now.len }
    requires room { newest.now.len ≤ columns_in ex.now }
    requires other { is_told_later rule ≡ false }
    ensures from { late_first rule ex.now (newest.now.len - 1) ≤ result.first }
    ensures to { result.first + result.count ≤ late_first rule ex.now (newest.now.len - 1)
        + late_count rule ex.now (newest.now.len - 1) }
    ensures left { LeavesPlaces rule ex.now newest.now result.first result.count }
{
    let places = suspension_places(rule, ex, newest.len - 1);
    if places.count == 0 {
        return places;
    }
    if some_free_hold(ex, newest.at(places.first, ex.voices as usize)) {
        return places;
    }
    LatePlaces {
        first: places.first,
        count: 0,
    }
}
