//! The places at which the newest column may settle S15 and S27: those of the notes that it tells
//! of.

ghost use Rattle.std.specs.Prelude.{◌≡◌, ◌<◌, ◌≤◌, ◌+◌, ◌-◌, ℕ, false, true};
ghost use Rattle.fux_grid.specs.Exercises.{IsValid, columns_in};
ghost use Rattle.rule_law.specs.Bars as bars;
ghost use Rattle.rule_law.specs.RuleCrates.{SettlesNoOther};
ghost use Rattle.rule_law.specs.Rulebooks.{IsAmong};
ghost use Rattle.dissonance_rules.specs.Book.{late_count, late_first, late_row};
ghost use Rattle.dissonance_rules.specs.Clashes.{is_told_later};
ghost use Rattle.dissonance_rules.specs.Starts.{AreStartsOf, HasTold, IsTelling};

use crate::late::passing_places;
use crate::passing::reaches_last_bar;
use crate::starts::{LatestStarts, told_place};
use fux_grid::Exercise;
use rule_law::{LatePlaces, NewestColumns, is_free, is_quiet};

/// Places in a row with one more, and those between.
#[inline]
fn with_place(places: LatePlaces, place: usize) -> LatePlaces
    requires end { places.first + places.count ≤ 192 }
    requires place { place < 192 }
    ensures from { (first : ℕ) → first ≤ places.first → first ≤ place → first ≤ result.first }
    ensures to { (end : ℕ) → places.first + places.count ≤ end → place < end →
        result.first + result.count ≤ end }
    ensures kept { (i : ℕ) → IsAmong places.first places.count i →
        IsAmong result.first result.count i }
    ensures new { IsAmong result.first result.count place }
{
    if places.count == 0 {
        return LatePlaces {
            first: place,
            count: 1,
        };
    }
    let first = places.first.min(place);
    let end = (places.first + places.count).max(place + 1);
    LatePlaces {
        first,
        count: end - first,
    }
}

/// Places in a row with that of the note that a voice tells of, where it is free and tells of one
/// from a first place on.
#[inline]
fn with_told(
    places: LatePlaces,
    voices: &[LatestStarts; 4],
    ex: &Exercise,
    v: u8,
    first: usize,
    last: usize,
) -> LatePlaces
    requires voice { v < 4 }
    requires last { last < 192 }
    requires end { places.first + places.count ≤ last }
    ensures from { first ≤ places.first → first ≤ result.first }
    ensures to { result.first + result.count ≤ last }
    ensures kept { (i : ℕ) → IsAmong places.first places.count i →
        IsAmong result.first result.count i }
    ensures told { (i : ℕ) → IsTelling ex.now voices.now last i v → first ≤ i → i < last
        → bars.begins_bar i ≡ false → IsAmong result.first result.count i }
{
    if !is_free(ex, v) {
        return places;
    }
    match told_place(voices, v, first, last) {
        Some(place) => with_place(places, place),
        None => places,
    }
}

/// The places from a first one on, before the last of so many columns and within bars, of the notes
/// of free voices that this column tells of, and those between.
fn told_places(voices: &[LatestStarts; 4], ex: &Exercise, first: usize, last: usize) -> LatePlaces
    requires voices { ex.now.voices ≤ 4 }
    requires order { first ≤ last }
    requires last { last < 192 }
    ensures from { first ≤ result.first }
    ensures to { result.first + result.count ≤ last }
    ensures told { HasTold ex.now voices.now first last result.first result.count }
{
    let mut places = LatePlaces { first, count: 0 };
    for v in 0..ex.voices {
        places = with_told(places, voices, ex, v, first, last);
    }
    places
}

/// Those of the places of S15 or S27 at which the newest column may settle a break. Before the last
/// bar begins they are those of the notes that it tells of; in the last bar all of them, and none
/// where the column is quiet.
#[inline(always)]
pub(crate) fn passing_left(
    voices: &[LatestStarts; 4],
    newest: &NewestColumns,
    rule: u8,
    ex: &Exercise,
) -> LatePlaces
    requires valid { IsValid ex.now }
    requires begun { 0 < newest.now.len }
    requires room { newest.now.len ≤ columns_in ex.now }
    requires told { is_told_later rule ≡ true }
    ensures from { late_first rule ex.now (newest.now.len - 1) ≤ result.first }
    ensures to { result.first + result.count ≤ late_first rule ex.now (newest.now.len - 1)
        + late_count rule ex.now (newest.now.len - 1) }
    ensures left { SettlesNoOther (AreStartsOf ex.now) (late_row rule) ex.now voices.now newest.now
        result.first result.count }
{
    let last = newest.len - 1;
    let places = passing_places(rule, ex, last);
    if places.count == 0 {
        return places;
    }
    if !reaches_last_bar(ex, newest.len) {
        return told_places(voices, ex, places.first, last);
    }
    if is_quiet(last, newest.at(last, ex.voices as usize)) {
        return LatePlaces {
            first: places.first,
            count: 0,
        };
    }
    places
}
