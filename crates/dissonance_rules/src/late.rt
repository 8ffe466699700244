//! The late rules, and what the newest columns tell of S15 and S27.

ghost use Rattle.std.specs.Prelude.{◌≡◌, ◌≤◌, ◌<◌, true};
ghost use Rattle.fux_grid.specs.Exercises.{IsValid, columns_in};
ghost use Rattle.dissonance_rules.specs.Book as book;
ghost use Rattle.dissonance_rules.specs.Clashes as clashes;
ghost use Rattle.dissonance_rules.specs.Told.{TellsPassing};

use crate::clashes::is_passing_open;
use fux_grid::{Exercise, VoiceSet, is_mixed};
use rule_law::{LatePlaces, NewestColumns};

/// Whether a rule is late: S15, S19, S20, S21, S27 or S28.
#[inline]
pub(crate) fn is_late(rule: u8) -> bool
    ensures { result ≡ book.is_late rule }
{
    matches!(rule, 15 | 19 | 20 | 21 | 27 | 28)
}

/// Whether notes that come after a clash tell whether the rule is broken: S15 and S27.
#[inline]
pub(crate) fn is_told_later(rule: u8) -> bool
    ensures { result ≡ clashes.is_told_later rule }
{
    rule == 15 || rule == 27
}

/// Whether a voice of a species, other than species 1, may start a note in column `i`.
fn may_settle(species: u8, i: usize) -> bool
    ensures { result ≡ book.may_settle species i }
{
    match species {
        1 => false,
        2 | 4 => i % 4 == 0,
        3 => i % 2 == 0,
        _ => i % 4 != 1,
    }
}

/// For how many columns S15 may be open for a voice of a species.
fn reach(species: u8) -> usize
    ensures value { result ≡ book.reach species }
    ensures few { result ≤ 19 }
{
    match species {
        2 | 3 => 4,
        4 => 8,
        _ => 19,
    }
}

/// For how many columns S15 and S27 may be open in an exercise.
fn passing_reach(ex: &Exercise) -> usize
    ensures value { result ≡ book.passing_reach ex.now }
    ensures few { result ≤ 19 }
{
    if is_mixed(ex) { 19 } else { reach(ex.species) }
}

/// Whether a column of an exercise may settle them.
fn may_settle_in(ex: &Exercise, i: usize) -> bool
    ensures { result ≡ book.may_settle_in ex.now i }
{
    if is_mixed(ex) {
        return i % 4 != 1;
    }
    may_settle(ex.species, i)
}

/// Whether S15 or S27 has places in an exercise: S15 where one species is given, and S27 where
/// species are mixed.
fn has_places_in(rule: u8, ex: &Exercise) -> bool
    ensures { result ≡ book.has_places_in rule ex.now }
{
    if rule == 15 {
        !is_mixed(ex)
    } else {
        is_mixed(ex)
    }
}

/// The places of S15 and S27.
#[inline(always)]
pub(crate) fn passing_places(rule: u8, ex: &Exercise, i: usize) -> LatePlaces
    requires place { i < columns_in ex.now }
    requires valid { IsValid ex.now }
    ensures first { clashes.is_told_later rule ≡ true → result.first ≡ book.late_first rule ex.now
        i }
    ensures count { clashes.is_told_later rule ≡ true → result.count ≡ book.late_count rule ex.now
        i }
    ensures few { result.count ≤ 20 }
{
    let first = i.saturating_sub(passing_reach(ex));
    let count = if has_places_in(rule, ex) && may_settle_in(ex, i) {
        i + 1 - first
    } else {
        0
    };
    LatePlaces { first, count }
}

/// Whether the newest column settles S15 and S27 at a place: they aren't open any more, and were
/// before.
pub(crate) fn settles_passing(
    newest: &NewestColumns,
    ex: &Exercise,
    voices: VoiceSet,
    place: usize,
) -> bool
    requires valid { IsValid ex.now }
    requires place { place < newest.now.len }
    ensures { TellsPassing ex.now voices.bits newest.now place result }
{
    if newest.len == place + 1 {
        return !is_passing_open(newest, ex, place, newest.len, voices);
    }
    if !is_passing_open(newest, ex, place, newest.len - 1, voices) {
        return false;
    }
    !is_passing_open(newest, ex, place, newest.len, voices)
}
