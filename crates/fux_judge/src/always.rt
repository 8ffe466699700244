//! Columns that are dead by what they sound, whatever comes before them.

ghost use Rattle.std.specs.Prelude.{◌≡◌, ◌<◌, ◌&&◌, true, None, IsTrue, length};
ghost use Rattle.std.specs.Bool.{OnTrue, OnFalse};
ghost use Rattle.std.specs.List.{list_all, list_any};
ghost use Rattle.fux_grid.specs.Exercises.{IsValid, columns_in};
ghost use Rattle.fux_judge.specs.Always.{IsAlwaysDead, IsSound, sounding_rules};
ghost use Rattle.fux_judge.specs.Links.{breaks_between, breaks_strictly, is_rule_between};
ghost use Rattle.fux_judge.specs.Penalties.{is_strict_at};

use crate::all_rules::{AllRules, form_of};
use fux_grid::{Cell, Column, Exercise, VoiceSet, bar_of};
use penalty_sheet::price_at;
use rule_law::{Latest, RuleCrate, is_quiet, sets_of};

/// The rules of what a column sounds: two voices cross, meet or clash, or the ending doesn't fit.
const SOUNDING_RULES: [u8; 5] = [10, 11, 13, 14, 24];

/// These rules as a list.
#[tactic(auto, unfolding(crate::specs::Rules::rule_at))]
fn rules_of_sounds() -> &'static [u8]
    ensures value { result.now ≡ sounding_rules }
    ensures kinds { IsTrue (list_all is_rule_between result.now) }
{
    &SOUNDING_RULES
}

/// Whether a rule of what a column sounds is broken in column `i` for a set of voices.
#[inline]
fn is_broken(rule: u8, voices: VoiceSet, ex: &Exercise, i: usize, now: &[Cell]) -> bool
    requires rule { is_rule_between rule ≡ true }
    requires valid { IsValid ex.now }
    requires place { i < columns_in ex.now }
    ensures { result ≡ breaks_between ex.now i None now.now rule voices.bits }
{
    AllRules::breaks_between(rule, ex, voices, i, &[], &Latest::NONE, now)
}

/// Whether it is strictly broken there.
#[inline]
fn breaks_for(rule: u8, voices: VoiceSet, ex: &Exercise, i: usize, now: &[Cell]) -> bool
    requires rule { is_rule_between rule ≡ true }
    requires valid { IsValid ex.now }
    requires place { i < columns_in ex.now }
    ensures { result ≡ (breaks_between ex.now i None now.now rule voices.bits && is_strict_at rule
        ex.now voices.bits i) }
{
    if !is_broken(rule, voices, ex, i, now) {
        return false;
    }
    price_at(ex, rule, voices, bar_of(i)).is_strict()
}

/// Whether it is strictly broken for one of these sets of voices.
fn breaks_for_some(sets: &[u8], rule: u8, ex: &Exercise, i: usize, now: &[Cell]) -> bool
    requires rule { is_rule_between rule ≡ true }
    requires valid { IsValid ex.now }
    requires place { i < columns_in ex.now }
    ensures { result ≡ list_any (λ voices. breaks_between ex.now i None now.now rule voices
        && is_strict_at rule ex.now voices i) sets.now }
{
    for bits in sets {
        if breaks_for(rule, VoiceSet { bits: *bits }, ex, i, now) {
            return true;
        }
    }
    false
}

/// Whether it is strictly broken.
fn breaks_rule(rule: u8, ex: &Exercise, i: usize, now: &[Cell]) -> bool
    requires rule { is_rule_between rule ≡ true }
    requires valid { IsValid ex.now }
    requires place { i < columns_in ex.now }
    ensures { result ≡ breaks_strictly ex.now i None now.now rule }
{
    breaks_for_some(sets_of(form_of(rule), ex.voices), rule, ex, i, now)
}

/// Whether one of these rules is strictly broken.
fn breaks_one(rules: &[u8], ex: &Exercise, i: usize, now: &[Cell]) -> bool
    requires rules { IsTrue (list_all is_rule_between rules.now) }
    requires valid { IsValid ex.now }
    requires place { i < columns_in ex.now }
    ensures { result ≡ list_any (breaks_strictly ex.now i None now.now) rules.now }
{
    for rule in rules {
        if breaks_rule(*rule, ex, i, now) {
            return true;
        }
    }
    false
}

/// Whether column `i` settles a strict break after every prefix, by what it sounds: two voices
/// clash, cross or meet, or the ending doesn't fit. Where it answers no, the column breaks none of
/// these rules strictly, whatever stands before it; it may be dead all the same. It takes no
/// memory.
pub fn is_always_dead(ex: &Exercise, i: usize, col: &Column) -> bool
    requires valid { IsValid ex.now }
    requires place { i < columns_in ex.now }
    ensures dead { OnTrue result (IsAlwaysDead ex.now i col.now.items) }
    ensures sound { OnFalse result (IsSound ex.now i col.now.items) }
{
    let now = col.as_slice();
    if is_quiet(i, now) {
        return false;
    }
    if breaks_one(rules_of_sounds(), ex, i, now) {
        return true;
    }
    false
}
