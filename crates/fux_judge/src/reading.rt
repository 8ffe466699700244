//! Rules and tolls, read at a moment.

ghost use Rattle.std.specs.Prelude.{◌≡◌, Some, false, ◌<◌, ◌≤◌, ◌*◌, ◌+◌, ◌^◌, List, [], IsTrue, length};
ghost use Rattle.fux_grid.specs.declared.cell.Cell.{Cell as ACell};
ghost use Rattle.fux_judge.specs.Rules.{all_sets, is_late};
ghost use Rattle.fux_judge.specs.Moments.{IsReadable, IsAfter, is_broken_then, is_strict_break_then, is_strictly_broken_then, price_then, prices_then, with_column};

use crate::all_rules::{AllRules, form_of};
use crate::moment::Moment;
use fux_grid::{VoiceSet, bar_of};
use penalty_sheet::price_at;
use rule_law::{RuleCrate, sets_of};

/// Whether a rule that is settled at once is broken for a set of voices.
fn is_broken(rule: u8, voices: VoiceSet, m: &Moment<'_>) -> bool
    requires rule { is_late rule ≡ false }
    requires readable { IsReadable m.now }
    ensures { (p : List (List ACell)) → IsAfter p m.now → result ≡ is_broken_then rule voices.bits p
        m.now }
{
    AllRules::breaks_at_once(
        &m.state.past.parts,
        rule,
        m.exercise,
        voices,
        m.state.newest.len,
        m.before,
        &m.latest,
        m.column,
    )
}

/// Whether a rule that is settled at once is strictly broken for a set of voices.
pub(crate) fn is_strictly_broken(rule: u8, voices: VoiceSet, m: &Moment<'_>) -> bool
    requires rule { is_late rule ≡ false }
    requires readable { IsReadable m.now }
    ensures { (p : List (List ACell)) → IsAfter p m.now → result ≡ is_strict_break_then rule
        voices.bits p m.now }
{
    if !is_broken(rule, voices, m) {
        return false;
    }
    price_at(m.exercise, rule, voices, bar_of(m.state.newest.len)).is_strict()
}

/// The price of a relaxed break of a rule that is settled at once for a set of voices; nothing
/// where there is none.
fn price_of(rule: u8, voices: VoiceSet, m: &Moment<'_>) -> u64
    requires rule { is_late rule ≡ false }
    requires readable { IsReadable m.now }
    ensures value { (p : List (List ACell)) → IsAfter p m.now → result ≡ price_then rule voices.bits
        p m.now }
    ensures bound { result ≤ 10000 }
{
    if !is_broken(rule, voices, m) {
        return 0;
    }
    u64::from(price_at(m.exercise, rule, voices, bar_of(m.state.newest.len)).amount())
}

/// Whether a rule that is settled at once is strictly broken for one of these sets of voices.
fn is_strictly_broken_for(sets: &[u8], rule: u8, m: &Moment<'_>) -> bool
    requires rule { is_late rule ≡ false }
    requires readable { IsReadable m.now }
    ensures { (p : List (List ACell)) → IsAfter p m.now → result ≡ is_strictly_broken_then sets.now
        rule p m.now }
{
    for bits in sets {
        if is_strictly_broken(rule, VoiceSet { bits: *bits }, m) {
            return true;
        }
    }
    false
}

/// The prices of the relaxed breaks of a rule that is settled at once for these sets of voices.
fn prices_for(sets: &[u8], rule: u8, m: &Moment<'_>) -> u64
    requires rule { is_late rule ≡ false }
    requires readable { IsReadable m.now }
    requires few { length sets.now ≤ 6 }
    ensures value { (p : List (List ACell)) → IsAfter p m.now → result ≡ prices_then sets.now rule p
        m.now }
    ensures bound { result ≤ 60000 }
{
    let mut sum = 0u64;
    for bits in sets {
        let price = price_of(rule, VoiceSet { bits: *bits }, m);
        sum += price;
    }
    sum
}

/// Whether a rule that is settled at once is strictly broken.
pub(crate) fn is_strictly_broken_now(rule: u8, m: &Moment<'_>) -> bool
    requires rule { is_late rule ≡ false }
    requires readable { IsReadable m.now }
    ensures { (p : List (List ACell)) → IsAfter p m.now → result ≡ is_strictly_broken_then all_sets
        rule p m.now }
{
    is_strictly_broken_for(sets_of(form_of(rule), m.exercise.voices), rule, m)
}

/// The prices of the relaxed breaks of a rule that is settled at once.
pub(crate) fn prices_now(rule: u8, m: &Moment<'_>) -> u64
    requires rule { is_late rule ≡ false }
    requires readable { IsReadable m.now }
    ensures value { (p : List (List ACell)) → IsAfter p m.now → result ≡ prices_then all_sets rule p
        m.now }
    ensures bound { result ≤ 60000 }
{
    prices_for(sets_of(form_of(rule), m.exercise.voices), rule, m)
}
