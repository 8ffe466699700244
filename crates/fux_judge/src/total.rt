//! The penalty of a whole score.

ghost use Rattle.std.specs.Prelude.{◌≡◌, ◌↔◌, ◌≤◌, ◌<◌, ◌*◌, ◌+◌, IfSome, IsSome, length, if◌then◌else◌};
ghost use Rattle.std.specs.List.{sum_by};
ghost use Rattle.fux_grid.specs.Exercises.{IsComplete, IsValid, columns_in};
ghost use Rattle.penalty_sheet.specs.Weights.{weight_of};
ghost use Rattle.fux_judge.specs.Penalties as penalties;
ghost use Rattle.rule_law.specs.Voices as voices_words;
ghost use Rattle.fux_judge.specs.Gauges as words;
ghost use Rattle.fux_judge.specs.Gauges.{cells_of_voice};
ghost use Rattle.fux_judge.specs.Penalties.{penalty_of, prices_at, tolls_at};
ghost use Rattle.fux_judge.specs.Rules.{all_sets, cost_at};

use crate::all_rules::form_of;
use crate::gauges::{cost_of_line, line_gauges};
use crate::numbers::{every_rule, every_toll};
use crate::whole::{cost_in, is_broken_in};
use fux_grid::{Exercise, Score, VoiceSet, bar_of};
use penalty_sheet::{Sheet, price_at, weight};
use rule_law::{is_free, sets_of};

/// What the tolls cost at a place, each by its weight.
fn tolls_of(ex: &Exercise, sheet: &Sheet, score: &Score, i: usize) -> u64
    requires valid { IsValid ex.now }
    requires complete { IsComplete ex.now score.now }
    requires place { i < length score.now.columns }
    ensures value { result ≡ tolls_at ex.now sheet.now score.now.columns i }
    ensures bound { result ≤ 5629413633556500 }
{
    let mut sum = 0u64;
    for toll in every_toll() {
        let charge = u64::from(cost_in(*toll, ex, score, i)) * u64::from(weight(sheet, *toll));
        sum += charge;
    }
    sum
}

/// The price of a relaxed break of a rule at a place for a set of voices; nothing where there is
/// none.
fn price_of(rule: u8, ex: &Exercise, score: &Score, i: usize, voices: VoiceSet) -> u64
    requires valid { IsValid ex.now }
    requires complete { IsComplete ex.now score.now }
    requires place { i < length score.now.columns }
    ensures value { result ≡ penalties.price_read rule ex.now voices.bits score.now.columns i }
    ensures bound { result ≤ 10000 }
{
    if !is_broken_in(rule, ex, score, i, voices) {
        return 0;
    }
    u64::from(price_at(ex, rule, voices, bar_of(i)).amount())
}

/// What a rule's prices come to at a place.
fn prices_of_rule(rule: u8, ex: &Exercise, score: &Score, i: usize) -> u64
    requires valid { IsValid ex.now }
    requires complete { IsComplete ex.now score.now }
    requires place { i < length score.now.columns }
    ensures value { result ≡ sum_by (λ voices. penalties.price_read rule ex.now voices
        score.now.columns i) all_sets }
    ensures bound { result ≤ 60000 }
{
    let mut sum = 0u64;
    for bits in sets_of(form_of(rule), ex.voices) {
        let price = price_of(rule, ex, score, i, VoiceSet { bits: *bits });
        sum += price;
    }
    sum
}

/// What all prices come to at a place.
fn prices_of(ex: &Exercise, score: &Score, i: usize) -> u64
    requires valid { IsValid ex.now }
    requires complete { IsComplete ex.now score.now }
    requires place { i < length score.now.columns }
    ensures value { result ≡ prices_at ex.now score.now.columns i }
    ensures bound { result ≤ 1920000 }
{
    let mut sum = 0u64;
    for rule in every_rule() {
        let prices = prices_of_rule(*rule, ex, score, i);
        sum += prices;
    }
    sum
}

/// What tolls and prices come to at all places.
fn charges_of(ex: &Exercise, sheet: &Sheet, score: &Score) -> u64
    requires valid { IsValid ex.now }
    requires complete { IsComplete ex.now score.now }
    ensures value { result ≡ penalties.charges_of ex.now sheet.now score.now.columns }
    ensures bound { result ≤ 1080847418011488000 }
{
    let mut sum = 0u64;
    for i in 0..score.len() {
        let charge = tolls_of(ex, sheet, score, i) + prices_of(ex, score, i);
        sum += charge;
    }
    sum
}

/// What the line of a voice costs, nothing where the voice isn't free.
fn line_of(ex: &Exercise, sheet: &Sheet, score: &Score, v: u8) -> u64
    requires valid { IsValid ex.now }
    requires complete { IsComplete ex.now score.now }
    ensures value { result ≡ (if voices_words.is_free ex.now v
        then words.cost_of_line sheet.now (cells_of_voice score.now.columns v) else 0) }
    ensures bound { result ≤ 83622660 }
{
    if !is_free(ex, v) {
        return 0;
    }
    cost_of_line(sheet, &line_gauges(ex, score, v))
}

/// What the lines of the free voices cost.
fn lines_of(ex: &Exercise, sheet: &Sheet, score: &Score) -> u64
    requires valid { IsValid ex.now }
    requires complete { IsComplete ex.now score.now }
    ensures value { result ≡ words.gauges_of ex.now sheet.now score.now.columns }
    ensures bound { result ≤ 334490640 }
{
    let mut sum = 0u64;
    for v in 0..ex.voices {
        sum += line_of(ex, sheet, score, v);
    }
    sum
}

/// The penalty of a score: all tolls by their weights, the prices of relaxed breaks, and the gauges
/// of the free voices' lines by their weights. There is none where the score isn't complete. It
/// takes no memory.
pub fn penalty(ex: &Exercise, sheet: &Sheet, score: &Score) -> Option<u64>
    requires { IsValid ex.now }
    ensures known { IsSome result ↔ IsComplete ex.now score.now }
    ensures value { IfSome result (λ penalty. penalty ≡ penalty_of ex.now sheet.now
        score.now.columns) }
{
    let columns = 8 * ex.bars as usize;
    score.kept();
    if score.voices() != ex.voices || score.len() != columns {
        return None;
    }
    Some(charges_of(ex, sheet, score) + lines_of(ex, sheet, score))
}
