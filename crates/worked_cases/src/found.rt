//! What stands of a case, as text: one line for each rule, toll or gauge, with a line's end before
//! it.

ghost use Rattle.std.specs.Prelude.{◌≡◌, ◌<◌, ◌≤◌, length};
ghost use Rattle.fux_grid.specs.Exercises.{IsValid, columns_in};

use fux_grid::{Exercise, Score, VoiceSet};
use fux_judge::{cost_in, is_broken_in, is_cost_settled_in, is_settled_in};
use melody_rules::{Q17, Q18, Q19, Q20, is_narrow, leap_excess};
use rhythm_cadence::{note, unbegun};
use rule_law::Gauge;
use std::fmt::Write;

/// The columns and sets of voices for which a rule is broken, from a column on.
fn add_breaks(text: &mut String, rule: u8, ex: &Exercise, score: &Score, from: usize) -> Option<()>
    requires valid { IsValid ex.now }
    requires voices { score.now.voices ≡ ex.now.voices }
    requires few { length score.now.columns ≤ columns_in ex.now }
{
    for i in from..score.len() {
        for bits in 1..16u8 {
            let voices = VoiceSet { bits };
            if is_settled_in(rule, ex, score, i, voices)
                && is_broken_in(rule, ex, score, i, voices)
            {
                write!(text, "\nS{rule} {i} {bits}").ok()?;
            }
        }
    }
    Some(())
}

/// The columns at which a toll costs something, from a column on.
fn add_costs(text: &mut String, toll: u8, ex: &Exercise, score: &Score, from: usize) -> Option<()>
    requires valid { IsValid ex.now }
    requires voices { score.now.voices ≡ ex.now.voices }
    requires few { length score.now.columns ≤ columns_in ex.now }
{
    for i in from..score.len() {
        let cost = cost_in(toll, ex, score, i);
        if !is_cost_settled_in(toll, ex, score, i) {
            write!(text, "\nQ{toll} {i} unsettled").ok()?;
        } else if cost > 0 {
            write!(text, "\nQ{toll} {i} {cost}").ok()?;
        }
    }
    Some(())
}

/// What a gauge keeps of a whole voice.
fn state<G: Gauge>(it: &G, ex: &Exercise, score: &Score, v: u8) -> G::State
    requires valid { IsValid ex.now }
    requires few { length score.now.columns ≤ columns_in ex.now }
{
    let mut state = it.start();
    for i in 0..score.len() {
        it.step(ex, v, i, &mut state, score.cell(v as usize, i));
    }
    state
}

/// The values of a gauge for the free voices.
fn add_values(text: &mut String, number: u8, ex: &Exercise, score: &Score) -> Option<()>
    requires valid { IsValid ex.now }
    requires few { length score.now.columns ≤ columns_in ex.now }
{
    for v in 0..ex.voices {
        let value = match number {
            17 => u32::from(state(&Q17, ex, score, v).count).saturating_sub(1),
            18 => u32::from(is_narrow(state(&Q18, ex, score, v))),
            19 => leap_excess(state(&Q19, ex, score, v)),
            _ => u32::from(state(&Q20, ex, score, v).beyond),
        };
        if v != ex.cantus_voice && value > 0 {
            write!(text, "\nQ{number} {v} {value}").ok()?;
        }
    }
    Some(())
}

/// Whether S3 is settled for voice 1 in the first bar and broken, and the bits of the shapes that
/// its cells so far begin.
fn add_shapes(text: &mut String, ex: &Exercise, score: &Score) -> Option<()>
    requires valid { IsValid ex.now }
    requires voices { score.now.voices ≡ ex.now.voices }
    requires few { length score.now.columns ≤ columns_in ex.now }
{
    let mut part = unbegun();
    for i in 0..score.len() {
        note(&mut part, ex, i, score.column(i).as_slice());
    }
    if !score.is_empty() {
        let voices = VoiceSet { bits: 2 };
        let settled = is_settled_in(3, ex, score, 0, voices);
        let broken = is_broken_in(3, ex, score, 0, voices);
        let left = part.possible[1];
        write!(text, "\nsettled {settled}, broken {broken}, left {left}").ok()?;
    }
    Some(())
}

/// What stands of what is asked, from a column on.
pub fn add_found(
    text: &mut String,
    asked: &str,
    ex: &Exercise,
    score: &Score,
    from: usize,
) -> Option<()>
    requires valid { IsValid ex.now }
    requires voices { score.now.voices ≡ ex.now.voices }
    requires few { length score.now.columns ≤ columns_in ex.now }
{
    for word in asked.split(' ') {
        if let Some(rule) = word.strip_prefix('S') {
            add_breaks(text, rule.parse::<u8>().ok()?, ex, score, from)?;
        } else if let Some(number) = word.strip_prefix('Q') {
            let number = number.parse::<u8>().ok()?;
            if number > 16 && number < 21 {
                add_values(text, number, ex, score)?;
            } else {
                add_costs(text, number, ex, score, from)?;
            }
        } else {
            add_shapes(text, ex, score)?;
        }
    }
    Some(())
}
