//! What a setting breaks and pays for, place by place and then line by line.

ghost use Rattle.std.specs.Prelude.{◌≡◌, ◌<◌, ◌≤◌, ◌+◌, ◌++◌, IfOk, OnOk, length, map, take};
ghost use Rattle.fux_grid.specs.Exercises.{IsComplete, IsValid, columns_in};
ghost use Rattle.fux_judge.specs.Gauges.{cells_of_voice};
ghost use Rattle.fux_judge.specs.States.{IsPastOf};
ghost use Rattle.melody_rules.specs.Gauges as gauges;
ghost use Rattle.penalty_sheet.specs.Weights.{greatest_toll};
ghost use Rattle.score_marker.specs.Charges as words;
ghost use Rattle.score_marker.specs.Charges.{charges_at_place, charges_of_breaks, charges_of_line, charges_of_lines, charges_of_tolls, toll_charge};
ghost use Rattle.score_marker.specs.Setting.{marks_at};
ghost use Rattle.score_marker.specs.declared.charge.Charge.TheVariants.{Broken as IsBroken};

use crate::charge::{Charge, LineCharge, TollCharge};
use crate::setting::mark_place;
use fux_grid::{Exercise, Score, place_of};
use fux_judge::{Past, cost_in, every_toll};
use fux_pitch::Memory;
use melody_rules::{Q17, Q18, Q19, Q20, is_narrow, leap_excess};
use penalty_sheet::{Sheet, weight};
use rule_law::{Gauge, is_free};
use std::alloc::Global;

/// Appends the broken rules of column `i`, after the columns before it.
fn charge_breaks(
    charges: &mut Vec<Charge>,
    alloc: Global,
    ex: &Exercise,
    score: &Score,
    i: usize,
    past: &Past,
) -> Result<(), Memory>
    requires valid { IsValid ex.now }
    requires complete { IsComplete ex.now score.now }
    requires place { i < length score.now.columns }
    requires past { IsPastOf ex.now (take i score.now.columns) past.now }
    ensures { OnOk result (charges.new.items
        ≡ charges.old.items ++ charges_of_breaks ex.now score.now.columns i) }
{
    let mut marks = Vec::new(alloc);
    mark_place(&mut marks, ex, score, i, past)?;
    for mark in marks.as_slice() {
        charges.push(Charge::Broken(*mark))?;
    }
    Ok(())
}

/// Appends what a toll costs at column `i`, if it costs something there.
#[tactic(auto, unfolding(crate::specs::Charges::toll_charge))]
fn charge_toll(
    charges: &mut Vec<Charge>,
    ex: &Exercise,
    sheet: &Sheet,
    score: &Score,
    i: usize,
    toll: u8,
) -> Result<(), Memory>
    requires valid { IsValid ex.now }
    requires complete { IsComplete ex.now score.now }
    requires place { i < length score.now.columns }
    requires first { 1 ≤ toll }
    requires last { toll ≤ greatest_toll }
    ensures { OnOk result (charges.new.items
        ≡ charges.old.items ++ toll_charge ex.now sheet.now score.now.columns i toll) }
{
    let cost = u64::from(cost_in(toll, ex, score, i)) * u64::from(weight(sheet, toll));
    if cost == 0 {
        return Ok(());
    }
    let place = place_of(i);
    charges.push(Charge::Toll(TollCharge {
        bar: place.bar,
        slot: place.slot,
        toll,
        cost,
    }))?;
    Ok(())
}

/// Appends what the tolls cost at column `i`.
fn charge_tolls(
    charges: &mut Vec<Charge>,
    ex: &Exercise,
    sheet: &Sheet,
    score: &Score,
    i: usize,
) -> Result<(), Memory>
    requires valid { IsValid ex.now }
    requires complete { IsComplete ex.now score.now }
    requires place { i < length score.now.columns }
    ensures { OnOk result (charges.new.items
        ≡ charges.old.items ++ charges_of_tolls ex.now sheet.now score.now.columns i) }
{
    for toll in every_toll() {
        charge_toll(charges, ex, sheet, score, i, *toll)?;
    }
    Ok(())
}

/// Appends what is broken and paid for at all columns.
fn charge_places(
    charges: &mut Vec<Charge>,
    alloc: Global,
    ex: &Exercise,
    sheet: &Sheet,
    score: &Score,
) -> Result<(), Memory>
    requires valid { IsValid ex.now }
    requires complete { IsComplete ex.now score.now }
    ensures { OnOk result (charges.new.items
        ≡ charges.old.items ++ words.charges_of_places ex.now sheet.now score.now.columns) }
{
    let mut past = Past::none();
    for i in 0..score.len() {
        charge_breaks(charges, alloc, ex, score, i, &past)?;
        charge_tolls(charges, ex, sheet, score, i)?;
        past.note(ex, i, score.column(i).as_slice());
    }
    Ok(())
}

/// What a gauge keeps of the whole line of a voice.
fn kept_of_line<G: Gauge>(gauge: &G, ex: &Exercise, score: &Score, v: u8) -> G::State
    requires valid { IsValid ex.now }
    requires few { length score.now.columns ≤ columns_in ex.now }
    ensures { G.is_of (cells_of_voice score.now.columns v) result }
{
    let mut kept = gauge.start();
    for j in 0..score.len() {
        gauge.step(ex, v, j, &mut kept, score.cell(v as usize, j));
    }
    kept
}

/// Appends what a gauge of this number and value costs over the line of a voice, if it costs
/// something.
#[tactic(auto, unfolding(crate::specs::Charges::line_charge))]
fn charge_value(
    charges: &mut Vec<Charge>,
    sheet: &Sheet,
    v: u8,
    gauge: u8,
    value: u32,
) -> Result<(), Memory>
    requires first { 1 ≤ gauge }
    requires last { gauge ≤ greatest_toll }
    ensures { OnOk result (charges.new.items
        ≡ charges.old.items ++ words.line_charge sheet.now v gauge value) }
{
    let cost = u64::from(value) * u64::from(weight(sheet, gauge));
    if cost == 0 {
        return Ok(());
    }
    charges.push(Charge::Line(LineCharge {
        voice: v,
        gauge,
        cost,
    }))?;
    Ok(())
}

/// Appends what the gauges cost over the line of a voice.
fn charge_line(
    charges: &mut Vec<Charge>,
    ex: &Exercise,
    sheet: &Sheet,
    score: &Score,
    v: u8,
) -> Result<(), Memory>
    requires valid { IsValid ex.now }
    requires few { length score.now.columns ≤ columns_in ex.now }
    ensures { OnOk result (charges.new.items
        ≡ charges.old.items ++ charges_of_line sheet.now score.now.columns v) }
{
    let climax = kept_of_line(&Q17, ex, score, v);
    charge_value(
        charges,
        sheet,
        v,
        17,
        u32::from(climax.count).saturating_sub(1),
    )?;
    let compass = kept_of_line(&Q18, ex, score, v);
    charge_value(charges, sheet, v, 18, u32::from(is_narrow(compass)))?;
    let leaps = kept_of_line(&Q19, ex, score, v);
    charge_value(charges, sheet, v, 19, leap_excess(leaps))?;
    let strikes = kept_of_line(&Q20, ex, score, v);
    charge_value(charges, sheet, v, 20, u32::from(strikes.beyond))?;
    Ok(())
}

/// Appends what the gauges cost over the line of a voice, if the voice is free.
fn charge_voice(
    charges: &mut Vec<Charge>,
    ex: &Exercise,
    sheet: &Sheet,
    score: &Score,
    v: u8,
) -> Result<(), Memory>
    requires valid { IsValid ex.now }
    requires few { length score.now.columns ≤ columns_in ex.now }
    ensures { OnOk result (charges.new.items
        ≡ charges.old.items ++ words.charges_of_voice ex.now sheet.now score.now.columns v) }
{
    if is_free(ex, v) {
        charge_line(charges, ex, sheet, score, v)?;
    }
    Ok(())
}

/// Appends what the gauges cost over the lines of the free voices.
fn charge_lines(
    charges: &mut Vec<Charge>,
    ex: &Exercise,
    sheet: &Sheet,
    score: &Score,
) -> Result<(), Memory>
    requires valid { IsValid ex.now }
    requires few { length score.now.columns ≤ columns_in ex.now }
    ensures { OnOk result (charges.new.items
        ≡ charges.old.items ++ charges_of_lines ex.now sheet.now score.now.columns) }
{
    for v in 0..ex.voices {
        charge_voice(charges, ex, sheet, score, v)?;
    }
    Ok(())
}

/// All that a complete score breaks and pays for. Place by place stand the broken rules, as in
/// `marks`, and then the tolls that cost something there, by their numbers; after the last place,
/// for each free voice from the lowest, the gauges that cost something. Each cost is a count times
/// a weight of the sheet.
pub fn charges(
    alloc: Global,
    ex: &Exercise,
    sheet: &Sheet,
    score: &Score,
) -> Result<Vec<Charge>, Memory>
    requires valid { IsValid ex.now }
    requires complete { IsComplete ex.now score.now }
    ensures { IfOk result (λ charges. charges.items ≡ words.charges ex.now sheet.now
        score.now.columns) }
{
    let mut charges = Vec::new(alloc);
    charge_places(&mut charges, alloc, ex, sheet, score)?;
    charge_lines(&mut charges, ex, sheet, score)?;
    Ok(charges)
}
