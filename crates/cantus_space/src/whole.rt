//! What a cantus pays as a whole line.

ghost use Rattle.std.specs.Prelude.{◌≡◌, ◌≤◌, ◌++◌, List, OnOk};
ghost use Rattle.fux_pitch.specs.declared.pitch.Pitch.{Pitch as APitch};
ghost use Rattle.penalty_sheet.specs.Weights.{greatest_toll};
ghost use Rattle.cantus_space.specs.Nodes.{HasPitches};
ghost use Rattle.cantus_space.specs.Charges as words;

use crate::charge::{CantusCharge, Penalty, put};
use crate::melody::{is_central, price_if};
use crate::node::CantusNode;
use crate::plan::CantusPlan;
use crate::prices::{CantusPrices, price};
use fux_pitch::Memory;
use melody_rules::{Compass, is_narrow, leap_excess};
use penalty_sheet::{Sheet, weight};

/// Appends a gauge, by its value.
fn put_gauge(
    charges: &mut Vec<CantusCharge>,
    sheet: &Sheet,
    gauge: u8,
    value: u32,
) -> Result<(), Memory>
    requires first { 1 ≤ gauge }
    requires last { gauge ≤ greatest_toll }
    ensures { OnOk result (charges.new.items ≡ charges.old.items ++ words.gauge_charge sheet.now
        gauge value) }
{
    let cost = u64::from(weight(sheet, gauge)) * u64::from(value);
    put(charges, None, Penalty::Toll(gauge), cost)
}

/// Appends Q17 to Q20, by what each of them says.
fn put_gauges(
    charges: &mut Vec<CantusCharge>,
    sheet: &Sheet,
    climax: u32,
    compass: u32,
    leaps: u32,
    strikes: u32,
) -> Result<(), Memory>
    ensures { OnOk result (charges.new.items ≡ charges.old.items ++ words.gauge_charges sheet.now
        climax compass leaps strikes) }
{
    put_gauge(charges, sheet, 17, climax)?;
    put_gauge(charges, sheet, 18, compass)?;
    put_gauge(charges, sheet, 19, leaps)?;
    put_gauge(charges, sheet, 20, strikes)
}

/// Appends C2 and C4, by the leaps and the bar of the climax.
fn put_ends(
    charges: &mut Vec<CantusCharge>,
    prices: &CantusPrices,
    bars: u8,
    leaps: u8,
    climax: u8,
) -> Result<(), Memory>
    ensures { OnOk result (charges.new.items ≡ charges.old.items ++ words.end_charges prices.now
        bars leaps climax) }
{
    let few = u64::from(price(prices, 2)) * u64::from(2u8.saturating_sub(leaps));
    put(charges, None, Penalty::Price(2), few)?;
    let outside = price_if(!is_central(bars, climax), price(prices, 4));
    put(charges, None, Penalty::Price(4), outside)
}

/// Appends what is paid for all pitches of a node as a whole line.
pub fn put_line(
    charges: &mut Vec<CantusCharge>,
    plan: &CantusPlan,
    node: &CantusNode,
) -> Result<(), Memory>
    requires { node.now.len ≤ 24 }
    ensures { (behind : List APitch) → HasPitches behind node.now → OnOk result (charges.new.items
        ≡ charges.old.items ++ words.charges_of_line plan.now.sheet plan.now.prices behind) }
{
    let compass = is_narrow(Compass {
        any: node.len != 0,
        greatest: node.notes.greatest,
        least: node.notes.least,
    });
    put_gauges(
        charges,
        &plan.sheet,
        u32::from(node.climax.count).saturating_sub(1),
        u32::from(compass),
        leap_excess(node.leaps),
        u32::from(node.beyond),
    )?;
    put_ends(
        charges,
        &plan.prices,
        node.len as u8,
        node.leaps.leaps,
        node.top,
    )
}
