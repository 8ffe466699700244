//! The lists of prices that lines state.

ghost use Rattle.std.specs.Prelude.{◌≡◌, ◌<◌, ◌≤◌, ◌*◌, ◌+◌, ℕ, None, length, map, option_map, slice_index, IfOk};
ghost use Rattle.std.specs.List.{AllByRecursion};
ghost use Rattle.penalty_sheet.specs.Weights.{weight_of};
ghost use Rattle.price_check.specs.Stated as words;
ghost use Rattle.price_check.specs.Stated.{AreStated, IsStated};
ghost use Rattle.price_check.specs.Owned.{AreKeys, list_owned};
ghost use Rattle.price_check.specs.PriceLines.{line_of};
ghost use Rattle.priced_floors.specs.declared.charges.TheConstants.{SCALE};

use crate::line::PriceLine;
use fux_pitch::Memory;
use melody_rules::place_of;
use open_ends::Keeps;
use penalty_sheet::{Sheet, weight};
use priced_floors::{Charges, PITCHES, Prices, SCALE, Summit};
use std::alloc::Global;

/// A list of prices: what is kept, what is charged, and whether it charges nothing.
#[derive(Drop)]
pub struct OwnList {
    pub keeps: Keeps,
    pub charges: Charges,
    pub plain: bool,
}

/// The voice and the keys of cases that a line tells.
fn cases_told(line: &PriceLine) -> Option<(u8, &[u8])>
    ensures { option_map (λ x. (x.0, x.1.now)) result ≡ words.cases_told (line_of line.now) }
{
    match line {
        PriceLine::Keeps { .. } => Some((0, &[])),
        PriceLine::Cases { voice, keys } => Some((*voice, keys.as_slice())),
        PriceLine::Price { .. } => None,
        PriceLine::Claims => None,
    }
}

/// The voice and the keys of the cases of a list, by the lines behind its first.
fn cases_of(lines: &[PriceLine]) -> (u8, &[u8])
    ensures { (result.0, result.1.now) ≡ words.cases_of (map line_of lines.now) }
{
    for line in lines {
        if let Some(cases) = cases_told(line) {
            return cases;
        }
    }
    (0, &[])
}

/// The price of a case, a voice and a pitch's place that a line tells.
fn price_told(line: &PriceLine, case: u8, voice: u8, place: usize) -> Option<u32>
    requires { case < 16 }
    ensures { result ≡ words.price_told case voice place (line_of line.now) }
{
    match line {
        PriceLine::Keeps { .. } => Some(0),
        PriceLine::Cases { .. } => None,
        PriceLine::Price {
            case: c,
            voice: v,
            pitch,
            number,
        } => {
            if *c == case + 1 && *v == voice && place_of(*pitch) == place {
                Some(*number)
            } else {
                None
            }
        }
        PriceLine::Claims => None,
    }
}

/// The price of a case, a voice and a pitch's place in a list.
fn price_at(lines: &[PriceLine], case: u8, voice: u8, place: usize) -> u32
    requires { case < 16 }
    ensures { result ≡ words.price_at (map line_of lines.now) case voice place }
{
    for line in lines {
        if let Some(number) = price_told(line, case, voice, place) {
            return number;
        }
    }
    0
}

/// Whether a line tells that a list states a price, or doesn't.
fn some_told(line: &PriceLine) -> Option<bool>
    ensures { result ≡ words.some_told (line_of line.now) }
{
    match line {
        PriceLine::Keeps { .. } => Some(false),
        PriceLine::Cases { .. } => None,
        PriceLine::Price { .. } => Some(true),
        PriceLine::Claims => None,
    }
}

/// Whether a list states a price.
fn has_price(lines: &[PriceLine]) -> bool
    ensures { result ≡ words.has_price (map line_of lines.now) }
{
    for line in lines {
        if let Some(has) = some_told(line) {
            return has;
        }
    }
    false
}

/// What the strikes of a voice are charged in a case.
fn prices_at(lines: &[PriceLine], case: u8, voice: u8) -> Prices
    requires { case < 16 }
    ensures { result ≡ words.prices_at (map line_of lines.now) case voice }
{
    let mut strikes = [0u32; PITCHES];
    for place in 0..PITCHES {
        strikes[place] = price_at(lines, case, voice, place);
    }
    Prices {
        scale: SCALE,
        strikes,
    }
}

/// The same of each of four voices in each of so many cases.
fn all_prices(alloc: Global, lines: &[PriceLine], count: usize) -> Result<Vec<Prices>, Memory>
    requires { count ≤ 16 }
    ensures { IfOk result (λ all. all.items ≡ words.all_prices (map line_of lines.now) count) }
{
    let mut all = Vec::with_capacity(alloc, 4 * count)?;
    for k in 0..4 * count {
        all.push_reserved(prices_at(lines, (k / 4) as u8, (k % 4) as u8));
    }
    Ok(all)
}

/// What a note at the upper end of a case is charged: nothing where it has none.
fn charge_at(charge: u32, high: Option<u8>) -> u32
    ensures { result ≡ words.charge_at charge high }
{
    match high {
        Some(_) => charge,
        None => 0,
    }
}

/// The cases between these keys.
fn summits_between(alloc: Global, keys: &[u8], charge: u32) -> Result<Vec<Summit>, Memory>
    requires low { (k : ℕ) → slice_index keys.now k < 127 }
    requires few { length keys.now ≤ 15 }
    ensures { IfOk result (λ summits. summits.items ≡ words.summits_from charge None keys.now) }
{
    let mut summits = Vec::with_capacity(alloc, keys.len() + 1)?;
    let mut high = None;
    for key in keys {
        summits.push_reserved(Summit {
            low: *key + 1,
            high,
            charge: charge_at(charge, high),
        });
        high = Some(*key);
    }
    summits.push_reserved(Summit {
        low: 0,
        high,
        charge: charge_at(charge, high),
    });
    Ok(summits)
}

/// What a toll costs in parts.
fn parts_of(sheet: &Sheet, toll: u8) -> u32
    requires first { 1 ≤ toll }
    requires last { toll ≤ 20 }
    ensures { result ≡ SCALE * weight_of sheet.now toll }
{
    SCALE * u32::from(weight(sheet, toll))
}

/// What a list charges, by the lines behind its first.
fn charges_of(alloc: Global, sheet: &Sheet, lines: &[PriceLine]) -> Result<Charges, Memory>
    requires { AllByRecursion AreKeys (map line_of lines.now) }
    ensures scale { IfOk result (λ charges. charges.scale ≡ SCALE) }
    ensures strikes { IfOk result (λ charges. charges.strikes.items
        ≡ words.all_prices (map line_of lines.now)
        (length (words.cases_of (map line_of lines.now)).1 + 1)) }
    ensures voice { IfOk result (λ charges. charges.voice
        ≡ (words.cases_of (map line_of lines.now)).0) }
    ensures summits { IfOk result (λ charges. charges.summits.items
        ≡ words.summits_from (SCALE * weight_of sheet.now 17) None
        (words.cases_of (map line_of lines.now)).1) }
{
    let (voice, keys) = cases_of(lines);
    let strikes = all_prices(alloc, lines, keys.len() + 1)?;
    let summits = summits_between(alloc, keys, parts_of(sheet, 17))?;
    Ok(Charges {
        scale: SCALE,
        strikes,
        voice,
        summits,
    })
}

/// Whether a list parts no cases and states no price.
fn is_plain(lines: &[PriceLine]) -> bool
    ensures { result ≡ words.is_plain (map line_of lines.now) }
{
    let (_, keys) = cases_of(lines);
    if keys.len() == 0 {
        return !has_price(lines);
    }
    false
}

/// The list that begins with the line of what it keeps, in front of these.
fn list_of(
    alloc: Global,
    sheet: &Sheet,
    turns: bool,
    runs: bool,
    lines: &[PriceLine],
) -> Result<OwnList, Memory>
    requires { AllByRecursion AreKeys (map line_of lines.now) }
    ensures { IfOk result (λ list. IsStated sheet.now (record {
      turns = turns;
      runs = runs;
      lines = map line_of lines.now;
    }) (list_owned list)) }
{
    let charges = charges_of(alloc, sheet, lines)?;
    Ok(OwnList {
        keeps: Keeps::stated(turns, runs),
        charges,
        plain: is_plain(lines),
    })
}

/// The lists that lines state.
pub fn lists_stated(
    alloc: Global,
    sheet: &Sheet,
    lines: &[PriceLine],
) -> Result<Vec<OwnList>, Memory>
    requires { AllByRecursion AreKeys (map line_of lines.now) }
    ensures { IfOk result (λ lists. AreStated sheet.now (map line_of lines.now)
        (map list_owned lists.items)) }
{
    let mut lists = Vec::new(alloc);
    for k in 0..lines.len() {
        let PriceLine::Keeps { turns, runs } = &lines[k] else {
            continue;
        };
        let list = list_of(alloc, sheet, *turns, *runs, &lines[k + 1..])?;
        lists.push(list)?;
    }
    Ok(lists)
}

/// The price that a line states.
fn price_in(line: &PriceLine) -> Option<u32>
    ensures { result ≡ words.price_in (line_of line.now) }
{
    match line {
        PriceLine::Keeps { .. } => None,
        PriceLine::Cases { .. } => None,
        PriceLine::Price { number, .. } => Some(*number),
        PriceLine::Claims => None,
    }
}

/// The number, from 0, of the first price that is above what the fifth strike of a pitch costs;
/// none where each is due.
pub fn first_high(sheet: &Sheet, lines: &[PriceLine]) -> Option<usize>
    ensures { result ≡ words.first_high sheet.now (map line_of lines.now) }
{
    let most = parts_of(sheet, 20);
    let mut number = 0;
    for line in lines {
        let Some(price) = price_in(line) else {
            continue;
        };
        if price > most {
            return Some(number);
        }
        number += 1;
    }
    None
}
