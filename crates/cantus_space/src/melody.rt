//! C1 to C6: what a cantus pays that is no good melody of its own.

ghost use Rattle.std.specs.Prelude.{◌≡◌, ◌≤◌, if◌then◌else◌, nat_le, nat_lt};
ghost use Rattle.fux_grid.specs.declared.cell.Cell.TheVariants.{Start};
ghost use Rattle.rule_law.specs.Terms.{same_way};
ghost use Rattle.melody_rules.specs.Rows.{on_moves};
ghost use Rattle.cantus_space.specs.Melody as words;

use crate::prices::{CantusPrices, price};
use fux_pitch::{Interval, Pitch, interval_of};
use rule_law::{is_leap, is_step, opposite_ways, same_way};

/// Whether the move to the next pitch goes the way of the move before it.
pub fn goes_on(before: Option<Pitch>, last: Option<Pitch>, pitch: Pitch) -> bool
    ensures { result ≡ on_moves same_way before last (Start pitch) }
{
    match (before, last) {
        (Some(a), Some(b)) => same_way(interval_of(a, b), interval_of(b, pitch)),
        _ => false,
    }
}

/// Whether after a leap comes no step the other way.
fn stays_out(leap: Interval, next: Interval) -> bool
    ensures { result ≡ words.stays_out leap next }
{
    is_leap(leap) && !(is_step(next) && opposite_ways(leap, next))
}

/// Whether the next pitch comes after a leap, and not by a step the other way.
pub fn leaves_leap(before: Option<Pitch>, last: Option<Pitch>, pitch: Pitch) -> bool
    ensures { result ≡ on_moves words.stays_out before last (Start pitch) }
{
    match (before, last) {
        (Some(a), Some(b)) => stays_out(interval_of(a, b), interval_of(b, pitch)),
        _ => false,
    }
}

/// Whether a pitch is altered.
pub fn is_altered(pitch: Pitch) -> bool
    ensures { result ≡ words.is_altered pitch }
{
    pitch.alter() != 0
}

/// Whether a pitch is this one, where there is one.
pub fn is_the(other: Option<Pitch>, pitch: Pitch) -> bool
    ensures { result ≡ words.is_the other pitch }
{
    match other {
        Some(other) => other == pitch,
        None => false,
    }
}

/// A price where it has to be paid, else nothing.
pub fn price_if(stands: bool, price: u16) -> u64
    ensures value { result ≡ words.price_if stands price }
    ensures bound { result ≤ 65535 }
{
    if stands { u64::from(price) } else { 0 }
}

/// What the next pitch pays, with so many moves on end one way.
pub fn note_charge(
    prices: &CantusPrices,
    moves: u8,
    before: Option<Pitch>,
    last: Option<Pitch>,
    pitch: Pitch,
) -> u64
    ensures value { result ≡ words.charge_by prices.now moves before last pitch }
    ensures bound { result ≤ 262140 }
{
    price_if(moves >= 4, price(prices, 1))
        + price_if(leaves_leap(before, last, pitch), price(prices, 3))
        + price_if(is_altered(pitch), price(prices, 5))
        + price_if(is_the(before, pitch), price(prices, 6))
}

/// The bar of the climax once a pitch of this key has come in a bar.
pub fn top_after(greatest: u8, key: u8, bar: u8, top: u8) -> u8
    ensures { result ≡ (if nat_lt greatest key then bar else top) }
{
    if key > greatest { bar } else { top }
}

/// Whether a bar lies in the middle half of the bars.
pub fn is_central(bars: u8, bar: u8) -> bool
    ensures { result ≡ words.is_central bars bar }
{
    let place = 4 * u32::from(bar);
    u32::from(bars) < place && place <= 3 * u32::from(bars)
}

/// What all pitches pay at their end, by their leaps and the bar of their climax.
fn ends_cost(prices: &CantusPrices, bars: u8, leaps: u8, climax: u8) -> u64
    ensures value { result ≡ words.ends_by prices.now bars leaps climax }
    ensures bound { result ≤ 196605 }
{
    u64::from(price(prices, 2)) * u64::from(2u8.saturating_sub(leaps))
        + price_if(!is_central(bars, climax), price(prices, 4))
}

/// What pitches pay at their end, where so many are all, else nothing.
pub fn least_ends(prices: &CantusPrices, bars: u8, len: usize, leaps: u8, climax: u8) -> u64
    ensures value { result ≡ (if nat_le bars len then words.ends_by prices.now bars leaps climax
        else 0) }
    ensures bound { result ≤ 196605 }
{
    if len < bars as usize {
        return 0;
    }
    ends_cost(prices, bars, leaps, climax)
}
