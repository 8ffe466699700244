//! What each strike of a pitch is charged.

ghost use Rattle.std.specs.Prelude.{◌≡◌};
ghost use Rattle.priced_floors.specs.Strikes as charges;

use fux_pitch::{Pitch, semitone};
use melody_rules::place_of;

/// How many places of pitches there are.
pub const PITCHES: usize = 147;

/// What each strike of a pitch is charged, by the pitch's place. Charges are in parts of a unit of
/// penalty, and so many of these make one.
#[derive(Clone, Copy)]
pub struct Prices {
    pub scale: u32,
    pub strikes: [u32; PITCHES],
}

/// The lines whose greatest key is no lower than a key and no higher than another, where there is
/// one; and what each note at the higher one is charged.
#[derive(Clone, Copy)]
pub struct Summit {
    pub low: u8,
    pub high: Option<u8>,
    pub charge: u32,
}

/// What a strike of a pitch is charged.
pub fn strike_price(prices: &Prices, p: Pitch) -> u32
    ensures { result ≡ charges.strike_price prices.now.strikes p }
{
    prices.strikes[place_of(p)]
}

/// What a strike of a pitch is charged for the summit.
pub fn top_price(summit: &Summit, p: Pitch) -> u32
    ensures { result ≡ charges.top_price summit.now p }
{
    match summit.high {
        Some(high) if semitone(p) == high => summit.charge,
        _ => 0,
    }
}
