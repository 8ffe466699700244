//! A charge.

use crate::mark::Mark;

/// What a toll from Q1 to Q16, or Q21, costs at a place, by its weight.
#[derive(Clone, Copy, Debug, PartialEq, Eq)]
pub struct TollCharge {
    /// Counted from 1.
    pub bar: u8,
    /// From 0 to 7.
    pub slot: u8,
    /// The toll's number, from 1 to 16 or 21.
    pub toll: u8,
    /// How often the toll stands there, times its weight.
    pub cost: u64,
}

/// What a gauge from Q17 to Q20 costs over the whole line of a free voice, by its weight.
#[derive(Clone, Copy, Debug, PartialEq, Eq)]
pub struct LineCharge {
    /// The number of the voice, counted from 0, the lowest.
    pub voice: u8,
    /// The gauge's number, from 17 to 20.
    pub gauge: u8,
    /// The gauge's value times its weight.
    pub cost: u64,
}

/// One thing that a setting breaks or pays for.
#[derive(Clone, Copy, Debug, PartialEq, Eq)]
pub enum Charge {
    /// A broken rule, which costs its price where a relax line gives it one.
    Broken(Mark),
    /// A toll that costs something at a place.
    Toll(TollCharge),
    /// A gauge that costs something over a line.
    Line(LineCharge),
}
