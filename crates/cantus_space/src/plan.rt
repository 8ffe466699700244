//! What is asked of a cantus.

use crate::prices::CantusPrices;
use fux_pitch::{Mode, Pitch};
use penalty_sheet::Sheet;

/// What is asked of a cantus.
#[derive(Clone, Copy, Debug, PartialEq, Eq)]
pub struct CantusPlan {
    pub mode: Mode,
    /// From 3 to 24.
    pub bars: u8,
    /// The low end of the range.
    pub low: Pitch,
    /// The high end, whose key isn't below the low end's.
    pub high: Pitch,
    /// The weights.
    pub sheet: Sheet,
    /// What it pays for beyond them.
    pub prices: CantusPrices,
}
