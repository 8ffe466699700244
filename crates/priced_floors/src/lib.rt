//! Floors of the settings of an exercise that know beforehand what repeated pitches and climaxes
//! will cost.
#![tactic(auto)]

mod charges;
mod kept;
mod prices;
mod pricing;

pub use charges::{CASES, Charges, MOST_CHARGE, SCALE};
pub use kept::Kept;
pub use prices::{PITCHES, Prices, Summit};
pub use pricing::PricedSpace;
