//! The gauges Q17 to Q20 of a free voice's whole line.

mod climax;
mod compass;
mod leaps;
mod strikes;

pub use climax::{Climax, Q17, climax_with, is_final_climax};
pub use compass::{Compass, Q18, is_narrow};
pub use leaps::{Leaps, Q19, is_leap_to, leap_excess, leaps_with};
pub use strikes::{Q20, Strikes, place_of};
