//! Pictures of exercises as SVG, with or without a setting, plain or with the marks in red; and
//! laws of what who reads a sheet reads of it, and who looks at its picture can tell.
#![tactic(auto)]

mod bars;
mod foot;
mod laws;
mod names;
mod notes;
mod pages;
mod rows;
mod staves;
mod symbols;

pub use laws::{notes_stand_apart, places_tell_notes, sheets_read_right};
pub use pages::{inlined, picture};
pub use symbols::SYMBOLS;
