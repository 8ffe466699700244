//! The printed score: a line for each voice, whose columns stand below one another.
#![tactic(auto)]

mod cells;
mod rows;
mod shown;
mod systems;

pub use rows::print;
pub use systems::print_wrapped;
