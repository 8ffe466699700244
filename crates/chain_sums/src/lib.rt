//! The least that a chain of columns to the end of a setting costs.
#![tactic(auto)]

mod candidates;
mod choices;
mod finished;
mod fresh;
mod gate;
mod least;
mod links;
mod menu;
mod moves;
mod packed;
mod pieces;
mod share;
mod still;
mod tables;

pub use gate::{Gate, Open};
pub use links::Links;
pub use tables::{TableFault, Tables};
