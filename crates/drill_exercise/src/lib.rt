//! The numbered exercises of the drill, the same on every machine.
#![tactic(auto)]

mod cantus;
mod exercise;

pub use exercise::drill;
