//! The least that the columns still to come cost, for each column of an exercise.
#![tactic(auto)]

mod links;
mod share;
mod tables;

pub use chain_sums::{Gate, Open, TableFault};
pub use tables::{Tables, fill_tables, tables_cut};
