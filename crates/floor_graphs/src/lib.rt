//! Floors of a tree from the numbers of a graph to which its paths are mapped. What is asked of the
//! numbers is that they pass a check, however they were found.
#![tactic(auto)]

mod bounds;
mod capped;
mod graph;
mod guide;
mod purse;
mod search;
mod sharpened;

pub use bounds::{FIRST_BUDGET, search_by_bounds, try_by_bounds};
pub use capped::Capped;
pub use graph::{Graph, least_numbers, lesser};
pub use guide::Guide;
pub use purse::{Purse, front_of};
pub use search::{search_sharpened, try_sharpened};
pub use sharpened::{Sharp, Sharpened};
