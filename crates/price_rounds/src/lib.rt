//! The search for the best setting by sharper floors, and how their prices are found. No clause
//! speaks of prices: any are fair once they are capped, and so all that is proved here is what the
//! search answers.
#![tactic(auto)]

mod choices;
mod keys;
mod rounds;
mod search;
mod tuned;
mod ways;
mod woven;

pub use search::search_best;
pub use tuned::{Tuned, tuned_prices};
