//! What voices double, how far apart they lie, and where in its range each keeps: S23 and Q3 to Q6.
#![tactic(auto)]

mod book;
mod doubling;
mod rows;

pub use book::book_is_lawful;
pub use doubling::Doubling;
pub use rows::{
    double_leading, doubles_third, doubling_breaks, doubling_cost, lacks_third, straying_notes,
    wide_pairs,
};
