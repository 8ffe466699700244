//! Texts as one row of words, each with the byte that ends it: a line feed, or a space or a line
//! feed.
#![tactic(auto)]

mod places;
mod words;

pub use places::{Fault, Word, Words};
pub use words::without_end;
