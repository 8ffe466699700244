//! Texts of lines and words: where each word stands, and the first fault with its line and its
//! column.
#![tactic(auto)]

mod fault;
mod lines;
mod numbers;
mod places;
mod utf8;
mod words;

pub use fault::TextFault;
pub use numbers::{parse_number, parse_within};
pub use places::{Lines, Word, Words};
pub use words::is_same;
