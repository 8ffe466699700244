//! The crate of rules.

/// The rule S23 and the tolls Q3 to Q6.
#[derive(Clone, Copy, Debug, PartialEq, Eq)]
pub struct Doubling;
