//! The crate of rules.

/// The rules S11, S14, S15, S19, S20, S21, S27 and S28, and the tolls Q1 and Q2. S11 and S14 look
/// at no earlier columns or notes.
#[derive(Clone, Copy, Debug, PartialEq, Eq)]
pub struct Dissonance;
