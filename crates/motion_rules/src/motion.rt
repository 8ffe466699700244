//! The crate of rules.

/// The rules S10 and S16 to S18, and the tolls Q11, Q12 and Q14.
#[derive(Clone, Copy, Debug, PartialEq, Eq)]
pub struct Motion;
