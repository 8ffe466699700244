//! What is known of a prefix so that its claims can be judged.

use crate::judged::Judged;
use crate::voices_told::VoicesTold;

/// What is known of a prefix, and its tail. None where no chain goes on, or where `n` is stated.
#[derive(Clone, Copy)]
pub struct PrefixKnown {
    pub judged: Judged,
    pub tail: Option<u64>,
    /// The number of its last column in the menu of its place.
    pub number: usize,
    /// What was told of the voices of columns that come after it.
    pub voices: VoicesTold,
}
