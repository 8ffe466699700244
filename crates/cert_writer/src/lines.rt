//! Where a writer stands behind the text of a head.

use cert_law::PrefixKnown;
use cert_tree::Walk;

/// What comes next behind the text of a head, and the lines before the first claim's.
#[derive(Clone, Copy)]
pub(crate) enum Stage {
    /// The entry of the start.
    Start,
    /// The entry of the column of a number in the menu of a place.
    Column { place: usize, number: usize },
    /// The line `claims`.
    Last,
    /// The claims.
    Claims,
}

/// The lines that are still to come: those of the stage, and of the claims of the prefixes that are
/// owed.
#[derive(Drop)]
pub(crate) struct Lines {
    pub stage: Stage,
    pub walk: Walk<PrefixKnown>,
}
