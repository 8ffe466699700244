//! What a canon is to be.

use fux_pitch::{Mode, Pitch};

/// What a canon is to be: one voice leads in whole notes, and the other follows it a number of bars
/// later, each of its notes a number of degrees from the leader's.
#[derive(Clone, Copy, Debug, PartialEq, Eq)]
pub struct Canon {
    pub mode: Mode,
    /// From 3 to 24.
    pub bars: u8,
    /// The voice that leads, 0 or 1.
    pub leader: u8,
    /// How many degrees the follower's notes lie above the leader's, from -14 to 14.
    pub shift: i8,
    /// How many bars later the follower has them: one at least, and two fewer than there are at
    /// most.
    pub delay: u8,
    /// The low and the high end of each voice's range. The high end's key isn't below the low
    /// end's.
    pub ranges: [(Pitch, Pitch); 2],
}
