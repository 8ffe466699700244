//! The items of a `sing` line, as they are read.

use fux_pitch::Pitch;

/// What an item is called.
#[derive(Clone, Copy)]
pub enum ItemName {
    /// `r`
    Silence,
    /// `_`
    Tie,
    /// A pitch.
    Note(Pitch),
}
