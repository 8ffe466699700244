//! How much a note text may say.

/// The newest version of the note text. Version 1 gives no notes.
pub const NEWEST_VERSION: u8 = 2;

/// Voices, at most. More are refused at their number.
pub const MOST_VOICES: u8 = 4;

/// The greatest species.
pub const MOST_SPECIES: u8 = 5;

/// Relax lines, at most. One more is refused like any line in a wrong place.
pub const MOST_RELAX: usize = 64;
