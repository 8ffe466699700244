//! How a file was played.

/// How a MIDI file was played, as far as words tell it.
#[derive(Clone, Copy)]
pub struct Manner {
    /// The first track, or channel, is the highest voice, unless the cantus says otherwise.
    pub top_first: bool,
    /// A note that is held to seven tenths of its place or more counts as whole.
    pub legato: bool,
}
