//! A difference of an answer from its lesson.

/// Something that an answer has otherwise than the lesson that it is to answer.
#[derive(Clone, Copy, Debug, PartialEq, Eq)]
pub enum Difference {
    /// The mode.
    Mode,
    /// How many voices there are.
    Voices,
    /// How many bars there are.
    Bars,
    /// The species, or the voice that has it.
    Species,
    /// The voice of the cantus firmus.
    CantusVoice,
    /// The pitch of the cantus firmus in a bar, counted from 1.
    Cantus { bar: u8 },
    /// The range of a free voice in a bar.
    Range { voice: u8, bar: u8 },
    /// The relax lines.
    Relax,
    /// What is sung in a bar of a voice isn't what the lesson gives there.
    Given { voice: u8, bar: u8 },
}
