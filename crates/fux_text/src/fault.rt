//! What may be wrong with a note text.

ghost use Rattle.std.specs.Prelude.{Some};
ghost use Rattle.fux_text.specs.Faults.{kind_word};

use std::fmt;

/// What is wrong with a note text.
#[derive(Clone, Copy, Debug, PartialEq, Eq)]
pub enum TextKind {
    /// The text has more than 65,536 bytes.
    TooLong,
    /// The bytes are no UTF-8.
    NotUtf8,
    /// The line is not the one that comes next.
    Head,
    /// A word is wrong, missing, or one too many.
    Word,
    /// A word is no name of a pitch.
    Pitch,
    /// A length is none of 1 to 8, or the lengths of a bar don't sum to 8.
    Length,
    /// There are too many bars, or too few.
    BarLine,
    /// The number of bars is none of 3 to 24.
    Bars,
    /// A range line is wrong, or a voice lacks its own.
    Range,
    /// The voice of the cantus firmus is wrong, or it has too few or too many pitches.
    Cantus,
    /// Nothing sounds that could go on, or it can't go on here.
    Tie,
    /// A `sing` line is of another voice, or is missing.
    Sing,
    /// A voice doesn't have what the exercise gives.
    Given,
}

/// Why a note text is not read: its first fault, or want of memory.
pub type TextFault = text_lines::TextFault<TextKind>;

impl fmt::Display for TextKind {
    ghost output = { λ kind. Some (kind_word kind) };

    fn fmt<W: fmt::Write>(&self, f: &mut fmt::Formatter<W>) -> fmt::Result {
        f.write_str(match self {
            TextKind::TooLong => "toolong",
            TextKind::NotUtf8 => "notutf8",
            TextKind::Head => "head",
            TextKind::Word => "word",
            TextKind::Pitch => "pitch",
            TextKind::Length => "length",
            TextKind::BarLine => "barline",
            TextKind::Bars => "bars",
            TextKind::Range => "range",
            TextKind::Cantus => "cantus",
            TextKind::Tie => "tie",
            TextKind::Sing => "sing",
            TextKind::Given => "given",
        })
    }
}
