//! Why bytes are no Standard MIDI File.

ghost use Rattle.std.specs.Prelude.{Some};
ghost use Rattle.smf_bytes.specs.Faults.{fault_text};

use std::fmt;

/// The first fault of a file. An offset counts bytes from the beginning of the file.
#[derive(Clone, Copy, Debug, PartialEq, Eq)]
pub enum ByteFault {
    /// The file has more than 1,048,576 bytes.
    TooLong,
    /// A byte is needed here, and the file or its chunk has ended.
    Truncated { at: usize },
    /// The header isn't one: at 0 its type, at 4 its length, at 8 its format, at 12 its division.
    Chunk { at: usize },
    /// A quantity that begins here has more than four bytes.
    LongNumber { at: usize },
    /// A data byte without a status, a status of no channel message, or a status where a data byte
    /// is needed.
    Status { at: usize },
    /// The tracks of the file are patterns of their own.
    Format2,
    /// Time is counted in frames of film.
    Smpte,
    /// The chunk of a track ends here, and its last event was not the end of the track.
    NoEnd { at: usize },
}

impl fmt::Display for ByteFault {
    ghost output = { λ fault. Some (fault_text fault) };

    fn fmt<W: fmt::Write>(&self, f: &mut fmt::Formatter<W>) -> fmt::Result {
        match self {
            ByteFault::TooLong => f.write_str("too long"),
            ByteFault::Truncated { at } => write!(f, "truncated at {at}"),
            ByteFault::Chunk { at } => write!(f, "chunk at {at}"),
            ByteFault::LongNumber { at } => write!(f, "long number at {at}"),
            ByteFault::Status { at } => write!(f, "status at {at}"),
            ByteFault::Format2 => f.write_str("format 2"),
            ByteFault::Smpte => f.write_str("smpte"),
            ByteFault::NoEnd { at } => write!(f, "no end at {at}"),
        }
    }
}
