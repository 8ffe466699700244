//! Why a file is no exercise.

ghost use Rattle.std.specs.Prelude.{◌≡◌, Some};
ghost use Rattle.smf_score.specs.FaultTexts.{fault_text};
ghost use Rattle.smf_score.specs.declared.fault.SmfFault.TheVariants.{Bytes, Memory as NoMemory};

use fux_pitch::Memory;
use smf_bytes::ByteFault;
use std::alloc::{AllocError, AllocFailed};
use std::fmt;

/// The first fault of a file that is read as an exercise. A note is named by its track, counted
/// from 0, and the tick at which it starts.
#[derive(Clone, Copy, Debug, PartialEq, Eq)]
pub enum SmfFault {
    /// The bytes are no file of this kind.
    Bytes(ByteFault),
    /// The key of the note is below 24 or above 96.
    Key { track: u16, tick: u64 },
    /// The note starts and ends at one slot.
    ZeroNote { track: u16, tick: u64 },
    /// The note starts before an earlier one of its voice ends.
    Overlap { track: u16, tick: u64 },
    /// There are so many voices, and not 2 to 4 with the cantus and the species voice among them.
    VoiceCount { count: u16 },
    /// There are so many bars, and not 3 to 24.
    Bars { count: u64 },
    /// The cantus isn't one whole note in this bar, counted from 1.
    NotWhole { bar: u8 },
    /// There was not enough memory.
    Memory,
}

impl fmt::Display for SmfFault {
    ghost output = { λ fault. Some (fault_text fault) };

    fn fmt<W: fmt::Write>(&self, f: &mut fmt::Formatter<W>) -> fmt::Result {
        match self {
            SmfFault::Bytes(fault) => write!(f, "{fault}"),
            SmfFault::Key { track, tick } => write!(f, "key at {track}:{tick}"),
            SmfFault::ZeroNote { track, tick } => write!(f, "zero note at {track}:{tick}"),
            SmfFault::Overlap { track, tick } => write!(f, "overlap at {track}:{tick}"),
            SmfFault::VoiceCount { count } => write!(f, "voice count {count}"),
            SmfFault::Bars { count } => write!(f, "bars {count}"),
            SmfFault::NotWhole { bar } => write!(f, "not whole in bar {bar}"),
            SmfFault::Memory => f.write_str("out of memory"),
        }
    }
}

impl From<ByteFault> for SmfFault {
    ghost from_gives = { λ f e. e ≡ Bytes f };

    fn from(fault: ByteFault) -> SmfFault {
        SmfFault::Bytes(fault)
    }
}

impl From<AllocError> for SmfFault {
    ghost from_gives = { λ _ e. e ≡ NoMemory };

    fn from(_: AllocError) -> SmfFault {
        SmfFault::Memory
    }
}

impl<T: Drop> From<AllocFailed<T>> for SmfFault {
    ghost from_gives = { λ _ e. e ≡ NoMemory };

    fn from(_: AllocFailed<T>) -> SmfFault {
        SmfFault::Memory
    }
}

impl From<Memory> for SmfFault {
    ghost from_gives = { λ _ e. e ≡ NoMemory };

    fn from(_: Memory) -> SmfFault {
        SmfFault::Memory
    }
}
