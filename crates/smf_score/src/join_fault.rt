//! Why a file is no answer to a lesson.

ghost use Rattle.std.specs.Prelude.{◌≡◌, Some};
ghost use Rattle.smf_score.specs.JoinFaultTexts.{fault_text};
ghost use Rattle.smf_score.specs.declared.join_fault.JoinFault.TheVariants.{Smf};
ghost use Rattle.smf_score.specs.declared.fault.SmfFault.TheVariants as faults;

use crate::fault::SmfFault;
use fux_pitch::Memory;
use smf_bytes::ByteFault;
use std::alloc::{AllocError, AllocFailed};
use std::fmt;

/// The first fault of a file that is read as an answer to a lesson. Bars are counted from 1, slots
/// from 0.
#[derive(Clone, Copy, Debug, PartialEq, Eq)]
pub enum JoinFault {
    /// A fault that any file may have which is read as an exercise, or want of memory. The number
    /// of voices or bars is then not the lesson's, and the cantus firmus not one note in the bar.
    Smf(SmfFault),
    /// A time signature of so many notes, each of this part of a whole note: no lesson has such
    /// bars, or they aren't as long as the first ones.
    Meter { count: u8, unit: u32 },
    /// The file begins with less than a bar.
    Pickup,
    /// The one note of the cantus firmus in this bar begins or ends at this slot within it.
    OffGrid { bar: u8, slot: u8 },
    /// The cantus firmus has another key in this bar.
    Cantus { bar: u8 },
}

impl fmt::Display for JoinFault {
    ghost output = { λ fault. Some (fault_text fault) };

    fn fmt<W: fmt::Write>(&self, f: &mut fmt::Formatter<W>) -> fmt::Result {
        match self {
            JoinFault::Smf(fault) => write!(f, "{fault}"),
            JoinFault::Meter { count, unit } => write!(f, "meter {count}/{unit}"),
            JoinFault::Pickup => f.write_str("pickup"),
            JoinFault::OffGrid { bar, slot } => write!(f, "off the grid at {bar}:{slot}"),
            JoinFault::Cantus { bar } => write!(f, "cantus in bar {bar}"),
        }
    }
}

impl From<SmfFault> for JoinFault {
    ghost from_gives = { λ f e. e ≡ Smf f };

    fn from(fault: SmfFault) -> JoinFault {
        JoinFault::Smf(fault)
    }
}

impl From<ByteFault> for JoinFault {
    ghost from_gives = { λ f e. e ≡ Smf (faults.Bytes f) };

    fn from(fault: ByteFault) -> JoinFault {
        JoinFault::Smf(SmfFault::Bytes(fault))
    }
}

impl From<AllocError> for JoinFault {
    ghost from_gives = { λ _ e. e ≡ Smf faults.Memory };

    fn from(_: AllocError) -> JoinFault {
        JoinFault::Smf(SmfFault::Memory)
    }
}

impl<T: Drop> From<AllocFailed<T>> for JoinFault {
    ghost from_gives = { λ _ e. e ≡ Smf faults.Memory };

    fn from(_: AllocFailed<T>) -> JoinFault {
        JoinFault::Smf(SmfFault::Memory)
    }
}

impl From<Memory> for JoinFault {
    ghost from_gives = { λ _ e. e ≡ Smf faults.Memory };

    fn from(_: Memory) -> JoinFault {
        JoinFault::Smf(SmfFault::Memory)
    }
}
