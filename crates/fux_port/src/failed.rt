//! Why bytes did not come or go.

ghost use Rattle.std.specs.Prelude.{◌≡◌};
ghost use Rattle.fux_port.specs.declared.failed.WholeFault.TheVariants.{Failed as failed, Memory as memory};

use fux_pitch::Memory;
use std::alloc::AllocError;
use std::fmt;

/// A read or a write that did not take place.
#[derive(Clone, Copy, Debug, PartialEq, Eq)]
pub struct Failed;

impl fmt::Display for Failed {
    fn fmt<W: fmt::Write>(&self, f: &mut fmt::Formatter<W>) -> fmt::Result {
        write!(f, "reading or writing failed")
    }
}

impl std::error::Error for Failed {}

/// Why a whole file was not read.
#[derive(Clone, Copy, Debug, PartialEq, Eq)]
pub enum WholeFault {
    /// A read failed, or no file has the name.
    Failed,
    /// The file has more bytes than the limit.
    TooLong,
    /// There was not enough memory.
    Memory,
}

impl fmt::Display for WholeFault {
    fn fmt<W: fmt::Write>(&self, f: &mut fmt::Formatter<W>) -> fmt::Result {
        match self {
            WholeFault::Failed => Failed.fmt(f),
            WholeFault::TooLong => write!(f, "the file is too long"),
            WholeFault::Memory => Memory.fmt(f),
        }
    }
}

impl std::error::Error for WholeFault {}

impl From<Failed> for WholeFault {
    ghost from_gives = { λ _ fault. fault ≡ failed };

    fn from(_: Failed) -> Self {
        WholeFault::Failed
    }
}

impl From<AllocError> for WholeFault {
    ghost from_gives = { λ _ fault. fault ≡ memory };

    fn from(_: AllocError) -> Self {
        WholeFault::Memory
    }
}
