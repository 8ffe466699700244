//! What may be wrong with a sheet.

ghost use Rattle.std.specs.Prelude.{◌≡◌, Some};
ghost use Rattle.penalty_sheet.specs.Sheets.{fault_text};
ghost use Rattle.penalty_sheet.specs.declared.fault.SheetFault.TheVariants as faults;

use fux_pitch::Label;
use std::alloc::{AllocError, AllocFailed};
use std::fmt;

/// Why a sheet is not read. Keys are as `toml` reads them.
#[derive(Drop)]
pub enum SheetFault {
    /// It has more than 65,536 bytes.
    TooLong,
    /// It isn't UTF-8, or no TOML document.
    NotToml,
    /// A key that sheets don't have.
    UnknownKey { key: Label },
    /// The value is no whole number, or that of `weights` is no table.
    NotWhole { key: Label },
    /// The weight is below 0 or above 10,000.
    Weight { key: Label, value: i64 },
    /// There was not enough memory.
    Memory,
}

impl fmt::Display for SheetFault {
    ghost output = { λ fault. Some (fault_text fault) };

    fn fmt<W: fmt::Write>(&self, f: &mut fmt::Formatter<W>) -> fmt::Result {
        match self {
            SheetFault::TooLong => f.write_str("too long"),
            SheetFault::NotToml => f.write_str("not toml"),
            SheetFault::UnknownKey { key } => {
                let key = key.as_str();
                write!(f, "unknown key {key}")
            }
            SheetFault::NotWhole { key } => {
                let key = key.as_str();
                write!(f, "not whole {key}")
            }
            SheetFault::Weight { key, value } => {
                let key = key.as_str();
                write!(f, "weight {key} {value}")
            }
            SheetFault::Memory => f.write_str("out of memory"),
        }
    }
}

impl From<AllocError> for SheetFault {
    ghost from_gives = { λ _ fault. fault ≡ faults.Memory };

    fn from(_: AllocError) -> Self {
        SheetFault::Memory
    }
}

impl<T: Drop> From<AllocFailed<T>> for SheetFault {
    ghost from_gives = { λ _ fault. fault ≡ faults.Memory };

    fn from(_: AllocFailed<T>) -> Self {
        SheetFault::Memory
    }
}
