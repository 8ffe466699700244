//! What is wrong with a text, and where.

ghost use Rattle.std.specs.Prelude.{◌≡◌};
ghost use Rattle.text_lines.specs.declared.fault.TextFault.TheVariants.{Memory};

use fux_pitch::Memory as NoMemory;
use std::alloc::{AllocError, AllocFailed};

/// Why a text is not read, where its format has faults of these kinds.
#[derive(Clone, Copy, Debug, PartialEq, Eq)]
pub enum TextFault<K> {
    /// The first fault: its line, and the byte of it at which the fault stands, both counted from
    /// 1.
    At { kind: K, line: u32, column: u32 },
    /// There was not enough memory.
    Memory,
}

impl<K> From<NoMemory> for TextFault<K> {
    ghost from_gives = { λ _ fault. fault ≡ Memory };

    fn from(_: NoMemory) -> Self {
        TextFault::Memory
    }
}

impl<K> From<AllocError> for TextFault<K> {
    ghost from_gives = { λ _ fault. fault ≡ Memory };

    fn from(_: AllocError) -> Self {
        TextFault::Memory
    }
}

impl<K, T: Drop> From<AllocFailed<T>> for TextFault<K> {
    ghost from_gives = { λ _ fault. fault ≡ Memory };

    fn from(_: AllocFailed<T>) -> Self {
        TextFault::Memory
    }
}
