//! What a search answers.

use fux_pitch::List;

/// What a search answers.
#[derive(Drop)]
pub enum Outcome {
    /// The first leaf of least value: its child numbers from the root on, and its value.
    Found { path: List<u16>, value: u64 },
    /// There is no leaf.
    Nothing,
    /// The budget did not last. No leaf's value is below the bound.
    Spent { bound: u64 },
}

/// What a search for the leaf of a number answers, where leaves are in order of value and then of
/// path.
#[derive(Drop)]
pub enum Numbered {
    /// The leaf: its child numbers from the root on, and its value.
    Found { path: List<u16>, value: u64 },
    /// There are only so many leaves.
    Only { count: u32 },
    /// The budget did not last. The leaf's value is not below the bound.
    Spent { bound: u64 },
}
