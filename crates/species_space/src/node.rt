//! What stands for a path while a search is there.
ghost use Rattle.std.specs.Prelude.{◌≡◌};

use fux_judge::State;

/// A live prefix: its state, what is paid of it, what its lines cost at least, and the number of
/// its last column in its menu. A column of holds has the number of the column before where the
/// menus go alike, so that this is where a search looks first; no answer depends on it.
#[derive(Clone, Copy, Debug, PartialEq, Eq)]
pub struct Node {
    pub(crate) state: State,
    pub(crate) paid: u64,
    pub(crate) least: u64,
    pub(crate) hint: usize,
}

impl Node {
    /// What is paid of the prefix.
    #[inline]
    pub fn paid(&self) -> u64
        ensures { result ≡ self.now.paid }
    {
        self.paid
    }
}
