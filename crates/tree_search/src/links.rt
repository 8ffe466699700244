//! How the entries of a front hang together.

/// How an entry hangs from an earlier one. The root is the entry 0, and has no link; entry `i` has
/// the link `i - 1`.
#[derive(Clone, Copy)]
pub struct Link {
    /// The number of the parent's entry.
    pub parent: u32,
    /// Which child of the parent it is.
    pub child: u16,
}
