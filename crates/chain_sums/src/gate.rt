//! Who is told when the work on a piece of a row begins.

/// Told of each piece of a row as the work on it begins. Nothing is known of what it does, but that
/// it returns.
pub trait Gate: Sync {
    /// The work on a piece begins: of the row of this place, under this number, counted from 0.
    fn enter(&self, column: usize, piece: usize);
}

/// The gate that holds nobody.
#[derive(Clone, Copy, Debug)]
pub struct Open;

impl Gate for Open {
    fn enter(&self, _column: usize, _piece: usize) {}
}
