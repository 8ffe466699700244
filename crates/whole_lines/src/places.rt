//! Places in a text.

ghost use Rattle.std.specs.Prelude.{◌≤◌, ◌+◌, length};

/// What is wrong with a text, by a kind that its format names, and the byte at which the fault
/// stands, counted from 1.
#[derive(Clone, Copy, Debug, PartialEq, Eq)]
pub struct Fault<K> {
    pub kind: K,
    pub column: u32,
}

/// A word with the byte that ends it. Columns are counted in bytes, from 1.
#[derive(Clone, Copy)]
pub struct Word<'a> {
    pub column: u32,
    pub text: &'a [u8],
}

/// What is left of a text, and its column.
#[derive(Clone, Copy)]
pub struct Words<'a> {
    pub(crate) column: u32,
    pub(crate) rest: &'a [u8],
    pub ghost short: { column + length rest.now ≤ 65537 },
}
