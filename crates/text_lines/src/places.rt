//! Places in a text.

ghost use Rattle.std.specs.Prelude.{◌≤◌, ◌+◌, length};

/// A word of a line. Columns are counted in bytes, from 1.
#[derive(Clone, Copy)]
pub struct Word<'a> {
    pub line: u32,
    pub column: u32,
    pub text: &'a [u8],
}

/// What is left of a line, and its column.
#[derive(Clone, Copy)]
pub struct Words<'a> {
    pub(crate) line: u32,
    pub(crate) column: u32,
    pub(crate) rest: &'a [u8],
    pub ghost short: { column + length rest.now ≤ 65537 },
}

/// Lines that are left to be read, the number of the first of them, and that of the line after the
/// last one.
#[derive(Clone, Copy)]
pub struct Lines<'a> {
    pub(crate) after: u32,
    pub(crate) number: u32,
    pub(crate) rest: &'a [u8],
    pub ghost counted: { 1 ≤ number },
    pub ghost in_text: { number + length rest.now ≤ 65537 },
}
