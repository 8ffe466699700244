//! A fault that was found.

use fux_text::TextKind;

/// A fault of a text: its kind, its line, and the byte of the line at which it stands, both counted
/// from 1.
#[derive(Clone, Copy, Debug, PartialEq, Eq)]
pub struct FoundFault {
    pub kind: TextKind,
    pub line: u32,
    pub column: u32,
}
