//! Why `mark` refuses a text, and what is said of that.

ghost use Rattle.std.specs.Prelude.{◌≡◌, ◌++◌, OnOk, string_bytes};
ghost use Rattle.class_marker.specs.Unmarked.{unmarked_text};

use fux_pitch::Memory;
use fux_text::TextKind;
use std::fmt::Write;

/// Why `mark` refuses a text.
#[derive(Clone, Copy, Debug, PartialEq, Eq)]
pub enum Unmarked {
    /// The text is no note text: its first fault, with the line and the byte where that stands,
    /// counted from 1.
    Text {
        kind: TextKind,
        line: u32,
        column: u32,
    },
    /// The exercise has no setting.
    NoSetting,
}

/// Appends what is said of a text that is refused, under a name.
pub fn put_unmarked(text: &mut String, name: &str, why: Unmarked) -> Result<(), Memory>
    ensures { OnOk result (string_bytes text.new ≡ string_bytes text.old ++ unmarked_text name.now
        why) }
{
    match why {
        Unmarked::Text { kind, line, column } => {
            Ok(write!(text, "{name}:{line}:{column}: {kind}")?)
        }
        Unmarked::NoSetting => Ok(text.push_str("no setting")?),
    }
}
