//! The report of one exercise.

ghost use Rattle.std.specs.Prelude.{◌≡◌, ◌++◌, IfOk, OnOk, string_bytes};
ghost use Rattle.class_marker.specs.Markings.{IsMarkingOf};
ghost use Rattle.class_marker.specs.Reports.{report_of};

use crate::marking::{MarkLines, mark};
use crate::unmarked::{Unmarked, put_unmarked};
use fux_pitch::Memory;
use fux_text::{TextFault, TextKind, read};
use std::alloc::Global;

/// What was read of a file.
#[derive(Drop)]
pub enum Text {
    /// The file has more bytes than are read.
    TooLong,
    /// All bytes of the file.
    Bytes(Vec<u8>),
}

/// What `mark` says of a text.
#[derive(Drop)]
pub enum Marking {
    /// The lines of the marks of the setting.
    Marked(MarkLines),
    /// Why the text is refused.
    Refused(Unmarked),
}

/// What is said of a text of more than 65,536 bytes.
const TOO_LONG: Unmarked = Unmarked::Text {
    kind: TextKind::TooLong,
    line: 1,
    column: 1,
};

/// What `mark` says of a text.
pub fn mark_text(alloc: Global, text: &Text) -> Result<Marking, Memory>
    ensures { IfOk result (IsMarkingOf text.now) }
{
    let Text::Bytes(bytes) = text else {
        return Ok(Marking::Refused(TOO_LONG));
    };
    match read(alloc, bytes) {
        Ok(exercise) => match mark(alloc, &exercise)? {
            Some(lines) => Ok(Marking::Marked(lines)),
            None => Ok(Marking::Refused(Unmarked::NoSetting)),
        },
        Err(TextFault::At { kind, line, column }) => {
            Ok(Marking::Refused(Unmarked::Text { kind, line, column }))
        }
        Err(TextFault::Memory) => Err(Memory),
    }
}

/// Appends the report of one exercise: its name on a line, and then what `mark` says of its text.
pub(crate) fn put_report(text: &mut String, name: &str, marking: &Marking) -> Result<(), Memory>
    ensures { OnOk result (string_bytes text.new ≡ string_bytes text.old ++ report_of name.now
        marking.now) }
{
    text.push_str(name)?;
    text.push('\n')?;
    match marking {
        Marking::Marked(lines) => Ok(text.push_str(lines.text.as_str())?),
        Marking::Refused(why) => {
            put_unmarked(text, name, *why)?;
            Ok(text.push('\n')?)
        }
    }
}
