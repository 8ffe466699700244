//! Why a file is not what a command needs, and what is said of that.

ghost use Rattle.std.specs.Prelude.{◌≡◌, ◌++◌, IfOk, OnOk, string_bytes};
ghost use Rattle.works.specs.Complaints.{refusal_text, width_text};

use class_marker::{Unmarked, put_unmarked};
use fux_grid::Place;
use fux_pitch::{Label, Memory};
use fux_text::TextKind;
use penalty_sheet::SheetFault;
use smf_score::{JoinFault, SmfFault};
use std::alloc::Global;
use std::fmt::Write;

/// Why a file is not what a command needs.
#[derive(Drop)]
pub enum Refusal {
    /// The file is no note text: its first fault, with the line and the byte of it where that
    /// stands, counted from 1.
    Text {
        kind: TextKind,
        line: u32,
        column: u32,
    },
    /// The exercise has no setting.
    NoSetting,
    /// The file of the lesson is no note text: its first fault, in the same way.
    Lesson {
        kind: TextKind,
        line: u32,
        column: u32,
    },
    /// A voice is named whose species may not be: it isn't free, or the exercise itself says its
    /// species.
    With {
        voice: u8,
    },
    /// The file is no list of a class: the number of its first line at fault.
    List {
        line: u32,
    },
    /// The file is no text of a canon: the number of its first line at fault.
    Canon {
        line: u32,
    },
    /// A column has more than 8,192 ways to go on: the first such place, and how many they are.
    TooWide {
        place: Place,
        count: u64,
    },
    /// The certificate has more than 1,073,741,824 bytes.
    LongCertificate,
    /// The graph of a list of a certificate has more than 4,194,304 nodes or 6,000,000 edges, or
    /// 48,000,000 labels are to be tried for it.
    LargeGraph,
    /// The file is no sheet of weights: its first fault.
    Sheet {
        fault: SheetFault,
    },
    /// The file is no MIDI file of an exercise: its first fault.
    Midi {
        fault: SmfFault,
    },
    /// The file is no MIDI file of an answer to the lesson: its first fault.
    Join {
        fault: JoinFault,
    },
}

/// What is said of a refused file of this name, without the program's name before it.
pub fn refusal_text(alloc: Global, name: &str, refusal: &Refusal) -> Result<Label, Memory>
    ensures { IfOk result (λ text. text ≡ refusal_text name.now refusal.now) }
{
    let mut text = String::new(alloc);
    put_refusal(&mut text, name, refusal)?;
    Ok(Label::new(text))
}

/// Appends what is said of a refused file of this name.
fn put_refusal(text: &mut String, name: &str, refusal: &Refusal) -> Result<(), Memory>
    ensures { OnOk result (string_bytes text.new ≡ string_bytes text.old ++ refusal_text name.now
        refusal.now) }
{
    match refusal {
        Refusal::Text { kind, line, column } => {
            Ok(write!(text, "{name}:{line}:{column}: {kind}")?)
        }
        Refusal::NoSetting => put_unmarked(text, name, Unmarked::NoSetting),
        Refusal::Lesson { kind, line, column } => {
            Ok(write!(text, "lesson:{line}:{column}: {kind}")?)
        }
        Refusal::With { voice } => Ok(write!(text, "with {voice}")?),
        Refusal::List { line } => Ok(write!(text, "{name}:{line}: list")?),
        Refusal::Canon { line } => Ok(write!(text, "{name}:{line}: canon")?),
        Refusal::TooWide { place, count } => put_width(text, *place, *count),
        Refusal::LongCertificate => Ok(text.push_str("certificate too long")?),
        Refusal::LargeGraph => Ok(text.push_str("graph too large")?),
        Refusal::Sheet { fault } => Ok(write!(text, "sheet: {fault}")?),
        Refusal::Midi { fault } => Ok(write!(text, "midi: {fault}")?),
        Refusal::Join { fault } => Ok(write!(text, "midi: {fault}")?),
    }
}

/// Appends what is said of a column that is too wide.
fn put_width(text: &mut String, place: Place, count: u64) -> Result<(), Memory>
    ensures { OnOk result (string_bytes text.new ≡ string_bytes text.old ++ width_text place
        count) }
{
    let bar = place.bar;
    let slot = place.slot;
    write!(text, "too wide: {count} columns at bar {bar} slot {slot}")?;
    Ok(())
}
