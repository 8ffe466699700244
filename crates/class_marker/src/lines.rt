//! The lines that tell notes and intervals.

ghost use Rattle.std.specs.Prelude.{◌≡◌, ◌++◌, OnOk, string_bytes};
ghost use Rattle.class_marker.specs.Evidence.{further_notes, interval_line, intervals_line, notes_words, rest_words as words_of_rest, sounding_line};

use crate::intervals::put_interval;
use crate::words::put_note;
use fux_grid::{Cell, Onset};
use fux_pitch::{Memory, Pitch};

/// Appends notes behind another one.
fn put_further(out: &mut String, notes: &[Onset]) -> Result<(), Memory>
    ensures { OnOk result (string_bytes out.new ≡ string_bytes out.old ++ further_notes notes.now) }
{
    for note in notes {
        out.push_str(", then ")?;
        put_note(out, note.start, note.pitch)?;
    }
    Ok(())
}

/// Appends notes, one after the other.
pub fn put_notes(out: &mut String, notes: &[Onset]) -> Result<(), Memory>
    ensures { OnOk result (string_bytes out.new ≡ string_bytes out.old ++ notes_words notes.now) }
{
    match notes {
        [] => {
            out.push_str("no note")?;
            Ok(())
        }
        [first, others @ ..] => {
            put_note(out, first.start, first.pitch)?;
            put_further(out, others)
        }
    }
}

/// What is told of a cell where a voice rests.
pub fn rest_words(cell: Cell) -> &'static str
    ensures { result.now ≡ words_of_rest cell }
{
    match cell {
        Cell::Rest => "; it rests there",
        Cell::Hold(_) | Cell::Start(_) => "",
    }
}

/// Appends the line of one interval.
#[tactic(auto, unfolding(crate::specs::Evidence::interval_line))]
fn put_one(out: &mut String, sounding: (Pitch, Pitch)) -> Result<(), Memory>
    ensures { OnOk result (string_bytes out.new ≡ string_bytes out.old ++ interval_line sounding) }
{
    out.push_str("    ")?;
    put_interval(out, sounding.0, sounding.1)?;
    out.push('\n')?;
    Ok(())
}

/// Appends the line of two.
#[tactic(auto, unfolding(crate::specs::Evidence::intervals_line))]
fn put_two(out: &mut String, first: (Pitch, Pitch), next: (Pitch, Pitch)) -> Result<(), Memory>
    ensures { OnOk result (string_bytes out.new ≡ string_bytes out.old
        ++ intervals_line first next) }
{
    out.push_str("    ")?;
    put_interval(out, first.0, first.1)?;
    out.push_str(", then ")?;
    put_interval(out, next.0, next.1)?;
    out.push('\n')?;
    Ok(())
}

/// Appends the line of the intervals that there are.
pub fn put_sounding(
    out: &mut String,
    first: Option<(Pitch, Pitch)>,
    next: Option<(Pitch, Pitch)>,
) -> Result<(), Memory>
    ensures { OnOk result (string_bytes out.new ≡ string_bytes out.old
        ++ sounding_line first next) }
{
    match (first, next) {
        (None, None) => Ok(()),
        (Some(first), None) => put_one(out, first),
        (None, Some(next)) => put_one(out, next),
        (Some(first), Some(next)) => put_two(out, first, next),
    }
}
