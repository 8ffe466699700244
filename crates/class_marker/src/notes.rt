//! The notes of a voice that count for a break.

ghost use Rattle.std.specs.Prelude.{◌≡◌, ◌<◌, ◌≤◌, ◌++◌, IfOk, IfSome, OnOk, length};
ghost use Rattle.class_marker.specs.Notes as words;

use crate::columns::{first_column, last_column};
use crate::far::far_start;
use fux_grid::{Cell, Exercise, Onset, Score};
use fux_pitch::Memory;
use std::alloc::Global;

/// Appends the notes of a voice that start from one column on and before another.
fn push_between(
    notes: &mut Vec<Onset>,
    score: &Score,
    v: u8,
    from: usize,
    end: usize,
) -> Result<(), Memory>
    ensures { OnOk result (notes.new.items
        ≡ notes.old.items ++ words.notes_between score.now.columns v from end) }
{
    for start in from..end.min(score.len()) {
        if let Cell::Start(pitch) = score.cell(v as usize, start) {
            notes.push(Onset { start, pitch })?;
        }
    }
    Ok(())
}

/// Appends the note of a voice that starts at a column, where one is meant.
fn push_from(
    notes: &mut Vec<Onset>,
    score: &Score,
    v: u8,
    start: Option<usize>,
) -> Result<(), Memory>
    requires { IfSome start (λ from. from ≤ length score.now.columns) }
    ensures { OnOk result (notes.new.items
        ≡ notes.old.items ++ words.note_from score.now.columns v start) }
{
    let _ = score.len();
    match start {
        Some(from) => push_between(notes, score, v, from, from + 1),
        None => Ok(()),
    }
}

/// The notes of a voice that count for a break of a rule at a column.
pub fn notes_that_count(
    alloc: Global,
    ex: &Exercise,
    rule: u8,
    score: &Score,
    v: u8,
    i: usize,
) -> Result<Vec<Onset>, Memory>
    requires { i < length score.now.columns }
    ensures { IfOk result (λ notes. notes.items
        ≡ words.notes_that_count ex.now rule score.now.columns v i) }
{
    let mut notes = Vec::new(alloc);
    push_from(&mut notes, score, v, far_start(rule, score, v, i))?;
    let from = first_column(rule, score, v, i);
    let last = last_column(ex, rule, score, v, i);
    push_between(&mut notes, score, v, from, last + 1)?;
    Ok(notes)
}
