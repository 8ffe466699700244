//! Where the slots of a bar stand.

ghost use Rattle.std.specs.Prelude.{◌≡◌, ◌*◌, ◌++◌, ◌<◌, ◌≤◌, IfOk, OnOk, slice_index_or, []};
ghost use Rattle.sheet_layout.specs.Spacing.{all_notes as notes_of_all, bar_width as width_of, begins as begins_at, has_sign as signed_at, is_shown, lead as lead_of, room as room_at, room_of, slot_x as x_of, voice_notes};

use fux_grid::{Cell, Exercise};
use fux_pitch::{List, Memory};
use std::alloc::Global;
use written_notes::{Sign, Written, sheet_notes};

/// The line of a voice.
pub fn line_at(lines: &[List<Cell>], v: u8) -> &[Cell]
    ensures { result.now ≡ slice_index_or lines.now v [] }
{
    match lines.get(v as usize) {
        Some(line) => line.as_slice(),
        None => &[],
    }
}

/// Appends the written notes of a bar of a voice.
fn put_notes(
    all: &mut Vec<Written>,
    ex: &Exercise,
    lines: &[List<Cell>],
    bar: u8,
    v: u8,
) -> Result<(), Memory>
    requires { bar < ex.now.bars }
    ensures { OnOk result (all.new.items ≡ all.old.items ++ voice_notes ex.now lines.now bar v) }
{
    let notes = sheet_notes(ex, v, line_at(lines, v), bar);
    all.extend_from_slice(notes.as_slice())?;
    Ok(())
}

/// The written notes of all voices in a bar, the lowest voice first.
pub fn all_notes(
    alloc: Global,
    ex: &Exercise,
    lines: &[List<Cell>],
    bar: u8,
) -> Result<Vec<Written>, Memory>
    requires { bar < ex.now.bars }
    ensures { IfOk result (λ all. all.items ≡ notes_of_all ex.now lines.now bar) }
{
    let mut all = Vec::new(alloc);
    for v in 0..ex.voices {
        put_notes(&mut all, ex, lines, bar, v)?;
    }
    Ok(all)
}

/// Whether a sign is written.
fn is_shown(sign: Sign) -> bool
    ensures { result ≡ is_shown sign }
{
    !matches!(sign, Sign::Plain)
}

/// Whether a note or a rest begins at a slot.
fn begins(all: &[Written], slot: u8) -> bool
    ensures { result ≡ begins_at all.now slot }
{
    all.iter().any(|note| note.slot == slot)
}

/// Whether a sign stands at a slot.
fn has_sign(all: &[Written], slot: u8) -> bool
    ensures { result ≡ signed_at all.now slot }
{
    all.iter()
        .any(|note| note.slot == slot && is_shown(note.sign))
}

/// The room before a slot for its signs.
fn lead(all: &[Written], slot: u8) -> u16
    ensures value { result ≡ lead_of all.now slot }
    ensures most { result ≤ 11 }
{
    if has_sign(all, slot) { 11 } else { 0 }
}

/// The room of a slot.
fn room(all: &[Written], slot: u8) -> u16
    ensures value { result ≡ room_at all.now slot }
    ensures most { result ≤ 32 }
{
    let note = if begins(all, slot) { 17 } else { 0 };
    4 + note + lead(all, slot)
}

/// The room of the first so many slots.
fn room_before(all: &[Written], slots: u8) -> u16
    ensures value { result ≡ room_of all.now slots }
    ensures most { result ≤ 32 * slots }
{
    let mut sum = 0;
    for slot in 0..slots {
        sum += room(all, slot);
    }
    sum
}

/// Where a slot stands, counted from the bar line before the bar.
pub fn slot_x(all: &[Written], slot: u8) -> u16
    ensures value { result ≡ x_of all.now slot }
    ensures least { 18 ≤ result }
{
    18 + room_before(all, slot) + lead(all, slot)
}

/// The width of a bar.
pub fn bar_width(all: &[Written]) -> u16
    ensures value { result ≡ width_of all.now }
    ensures most { result ≤ 282 }
{
    26 + room_before(all, 8)
}
