//! Where staves stand in a system.

ghost use Rattle.std.specs.Prelude.{◌≡◌, ◌+◌, ◌*◌, ◌<◌, ◌≤◌, ◌^◌, IfOk, length, max};
ghost use Rattle.sheet_layout.specs.Pages.{high_with, higher as higher_of, low_with, lower as lower_of, next_staff, rule_count as rules_there, rules_in as rules_of_line, rules_with as most_rules, staff_room as room_of_staff, staves as staves_of, voice_staff as staff_of_voice};

use fux_grid::{Cell, Exercise};
use fux_pitch::{List, Memory};
use std::alloc::Global;
use written_notes::{SheetMark, Spot, Written, bar_notes, clef_of, middle_degree, rules_at};

/// What a staff needs: the room for notes above it, for rules above those, and for notes below it.
#[derive(Clone, Copy, Debug, PartialEq, Eq)]
pub struct StaffRoom {
    pub above: u16,
    pub rules: u16,
    pub below: u16,
}

/// A staff of each system: its voice, the degree of its middle line, the room for notes above it,
/// and from where the system begins the heights of its middle line and of its room's end.
#[derive(Clone, Copy, Debug, PartialEq, Eq)]
pub struct Staff {
    pub voice: u8,
    pub middle: u8,
    pub above: u16,
    pub y: u32,
    pub bottom: u32,
}

/// The higher of a degree and of a cell's.
fn higher(high: u8, cell: Cell) -> u8
    ensures { result ≡ higher_of high cell }
{
    match cell.pitch() {
        Some(pitch) => pitch.degree().max(high),
        None => high,
    }
}

/// The lower of a degree and of a cell's.
fn lower(low: u8, cell: Cell) -> u8
    ensures { result ≡ lower_of low cell }
{
    match cell.pitch() {
        Some(pitch) => pitch.degree().min(low),
        None => low,
    }
}

/// The highest degree of a line, or another one where that is higher.
fn high_with(high: u8, line: &[Cell]) -> u8
    ensures { result ≡ high_with high line.now }
{
    let mut highest = high;
    for cell in line {
        highest = higher(highest, *cell);
    }
    highest
}

/// The lowest degree of a line, or another one where that is lower.
fn low_with(low: u8, line: &[Cell]) -> u8
    ensures { result ≡ low_with low line.now }
{
    let mut lowest = low;
    for cell in line {
        lowest = lower(lowest, *cell);
    }
    lowest
}

/// How many rules are shown at a note of a bar, counted from 1.
fn rule_count(marks: &[SheetMark], voice: u8, bar: u8, note: Written) -> u8
    requires { voice < 8 }
    ensures { result ≡ rules_there marks.now voice bar note }
{
    let spot = Spot { voice, bar, note };
    rules_at(marks, &spot).len() as u8
}

/// The most rules that are shown at one of these notes of a bar, counted from 1, or another number
/// where that is greater.
fn rules_with(marks: &[SheetMark], voice: u8, bar: u8, most: u8, notes: &[Written]) -> u8
    requires { voice < 8 }
    ensures { result ≡ most_rules marks.now voice bar most notes.now }
{
    let mut count = most;
    for note in notes {
        count = rule_count(marks, voice, bar, *note).max(count);
    }
    count
}

/// The most rules that are shown at a note of the first so many bars of a line.
fn rules_in(marks: &[SheetMark], voice: u8, line: &[Cell], bars: u8) -> u8
    requires { voice < 8 }
    ensures { result ≡ rules_of_line marks.now voice line.now bars }
{
    let mut most = 0;
    for bar in 0..bars {
        let notes = bar_notes(line, bar);
        most = rules_with(marks, voice, bar + 1, most, notes.as_slice());
    }
    most
}

/// What the staff of a voice needs, whose middle line has this degree.
fn staff_room(marks: &[SheetMark], voice: u8, line: &[Cell], bars: u8, middle: u8) -> StaffRoom
    requires voice { voice < 8 }
    requires middle { middle ≤ 34 }
    ensures { result ≡ room_of_staff marks.now voice line.now bars middle }
{
    let top = middle + 4;
    let foot = middle.saturating_sub(4);
    let above = high_with(top, line).saturating_sub(top);
    let below = foot.saturating_sub(low_with(foot, line));
    StaffRoom {
        above: 4 * u16::from(above),
        rules: 11 * u16::from(rules_in(marks, voice, line, bars)),
        below: 4 * u16::from(below),
    }
}

/// The staff of a voice below a height.
fn next_staff(from: u32, voice: u8, middle: u8, room: StaffRoom) -> Staff
    requires { from ≤ 2 ^ 30 }
    ensures value { result ≡ next_staff from voice middle room }
    ensures bottom { result.bottom ≤ from + 200000 }
{
    let y = from + 38 + (u32::from(room.above) + u32::from(room.rules));
    Staff {
        voice,
        middle,
        above: room.above,
        y,
        bottom: y + 38 + u32::from(room.below),
    }
}

/// The staff of a voice of an exercise below a height.
fn voice_staff(
    ex: &Exercise,
    marks: &[SheetMark],
    lines: &[List<Cell>],
    from: u32,
    voice: u8,
) -> Staff
    requires from { from ≤ 2 ^ 30 }
    requires few { voice < 8 }
    requires there { voice < length lines.now }
    ensures value { result ≡ staff_of_voice ex.now marks.now lines.now from voice }
    ensures bottom { result.bottom ≤ from + 200000 }
{
    let middle = middle_degree(clef_of(ex, voice));
    let line = lines[voice as usize].as_slice();
    let room = staff_room(marks, voice, line, ex.bars, middle);
    next_staff(from, voice, middle, room)
}

/// The staves of all voices, the highest first.
pub fn staves(
    alloc: Global,
    ex: &Exercise,
    marks: &[SheetMark],
    lines: &[List<Cell>],
) -> Result<Vec<Staff>, Memory>
    requires few { ex.now.voices ≤ 4 }
    requires lines { length lines.now ≡ ex.now.voices }
    ensures { IfOk result (λ staves. staves.items ≡ staves_of ex.now marks.now lines.now) }
{
    let mut staves = Vec::new(alloc);
    let mut from = 0;
    for k in 0..ex.voices {
        let staff = voice_staff(ex, marks, lines, from, ex.voices - 1 - k);
        staves.push(staff)?;
        from = staff.bottom;
    }
    Ok(staves)
}
