//! The rows of bars.

ghost use Rattle.std.specs.Prelude.{◌≡◌, ◌<◌, ◌++◌, All, OnOk, string_bytes};
ghost use Rattle.sheet_layout.specs.Spacing.{all_notes as notes_of_all};
ghost use Rattle.score_picture.specs.NoteRows.{tie_end as end_of_ties};
ghost use Rattle.score_picture.specs.Pictures.{bar_at, bar_rows, bars, staff_in_bar, staves_in_bar};

use crate::notes::{BarOnPage, Marked, put_notes_group};
use crate::staves::{is_first, put_bar_lines, put_staff_rows};
use fux_grid::Cell;
use fux_pitch::{List, Memory};
use sheet_layout::{BarPlace, Staff, all_notes, line_at};
use std::alloc::Global;
use std::fmt::Write;
use written_notes::sheet_notes;

/// Where ties from a bar to the next one end.
fn tie_end(place: &BarPlace, next: Option<BarPlace>) -> u32
    ensures { result ≡ end_of_ties place.now next }
{
    let width = u32::from(place.room.width);
    match next {
        Some(next) if !is_first(&next) => (width + u32::from(next.room.first)).saturating_sub(6),
        _ => width.saturating_sub(3),
    }
}

/// Appends the rows of a staff in a bar, and of its notes there.
fn put_staff(
    alloc: Global,
    out: &mut String,
    marked: &Marked,
    lines: &[List<Cell>],
    bar: &BarOnPage,
    staff: &Staff,
) -> Result<(), Memory>
    requires bar { bar.now.bar < marked.now.ex.now.bars }
    requires few { bar.now.bar < 255 }
    requires notes { bar.now.all.now ≡ notes_of_all marked.now.ex.now lines.now bar.now.bar }
    requires voice { staff.now.voice < 8 }
    ensures { OnOk result (string_bytes out.new ≡ string_bytes out.old
        ++ staff_in_bar marked.now.ex.now marked.now.marks.now lines.now bar.now.bar bar.now.place
        bar.now.tie_end staff.now) }
{
    let notes = sheet_notes(marked.ex, staff.voice, line_at(lines, staff.voice), bar.bar);
    put_staff_rows(out, marked.ex, bar.bar, &bar.place, staff)?;
    put_notes_group(alloc, out, marked, bar, staff, &notes)?;
    Ok(())
}

/// Appends the rows of all staves in a bar.
fn put_staves(
    alloc: Global,
    out: &mut String,
    marked: &Marked,
    lines: &[List<Cell>],
    bar: &BarOnPage,
    staves: &[Staff],
) -> Result<(), Memory>
    requires bar { bar.now.bar < marked.now.ex.now.bars }
    requires few { bar.now.bar < 255 }
    requires notes { bar.now.all.now ≡ notes_of_all marked.now.ex.now lines.now bar.now.bar }
    requires voices { All (λ staff. staff.voice < 8) staves.now }
    ensures { OnOk result (string_bytes out.new ≡ string_bytes out.old
        ++ staves_in_bar marked.now.ex.now marked.now.marks.now lines.now bar.now.bar
        bar.now.place bar.now.tie_end staves.now) }
{
    for staff in staves {
        put_staff(alloc, out, marked, lines, bar, staff)?;
    }
    Ok(())
}

/// Appends a bar at its place.
#[tactic(auto, unfolding(crate::specs::Pictures::bar_rows))]
fn put_bar_rows(
    alloc: Global,
    out: &mut String,
    marked: &Marked,
    lines: &[List<Cell>],
    staves: &[Staff],
    bar: &BarOnPage,
) -> Result<(), Memory>
    requires bar { bar.now.bar < marked.now.ex.now.bars }
    requires few { bar.now.bar < 255 }
    requires notes { bar.now.all.now ≡ notes_of_all marked.now.ex.now lines.now bar.now.bar }
    requires voices { All (λ staff. staff.voice < 8) staves.now }
    ensures { OnOk result (string_bytes out.new ≡ string_bytes out.old
        ++ bar_rows marked.now.ex.now marked.now.marks.now lines.now staves.now bar.now.bar
        bar.now.place bar.now.tie_end) }
{
    let left = bar.place.left;
    let top = bar.place.top;
    write!(out, "<g transform=\"translate({left},{top})\">\n")?;
    put_staves(alloc, out, marked, lines, bar, staves)?;
    put_bar_lines(out, marked.ex, staves, bar.bar, &bar.place)?;
    out.push_str("</g>\n")?;
    Ok(())
}

/// Appends a bar, counted from 0, at its place among these.
fn put_bar(
    alloc: Global,
    out: &mut String,
    marked: &Marked,
    lines: &[List<Cell>],
    staves: &[Staff],
    places: &[BarPlace],
    bar: u8,
) -> Result<(), Memory>
    requires bar { bar < marked.now.ex.now.bars }
    requires few { bar < 255 }
    requires voices { All (λ staff. staff.voice < 8) staves.now }
    ensures { OnOk result (string_bytes out.new ≡ string_bytes out.old
        ++ bar_at marked.now.ex.now marked.now.marks.now lines.now staves.now places.now bar) }
{
    let Some(place) = places.get(bar as usize).copied() else {
        return Ok(());
    };
    let next = places.get(bar as usize + 1).copied();
    let all = all_notes(alloc, marked.ex, lines, bar)?;
    let on_page = BarOnPage {
        bar,
        place,
        tie_end: tie_end(&place, next),
        all: &all,
    };
    put_bar_rows(alloc, out, marked, lines, staves, &on_page)
}

/// Appends all bars.
pub fn put_bars(
    alloc: Global,
    out: &mut String,
    marked: &Marked,
    lines: &[List<Cell>],
    staves: &[Staff],
    places: &[BarPlace],
) -> Result<(), Memory>
    requires voices { All (λ staff. staff.voice < 8) staves.now }
    ensures { OnOk result (string_bytes out.new ≡ string_bytes out.old
        ++ bars marked.now.ex.now marked.now.marks.now lines.now staves.now places.now) }
{
    let count = marked.ex.bars;
    for bar in 0..count {
        put_bar(alloc, out, marked, lines, staves, places, bar)?;
    }
    Ok(())
}
