//! The rows of the notes of a bar of a voice.

ghost use Rattle.std.specs.Prelude.{◌≡◌, ◌-◌, ◌<◌, ◌≤◌, ◌++◌, IfOk, OnOk, string_bytes};
ghost use Rattle.sheet_layout.specs.Spacing.{slot_x};
ghost use Rattle.score_picture.specs.NoteRows.{colored, drawn as drawn_of, note_place as place_of_notes, note_rows, notes_group, red_rows, resting, rule_row, rule_rows, shape_rows, shown, spot_of as spot_at, written_rows};

use crate::rows::put_shape;
use crate::staves::is_first;
use fux_grid::Exercise;
use fux_pitch::Memory;
use sheet_layout::{BarPlace, NotePlace, Shape, Staff, put_note, put_rest, slot_x};
use std::alloc::Global;
use std::fmt::Write;
use written_notes::{SheetMark, Spot, Written, is_left, is_red, rules_at};

/// An exercise with the marks that are shown of its setting.
#[derive(Clone, Copy)]
pub struct Marked<'a> {
    pub ex: &'a Exercise<'a>,
    pub marks: &'a [SheetMark],
}

/// A bar on the page: its number, counted from 0, its place, where ties to the next bar end, and
/// the notes of all voices in it.
#[derive(Clone, Copy)]
pub struct BarOnPage<'a> {
    pub bar: u8,
    pub place: BarPlace,
    pub tie_end: u32,
    pub all: &'a [Written],
}

/// Appends what is drawn of a rest, among the notes of all voices in the bar.
fn put_resting(
    shapes: &mut Vec<Shape>,
    ex: &Exercise,
    all: &[Written],
    place: &NotePlace,
    spot: &Spot,
) -> Result<(), Memory>
    requires first { 1 ≤ spot.now.bar }
    requires last { spot.now.bar ≤ ex.now.bars }
    ensures { OnOk result (shapes.new.items ≡ shapes.old.items
        ++ resting ex.now all.now place.now spot.now) }
{
    if is_left(ex, spot.voice, spot.bar - 1, spot.note.slot) {
        return Ok(());
    }
    put_rest(shapes, all, place, &spot.note)
}

/// What is drawn of one of a bar's notes, among those of all voices.
fn drawn(
    alloc: Global,
    ex: &Exercise,
    all: &[Written],
    notes: &[Written],
    place: &NotePlace,
    spot: &Spot,
) -> Result<Vec<Shape>, Memory>
    requires first { 1 ≤ spot.now.bar }
    requires last { spot.now.bar ≤ ex.now.bars }
    ensures { IfOk result (λ shapes.
        shapes.items ≡ drawn_of ex.now all.now notes.now place.now spot.now) }
{
    let mut shapes = Vec::new(alloc);
    match spot.note.pitch {
        Some(pitch) => put_note(&mut shapes, all, notes, place, &spot.note, pitch)?,
        None => put_resting(&mut shapes, ex, all, place, spot)?,
    }
    Ok(shapes)
}

/// Appends the rows of shapes.
fn put_shapes(out: &mut String, shapes: &[Shape]) -> Result<(), Memory>
    ensures { OnOk result (string_bytes out.new ≡ string_bytes out.old ++ shape_rows shapes.now) }
{
    for shape in shapes {
        put_shape(out, shape)?;
    }
    Ok(())
}

/// Appends the rows of shapes in red.
#[tactic(auto, unfolding(crate::specs::NoteRows::red_rows))]
fn put_red(out: &mut String, shapes: &[Shape]) -> Result<(), Memory>
    ensures { OnOk result (string_bytes out.new ≡ string_bytes out.old ++ red_rows shapes.now) }
{
    out.push_str("<g fill=\"#c00000\" color=\"#c00000\">\n")?;
    put_shapes(out, shapes)?;
    out.push_str("</g>\n")?;
    Ok(())
}

/// Appends the rows of a note's shapes, red where a mark is at it.
fn put_colored(out: &mut String, red: bool, shapes: &[Shape]) -> Result<(), Memory>
    ensures { OnOk result (string_bytes out.new ≡ string_bytes out.old ++ colored red shapes.now) }
{
    if red {
        put_red(out, shapes)
    } else {
        put_shapes(out, shapes)
    }
}

/// Appends the row of a rule.
#[tactic(auto, unfolding(crate::specs::NoteRows::rule_row))]
fn put_rule(out: &mut String, x: u32, y: u32, rule: u8) -> Result<(), Memory>
    ensures { OnOk result (string_bytes out.new ≡ string_bytes out.old ++ rule_row x y rule) }
{
    write!(
        out,
        "<text x=\"{x}\" y=\"{y}\" font-size=\"8\" font-weight=\"bold\" \
        fill=\"#c00000\">S{rule}</text>\n"
    )?;
    Ok(())
}

/// Appends the rows of rules, each 11 above the one before it.
fn put_rules(out: &mut String, x: u32, y: u32, rules: &[u8]) -> Result<(), Memory>
    ensures { OnOk result (string_bytes out.new ≡ string_bytes out.old
        ++ rule_rows x y rules.now) }
{
    let mut height = y;
    for rule in rules {
        put_rule(out, x, height, *rule)?;
        height = height.saturating_sub(11);
    }
    Ok(())
}

/// Appends the rows of a note that is drawn by these shapes, and those of the rules that are shown
/// at it, from a point up.
fn put_shown(
    out: &mut String,
    marks: &[SheetMark],
    shapes: &[Shape],
    x: u32,
    y: u32,
    spot: &Spot,
) -> Result<(), Memory>
    requires { spot.now.voice < 8 }
    ensures { OnOk result (string_bytes out.new ≡ string_bytes out.old
        ++ shown marks.now shapes.now x y spot.now) }
{
    put_colored(out, is_red(marks, spot), shapes)?;
    put_rules(out, x, y, &rules_at(marks, spot))
}

/// What the notes of a bar on a staff have in common.
fn note_place(bar: &BarOnPage, staff: &Staff) -> NotePlace
    ensures { result ≡ place_of_notes bar.now.place bar.now.tie_end staff.now }
{
    NotePlace {
        middle: staff.middle,
        width: bar.place.room.width,
        tie_end: bar.tie_end,
        first: is_first(&bar.place),
    }
}

/// A note of a bar that is counted from 0.
fn spot_of(staff: &Staff, bar: u8, note: Written) -> Spot
    requires { bar < 255 }
    ensures { result ≡ spot_at staff.now bar note }
{
    Spot {
        voice: staff.voice,
        bar: bar + 1,
        note,
    }
}

/// Where the rules of a note stand, and the height of the first of them, above all notes of a staff
/// that needs so much room above.
fn rules_x(all: &[Written], slot: u8) -> u32
    ensures { result ≡ slot_x all.now slot - 7 }
{
    u32::from(slot_x(all, slot)).saturating_sub(7)
}

fn rules_y(above: u16) -> u32
    ensures { result ≡ 570 - above }
{
    570u32.saturating_sub(u32::from(above))
}

/// Appends the rows of one of a bar's notes.
fn put_written(
    alloc: Global,
    out: &mut String,
    marked: &Marked,
    bar: &BarOnPage,
    staff: &Staff,
    notes: &[Written],
    note: &Written,
) -> Result<(), Memory>
    requires bar { bar.now.bar < marked.now.ex.now.bars }
    requires few { bar.now.bar < 255 }
    requires voice { staff.now.voice < 8 }
    ensures { OnOk result (string_bytes out.new ≡ string_bytes out.old
        ++ written_rows marked.now.ex.now marked.now.marks.now bar.now.bar bar.now.place
        bar.now.tie_end bar.now.all.now staff.now notes.now note.now) }
{
    let place = note_place(bar, staff);
    let spot = spot_of(staff, bar.bar, *note);
    let shapes = drawn(alloc, marked.ex, bar.all, notes, &place, &spot)?;
    let x = rules_x(bar.all, note.slot);
    let y = rules_y(staff.above);
    put_shown(out, marked.marks, &shapes, x, y, &spot)?;
    Ok(())
}

/// Appends the rows of a bar's notes on a staff.
fn put_notes(
    alloc: Global,
    out: &mut String,
    marked: &Marked,
    bar: &BarOnPage,
    staff: &Staff,
    notes: &[Written],
) -> Result<(), Memory>
    requires bar { bar.now.bar < marked.now.ex.now.bars }
    requires few { bar.now.bar < 255 }
    requires voice { staff.now.voice < 8 }
    ensures { OnOk result (string_bytes out.new ≡ string_bytes out.old
        ++ note_rows marked.now.ex.now marked.now.marks.now bar.now.bar bar.now.place
        bar.now.tie_end bar.now.all.now staff.now notes.now notes.now) }
{
    for note in notes {
        put_written(alloc, out, marked, bar, staff, notes, note)?;
    }
    Ok(())
}

/// Appends the group of a bar's notes on a staff.
#[tactic(auto, unfolding(crate::specs::NoteRows::notes_group))]
pub fn put_notes_group(
    alloc: Global,
    out: &mut String,
    marked: &Marked,
    bar: &BarOnPage,
    staff: &Staff,
    notes: &[Written],
) -> Result<(), Memory>
    requires bar { bar.now.bar < marked.now.ex.now.bars }
    requires few { bar.now.bar < 255 }
    requires voice { staff.now.voice < 8 }
    ensures { OnOk result (string_bytes out.new ≡ string_bytes out.old
        ++ notes_group staff.now.y (note_rows marked.now.ex.now marked.now.marks.now bar.now.bar
        bar.now.place bar.now.tie_end bar.now.all.now staff.now notes.now notes.now)) }
{
    let y = staff.y;
    write!(
        out,
        "<g transform=\"translate(0,{y}) translate(0,-600)\">\n"
    )?;
    put_notes(alloc, out, marked, bar, staff, notes)?;
    out.push_str("</g>\n")?;
    Ok(())
}
