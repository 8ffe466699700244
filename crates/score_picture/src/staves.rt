//! The rows of staves, clefs, names and bar lines. A bar's rows stand in a group whose origin is
//! its left and its system's begin.

ghost use Rattle.std.specs.Prelude.{◌≡◌, ◌+◌, ◌-◌, ◌<◌, ◌^◌, ◌++◌, OnOk, string_bytes};
ghost use Rattle.score_picture.specs.StaffRows.{bar_line, bar_lines, bar_number, called as called_so, clef_name as name_of_clef, clef_y as y_of_clef, cut_sign, five_lines, is_first as begins_system, left_line, level, lines_begin as begin_of_lines, name_row, opening, staff_rows, symbol_at, system_begin, system_foot as foot_of, system_top as top_of, upright};

use fux_grid::Exercise;
use fux_pitch::Memory;
use sheet_layout::{BarPlace, LEFT, Staff};
use std::fmt::Write;
use written_notes::{Clef, clef_of};

/// Appends a level line from one place to another.
#[tactic(auto, unfolding(crate::specs::StaffRows::level))]
fn put_level(out: &mut String, from: &str, to: u16, y: u64) -> Result<(), Memory>
    ensures { OnOk result (string_bytes out.new ≡ string_bytes out.old ++ level from.now to y) }
{
    write!(out, "<path d=\"M{from} {y}H{to}\" stroke=\"#000\"/>\n")?;
    Ok(())
}

/// Where the lines of a staff begin in a bar.
fn lines_begin(first: bool) -> &'static str
    ensures { result.now ≡ begin_of_lines first }
{
    if first { "-50" } else { "0" }
}

/// Appends the five lines of a staff in a bar, from this height down.
fn put_five_lines(out: &mut String, from: &str, width: u16, top: u32) -> Result<(), Memory>
    ensures { OnOk result (string_bytes out.new ≡ string_bytes out.old
        ++ five_lines from.now width top) }
{
    for line in 0u8..5 {
        put_level(out, from, width, u64::from(top) + 8 * u64::from(line))?;
    }
    Ok(())
}

/// Appends a symbol that stands in a place, at a height.
#[tactic(auto, unfolding(crate::specs::StaffRows::symbol_at))]
fn put_symbol(out: &mut String, name: &str, place: &str, y: u64) -> Result<(), Memory>
    ensures { OnOk result (string_bytes out.new ≡ string_bytes out.old
        ++ symbol_at name.now place.now y) }
{
    write!(
        out,
        "<use xlink:href=\"#{name}\" x=\"{place}\" y=\"{y}\"/>\n"
    )?;
    Ok(())
}

/// The name of a clef's drawing.
fn clef_name(clef: Clef) -> &'static str
    ensures { result.now ≡ name_of_clef clef }
{
    match clef {
        Clef::Treble => "G",
        Clef::Bass => "F",
        Clef::Alto => "C",
    }
}

/// The height of a clef's own line.
fn clef_y(clef: Clef, y: u32) -> u64
    ensures { result ≡ y_of_clef clef y }
{
    let y = u64::from(y);
    match clef {
        Clef::Treble => y + 8,
        Clef::Bass => y.saturating_sub(8),
        Clef::Alto => y,
    }
}

/// What a voice is called.
fn called(ex: &Exercise, voice: u8) -> &'static str
    ensures { result.now ≡ called_so ex.now voice }
{
    if voice == ex.cantus_voice {
        "C.f."
    } else {
        "voice"
    }
}

/// Appends a voice's name and number.
#[tactic(auto, unfolding(crate::specs::StaffRows::name_row))]
fn put_name(out: &mut String, name: &str, voice: u8, y: u64) -> Result<(), Memory>
    ensures { OnOk result (string_bytes out.new ≡ string_bytes out.old
        ++ name_row name.now voice y) }
{
    write!(
        out,
        "<text x=\"-58\" y=\"{y}\" font-size=\"13\" text-anchor=\"end\">{name} {voice}</text>\n"
    )?;
    Ok(())
}

/// Appends a staff's clef and its voice's name, where a system begins.
fn put_opening(out: &mut String, ex: &Exercise, first: bool, staff: &Staff) -> Result<(), Memory>
    ensures { OnOk result (string_bytes out.new ≡ string_bytes out.old
        ++ opening ex.now first staff.now) }
{
    if !first {
        return Ok(());
    }
    let clef = clef_of(ex, staff.voice);
    let name = called(ex, staff.voice);
    put_symbol(out, clef_name(clef), "-40", clef_y(clef, staff.y))?;
    put_name(out, name, staff.voice, u64::from(staff.y) + 5)
}

/// Appends the sign of the cut, in the first bar.
fn put_cut_sign(out: &mut String, bar: u8, y: u32) -> Result<(), Memory>
    ensures { OnOk result (string_bytes out.new ≡ string_bytes out.old ++ cut_sign bar y) }
{
    if bar != 0 {
        return Ok(());
    }
    put_symbol(out, "t", "-10", u64::from(y))
}

/// Whether a bar begins a system.
pub fn is_first(place: &BarPlace) -> bool
    ensures { result ≡ begins_system place.now }
{
    place.left == LEFT
}

/// Appends what stands of a staff in a bar besides its notes.
pub fn put_staff_rows(
    out: &mut String,
    ex: &Exercise,
    bar: u8,
    place: &BarPlace,
    staff: &Staff,
) -> Result<(), Memory>
    ensures { OnOk result (string_bytes out.new ≡ string_bytes out.old
        ++ staff_rows ex.now bar place.now staff.now) }
{
    let first = is_first(place);
    let top = staff.y.saturating_sub(16);
    put_five_lines(out, lines_begin(first), place.room.width, top)?;
    put_opening(out, ex, first, staff)?;
    put_cut_sign(out, bar, staff.y)?;
    Ok(())
}

/// Appends an upright line from one height to another, so wide.
#[tactic(auto, unfolding(crate::specs::StaffRows::upright))]
fn put_upright(out: &mut String, x: u16, from: u64, to: u64, width: u8) -> Result<(), Memory>
    ensures { OnOk result (string_bytes out.new ≡ string_bytes out.old
        ++ upright x from to width) }
{
    write!(
        out,
        "<path d=\"M{x} {from}V{to}\" stroke=\"#000\" stroke-width=\"{width}\"/>\n"
    )?;
    Ok(())
}

/// Appends the line behind a bar; behind the last one two, of which one is wide.
fn put_bar_line(out: &mut String, last: bool, x: u16, from: u64, to: u64) -> Result<(), Memory>
    ensures { OnOk result (string_bytes out.new ≡ string_bytes out.old ++ bar_line last x from to) }
{
    if !last {
        return put_upright(out, x, from, to, 1);
    }
    put_upright(out, x.saturating_sub(6), from, to, 1)?;
    put_upright(out, x.saturating_sub(2), from, to, 4)
}

/// Appends the line at a system's left.
#[tactic(auto, unfolding(crate::specs::StaffRows::left_line))]
fn put_left_line(out: &mut String, from: u64, to: u64) -> Result<(), Memory>
    ensures { OnOk result (string_bytes out.new ≡ string_bytes out.old ++ left_line from to) }
{
    write!(out, "<path d=\"M-50 {from}V{to}\" stroke=\"#000\"/>\n")?;
    Ok(())
}

/// Appends the number of a bar above its system.
#[tactic(auto, unfolding(crate::specs::StaffRows::bar_number))]
fn put_bar_number(out: &mut String, number: u8, y: u64) -> Result<(), Memory>
    ensures { OnOk result (string_bytes out.new ≡ string_bytes out.old ++ bar_number number y) }
{
    write!(
        out,
        "<text x=\"-50\" y=\"{y}\" font-size=\"9\">{number}</text>\n"
    )?;
    Ok(())
}

/// Appends the left line of a system and the number of its first bar, where it begins.
fn put_system_begin(
    out: &mut String,
    first: bool,
    bar: u8,
    from: u64,
    to: u64,
) -> Result<(), Memory>
    requires { bar < 255 }
    ensures { OnOk result (string_bytes out.new ≡ string_bytes out.old
        ++ system_begin first bar from to) }
{
    if !first {
        return Ok(());
    }
    put_left_line(out, from, to)?;
    put_bar_number(out, bar + 1, from.saturating_sub(8))
}

/// The height of the first staff's highest line.
fn system_top(staves: &[Staff]) -> u64
    ensures { result ≡ top_of staves.now }
{
    match staves.first() {
        Some(staff) => u64::from(staff.y).saturating_sub(16),
        None => 0,
    }
}

/// The height of a staff's lowest line.
fn lowest_line(staff: &Staff) -> u64
    ensures { result ≡ staff.now.y + 16 }
{
    u64::from(staff.y) + 16
}

/// The height of the last staff's lowest line.
fn system_foot(staves: &[Staff]) -> u64
    ensures { result ≡ foot_of staves.now }
{
    match staves.last() {
        Some(staff) => lowest_line(staff),
        None => 0,
    }
}

/// Appends the upright lines of a bar, and at a system's begin its number.
pub fn put_bar_lines(
    out: &mut String,
    ex: &Exercise,
    staves: &[Staff],
    bar: u8,
    place: &BarPlace,
) -> Result<(), Memory>
    requires { bar < 255 }
    ensures { OnOk result (string_bytes out.new ≡ string_bytes out.old
        ++ bar_lines ex.now staves.now bar place.now) }
{
    let top = system_top(staves);
    let foot = system_foot(staves);
    put_system_begin(out, is_first(place), bar, top, foot)?;
    put_bar_line(out, bar + 1 == ex.bars, place.room.width, top, foot)
}
