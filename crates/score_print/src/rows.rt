//! The lines of a printed score.

ghost use Rattle.std.specs.Prelude.{◌≡◌, ◌<◌, ◌≤◌, ◌+◌, ◌-◌, ◌*◌, ◌++◌, IfOk, OnOk, string_bytes};
ghost use Rattle.std.specs.List.{flat_map, range_with_len};
ghost use Rattle.fux_grid.specs.Exercises.{IsValid};
ghost use Rattle.score_print.specs.Printed.{printed_bar, printed_column, printed_row, printed_rows, printed_sheet, widest_cell};

use crate::cells::{cell_width, put_cell};
use crate::shown::shown_at;
use fux_grid::Exercise;
use fux_pitch::Memory;
use std::alloc::Global;
use std::fmt::Write;

/// The width of the widest cell of a column, in columns of a terminal.
pub fn column_width(ex: &Exercise, i: usize) -> usize
    requires valid { IsValid ex.now }
    requires there { i < 8 * ex.now.bars }
    ensures value { result ≡ widest_cell ex.now i ex.now.voices }
    ensures most { result ≤ 24 }
{
    let mut widest = 0;
    for v in 0..ex.voices {
        widest = cell_width(shown_at(ex, v, i)).max(widest);
    }
    widest
}

/// Appends a voice's cell of a column, and a space.
fn put_column(out: &mut String, ex: &Exercise, v: u8, i: usize) -> Result<(), Memory>
    requires valid { IsValid ex.now }
    requires there { i < 8 * ex.now.bars }
    ensures { OnOk result (string_bytes out.new ≡ string_bytes out.old ++ printed_column ex.now v
        i) }
{
    put_cell(out, shown_at(ex, v, i), column_width(ex, i))
}

/// Appends so many columns of a voice from one on.
fn put_columns(
    out: &mut String,
    ex: &Exercise,
    v: u8,
    first: usize,
    count: usize,
) -> Result<(), Memory>
    requires valid { IsValid ex.now }
    requires there { first + count ≤ 8 * ex.now.bars }
    ensures { OnOk result (string_bytes out.new ≡ string_bytes out.old
        ++ flat_map (printed_column ex.now v) (range_with_len first count)) }
{
    for i in first..first + count {
        put_column(out, ex, v, i)?;
    }
    Ok(())
}

/// Appends so many columns of a bar of a voice, counted from 1.
#[tactic(auto, unfolding(crate::specs::Printed::printed_bar))]
fn put_bar(out: &mut String, ex: &Exercise, slots: usize, v: u8, bar: u8) -> Result<(), Memory>
    requires valid { IsValid ex.now }
    requires slots { slots ≤ 8 }
    requires first { 1 ≤ bar }
    requires there { bar ≤ ex.now.bars }
    ensures { OnOk result (string_bytes out.new ≡ string_bytes out.old ++ printed_bar ex.now slots v
        bar) }
{
    out.push_str("| ")?;
    put_columns(out, ex, v, 8 * (usize::from(bar) - 1), slots)?;
    Ok(())
}

/// Appends the bars of a voice from one to before another.
fn put_bars(
    out: &mut String,
    ex: &Exercise,
    slots: usize,
    v: u8,
    first: u8,
    end: u8,
) -> Result<(), Memory>
    requires valid { IsValid ex.now }
    requires slots { slots ≤ 8 }
    requires first { 1 ≤ first }
    requires there { end ≤ ex.now.bars + 1 }
    ensures { OnOk result (string_bytes out.new ≡ string_bytes out.old
        ++ flat_map (printed_bar ex.now slots v) (range_with_len first (end - first))) }
{
    for bar in first..end {
        put_bar(out, ex, slots, v, bar)?;
    }
    Ok(())
}

/// Appends the line of a voice with the bars from one to before another.
#[tactic(auto, unfolding(crate::specs::Printed::printed_row))]
fn put_row(
    out: &mut String,
    ex: &Exercise,
    slots: usize,
    first: u8,
    end: u8,
    v: u8,
) -> Result<(), Memory>
    requires valid { IsValid ex.now }
    requires slots { slots ≤ 8 }
    requires first { 1 ≤ first }
    requires there { end ≤ ex.now.bars + 1 }
    ensures { OnOk result (string_bytes out.new ≡ string_bytes out.old
        ++ printed_row ex.now slots (range_with_len first (end - first)) v) }
{
    write!(out, "{v} ")?;
    put_bars(out, ex, slots, v, first, end)?;
    out.push_str("|\n")?;
    Ok(())
}

/// Appends the lines of all voices with the bars from one to before another, the highest voice
/// first.
pub fn put_rows(
    out: &mut String,
    ex: &Exercise,
    slots: usize,
    first: u8,
    end: u8,
) -> Result<(), Memory>
    requires valid { IsValid ex.now }
    requires slots { slots ≤ 8 }
    requires first { 1 ≤ first }
    requires there { end ≤ ex.now.bars + 1 }
    ensures { OnOk result (string_bytes out.new ≡ string_bytes out.old
        ++ printed_rows ex.now slots (range_with_len first (end - first))) }
{
    for v in (0..ex.voices).rev() {
        put_row(out, ex, slots, first, end, v)?;
    }
    Ok(())
}

/// The printed score of an exercise's setting, or without one of the sheet to hand out: a line for
/// each voice, from the highest to the lowest. A line has the voice's number, each bar behind a
/// `|`, and a last `|`. Cells that sound together stand below one another.
pub fn print(alloc: Global, ex: &Exercise) -> Result<String, Memory>
    requires { IsValid ex.now }
    ensures { IfOk result (λ text. string_bytes text ≡ printed_sheet ex.now) }
{
    let mut out = String::new(alloc);
    put_rows(&mut out, ex, 8, 1, ex.bars + 1)?;
    Ok(out)
}
