//! The printed score in systems of at most so many columns of a terminal.

ghost use Rattle.std.specs.Prelude.{◌≡◌, ◌<◌, ◌≤◌, ◌+◌, ◌-◌, ◌*◌, ◌++◌, IfOk, OnOk, string_bytes};
ghost use Rattle.std.specs.List.{flat_map, range_with_len};
ghost use Rattle.fux_grid.specs.Exercises.{IsValid};
ghost use Rattle.score_print.specs.Systems.{IsWrapped, bar_width as width_of_bar, digits as digits_of, fits as fits_in, number_row, printed_number, printed_system, system_width as width_of_system};

use crate::cells::put_spaces;
use crate::rows::{column_width, put_rows};
use crate::shown::slots_shown;
use fux_grid::Exercise;
use fux_pitch::Memory;
use std::alloc::Global;
use std::fmt::Write;

/// How many columns of a terminal a bar takes with the bar line before it.
fn bar_width(ex: &Exercise, slots: usize, bar: u8) -> usize
    requires valid { IsValid ex.now }
    requires slots { slots ≤ 8 }
    requires first { 1 ≤ bar }
    requires there { bar ≤ ex.now.bars }
    ensures value { result ≡ width_of_bar ex.now bar slots }
    ensures most { result ≤ 202 }
{
    let first = 8 * (usize::from(bar) - 1);
    let mut width = 2;
    for slot in 0..slots {
        width += column_width(ex, first + slot) + 1;
    }
    width
}

/// How many columns of a terminal a system takes.
fn system_width(ex: &Exercise, slots: usize, first: u8, end: u8) -> usize
    requires valid { IsValid ex.now }
    requires slots { slots ≤ 8 }
    requires first { 1 ≤ first }
    requires there { end ≤ ex.now.bars + 1 }
    ensures { result ≡ width_of_system ex.now slots (range_with_len first (end - first)) }
{
    let mut width = 0;
    for bar in first..end {
        width += bar_width(ex, slots, bar);
    }
    width + 3
}

/// Whether a system is no wider than so many columns of a terminal.
fn fits(ex: &Exercise, columns: u32, slots: usize, first: u8, end: u8) -> bool
    requires valid { IsValid ex.now }
    requires slots { slots ≤ 8 }
    requires first { 1 ≤ first }
    requires there { end ≤ ex.now.bars + 1 }
    ensures { result ≡ fits_in ex.now columns slots (range_with_len first (end - first)) }
{
    system_width(ex, slots, first, end) <= columns as usize
}

/// How many digits the number of a bar has.
fn digits(bar: u8) -> usize
    ensures { result ≡ digits_of bar }
{
    if bar < 10 { 1 } else { 2 }
}

/// Appends the number of a bar, filled with spaces to the bar's width.
#[tactic(auto, unfolding(crate::specs::Systems::printed_number))]
fn put_number(out: &mut String, ex: &Exercise, slots: usize, bar: u8) -> Result<(), Memory>
    requires valid { IsValid ex.now }
    requires slots { slots ≤ 8 }
    requires first { 1 ≤ bar }
    requires there { bar ≤ ex.now.bars }
    ensures { OnOk result (string_bytes out.new ≡ string_bytes out.old ++ printed_number ex.now
        slots bar) }
{
    write!(out, "{bar}")?;
    put_spaces(out, bar_width(ex, slots, bar).saturating_sub(digits(bar)))?;
    Ok(())
}

/// Appends the numbers of the bars from one to before another.
fn put_numbers(
    out: &mut String,
    ex: &Exercise,
    slots: usize,
    first: u8,
    end: u8,
) -> Result<(), Memory>
    requires valid { IsValid ex.now }
    requires slots { slots ≤ 8 }
    requires first { 1 ≤ first }
    requires there { end ≤ ex.now.bars + 1 }
    ensures { OnOk result (string_bytes out.new ≡ string_bytes out.old
        ++ flat_map (printed_number ex.now slots) (range_with_len first (end - first))) }
{
    for bar in first..end {
        put_number(out, ex, slots, bar)?;
    }
    Ok(())
}

/// Appends the line of the numbers of the bars from one to before another.
#[tactic(auto, unfolding(crate::specs::Systems::number_row))]
fn put_number_row(
    out: &mut String,
    ex: &Exercise,
    slots: usize,
    first: u8,
    end: u8,
) -> Result<(), Memory>
    requires valid { IsValid ex.now }
    requires slots { slots ≤ 8 }
    requires first { 1 ≤ first }
    requires there { end ≤ ex.now.bars + 1 }
    ensures { OnOk result (string_bytes out.new ≡ string_bytes out.old
        ++ number_row ex.now slots (range_with_len first (end - first))) }
{
    out.push_str("  ")?;
    put_numbers(out, ex, slots, first, end)?;
    out.push_str("\n")?;
    Ok(())
}

/// Appends the system of the bars from one to before another: their numbers, and the lines of the
/// voices.
#[tactic(auto, unfolding(crate::specs::Systems::printed_system))]
fn put_system(
    out: &mut String,
    ex: &Exercise,
    slots: usize,
    first: u8,
    end: u8,
) -> Result<(), Memory>
    requires valid { IsValid ex.now }
    requires slots { slots ≤ 8 }
    requires first { 1 ≤ first }
    requires there { end ≤ ex.now.bars + 1 }
    ensures { OnOk result (string_bytes out.new ≡ string_bytes out.old
        ++ printed_system ex.now slots (range_with_len first (end - first))) }
{
    put_number_row(out, ex, slots, first, end)?;
    put_rows(out, ex, slots, first, end)?;
    Ok(())
}

/// The printed score of an exercise's setting, or without one of the sheet to hand out, in systems
/// of at most so many columns of a terminal. Each has as many bars as fit, and one at least, below
/// their numbers; 40 columns are enough for any bar.
pub fn print_wrapped(alloc: Global, ex: &Exercise, columns: u32) -> Result<String, Memory>
    requires { IsValid ex.now }
    ensures { IfOk result (λ text. IsWrapped ex.now columns (string_bytes text)) }
{
    let slots = slots_shown(ex);
    let mut out = String::new(alloc);
    let mut first = 1;
    for bar in 2..ex.bars + 1 {
        if !fits(ex, columns, slots, first, bar + 1) {
            put_system(&mut out, ex, slots, first, bar)?;
            first = bar;
        }
    }
    put_system(&mut out, ex, slots, first, ex.bars + 1)?;
    Ok(out)
}
