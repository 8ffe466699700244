//! How many bars and slots stand before a place of a `sing` or `given` line, and what is told of
//! them.

ghost use Rattle.std.specs.Prelude.{◌≡◌, ◌<◌, ◌++◌, ◌^◌, IfOk, OnOk, string_bytes};
ghost use Rattle.text_faults.specs.Slots as words;
ghost use Rattle.text_faults.specs.Slots.{amiss, and_more, bar_told, counted, counted_byte, end_told, full_by, given_told, last_told, missing_line, nothing_counted, slots_told, with_length};

use fux_pitch::Memory;
use std::alloc::Global;
use std::fmt::Write;

/// What was counted up to a place.
#[derive(Clone, Copy)]
pub struct Count {
    /// The number of the bar.
    pub bars: u32,
    /// How many slots its items have so far.
    pub slots: u32,
    /// The next byte is a length.
    pub is_length: bool,
    /// The column one past the item with which the bar is full, if one is so.
    pub full: Option<usize>,
}

/// Before the first byte.
fn nothing_counted() -> Count
    ensures { result ≡ nothing_counted }
{
    Count {
        bars: 1,
        slots: 0,
        is_length: false,
        full: None,
    }
}

/// So many and more, where there aren't a thousand yet.
fn and_more(n: u32, more: u8) -> u32
    ensures { result ≡ and_more n more }
{
    if n < 1000 { n + u32::from(more) } else { n }
}

/// Where the bar is full, if it has eight slots with the length at this place, or was before.
fn full_by(at: usize, slots: u32, before: Option<usize>) -> Option<usize>
    requires { at < 2 ^ 63 }
    ensures { result ≡ full_by at slots before }
{
    if slots == 8 { Some(at + 2) } else { before }
}

/// The length at this place.
fn with_length(at: usize, count: Count, digit: u8) -> Count
    requires { at < 2 ^ 63 }
    ensures { result ≡ with_length at count digit }
{
    let slots = and_more(count.slots, digit);
    Count {
        bars: count.bars,
        slots,
        is_length: false,
        full: full_by(at, slots, count.full),
    }
}

/// A byte at a place, counted from 0.
fn counted_byte(at: usize, count: Count, byte: u8) -> Count
    requires { at < 2 ^ 63 }
    ensures { result ≡ counted_byte at count byte }
{
    if byte == b'|' {
        return Count {
            bars: and_more(count.bars, 1),
            slots: 0,
            is_length: false,
            full: None,
        };
    }
    if count.is_length {
        return with_length(at, count, byte.saturating_sub(b'0'));
    }
    Count {
        is_length: byte == b':',
        ..count
    }
}

/// What stands before a place of a line.
#[tactic(auto, unfolding(crate::specs::Slots::counted))]
pub fn counted(before: &[u8]) -> Count
    ensures { result ≡ counted before.now }
{
    let mut count = nothing_counted();
    for (at, byte) in before.iter().enumerate() {
        count = counted_byte(at, count, *byte);
    }
    count
}

/// Appends the number of a bar and its slots.
#[tactic(auto, unfolding(crate::specs::Slots::slots_told))]
fn put_slots(out: &mut String, count: Count) -> Result<(), Memory>
    ensures { OnOk result (string_bytes out.new ≡ string_bytes out.old ++ slots_told count) }
{
    let Count { bars, slots, .. } = count;
    write!(out, "bar {bars} has {slots}")?;
    Ok(())
}

/// Appends where a bar line is missing, if that is known.
fn put_missing(out: &mut String, full: Option<usize>) -> Result<(), Memory>
    ensures { OnOk result (string_bytes out.new ≡ string_bytes out.old ++ missing_line full) }
{
    match full {
        Some(column) => write!(out, ": a bar line is missing in column {column}")?,
        None => {}
    }
    Ok(())
}

/// Appends what is amiss with the slots of a bar.
fn put_amiss(out: &mut String, count: Count) -> Result<(), Memory>
    ensures { OnOk result (string_bytes out.new ≡ string_bytes out.old ++ amiss count) }
{
    if count.slots < 8 {
        out.push_str(" of its 8 slots: a half is 4, a whole bar 8")?;
        return Ok(());
    }
    out.push_str(" slots and not 8")?;
    put_missing(out, count.full)
}

/// What is told of a bar that isn't full, or too full.
pub fn bar_told(alloc: Global, count: Count) -> Result<String, Memory>
    ensures { IfOk result (λ text. string_bytes text ≡ bar_told count) }
{
    let mut out = String::new(alloc);
    put_slots(&mut out, count)?;
    put_amiss(&mut out, count)?;
    Ok(out)
}

/// What is told of the bar of a `given` line.
#[tactic(auto, unfolding(crate::specs::Slots::given_told))]
pub fn given_told(alloc: Global, count: Count) -> Result<String, Memory>
    ensures { IfOk result (λ text. string_bytes text ≡ given_told count) }
{
    let mut out = String::new(alloc);
    let slots = count.slots;
    write!(
        out,
        "a given line has a whole bar of 8 slots, and this one {slots}"
    )?;
    Ok(out)
}

/// What is told of a line that ends too soon.
#[tactic(auto, unfolding(crate::specs::Slots::end_told))]
pub fn end_told(alloc: Global, count: Count) -> Result<String, Memory>
    ensures { IfOk result (λ text. string_bytes text ≡ end_told count) }
{
    let mut out = String::new(alloc);
    let bar = count.bars;
    write!(out, "the line ends with bar {bar}")?;
    out.push_str(", and bars are missing: a sing line is one line, with all its bars")?;
    Ok(out)
}

/// What is told of a line that goes on too long.
#[tactic(auto, unfolding(crate::specs::Slots::last_told))]
pub fn last_told(alloc: Global, count: Count) -> Result<String, Memory>
    ensures { IfOk result (λ text. string_bytes text ≡ last_told count) }
{
    let mut out = String::new(alloc);
    let bar = count.bars;
    write!(
        out,
        "bar {bar} is the last one, and no bar line stands behind it"
    )?;
    Ok(out)
}
