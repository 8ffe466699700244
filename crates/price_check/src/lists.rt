//! Reading and writing whole lists.

ghost use Rattle.std.specs.Prelude.{◌≡◌, ◌<◌, ◌++◌, OnOk, map, string_bytes};
ghost use Rattle.price_check.specs.PriceLines as words;
ghost use Rattle.price_check.specs.PriceLines.{line_of};
ghost use Rattle.price_check.specs.Lists as lists;
ghost use Rattle.price_check.specs.Lists.{IsReadLists, lists_text};
ghost use Rattle.price_check.specs.Reading.{seen_by};
ghost use Rattle.price_check.specs.declared.lists.ListsFault.TheVariants.{Memory as no_memory};

use crate::line::{Before, PriceLine};
use crate::reading::line_in;
use crate::words::price_place;
use crate::writing::put_line;
use fux_grid::Exercise;
use fux_pitch::Memory;
use std::alloc::{AllocFailed, Global};

/// How many lines are read at most: as many as so many bytes may have.
const MOST_LINES: u32 = 262_144;

/// Why lists aren't read.
#[derive(Clone, Copy, Debug, PartialEq, Eq)]
pub enum ListsFault {
    /// A word can't stand where it does: so many bytes are left at its first byte.
    Word(usize),
    /// There was not enough memory.
    Memory,
}

impl<T: Drop> From<AllocFailed<T>> for ListsFault {
    ghost from_gives = { λ _ fault. fault ≡ no_memory };

    fn from(_: AllocFailed<T>) -> Self {
        ListsFault::Memory
    }
}

/// What stands before the line behind one that stands there.
pub fn after(before: &Before, line: &PriceLine) -> Before
    requires { before.now.lists < 255 }
    ensures { result ≡ words.after before.now (line_of line.now) }
{
    match line {
        PriceLine::Keeps { .. } => Before {
            lists: before.lists + 1,
            kept: true,
            cases: 0,
            last: 0,
        },
        PriceLine::Cases { keys, .. } => Before {
            lists: before.lists,
            kept: false,
            cases: keys.len() as u8 + 1,
            last: 0,
        },
        PriceLine::Price {
            case,
            voice,
            pitch,
            ..
        } => Before {
            lists: before.lists,
            kept: before.kept,
            cases: before.cases,
            last: price_place(*case, *voice, *pitch),
        },
        PriceLine::Claims => *before,
    }
}

/// Whether a line is the one behind all lists.
fn is_last(line: &PriceLine) -> bool
    ensures { result ≡ lists.is_last (line_of line.now) }
{
    match line {
        PriceLine::Keeps { .. } => false,
        PriceLine::Cases { .. } => false,
        PriceLine::Price { .. } => false,
        PriceLine::Claims => true,
    }
}

/// Reads the lists at the front of some bytes, and gives their lines and the bytes behind the line
/// `claims`. They are refused at the first byte of the first word that can't stand there.
pub fn lists_in<'a>(
    alloc: Global,
    ex: &Exercise,
    bytes: &'a [u8],
) -> Result<(Vec<PriceLine>, &'a [u8]), ListsFault>
    ensures { IsReadLists (lists.lists_in ex.now bytes.now)
        (seen_by (λ x. (map line_of x.0.items, x.1.now)) result) }
{
    let mut lines = Vec::new(alloc);
    let mut before = Before::nothing();
    let mut left = bytes;
    for turn in 0..MOST_LINES {
        let (line, rest) = match line_in(ex, &before, left) {
            Ok(found) => found,
            Err(count) => return Err(ListsFault::Word(count)),
        };
        if is_last(&line) {
            return Ok((lines, rest));
        }
        before = after(&before, &line);
        lines.push(line)?;
        left = rest;
    }
    Err(ListsFault::Word(left.len()))
}

/// Appends lists, with the line behind them.
pub fn put_lists(out: &mut String, lines: &[PriceLine]) -> Result<(), Memory>
    ensures { OnOk result (string_bytes out.new ≡ string_bytes out.old
        ++ lists_text (map line_of lines.now)) }
{
    for line in lines {
        put_line(out, line)?;
    }
    put_line(out, &PriceLine::Claims)?;
    Ok(())
}
