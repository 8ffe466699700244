//! The items of a bar, as they are written. The cells of a setting are written as if they were
//! given.

ghost use Rattle.std.specs.Prelude.{◌≡◌, ◌<◌, ◌≤◌, ◌++◌, ◌∷◌, [], OnOk, string_bytes, map, length, drop, slice_index_or};
ghost use Rattle.fux_grid.specs.declared.given.Given.TheVariants.{Blank};
ghost use Rattle.fux_text.specs.GivenItems.{given_goes_on, given_items, given_word};
ghost use Rattle.fux_text.specs.Words.{spaced};

use fux_grid::Given;
use fux_pitch::Memory;
use std::fmt::Write;

/// Whether a cell goes on with what the cell before it gives.
fn goes_on(before: Given, given: Given) -> bool
    ensures { result ≡ given_goes_on before given }
{
    match given {
        Given::Blank => matches!(before, Given::Blank),
        Given::Rest => matches!(before, Given::Rest),
        Given::Tied => matches!(before, Given::Tied),
        Given::Hold(_) => matches!(before, Given::Hold(_) | Given::Start(_)),
        Given::Start(_) => false,
    }
}

/// How many cells the first item has.
fn first_length(cells: &[Given]) -> usize
    requires { 0 < length cells.now }
    ensures least { 1 ≤ result }
    ensures most { result ≤ length cells.now }
    ensures items { given_items cells.now ≡ (slice_index_or cells.now 0 Blank, result)
        ∷ given_items (drop result cells.now) }
{
    let mut count = 1;
    while count < cells.len() && goes_on(cells[0], cells[count]) {
        count += 1;
    }
    count
}

/// Appends a space and the word of an item.
fn put_item(out: &mut String, given: Given, count: usize) -> Result<(), Memory>
    ensures { OnOk result (string_bytes out.new ≡ string_bytes out.old
        ++ spaced (given_word (given, count) ∷ [])) }
{
    match given {
        Given::Blank => write!(out, " ?:{count}")?,
        Given::Rest => write!(out, " r:{count}")?,
        Given::Tied | Given::Hold(_) => write!(out, " _:{count}")?,
        Given::Start(pitch) => write!(out, " {pitch}:{count}")?,
    }
    Ok(())
}

/// Appends the words of a bar's cells, with a space before each.
pub fn put_items(out: &mut String, cells: &[Given]) -> Result<(), Memory>
    ensures { OnOk result (string_bytes out.new ≡ string_bytes out.old
        ++ spaced (map given_word (given_items cells.now))) }
{
    let mut first = 0;
    while first < cells.len() {
        let count = first_length(&cells[first..]);
        put_item(out, cells[first], count)?;
        first += count;
    }
    Ok(())
}
