//! The lines of a setting.

ghost use Rattle.std.specs.Prelude.{◌≡◌, ◌<◌, ◌≤◌, ◌*◌, ◌%◌, ◌++◌, OnOk, string_bytes, length, map};
ghost use Rattle.fux_grid.specs.Columns.{line};
ghost use Rattle.fux_grid.specs.Letters.{bar_columns};
ghost use Rattle.fux_text.specs.GivenItems.{given_of};
ghost use Rattle.fux_text.specs.Lines.{bar_words, later_bars_text, sing_text};
ghost use Rattle.fux_text.specs.Words.{spaced};

use crate::items::put_items;
use arrayvec::ArrayVec;
use fux_grid::{Cell, Given, Score};
use fux_pitch::Memory;
use std::fmt::Write;

/// A cell, as it is given.
fn given_of(cell: Cell) -> Given
    ensures { result ≡ given_of cell }
{
    match cell {
        Cell::Rest => Given::Rest,
        Cell::Hold(pitch) => Given::Hold(pitch),
        Cell::Start(pitch) => Given::Start(pitch),
    }
}

/// The cells of a voice in a bar, counted from 1, as they are given.
fn bar_cells(score: &Score, v: u8, bar: usize) -> ArrayVec<Given, 8>
    requires first { 1 ≤ bar }
    requires whole { 8 * bar ≤ length score.now.columns }
    ensures { result.items ≡ map given_of (line v (bar_columns score.now.columns bar)) }
{
    let _ = score.len();
    let mut cells = ArrayVec::new();
    for slot in 0..8 {
        cells.push(given_of(score.cell(v as usize, 8 * (bar - 1) + slot)));
    }
    cells
}

/// Appends the words of a voice in a bar, with a space before each.
fn put_bar(out: &mut String, score: &Score, v: u8, bar: usize) -> Result<(), Memory>
    requires first { 1 ≤ bar }
    requires whole { 8 * bar ≤ length score.now.columns }
    ensures { OnOk result (string_bytes out.new ≡ string_bytes out.old
        ++ spaced (bar_words v (bar_columns score.now.columns bar))) }
{
    let cells = bar_cells(score, v, bar);
    put_items(out, &cells)
}

/// Appends a bar line and the words of a voice for each bar but the first.
fn put_later_bars(out: &mut String, score: &Score, v: u8) -> Result<(), Memory>
    ensures { OnOk result (string_bytes out.new ≡ string_bytes out.old
        ++ later_bars_text v score.now.columns) }
{
    let bars = score.len() / 8;
    for bar in 2..bars + 1 {
        out.push_str(" |")?;
        put_bar(out, score, v, bar)?;
    }
    Ok(())
}

/// Appends the line of a voice.
pub fn put_sing(out: &mut String, score: &Score, v: u8) -> Result<(), Memory>
    requires whole { length score.now.columns % 8 ≡ 0 }
    requires some { 0 < length score.now.columns }
    ensures { OnOk result (string_bytes out.new ≡ string_bytes out.old
        ++ sing_text v score.now.columns) }
{
    write!(out, "sing {v}")?;
    put_bar(out, score, v, 1)?;
    put_later_bars(out, score, v)?;
    out.push('\n')?;
    Ok(())
}
