//! The sentences of notes that are given.

ghost use Rattle.std.specs.Prelude.{◌≡◌, ◌≤◌, ◌<◌, ◌++◌, OnOk, length, string_bytes};
ghost use Rattle.std.specs.List.{flat_map};
ghost use Rattle.fux_grid.specs.declared.given.Given.TheVariants.{Blank};
ghost use Rattle.class_marker.specs.Asked as words;
ghost use Rattle.class_marker.specs.Asked.{given_from, given_sentence, given_told, given_words};

use crate::words::{half_beat, part_name};
use fux_grid::{Given, GivenBar};
use fux_pitch::Memory;
use std::fmt::Write;

/// Whether a cell that is given behind another is told of.
fn is_told(before: Given, given: Given) -> bool
    ensures { result ≡ words.is_told before given }
{
    match given {
        Given::Blank | Given::Hold(_) => false,
        Given::Start(_) => true,
        Given::Rest => !matches!(before, Given::Rest),
        Given::Tied => !matches!(before, Given::Tied),
    }
}

/// Appends what is told of it.
fn put_words(out: &mut String, given: Given) -> Result<(), Memory>
    ensures { OnOk result (string_bytes out.new ≡ string_bytes out.old ++ given_words given) }
{
    match given {
        Given::Start(pitch) => write!(out, "has {pitch}")?,
        Given::Rest => out.push_str("rests")?,
        Given::Tied => out.push_str("goes on with its note")?,
        Given::Blank | Given::Hold(_) => (),
    }
    Ok(())
}

/// Appends the sentence of a cell of a bar that is given.
#[tactic(auto, unfolding(crate::specs::Asked::given_sentence))]
fn put_sentence(
    out: &mut String,
    voices: u8,
    line: &GivenBar,
    slot: usize,
    given: Given,
) -> Result<(), Memory>
    ensures { OnOk result (string_bytes out.new ≡ string_bytes out.old
        ++ given_sentence voices line.now slot given) }
{
    let bar = line.bar;
    let beat = slot / 2 + 1;
    write!(out, "In bar {bar} on beat {beat}")?;
    out.push_str(half_beat(slot))?;
    out.push_str(" the ")?;
    out.push_str(part_name(voices, line.voice))?;
    out.push_str(" voice ")?;
    put_words(out, given)?;
    out.push_str(".\n")?;
    Ok(())
}

/// Appends it, where the cell is told of.
fn put_told(
    out: &mut String,
    voices: u8,
    line: &GivenBar,
    before: Given,
    slot: usize,
    given: Given,
) -> Result<(), Memory>
    ensures { OnOk result (string_bytes out.new ≡ string_bytes out.old
        ++ given_told voices line.now before slot given) }
{
    if is_told(before, given) {
        put_sentence(out, voices, line, slot, given)?;
    }
    Ok(())
}

/// Appends the sentences of cells of a bar that is given, from its first one on.
fn put_cells(out: &mut String, voices: u8, line: &GivenBar, cells: &[Given]) -> Result<(), Memory>
    ensures { OnOk result (string_bytes out.new ≡ string_bytes out.old
        ++ given_from voices line.now Blank 0 cells.now) }
{
    let mut before = Given::Blank;
    for slot in 0..cells.len() {
        put_told(out, voices, line, before, slot, cells[slot])?;
        before = cells[slot];
    }
    Ok(())
}

/// Appends the sentences of bars that are given.
pub fn put_given(out: &mut String, voices: u8, lines: &[GivenBar]) -> Result<(), Memory>
    ensures { OnOk result (string_bytes out.new ≡ string_bytes out.old
        ++ flat_map (λ line. given_from voices line Blank 0 line.cells) lines.now) }
{
    for line in lines {
        put_cells(out, voices, line, &line.cells)?;
    }
    Ok(())
}
