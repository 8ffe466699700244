//! The sentences that tell what an exercise asks.

ghost use Rattle.std.specs.Prelude.{◌≡◌, ◌<◌, ◌++◌, ◌∷◌, [], IfOk, OnOk, filter, string_bytes};
ghost use Rattle.std.specs.List.{flat_map};
ghost use Rattle.rule_law.specs.Voices as voices_words;
ghost use Rattle.class_marker.specs.Asked as words;
ghost use Rattle.class_marker.specs.Asked.{bars_words, cantus_told, ends_words, extent_told, mode_told, pitches_text, range_sentence, species_sentence, species_sentences};

use crate::given::put_given;
use crate::relaxed::put_relaxed;
use crate::words::part_name;
use fux_grid::{Exercise, RangeLine, species_of};
use fux_pitch::{Memory, Mode, Pitch, mode_name};
use rule_law::is_free;
use std::alloc::Global;
use std::fmt::Write;

/// Appends the mode.
#[tactic(auto, unfolding(crate::specs::Asked::mode_told))]
fn put_mode(out: &mut String, mode: Mode) -> Result<(), Memory>
    ensures { OnOk result (string_bytes out.new ≡ string_bytes out.old ++ mode_told mode) }
{
    out.push_str("The exercise is in the ")?;
    out.push_str(mode_name(mode))?;
    out.push_str(" mode.\n")?;
    Ok(())
}

/// Appends how many bars and voices there are.
#[tactic(auto, unfolding(crate::specs::Asked::extent_told))]
fn put_extent(out: &mut String, ex: &Exercise) -> Result<(), Memory>
    ensures { OnOk result (string_bytes out.new ≡ string_bytes out.old ++ extent_told ex.now) }
{
    let bars = ex.bars;
    let voices = ex.voices;
    write!(out, "It has {bars} bars and {voices} voices.\n")?;
    Ok(())
}

/// Appends pitches, each behind a space.
fn put_pitches(out: &mut String, pitches: &[Pitch]) -> Result<(), Memory>
    ensures { OnOk result (string_bytes out.new ≡ string_bytes out.old
        ++ pitches_text pitches.now) }
{
    for pitch in pitches {
        write!(out, " {pitch}")?;
    }
    Ok(())
}

/// Appends the cantus firmus.
#[tactic(auto, unfolding(crate::specs::Asked::cantus_told))]
fn put_cantus(out: &mut String, ex: &Exercise) -> Result<(), Memory>
    ensures { OnOk result (string_bytes out.new ≡ string_bytes out.old ++ cantus_told ex.now) }
{
    out.push_str("The cantus firmus is the ")?;
    out.push_str(part_name(ex.voices, ex.cantus_voice))?;
    out.push_str(" voice:")?;
    put_pitches(out, ex.cantus.as_slice())?;
    out.push('\n')?;
    Ok(())
}

/// Appends the species of a voice.
#[tactic(auto, unfolding(crate::specs::Asked::species_sentence))]
fn put_species(out: &mut String, ex: &Exercise, v: u8) -> Result<(), Memory>
    ensures { OnOk result (string_bytes out.new ≡ string_bytes out.old
        ++ species_sentence ex.now v) }
{
    let species = species_of(ex, v);
    out.push_str("The ")?;
    out.push_str(part_name(ex.voices, v))?;
    write!(out, " voice is to be written in species {species}.\n")?;
    Ok(())
}

/// Appends it, if the voice is free.
fn put_if_free(out: &mut String, ex: &Exercise, v: u8) -> Result<(), Memory>
    ensures { OnOk result (string_bytes out.new ≡ string_bytes out.old
        ++ flat_map (species_sentence ex.now) (filter (voices_words.is_free ex.now) (v ∷ []))) }
{
    if is_free(ex, v) {
        put_species(out, ex, v)?;
    }
    Ok(())
}

/// Appends the species of the free voices, from the lowest.
fn put_all_species(out: &mut String, ex: &Exercise) -> Result<(), Memory>
    ensures { OnOk result (string_bytes out.new ≡ string_bytes out.old
        ++ species_sentences ex.now) }
{
    for v in 0..ex.voices {
        put_if_free(out, ex, v)?;
    }
    Ok(())
}

/// Appends the bars of a range, where it isn't that of all bars, and the end of its line.
fn put_bars(out: &mut String, bars: Option<(u8, u8)>) -> Result<(), Memory>
    ensures { OnOk result (string_bytes out.new ≡ string_bytes out.old ++ bars_words bars) }
{
    match bars {
        None => out.push_str(".\n")?,
        Some((from, to)) => write!(out, " in bars {from} to {to}.\n")?,
    }
    Ok(())
}

/// Appends the two ends of a range.
#[tactic(auto, unfolding(crate::specs::Asked::ends_words))]
fn put_ends(out: &mut String, low: Pitch, high: Pitch) -> Result<(), Memory>
    ensures { OnOk result (string_bytes out.new ≡ string_bytes out.old ++ ends_words low high) }
{
    write!(out, "{low} to {high}")?;
    Ok(())
}

/// Appends a range.
#[tactic(auto, unfolding(crate::specs::Asked::range_sentence))]
fn put_range(out: &mut String, voices: u8, line: &RangeLine) -> Result<(), Memory>
    ensures { OnOk result (string_bytes out.new ≡ string_bytes out.old
        ++ range_sentence voices line.now) }
{
    out.push_str("The range of the ")?;
    out.push_str(part_name(voices, line.voice))?;
    out.push_str(" voice is ")?;
    put_ends(out, line.low, line.high)?;
    put_bars(out, line.bars)?;
    Ok(())
}

/// Appends all ranges.
fn put_ranges(out: &mut String, voices: u8, lines: &[RangeLine]) -> Result<(), Memory>
    ensures { OnOk result (string_bytes out.new ≡ string_bytes out.old
        ++ flat_map (range_sentence voices) lines.now) }
{
    for line in lines {
        put_range(out, voices, line)?;
    }
    Ok(())
}

/// What an exercise asks, in sentences: its mode, its bars and voices, the cantus firmus, and for
/// the free voices their species, their ranges, the notes that are given and the rules that are
/// relaxed.
pub fn asked(alloc: Global, ex: &Exercise) -> Result<String, Memory>
    ensures { IfOk result (λ text. string_bytes text ≡ words.asked_text ex.now) }
{
    let mut out = String::new(alloc);
    put_mode(&mut out, ex.mode)?;
    put_extent(&mut out, ex)?;
    put_cantus(&mut out, ex)?;
    put_all_species(&mut out, ex)?;
    put_ranges(&mut out, ex.voices, ex.ranges.as_slice())?;
    put_given(&mut out, ex.voices, ex.given.as_slice())?;
    put_relaxed(&mut out, ex.voices, ex.relax.as_slice())?;
    Ok(out)
}
