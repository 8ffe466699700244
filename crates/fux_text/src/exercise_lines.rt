//! The lines of an exercise.

ghost use Rattle.std.specs.Prelude.{◌≡◌, ◌<◌, ◌++◌, ◌∷◌, OnOk, string_bytes, map, filter};
ghost use Rattle.std.specs.Fmt.{decimal};
ghost use Rattle.std.specs.List.{flat_map, join_with_byte, range_with_len};
ghost use Rattle.fux_pitch.specs.Names.{name_of};
ghost use Rattle.fux_text.specs.Lines.{cantus_words, exercise_text, has_voice, head_lines, range_words, relax_words, text_before_given, version_of, version_words, voices_word};
ghost use Rattle.fux_text.specs.Words.{text_line, text_of, spaced};

use crate::given_lines::{put_given_lines, version_of};
use arrayvec::ArrayVec;
use fux_grid::{Exercise, RangeLine, Relax, VoiceSet};
use fux_pitch::{Memory, Pitch, mode_name};
use std::fmt::Write;

/// Appends the lines before the cantus.
fn put_head(out: &mut String, ex: &Exercise) -> Result<(), Memory>
    ensures { OnOk result (string_bytes out.new ≡ string_bytes out.old
        ++ text_of (version_words (version_of ex.now.given) ∷ head_lines ex.now)) }
{
    let version = version_of(ex.given.as_slice());
    let mode = mode_name(ex.mode);
    let voices = ex.voices;
    let bars = ex.bars;
    let species = ex.species;
    let species_voice = ex.species_voice;
    write!(
        out,
        "fux {version}\nmode {mode}\nvoices {voices}\nbars {bars}\nspecies {species} voice {species_voice}\n"
    )?;
    Ok(())
}

/// Appends the names of pitches, with a space before each.
pub fn put_pitches(out: &mut String, pitches: &[Pitch]) -> Result<(), Memory>
    ensures { OnOk result (string_bytes out.new ≡ string_bytes out.old
        ++ spaced (map name_of pitches.now)) }
{
    for pitch in pitches {
        write!(out, " {pitch}")?;
    }
    Ok(())
}

/// Appends the line of the cantus.
#[tactic(auto, using(crate::proofs::WordLemmas::line_steps))]
fn put_cantus(out: &mut String, ex: &Exercise) -> Result<(), Memory>
    ensures { OnOk result (string_bytes out.new ≡ string_bytes out.old
        ++ text_line (cantus_words ex.now)) }
{
    let voice = ex.cantus_voice;
    write!(out, "cantus {voice}")?;
    put_pitches(out, ex.cantus.as_slice())?;
    out.push('\n')?;
    Ok(())
}

/// Appends a range line.
fn put_range(out: &mut String, line: &RangeLine) -> Result<(), Memory>
    ensures { OnOk result (string_bytes out.new ≡ string_bytes out.old
        ++ text_line (range_words line.now)) }
{
    let voice = line.voice;
    let low = line.low;
    let high = line.high;
    match line.bars {
        None => write!(out, "range {voice} {low} {high}\n")?,
        Some((from, to)) => write!(out, "range {voice} {low} {high} {from} {to}\n")?,
    }
    Ok(())
}

/// Appends range lines.
fn put_ranges(out: &mut String, lines: &[RangeLine]) -> Result<(), Memory>
    ensures { OnOk result (string_bytes out.new ≡ string_bytes out.old
        ++ text_of (map range_words lines.now)) }
{
    for line in lines {
        put_range(out, line)?;
    }
    Ok(())
}

/// Whether a voice is in a set.
pub fn has_voice(set: VoiceSet, v: u8) -> bool
    requires { v < 8 }
    ensures { result ≡ has_voice set.bits v }
{
    let bits = set.bits;
    (bits >> v) & 1 == 1
}

/// The voices of a set, from the lowest.
fn voices_in(set: VoiceSet) -> ArrayVec<u8, 4>
    ensures { result.items ≡ filter (has_voice set.bits) (range_with_len 0 4) }
{
    let mut voices = ArrayVec::new();
    for v in 0..4 {
        if has_voice(set, v) {
            voices.push(v);
        }
    }
    voices
}

/// Appends numbers with a comma before each.
fn put_more_numbers(out: &mut String, numbers: &[u8]) -> Result<(), Memory>
    ensures { OnOk result (string_bytes out.new ≡ string_bytes out.old
        ++ flat_map (λ word. 44 ∷ word) (map decimal numbers.now)) }
{
    for number in numbers {
        write!(out, ",{number}")?;
    }
    Ok(())
}

/// Appends numbers with commas between them.
#[tactic(auto, using(crate::proofs::WordLemmas::line_steps))]
fn put_numbers(out: &mut String, numbers: &[u8]) -> Result<(), Memory>
    ensures { OnOk result (string_bytes out.new ≡ string_bytes out.old ++ join_with_byte 44
        (map decimal numbers.now)) }
{
    match numbers {
        [] => Ok(()),
        [first, others @ ..] => {
            write!(out, "{first}")?;
            put_more_numbers(out, others)
        }
    }
}

/// Appends the voices of a relax line.
fn put_voices(out: &mut String, voices: Option<VoiceSet>) -> Result<(), Memory>
    ensures { OnOk result (string_bytes out.new ≡ string_bytes out.old ++ voices_word voices) }
{
    match voices {
        None => out.push_str("all")?,
        Some(set) => put_numbers(out, &voices_in(set))?,
    }
    Ok(())
}

/// Appends a relax line.
fn put_relax(out: &mut String, line: &Relax) -> Result<(), Memory>
    ensures { OnOk result (string_bytes out.new ≡ string_bytes out.old
        ++ text_line (relax_words line.now)) }
{
    let rule = line.rule;
    let from = line.from;
    let to = line.to;
    let price = line.price;
    write!(out, "relax S{rule} ")?;
    put_voices(out, line.voices)?;
    write!(out, " {from} {to} {price}\n")?;
    Ok(())
}

/// Appends relax lines.
fn put_relax_lines(out: &mut String, lines: &[Relax]) -> Result<(), Memory>
    ensures { OnOk result (string_bytes out.new ≡ string_bytes out.old
        ++ text_of (map relax_words lines.now)) }
{
    for line in lines {
        put_relax(out, line)?;
    }
    Ok(())
}

/// Appends the lines of an exercise up to those of the notes that it gives.
fn put_before_given(out: &mut String, ex: &Exercise) -> Result<(), Memory>
    ensures { OnOk result (string_bytes out.new ≡ string_bytes out.old ++ text_before_given
        ex.now) }
{
    put_head(out, ex)?;
    put_cantus(out, ex)?;
    put_ranges(out, ex.ranges.as_slice())?;
    put_relax_lines(out, ex.relax.as_slice())
}

/// Appends the lines of an exercise.
pub fn put_exercise(out: &mut String, ex: &Exercise) -> Result<(), Memory>
    ensures { OnOk result (string_bytes out.new ≡ string_bytes out.old ++ exercise_text ex.now) }
{
    put_before_given(out, ex)?;
    put_given_lines(out, ex.given.as_slice())
}
