//! The lines before the ranges.

ghost use Rattle.std.specs.Prelude.{◌≡◌, ◌≤◌, [], IfOk, codes};
ghost use Rattle.fux_text.specs.declared.fault.TextKind.TheVariants.{Head, Word};
ghost use Rattle.text_lines.specs.Faults.{Gives};
ghost use Rattle.text_lines.specs.Lines.{lines_of};
ghost use Rattle.text_lines.specs.Rows.{place_in, row_in};
ghost use Rattle.text_lines.specs.Tables.{line_in, table_in};
ghost use Rattle.text_lines.specs.Words.{words_of};
ghost use Rattle.fux_text.specs.Head.{cantus_row, head_table, mode_row, number_row, other_voice, parts_table, pitch_place, pitches_row, species_row};
ghost use Rattle.fux_text.specs.Limits.{most_species, most_voices, newest_version};

use crate::fault::{TextFault, TextKind};
use crate::limits::{MOST_SPECIES, MOST_VOICES, NEWEST_VERSION};
use crate::names::{parse_mode, parse_pitch};
use fux_grid::Exercise;
use fux_pitch::{AnyList, Mode, Pitch};
use std::alloc::Global;
use text_lines::{Lines, Words, parse_within};

/// Reads the mode of a `mode` line, with which the line ends.
#[tactic(auto, unfolding(text_lines::specs::Rows::row_in))]
pub fn mode_in(words: Words<'_>) -> Result<Mode, TextFault>
    ensures { Gives (λ x. x) result (row_in mode_row (words_of words.entry)) }
{
    let (word, words) = words.next(TextKind::Word)?;
    let Some(mode) = parse_mode(word.text) else {
        return Err(word.fault(TextKind::Word));
    };
    words.done(TextKind::Word)?;
    Ok(mode)
}

/// Reads `mode M`.
#[tactic(auto, unfolding(text_lines::specs::Tables::line_in))]
fn mode_line(text: Lines<'_>) -> Result<(Mode, Lines<'_>), TextFault>
    ensures { Gives (λ x. (x.0, lines_of x.1)) result (line_in Head Head (codes "mode") mode_row
        (lines_of text.entry)) }
{
    let (words, text) = text.headed(TextKind::Head, TextKind::Head, b"mode")?;
    let mode = mode_in(words)?;
    Ok((mode, text))
}

/// Reads a number from `least` to `most`, with which the line ends.
#[tactic(auto, unfolding(text_lines::specs::Rows::row_in, text_lines::specs::Reading::number_in))]
pub fn number_in(words: Words<'_>, kind: TextKind, least: u8, most: u8) -> Result<u8, TextFault>
    ensures value { Gives (λ x. x) result
        (row_in (number_row kind least most) (words_of words.entry)) }
    ensures least { IfOk result (λ n. least ≤ n) }
    ensures most { IfOk result (λ n. n ≤ most) }
{
    let (number, words) = words.small_number(kind, least, most)?;
    words.done(TextKind::Word)?;
    Ok(number)
}

/// Reads a line of a name and a number from `least` to `most`.
#[tactic(auto, unfolding(text_lines::specs::Tables::line_in))]
fn number_line<'a>(
    text: Lines<'a>,
    name: &[u8],
    kind: TextKind,
    least: u8,
    most: u8,
) -> Result<(u8, Lines<'a>), TextFault>
    ensures value { Gives (λ x. (x.0, lines_of x.1)) result
        (line_in Head Head name.now (number_row kind least most) (lines_of text.entry)) }
    ensures least { IfOk result (λ x. least ≤ x.0) }
    ensures most { IfOk result (λ x. x.0 ≤ most) }
{
    let (words, text) = text.headed(TextKind::Head, TextKind::Head, name)?;
    let number = number_in(words, kind, least, most)?;
    Ok((number, text))
}

/// Reads `fux V`: a version up to the newest.
pub fn version_line(text: Lines<'_>) -> Result<(u8, Lines<'_>), TextFault>
    ensures { Gives (λ x. (x.0, lines_of x.1)) result (line_in Head Head (codes "fux")
        (number_row Word 1 newest_version) (lines_of text.entry)) }
{
    number_line(text, b"fux", TextKind::Word, 1, NEWEST_VERSION)
}

/// Reads a species and its voice, of so many, with which the line ends.
#[tactic(auto, unfolding(text_lines::specs::Rows::row_in, text_lines::specs::Reading::number_in, text_lines::specs::Reading::literal))]
pub fn species_in(words: Words<'_>, voices: u8) -> Result<(u8, u8), TextFault>
    ensures { Gives (λ x. x) result (row_in (species_row voices) (words_of words.entry)) }
{
    let (species, words) = words.small_number(TextKind::Word, 1, MOST_SPECIES)?;
    let words = words.literal(TextKind::Word, b"voice")?;
    let (voice, words) = words.small_number(TextKind::Word, 0, voices.saturating_sub(1))?;
    words.done(TextKind::Word)?;
    Ok((species, voice))
}

/// Reads `species N voice V`.
#[tactic(auto, unfolding(text_lines::specs::Tables::line_in))]
fn species_line(text: Lines<'_>, voices: u8) -> Result<((u8, u8), Lines<'_>), TextFault>
    ensures { Gives (λ x. (x.0, lines_of x.1)) result (line_in Head Head (codes "species")
        (species_row voices) (lines_of text.entry)) }
{
    let (words, text) = text.headed(TextKind::Head, TextKind::Head, b"species")?;
    let species = species_in(words, voices)?;
    Ok((species, text))
}

/// A voice of so many, but not this one.
pub fn other_voice(word: &[u8], other: u8, voices: u8) -> Option<u8>
    ensures { result ≡ other_voice other voices word.now }
{
    let voice = parse_within(word, 0, voices.saturating_sub(1).into())? as u8;
    if voice == other {
        return None;
    }
    Some(voice)
}

/// Reads a pitch. The kind is of the fault where the word is missing.
pub fn pitch_in(words: Words<'_>, kind: TextKind) -> Result<(Pitch, Words<'_>), TextFault>
    ensures { Gives (λ x. (x.0, words_of x.1)) result
        (place_in (pitch_place kind) (words_of words.entry)) }
{
    let (word, words) = words.next(kind)?;
    match parse_pitch(word.text) {
        Some(pitch) => Ok((pitch, words)),
        None => Err(word.fault(TextKind::Pitch)),
    }
}

/// Reads so many pitches behind a voice, with which the line ends.
pub fn pitches_in(
    alloc: Global,
    words: Words<'_>,
    voice: u8,
    count: u8,
) -> Result<(u8, AnyList<'static, Pitch>), TextFault>
    ensures { Gives (λ x. x) result (row_in (pitches_row voice count []) (words_of words.entry)) }
{
    let mut pitches = Vec::new(alloc);
    let mut rest = words;
    for _ in 0..count {
        let (pitch, after) = pitch_in(rest, TextKind::Cantus)?;
        pitches.push(pitch)?;
        rest = after;
    }
    rest.done(TextKind::Cantus)?;
    Ok((voice, AnyList::new(pitches)))
}

/// Reads `cantus C PITCHES`.
#[tactic(auto, unfolding(text_lines::specs::Tables::line_in, text_lines::specs::Rows::row_in))]
fn cantus_line(
    alloc: Global,
    text: Lines<'_>,
    voices: u8,
    species_voice: u8,
    bars: u8,
) -> Result<((u8, AnyList<'static, Pitch>), Lines<'_>), TextFault>
    ensures { Gives (λ x. (x.0, lines_of x.1)) result (line_in Head Head (codes "cantus")
        (cantus_row voices species_voice bars) (lines_of text.entry)) }
{
    let (words, text) = text.headed(TextKind::Head, TextKind::Head, b"cantus")?;
    let (word, words) = words.next(TextKind::Cantus)?;
    let Some(voice) = other_voice(word.text, species_voice, voices) else {
        return Err(word.fault(TextKind::Cantus));
    };
    let cantus = pitches_in(alloc, words, voice, bars)?;
    Ok((cantus, text))
}

/// Reads the lines behind the number of bars.
#[tactic(auto, unfolding(text_lines::specs::Tables::table_in))]
fn parts_in(
    alloc: Global,
    text: Lines<'_>,
    mode: Mode,
    voices: u8,
    bars: u8,
) -> Result<(Exercise<'static>, Lines<'_>), TextFault>
    requires fewest_voices { 2 ≤ voices }
    requires most_voices { voices ≤ 4 }
    requires fewest_bars { 3 ≤ bars }
    requires most_bars { bars ≤ 24 }
    ensures value { Gives (λ x. (x.0, lines_of x.1)) result (table_in (parts_table mode voices bars)
        (lines_of text.entry)) }
    ensures fewest_voices { IfOk result (λ x. 2 ≤ x.0.voices) }
    ensures most_voices { IfOk result (λ x. x.0.voices ≤ 4) }
    ensures fewest_bars { IfOk result (λ x. 3 ≤ x.0.bars) }
    ensures most_bars { IfOk result (λ x. x.0.bars ≤ 24) }
{
    let ((species, species_voice), text) = species_line(text, voices)?;
    let ((cantus_voice, cantus), text) = cantus_line(alloc, text, voices, species_voice, bars)?;
    let ex = Exercise {
        mode,
        voices,
        bars,
        species,
        species_voice,
        mixed: None,
        cantus_voice,
        cantus,
        ranges: AnyList::new(Vec::new(alloc)),
        relax: AnyList::new(Vec::new(alloc)),
        given: AnyList::new(Vec::new(alloc)),
        setting: None,
    };
    Ok((ex, text))
}

/// Reads the lines behind the version and before the ranges.
#[tactic(auto, unfolding(text_lines::specs::Tables::table_in))]
pub fn head_in(alloc: Global, text: Lines<'_>) -> Result<(Exercise<'static>, Lines<'_>), TextFault>
    ensures value { Gives (λ x. (x.0, lines_of x.1)) result
        (table_in head_table (lines_of text.entry)) }
    ensures fewest_voices { IfOk result (λ x. 2 ≤ x.0.voices) }
    ensures most_voices { IfOk result (λ x. x.0.voices ≤ 4) }
    ensures fewest_bars { IfOk result (λ x. 3 ≤ x.0.bars) }
    ensures most_bars { IfOk result (λ x. x.0.bars ≤ 24) }
{
    let (mode, text) = mode_line(text)?;
    let (voices, text) = number_line(text, b"voices", TextKind::Word, 2, MOST_VOICES)?;
    let (bars, text) = number_line(text, b"bars", TextKind::Bars, 3, 24)?;
    parts_in(alloc, text, mode, voices, bars)
}
