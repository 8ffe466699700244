//! The range lines.

ghost use Rattle.std.specs.Prelude.{◌≡◌, [], codes, true};
ghost use Rattle.fux_text.specs.declared.fault.TextKind.TheVariants.{Head};
ghost use Rattle.text_lines.specs.Faults.{Gives};
ghost use Rattle.text_lines.specs.Lines.{lines_of};
ghost use Rattle.text_lines.specs.Rows.{place_in, row_in};
ghost use Rattle.text_lines.specs.Tables.{line_in, many_in, table_in};
ghost use Rattle.text_lines.specs.Words.{words_of};
ghost use Rattle.fux_text.specs.Ranges.{all_ranged, bars_row, has_line, high_place, misfits, range_lines_of, range_row, ranges_table, voice_place};

use crate::fault::{TextFault, TextKind};
use crate::head::{other_voice, pitch_in};
use crate::names::parse_pitch;
use fux_grid::{Exercise, RangeLine};
use fux_pitch::{Pitch, semitone};
use std::alloc::Global;
use text_lines::{Lines, Words};

/// Whether a voice has a line among these.
fn has_line(lines: &[RangeLine], v: u8) -> bool
    ensures { result ≡ has_line lines.now v }
{
    lines.iter().any(|line| line.voice == v)
}

/// Whether a range line can't go on so behind its voice: a voice's first line has LOW and HIGH
/// alone, and each later one has bars, too.
#[tactic(auto, unfolding(crate::specs::Ranges::misfits))]
fn misfits(words: Words<'_>, later: bool) -> bool
    ensures { result ≡ misfits later (words_of words.entry) }
{
    let Some((_, words)) = words.first() else {
        return false;
    };
    let Some((_, words)) = words.first() else {
        return false;
    };
    match words.first() {
        Some(_) => !later,
        None => later,
    }
}

/// Reads a free voice, and what stands behind it, where the line can go on so.
#[tactic(auto, unfolding(text_lines::specs::Rows::row_in))]
fn voice_in<'a>(
    words: Words<'a>,
    ex: &Exercise,
    before: &[RangeLine],
) -> Result<(u8, Words<'a>), TextFault>
    ensures { Gives (λ x. (x.0, words_of x.1)) result (place_in (voice_place ex.now before.now)
        (words_of words.entry)) }
{
    let (word, words) = words.next(TextKind::Range)?;
    let Some(voice) = other_voice(word.text, ex.cantus_voice, ex.voices) else {
        return Err(word.fault(TextKind::Range));
    };
    if misfits(words, has_line(before, voice)) {
        return Err(word.fault(TextKind::Range));
    }
    Ok((voice, words))
}

/// Reads the highest pitch of a range line, whose key isn't below that of the lowest.
pub fn high_in(words: Words<'_>, low: Pitch) -> Result<(Pitch, Words<'_>), TextFault>
    ensures { Gives (λ x. (x.0, words_of x.1)) result
        (place_in (high_place low) (words_of words.entry)) }
{
    let (word, words) = words.next(TextKind::Range)?;
    let Some(high) = parse_pitch(word.text) else {
        return Err(word.fault(TextKind::Pitch));
    };
    if semitone(high) < semitone(low) {
        return Err(word.fault(TextKind::Range));
    }
    Ok((high, words))
}

/// Reads the bars of a later line of a voice, with which the line ends.
#[tactic(auto, unfolding(text_lines::specs::Rows::row_in, text_lines::specs::Reading::number_in))]
fn later_bars_in(words: Words<'_>, bars: u8, line: RangeLine) -> Result<RangeLine, TextFault>
    ensures { Gives (λ x. x) result (row_in (bars_row true bars line) (words_of words.entry)) }
{
    let (from, words) = words.small_number(TextKind::Range, 1, bars)?;
    let (to, words) = words.small_number(TextKind::Range, from, bars)?;
    words.done(TextKind::Word)?;
    Ok(RangeLine {
        bars: Some((from, to)),
        ..line
    })
}

/// Reads the bars of a range line, where it is a later one of its voice: the first has none.
#[tactic(auto, unfolding(text_lines::specs::Rows::row_in))]
pub fn bars_in(
    words: Words<'_>,
    later: bool,
    bars: u8,
    line: RangeLine,
) -> Result<RangeLine, TextFault>
    ensures { Gives (λ x. x) result (row_in (bars_row later bars line) (words_of words.entry)) }
{
    if later {
        return later_bars_in(words, bars, line);
    }
    words.done(TextKind::Word)?;
    Ok(line)
}

/// Reads the words behind `range`, where these range lines stand before.
#[tactic(auto, unfolding(text_lines::specs::Rows::row_in))]
fn range_in(words: Words<'_>, ex: &Exercise, before: &[RangeLine]) -> Result<RangeLine, TextFault>
    ensures { Gives (λ x. x) result (row_in (range_row ex.now before.now) (words_of words.entry)) }
{
    let (voice, words) = voice_in(words, ex, before)?;
    let (low, words) = pitch_in(words, TextKind::Range)?;
    let (high, words) = high_in(words, low)?;
    let line = RangeLine {
        voice,
        low,
        high,
        bars: None,
    };
    bars_in(words, has_line(before, voice), ex.bars, line)
}

/// Reads a range line.
#[tactic(auto, unfolding(text_lines::specs::Tables::line_in))]
fn range_line<'a>(
    text: Lines<'a>,
    ex: &Exercise,
    before: &[RangeLine],
) -> Result<(RangeLine, Lines<'a>), TextFault>
    ensures { Gives (λ x. (x.0, lines_of x.1)) result
        (line_in Head Head (codes "range") (range_row ex.now before.now) (lines_of text.entry)) }
{
    let (words, text) = text.headed(TextKind::Head, TextKind::Head, b"range")?;
    let line = range_in(words, ex, before)?;
    Ok((line, text))
}

/// Reads range lines, as long as there are some.
fn ranges_on<'a>(
    alloc: Global,
    text: Lines<'a>,
    ex: &Exercise,
) -> Result<(Vec<RangeLine>, Lines<'a>), TextFault>
    ensures { Gives (λ x. (x.0.items, lines_of x.1)) result (many_in (range_lines_of ex.now) []
        (lines_of text.entry).after (lines_of text.entry).lines) }
{
    let mut ranges = Vec::new(alloc);
    let mut rest = text;
    while rest.begins(b"range") {
        let (line, behind) = range_line(rest, ex, &ranges)?;
        ranges.push(line)?;
        rest = behind;
    }
    Ok((ranges, rest))
}

/// Whether each voice has its range line, but for the cantus.
#[tactic(auto, unfolding(crate::specs::Ranges::all_ranged))]
fn all_ranged(ex: &Exercise, ranges: &[RangeLine]) -> bool
    ensures { result ≡ all_ranged ex.now ranges.now }
{
    (0..ex.voices).all(|v| v == ex.cantus_voice || has_line(ranges, v))
}

/// Reads the range lines, of which each free voice has to have its own.
#[tactic(auto, unfolding(text_lines::specs::Tables::table_in))]
pub fn ranges_in<'a>(
    alloc: Global,
    text: Lines<'a>,
    ex: &Exercise,
) -> Result<(Vec<RangeLine>, Lines<'a>), TextFault>
    ensures { Gives (λ x. (x.0.items, lines_of x.1)) result (table_in (ranges_table ex.now)
        (lines_of text.entry)) }
{
    let (ranges, text) = ranges_on(alloc, text, ex)?;
    if !all_ranged(ex, &ranges) {
        return Err(text.fault(TextKind::Range));
    }
    Ok((ranges, text))
}
