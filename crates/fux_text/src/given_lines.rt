//! The `given` lines.

ghost use Rattle.std.specs.Prelude.{◌≡◌, ◌≢◌, ◌≤◌, ◌++◌, [], IfOk, MatchOption, OnOk, codes, string_bytes, length, map};
ghost use Rattle.fux_text.specs.declared.fault.TextKind.TheVariants.{Head};
ghost use Rattle.text_lines.specs.Faults.{Gives};
ghost use Rattle.text_lines.specs.Lines.{lines_of};
ghost use Rattle.text_lines.specs.Rows.{Row, row_in, told_at};
ghost use Rattle.text_lines.specs.Tables.{goes_on, line_in, many_in};
ghost use Rattle.text_lines.specs.Words.{word_of, words_of};
ghost use Rattle.fux_text.specs.GivenLines.{comes_behind, given_cells, given_held, given_lines_of, given_named, given_row, given_run, given_said, is_tied, later_bar, word_given};
ghost use Rattle.fux_text.specs.Lines.{given_words, version_of};
ghost use Rattle.fux_text.specs.Words.{text_line, text_of};

use crate::fault::{TextFault, TextKind};
use crate::head::other_voice;
use crate::item_words::ItemName;
use crate::items::put_items;
use crate::limits::NEWEST_VERSION;
use crate::sing::{item_named, item_parts};
use fux_grid::{Exercise, Given, GivenBar};
use fux_pitch::Memory;
use std::alloc::{AllocError, Global};
use std::fmt::Write;
use text_lines::{Lines, Word, Words, is_same, parse_within};

/// What the first cell of an item of this name gives.
#[tactic(auto, unfolding(crate::specs::GivenLines::given_named))]
fn given_named(name: &[u8]) -> Option<Given>
    ensures { result ≡ given_named name.now }
{
    if is_same(name, b"?") {
        return Some(Given::Blank);
    }
    match item_named(name) {
        None => None,
        Some(ItemName::Silence) => Some(Given::Rest),
        Some(ItemName::Tie) => Some(Given::Tied),
        Some(ItemName::Note(pitch)) => Some(Given::Start(pitch)),
    }
}

/// Whether something goes on.
fn is_tied(given: Given) -> bool
    ensures { result ≡ is_tied given }
{
    matches!(given, Given::Tied | Given::Hold(_))
}

/// An item behind these cells: its first cell, and how many it has; or what is wrong with it.
#[tactic(auto, unfolding(crate::specs::GivenLines::given_said))]
fn given_said(cells: &[Given], text: &[u8]) -> Result<(Given, u8), TextKind>
    ensures value { result ≡ given_said cells.now text.now }
    ensures least { IfOk result (λ x. 1 ≤ x.1) }
{
    let Some((name, count)) = item_parts(text) else {
        return Err(TextKind::Word);
    };
    let Some(first) = given_named(name) else {
        return Err(TextKind::Pitch);
    };
    if count < 1 || count > 8 {
        return Err(TextKind::Length);
    }
    if is_tied(first) && cells.len() != 0 {
        return Err(TextKind::Tie);
    }
    Ok((first, count as u8))
}

/// What goes on with a cell that is given.
fn given_held(given: Given) -> Given
    ensures { result ≡ given_held given }
{
    match given {
        Given::Start(pitch) => Given::Hold(pitch),
        _ => given,
    }
}

/// Appends the cells of an item.
fn push_given(cells: &mut Vec<Given>, first: Given, count: u8) -> Result<(), AllocError>
    requires { 1 ≤ count }
    ensures { OnOk result (cells.new.items ≡ cells.old.items ++ given_cells first count) }
{
    cells.push(first)?;
    for _ in 1..count {
        cells.push(given_held(first))?;
    }
    Ok(())
}

/// Reads a word of a `given` line. Its cells are appended.
#[tactic(auto, unfolding(crate::specs::GivenLines::word_given))]
fn word_given(cells: &mut Vec<Given>, word: Word<'_>) -> Result<(), TextFault>
    ensures { Gives (λ x. cells.new.items) result
        (told_at (word_of word.entry) (word_given cells.old.items (word_of word.entry).text)) }
{
    if is_same(word.text, b"|") {
        return Err(word.fault(TextKind::BarLine));
    }
    match given_said(cells, word.text) {
        Ok((first, count)) => {
            push_given(cells, first, count)?;
            Ok(())
        }
        Err(kind) => Err(word.fault(kind)),
    }
}

/// The cells of a bar, where they fill it.
fn whole_bar(cells: &[Given]) -> Option<[Given; 8]>
    ensures { MatchOption result (length cells.now ≢ 8) (λ bar. (length cells.now ≡ 8)
        × (bar ≡ cells.now)) }
{
    match <[Given; 8]>::try_from(cells) {
        Ok(bar) => Some(bar),
        Err(_) => None,
    }
}

/// Reads the items of the bar of a `given` line, with which the line ends.
pub fn given_in(alloc: Global, words: Words<'_>, voice: u8, bar: u8) -> Result<GivenBar, TextFault>
    ensures { Gives (λ x. x) result (row_in (Row.runs (given_run voice bar) [])
        (words_of words.entry)) }
{
    let mut cells = Vec::new(alloc);
    let mut rest = words;
    while let Some((word, behind)) = rest.first() {
        word_given(&mut cells, word)?;
        rest = behind;
    }
    match whole_bar(&cells) {
        Some(cells) => Ok(GivenBar { voice, bar, cells }),
        None => Err(words.fault_beyond(TextKind::Length)),
    }
}

/// Whether each of these lines is of a lower voice, or of an earlier bar of this one.
fn comes_behind(before: &[GivenBar], v: u8, bar: u8) -> bool
    ensures { result ≡ comes_behind before.now v bar }
{
    before
        .iter()
        .all(|line| line.voice < v || line.voice == v && line.bar < bar)
}

/// A bar of so many that comes behind those before.
fn later_bar(before: &[GivenBar], bars: u8, v: u8, word: &[u8]) -> Option<u8>
    ensures { result ≡ later_bar before.now bars v word.now }
{
    let bar = parse_within(word, 1, bars.into())? as u8;
    if !comes_behind(before, v, bar) {
        return None;
    }
    Some(bar)
}

/// Reads a `given` line, where these stand before.
#[tactic(auto, unfolding(text_lines::specs::Tables::line_in, text_lines::specs::Rows::row_in))]
fn given_line<'a>(
    alloc: Global,
    text: Lines<'a>,
    ex: &Exercise,
    before: &[GivenBar],
) -> Result<(GivenBar, Lines<'a>), TextFault>
    ensures { Gives (λ x. (x.0, lines_of x.1)) result
        (line_in Head Head (codes "given") (given_row ex.now before.now) (lines_of text.entry)) }
{
    let (words, text) = text.headed(TextKind::Head, TextKind::Head, b"given")?;
    let (word, words) = words.next(TextKind::Word)?;
    let Some(voice) = other_voice(word.text, ex.cantus_voice, ex.voices) else {
        return Err(word.fault(TextKind::Word));
    };
    let (word, words) = words.next(TextKind::Word)?;
    let Some(bar) = later_bar(before, ex.bars, voice, word.text) else {
        return Err(word.fault(TextKind::Word));
    };
    let line = given_in(alloc, words, voice, bar)?;
    Ok((line, text))
}

/// Whether the next line is a `given` line, which the version may have.
fn goes_on(text: Lines<'_>, version: u8, ex: &Exercise, before: &[GivenBar]) -> bool
    ensures { result ≡ goes_on (given_lines_of version ex.now) before.now (lines_of text.entry) }
{
    version == NEWEST_VERSION && text.begins(b"given")
}

/// Reads `given` lines, as long as there are some.
pub fn given_lines_in<'a>(
    alloc: Global,
    text: Lines<'a>,
    version: u8,
    ex: &Exercise,
) -> Result<(Vec<GivenBar>, Lines<'a>), TextFault>
    ensures { Gives (λ x. (x.0.items, lines_of x.1)) result (many_in (given_lines_of version ex.now)
        [] (lines_of text.entry).after (lines_of text.entry).lines) }
{
    let mut lines = Vec::new(alloc);
    let mut rest = text;
    while goes_on(rest, version, ex, &lines) {
        let (line, behind) = given_line(alloc, rest, ex, &lines)?;
        lines.push(line)?;
        rest = behind;
    }
    Ok((lines, rest))
}

/// The version of the text of an exercise that gives these notes.
pub fn version_of(given: &[GivenBar]) -> u8
    ensures { result ≡ version_of given.now }
{
    match given {
        [] => 1,
        _ => NEWEST_VERSION,
    }
}

/// Appends a `given` line.
#[tactic(auto, using(crate::proofs::WordLemmas::line_steps))]
fn put_given(out: &mut String, line: &GivenBar) -> Result<(), Memory>
    ensures { OnOk result (string_bytes out.new ≡ string_bytes out.old
        ++ text_line (given_words line.now)) }
{
    let voice = line.voice;
    let bar = line.bar;
    write!(out, "given {voice} {bar}")?;
    put_items(out, &line.cells)?;
    out.push('\n')?;
    Ok(())
}

/// Appends `given` lines.
pub fn put_given_lines(out: &mut String, lines: &[GivenBar]) -> Result<(), Memory>
    ensures { OnOk result (string_bytes out.new ≡ string_bytes out.old
        ++ text_of (map given_words lines.now)) }
{
    for line in lines {
        put_given(out, line)?;
    }
    Ok(())
}
