//! The `sing` lines.

ghost use Rattle.std.specs.Prelude.{◌≡◌, ◌≤◌, ◌<◌, ◌+◌, ◌*◌, ◌==◌, ◌++◌, [], IfOk, IfSome, OnOk, List, codes, length, option_map};
ghost use Rattle.std.specs.List.{position};
ghost use Rattle.fux_grid.specs.declared.cell.Cell.TheVariants.{Rest};
ghost use Rattle.fux_text.specs.declared.fault.TextKind.TheVariants.{Head, Sing};
ghost use Rattle.text_lines.specs.Faults.{Gives};
ghost use Rattle.text_lines.specs.Lines.{lines_of};
ghost use Rattle.text_lines.specs.Rows.{Row, row_in, told_at};
ghost use Rattle.text_lines.specs.Tables.{line_in};
ghost use Rattle.text_lines.specs.Words.{word_of, words_of};
ghost use Rattle.fux_text.specs.Fitting.{asks};
ghost use Rattle.fux_text.specs.Sing.{bar_line_said, ended, first_cell, is_colon, is_full, item_cells, item_named, item_parts, item_said, latest, sing_row, sung_end, sung_run, sung_word};

use crate::fault::{TextFault, TextKind};
use crate::fitting::{Asked, asks};
use crate::item_words::ItemName;
use crate::names::parse_pitch;
use fux_grid::{Cell, Exercise};
use fux_pitch::{List, Pitch};
use std::alloc::{AllocError, Global};
use text_lines::{Lines, Word, Words, is_same, parse_number, parse_within};

/// The place of the first colon.
fn colon_in(text: &[u8]) -> Option<usize>
    ensures first { result ≡ position is_colon text.now }
    ensures within { IfSome result (λ place. place < length text.now) }
{
    text.iter().position(|byte| *byte == b':')
}

/// What stands before the colon of an item, and the number behind it.
#[tactic(auto, unfolding(crate::specs::Sing::item_parts))]
pub fn item_parts(text: &[u8]) -> Option<(&[u8], u32)>
    ensures { option_map (λ x. (x.0.now, x.1)) result ≡ item_parts text.now }
{
    let Some(colon) = colon_in(text) else {
        return None;
    };
    match parse_number(&text[colon + 1..]) {
        Some(number) => Some((&text[..colon], number)),
        None => None,
    }
}

/// What an item is called.
#[tactic(auto, unfolding(crate::specs::Sing::item_named))]
pub fn item_named(name: &[u8]) -> Option<ItemName>
    ensures { result ≡ item_named name.now }
{
    if is_same(name, b"r") {
        return Some(ItemName::Silence);
    }
    if is_same(name, b"_") {
        return Some(ItemName::Tie);
    }
    Some(ItemName::Note(parse_pitch(name)?))
}

/// The first cell of an item behind a cell, if it can stand there.
fn first_cell(begins_bar: bool, before: Cell, name: ItemName) -> Option<Cell>
    ensures { result ≡ first_cell begins_bar before name }
{
    match name {
        ItemName::Silence => Some(Cell::Rest),
        ItemName::Note(pitch) => Some(Cell::Start(pitch)),
        ItemName::Tie => {
            if !begins_bar {
                return None;
            }
            Some(Cell::Hold(before.pitch()?))
        }
    }
}

/// The last of these cells, a rest where there is none.
fn latest(cells: &[Cell]) -> Cell
    ensures { result ≡ latest Rest cells.now }
{
    match cells {
        [.., last] => *last,
        [] => Cell::Rest,
    }
}

/// An item behind so many bars and these cells: its first cell, and how many it has; or what is
/// wrong with it.
#[tactic(auto, unfolding(crate::specs::Sing::item_said))]
fn item_said(cells: &[Cell], bar: u8, text: &[u8]) -> Result<(Cell, u8), TextKind>
    ensures value { result ≡ item_said bar cells.now text.now }
    ensures least { IfOk result (λ x. 1 ≤ x.1) }
{
    let Some((name, count)) = item_parts(text) else {
        return Err(TextKind::Word);
    };
    let Some(name) = item_named(name) else {
        return Err(TextKind::Pitch);
    };
    if count < 1 || count > 8 {
        return Err(TextKind::Length);
    }
    match first_cell(cells.len() == 8 * usize::from(bar), latest(cells), name) {
        Some(cell) => Ok((cell, count as u8)),
        None => Err(TextKind::Tie),
    }
}

/// Appends the cells of an item.
pub fn push_item(cells: &mut Vec<Cell>, first: Cell, count: u8) -> Result<(), AllocError>
    requires { 1 ≤ count }
    ensures { OnOk result (cells.new.items ≡ cells.old.items ++ item_cells first count) }
{
    cells.push(first)?;
    for _ in 1..count {
        cells.push(first.held())?;
    }
    Ok(())
}

/// Whether the bar behind so many is full.
fn is_full(cells: &[Cell], bar: u8) -> bool
    ensures { result ≡ is_full bar cells.now }
{
    cells.len() == 8 * usize::from(bar) + 8
}

/// A bar line behind so many bars and these cells: how many bars end by it, or what is wrong with
/// it.
#[tactic(auto, unfolding(crate::specs::Sing::bar_line_said))]
fn bar_line_said(cells: &[Cell], bars: u8, bar: u8) -> Result<u8, TextKind>
    requires { bar < bars }
    ensures value { result ≡ bar_line_said bars bar cells.now }
    ensures more { IfOk result (λ x. x < bars) }
{
    if !is_full(cells, bar) {
        return Err(TextKind::Length);
    }
    if bar + 1 == bars {
        return Err(TextKind::BarLine);
    }
    Ok(bar + 1)
}

/// Reads a word of a `sing` line behind so many bars: how many bars end by it. Its cells are
/// appended.
#[tactic(auto, unfolding(crate::specs::Sing::sung_word))]
fn sung_word(cells: &mut Vec<Cell>, bars: u8, bar: u8, word: Word<'_>) -> Result<u8, TextFault>
    requires { bar < bars }
    ensures value { Gives (λ x. (x, cells.new.items)) result
        (told_at (word_of word.entry) (sung_word bars (bar, cells.old.items)
        (word_of word.entry).text)) }
    ensures more { IfOk result (λ x. x < bars) }
{
    if is_same(word.text, b"|") {
        return match bar_line_said(cells, bars, bar) {
            Ok(next) => Ok(next),
            Err(kind) => Err(word.fault(kind)),
        };
    }
    match item_said(cells, bar, word.text) {
        Ok((first, count)) => {
            push_item(cells, first, count)?;
            Ok(bar)
        }
        Err(kind) => Err(word.fault(kind)),
    }
}

/// Whether a `sing` line may end behind so many bars and these cells, or what is wrong with its
/// end.
#[tactic(auto, unfolding(crate::specs::Sing::sung_end))]
fn sung_end(cells: &[Cell], bars: u8, bar: u8) -> Option<TextKind>
    requires { bar < bars }
    ensures { sung_end bars (bar, cells.now) ≡ ended cells.now result }
{
    if !is_full(cells, bar) {
        return Some(TextKind::Length);
    }
    if bar + 1 != bars {
        return Some(TextKind::BarLine);
    }
    None
}

/// Reads the words of a `sing` line behind its voice: its cells.
pub fn sung_in(alloc: Global, words: Words<'_>, bars: u8) -> Result<Vec<Cell>, TextFault>
    requires { 1 ≤ bars }
    ensures { Gives (λ x. x.items) result (row_in (Row.runs (sung_run bars) (0, []))
        (words_of words.entry)) }
{
    let mut cells = Vec::new(alloc);
    let mut bar = 0;
    let mut rest = words;
    while let Some((word, behind)) = rest.first() {
        bar = sung_word(&mut cells, bars, bar, word)?;
        rest = behind;
    }
    match sung_end(&cells, bars, bar) {
        None => Ok(cells),
        Some(kind) => Err(words.fault_beyond(kind)),
    }
}

/// Reads the voice and the items of a `sing` line: its cells.
#[tactic(auto, unfolding(text_lines::specs::Rows::row_in))]
fn voice_sung(
    alloc: Global,
    words: Words<'_>,
    ex: &Exercise,
    v: u8,
    asked: Asked,
) -> Result<Vec<Cell>, TextFault>
    requires { 1 ≤ ex.now.bars }
    ensures { Gives (λ x. x.items) result
        (row_in (sing_row (asks asked ex.now v) ex.now.bars v) (words_of words.entry)) }
{
    let (word, words) = words.next(TextKind::Sing)?;
    if parse_within(word.text, v.into(), v.into()).is_none() {
        return Err(word.fault(TextKind::Sing));
    }
    let cells = sung_in(alloc, words, ex.bars)?;
    if !asks(asked, ex, v, &cells) {
        return Err(word.fault(TextKind::Given));
    }
    Ok(cells)
}

/// Reads the `sing` line of a voice: its cells.
#[tactic(auto, unfolding(text_lines::specs::Tables::line_in))]
pub fn sing_line_in<'a>(
    alloc: Global,
    text: Lines<'a>,
    ex: &Exercise,
    v: u8,
    asked: Asked,
) -> Result<(List<Cell>, Lines<'a>), TextFault>
    requires { 1 ≤ ex.now.bars }
    ensures { Gives (λ x. (x.0, lines_of x.1)) result (line_in Sing Head (codes "sing")
        (sing_row (asks asked ex.now v) ex.now.bars v) (lines_of text.entry)) }
{
    let (words, text) = text.headed(TextKind::Sing, TextKind::Head, b"sing")?;
    let cells = voice_sung(alloc, words, ex, v, asked)?;
    Ok((List::new(cells), text))
}
