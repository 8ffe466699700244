//! A line of a text with a caret below one of its places.

ghost use Rattle.std.specs.Prelude.{◌≡◌, ◌<◌, ◌-◌, ◌++◌, IfSome, OnOk, drop, length, map, position, replicate, take};
ghost use Rattle.std.specs.List.{after_first, before_first};
ghost use Rattle.fux_text.specs.Sing.{is_colon};
ghost use Rattle.text_lines.specs.Words.{is_blank};
ghost use Rattle.text_faults.specs.MarkedLines.{behind_feeds, caret_row, columns_of, from_ink, is_feed, is_inked, line_at, marked_line, shown_byte};

use fux_pitch::Memory;
use unicode_width::UnicodeWidthStr;

/// The place of the first line feed.
fn feed_in(text: &[u8]) -> Option<usize>
    ensures first { result ≡ position is_feed text.now }
    ensures within { IfSome result (λ place. place < length text.now) }
{
    text.iter().position(|byte| *byte == b'\n')
}

/// The place of the first space or tab.
fn blank_in(text: &[u8]) -> Option<usize>
    ensures first { result ≡ position is_blank text.now }
    ensures within { IfSome result (λ place. place < length text.now) }
{
    text.iter().position(|byte| *byte == b' ' || *byte == b'\t')
}

/// The place of the first byte that is no blank.
fn ink_in(text: &[u8]) -> Option<usize>
    ensures first { result ≡ position is_inked text.now }
    ensures within { IfSome result (λ place. place < length text.now) }
{
    text.iter().position(|byte| *byte != b' ' && *byte != b'\t')
}

/// The place of the first colon.
fn colon_in(text: &[u8]) -> Option<usize>
    ensures first { result ≡ position is_colon text.now }
    ensures within { IfSome result (λ place. place < length text.now) }
{
    text.iter().position(|byte| *byte == b':')
}

/// What stands from the first byte that is no blank on.
#[tactic(auto, unfolding(crate::specs::MarkedLines::from_ink))]
pub fn from_ink(line: &[u8]) -> &[u8]
    ensures { result.now ≡ from_ink line.now }
{
    match ink_in(line) {
        Some(start) => &line[start..],
        None => &[],
    }
}

/// What stands before the first line feed.
fn before_feed(text: &[u8]) -> &[u8]
    ensures { result.now ≡ before_first is_feed text.now }
{
    match feed_in(text) {
        Some(end) => &text[..end],
        None => text,
    }
}

/// What stands behind the first line feed.
fn behind_feed(text: &[u8]) -> &[u8]
    ensures { result.now ≡ after_first is_feed text.now }
{
    match feed_in(text) {
        Some(end) => &text[end + 1..],
        None => &[],
    }
}

/// The word at the front.
pub fn word_at(text: &[u8]) -> &[u8]
    ensures { result.now ≡ before_first is_blank text.now }
{
    match blank_in(text) {
        Some(end) => &text[..end],
        None => text,
    }
}

/// What stands behind the first space or tab.
pub fn behind_blank(text: &[u8]) -> &[u8]
    ensures { result.now ≡ after_first is_blank text.now }
{
    match blank_in(text) {
        Some(end) => &text[end + 1..],
        None => &[],
    }
}

/// What stands before the first colon.
pub fn before_colon(text: &[u8]) -> &[u8]
    ensures { result.now ≡ before_first is_colon text.now }
{
    match colon_in(text) {
        Some(end) => &text[..end],
        None => text,
    }
}

/// The line of a number, counted from 1; an empty one where the text has no such line.
#[tactic(auto, unfolding(crate::specs::MarkedLines::line_at))]
pub fn line_at(text: &[u8], number: u32) -> &[u8]
    ensures { result.now ≡ line_at number text.now }
{
    let mut rest = text;
    for _ in 1..number {
        rest = behind_feed(rest);
    }
    before_feed(rest)
}

/// What stands before a column, counted from 1.
pub fn before_column(line: &[u8], column: u32) -> &[u8]
    ensures { result.now ≡ take (column - 1) line.now }
{
    let count = column.saturating_sub(1) as usize;
    if count < line.len() {
        &line[..count]
    } else {
        line
    }
}

/// What stands from a column on, counted from 1.
pub fn from_column(line: &[u8], column: u32) -> &[u8]
    ensures { result.now ≡ drop (column - 1) line.now }
{
    let count = column.saturating_sub(1) as usize;
    if count < line.len() {
        &line[count..]
    } else {
        &[]
    }
}

/// A byte of a line as it is shown.
fn shown_byte(byte: u8) -> u8
    ensures { result ≡ shown_byte byte }
{
    if byte < 32 || byte == 127 { b' ' } else { byte }
}

/// Appends a line as it is shown.
fn put_shown(out: &mut Vec<u8>, line: &[u8]) -> Result<(), Memory>
    ensures { OnOk result (out.new.items ≡ out.old.items ++ map shown_byte line.now) }
{
    for byte in line {
        out.push(shown_byte(*byte))?;
    }
    Ok(())
}

/// How many columns of a terminal bytes take.
#[tactic(auto, unfolding(crate::specs::MarkedLines::columns_of))]
fn columns_of(bytes: &[u8]) -> usize
    ensures { result ≡ columns_of bytes.now }
{
    match std::str::from_utf8(bytes) {
        Ok(text) => text.width(),
        Err(_) => bytes.len(),
    }
}

/// Appends so many spaces.
fn put_spaces(out: &mut Vec<u8>, count: usize) -> Result<(), Memory>
    ensures { OnOk result (out.new.items ≡ out.old.items ++ replicate count 32) }
{
    for _ in 0..count {
        out.push(b' ')?;
    }
    Ok(())
}

/// Appends a row with a caret behind what takes so many columns as these bytes.
#[tactic(auto, unfolding(crate::specs::MarkedLines::caret_row))]
fn put_caret(out: &mut Vec<u8>, before: &[u8]) -> Result<(), Memory>
    ensures { OnOk result (out.new.items ≡ out.old.items ++ caret_row before.now) }
{
    put_spaces(out, columns_of(before))?;
    out.extend_from_slice(b"^\n")?;
    Ok(())
}

/// Appends a line and a caret below one of its columns; nothing of an empty line.
pub fn put_marked(out: &mut Vec<u8>, line: &[u8], column: u32) -> Result<(), Memory>
    ensures { OnOk result (out.new.items ≡ out.old.items ++ marked_line column line.now) }
{
    if line.is_empty() {
        return Ok(());
    }
    put_shown(out, line)?;
    out.push(b'\n')?;
    put_caret(out, before_column(line, column))
}
