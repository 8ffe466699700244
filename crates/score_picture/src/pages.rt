//! A whole picture.

ghost use Rattle.std.specs.Prelude.{◌≡◌, ◌+◌, ◌*◌, ◌<◌, ◌≤◌, ◌^◌, ◌++◌, All, IfOk, OnOk, length, string_bytes};
ghost use Rattle.written_notes.specs.Documents.{marks_of as marks_in};
ghost use Rattle.score_picture.specs.Pictures.{begin, drawn_of, head, inlined_of, inner_head, last_top as top_of_last, lines_of as lines_of_all, page, page_end as end_of_page, picture_of, size, system_height as height_of_system, title_row};

use crate::bars::put_bars;
use crate::foot::{put_marks, put_penalty};
use crate::notes::Marked;
use crate::symbols::SYMBOLS;
use fux_grid::{Cell, Exercise};
use fux_pitch::{List, Memory};
use sheet_layout::{BarPlace, Staff, bar_places, staves};
use std::alloc::Global;
use std::fmt::Write;
use written_notes::{SheetMark, marks_of, put_title_words, voice_line};

/// The lines of all voices, the lowest first.
fn lines_of(alloc: Global, ex: &Exercise) -> Result<Vec<List<Cell>>, Memory>
    ensures { IfOk result (λ lines. lines.items ≡ lines_of_all ex.now) }
{
    let mut lines = Vec::new(alloc);
    for voice in 0..ex.voices {
        let line = voice_line(alloc, ex, voice)?;
        lines.push(line)?;
    }
    Ok(lines)
}

/// How tall a system of these staves is.
fn system_height(staves: &[Staff]) -> u32
    ensures { result ≡ height_of_system staves.now }
{
    match staves.last() {
        Some(staff) => staff.bottom,
        None => 0,
    }
}

/// Where the last system begins.
fn last_top(places: &[BarPlace]) -> u64
    ensures { result ≡ top_of_last places.now }
{
    match places.last() {
        Some(place) => place.top,
        None => 0,
    }
}

/// Where the last system ends.
fn page_end(staves: &[Staff], places: &[BarPlace]) -> u128
    ensures value { result ≡ end_of_page staves.now places.now }
    ensures most { result ≤ 2 ^ 80 }
{
    u128::from(last_top(places)) + u128::from(system_height(staves))
}

/// Appends the size of a picture so tall, and what its letters are.
#[tactic(auto, unfolding(crate::specs::Pictures::size))]
fn put_size(out: &mut String, height: u128) -> Result<(), Memory>
    ensures { OnOk result (string_bytes out.new ≡ string_bytes out.old ++ size height) }
{
    write!(
        out,
        "width=\"1060\" height=\"{height}\" viewBox=\"0 0 1060 {height}\" \
        font-family=\"serif\" color=\"#000\">\n"
    )?;
    Ok(())
}

/// Appends the head of a picture so tall.
#[tactic(auto, unfolding(crate::specs::Pictures::head))]
fn put_head(out: &mut String, height: u128) -> Result<(), Memory>
    ensures { OnOk result (string_bytes out.new ≡ string_bytes out.old ++ head height) }
{
    out.push_str("<svg xmlns=\"http://www.w3.org/2000/svg\" ")?;
    out.push_str("xmlns:xlink=\"http://www.w3.org/1999/xlink\" ")?;
    put_size(out, height)?;
    out.push_str("<rect width=\"100%\" height=\"100%\" fill=\"#fff\"/>\n")?;
    out.push_str(SYMBOLS)?;
    Ok(())
}

/// Appends the head of a picture so tall within an HTML page, which has the symbols.
#[tactic(auto, unfolding(crate::specs::Pictures::inner_head))]
fn put_inner_head(out: &mut String, height: u128) -> Result<(), Memory>
    ensures { OnOk result (string_bytes out.new ≡ string_bytes out.old ++ inner_head height) }
{
    out.push_str("<svg ")?;
    put_size(out, height)
}

/// Appends the head of a picture so tall with its own symbols, or within such a page.
fn put_begin(out: &mut String, alone: bool, height: u128) -> Result<(), Memory>
    ensures { OnOk result (string_bytes out.new ≡ string_bytes out.old ++ begin alone height) }
{
    if alone {
        put_head(out, height)
    } else {
        put_inner_head(out, height)
    }
}

/// Appends the row of the title.
#[tactic(auto, unfolding(crate::specs::Pictures::title_row))]
fn put_title(out: &mut String, ex: &Exercise, marks: Option<&[SheetMark]>) -> Result<(), Memory>
    ensures { OnOk result (string_bytes out.new ≡ string_bytes out.old
        ++ title_row ex.now marks.entry) }
{
    out.push_str("<text x=\"78\" y=\"34\" font-size=\"20\">")?;
    put_title_words(out, ex, marks)?;
    out.push_str("</text>\n")?;
    Ok(())
}

/// The picture of an exercise with these lines, staves and places of bars. Its heights are of 128
/// bits, so that none is too great.
#[tactic(auto, unfolding(crate::specs::Pictures::page))]
fn page<'e>(
    alloc: Global,
    alone: bool,
    ex: &Exercise<'e>,
    titled: &Exercise<'e>,
    marks: Option<&[SheetMark]>,
    penalty: Option<u64>,
    lines: &[List<Cell>],
    staves: &[Staff],
    places: &[BarPlace],
) -> Result<String, Memory>
    requires { All (λ staff. staff.voice < 8) staves.now }
    ensures { IfOk result (λ text. string_bytes text
        ≡ page alone ex.now titled.now marks.entry penalty lines.now staves.now places.now) }
{
    let shown = marks_of(marks);
    let marked = Marked { ex, marks: shown };
    let end = page_end(staves, places);
    let mut out = String::new(alloc);
    put_begin(&mut out, alone, end + 50 + 17 * shown.len() as u128)?;
    put_title(&mut out, titled, marks)?;
    put_bars(alloc, &mut out, &marked, lines, staves, places)?;
    put_penalty(&mut out, end + 14, penalty)?;
    put_marks(&mut out, end + 34, shown)?;
    out.push_str("</svg>\n")?;
    Ok(out)
}

/// The picture of an exercise, with its own symbols or within a page that has them.
fn drawn<'e>(
    alloc: Global,
    alone: bool,
    ex: &Exercise<'e>,
    titled: &Exercise<'e>,
    marks: Option<&[SheetMark]>,
    penalty: Option<u64>,
) -> Result<String, Memory>
    requires { ex.now.voices ≤ 4 }
    ensures { IfOk result (λ text.
        string_bytes text ≡ drawn_of alone ex.now titled.now marks.entry penalty) }
{
    let lines = lines_of(alloc, ex)?;
    let staves = staves(alloc, ex, marks_of(marks), &lines)?;
    let places = bar_places(alloc, ex, &lines, system_height(&staves))?;
    let text = page(
        alloc, alone, ex, titled, marks, penalty, &lines, &staves, &places,
    )?;
    Ok(text)
}

/// The picture of an exercise as SVG, the highest voice first: of its setting; without one of the
/// sheet to fill in, which has the cantus, the given notes, and empty bars. Where marks are given,
/// the title says how many there are, their notes are red, their rules stand above the notes of
/// their highest voices, and a list of them stands below. Where a penalty is given, it stands below
/// the systems. The title is that of the second exercise: the same one, or with the species by
/// whose rules the marks are.
pub fn picture<'e>(
    alloc: Global,
    ex: &Exercise<'e>,
    titled: &Exercise<'e>,
    marks: Option<&[SheetMark]>,
    penalty: Option<u64>,
) -> Result<String, Memory>
    requires { ex.now.voices ≤ 4 }
    ensures { IfOk result (λ text.
        string_bytes text ≡ picture_of ex.now titled.now marks.entry penalty) }
{
    drawn(alloc, true, ex, titled, marks, penalty)
}

/// The same within an HTML page, which has the symbols once.
pub fn inlined<'e>(
    alloc: Global,
    ex: &Exercise<'e>,
    titled: &Exercise<'e>,
    marks: Option<&[SheetMark]>,
    penalty: Option<u64>,
) -> Result<String, Memory>
    requires { ex.now.voices ≤ 4 }
    ensures { IfOk result (λ text.
        string_bytes text ≡ inlined_of ex.now titled.now marks.entry penalty) }
{
    drawn(alloc, false, ex, titled, marks, penalty)
}
