//! The setting that `sing` lines give.

ghost use Rattle.std.specs.Prelude.{◌≡◌, ◌≤◌, [], IfOk};
ghost use Rattle.std.specs.List.{range_with_len};
ghost use Rattle.text_lines.specs.Faults.{Gives};
ghost use Rattle.text_lines.specs.Lines.{lines_of};
ghost use Rattle.text_lines.specs.Tables.{table_in};
ghost use Rattle.fux_text.specs.Fitting.{asks};
ghost use Rattle.fux_text.specs.Sing.{setting_table, sung_table, voice_table, voices_table};
ghost use Rattle.voice_lines.specs.Lines.{cantus_cells};

use crate::fault::{TextFault, TextKind};
use crate::fitting::Asked;
use crate::sing::{push_item, sing_line_in};
use fux_grid::{Cell, Exercise, Score};
use fux_pitch::{List, Pitch};
use std::alloc::{AllocError, Global};
use text_lines::Lines;
use voice_lines::score_of;

/// The cells of the cantus: a whole note in each bar.
fn cantus_cells(alloc: Global, cantus: &[Pitch]) -> Result<Vec<Cell>, AllocError>
    ensures { IfOk result (λ cells. cells.items ≡ cantus_cells cantus.now) }
{
    let mut cells = Vec::new(alloc);
    for pitch in cantus {
        push_item(&mut cells, Cell::Start(*pitch), 8)?;
    }
    Ok(cells)
}

/// The cells of a voice: those of the cantus, or those of its `sing` line, which is read.
#[tactic(auto, unfolding(text_lines::specs::Tables::table_in))]
fn voice_in<'a>(
    alloc: Global,
    text: Lines<'a>,
    ex: &Exercise,
    v: u8,
    asked: Asked,
) -> Result<(List<Cell>, Lines<'a>), TextFault>
    requires { 1 ≤ ex.now.bars }
    ensures { Gives (λ x. (x.0, lines_of x.1)) result
        (table_in (voice_table (asks asked ex.now) ex.now v) (lines_of text.entry)) }
{
    if v == ex.cantus_voice {
        let cells = cantus_cells(alloc, ex.cantus.as_slice())?;
        return Ok((List::new(cells), text));
    }
    sing_line_in(alloc, text, ex, v, asked)
}

/// The cells of each voice, from the lowest.
fn voices_in<'a>(
    alloc: Global,
    text: Lines<'a>,
    ex: &Exercise,
    asked: Asked,
) -> Result<(Vec<List<Cell>>, Lines<'a>), TextFault>
    requires { 1 ≤ ex.now.bars }
    ensures { Gives (λ x. (x.0.items, lines_of x.1)) result
        (table_in (voices_table (asks asked ex.now) ex.now (range_with_len 0 ex.now.voices) [])
        (lines_of text.entry)) }
{
    let mut lines = Vec::new(alloc);
    let mut rest = text;
    for v in 0..ex.voices {
        let (cells, behind) = voice_in(alloc, rest, ex, v, asked)?;
        lines.push(cells)?;
        rest = behind;
    }
    Ok((lines, rest))
}

/// Reads the setting in `sing` lines, with which the text ends.
#[tactic(auto, unfolding(text_lines::specs::Tables::table_in))]
pub fn sung_score<'a>(
    alloc: Global,
    text: Lines<'a>,
    ex: &Exercise,
    asked: Asked,
) -> Result<(Score, Lines<'a>), TextFault>
    requires least { 2 ≤ ex.now.voices }
    requires most { ex.now.voices ≤ 4 }
    requires some { 1 ≤ ex.now.bars }
    requires bars { ex.now.bars ≤ 24 }
    ensures { Gives (λ x. (x.0, lines_of x.1)) result
        (table_in (sung_table (asks asked ex.now) ex.now) (lines_of text.entry)) }
{
    let (lines, text) = voices_in(alloc, text, ex, asked)?;
    text.done(TextKind::Head)?;
    let score = score_of(alloc, &lines, ex.bars)?;
    Ok((score, text))
}

/// Reads the setting, where there is one.
#[tactic(auto, unfolding(text_lines::specs::Tables::table_in))]
pub fn setting_in<'a>(
    alloc: Global,
    text: Lines<'a>,
    ex: &Exercise,
    asked: Asked,
) -> Result<(Option<Score>, Lines<'a>), TextFault>
    requires least { 2 ≤ ex.now.voices }
    requires most { ex.now.voices ≤ 4 }
    requires some { 1 ≤ ex.now.bars }
    requires bars { ex.now.bars ≤ 24 }
    ensures { Gives (λ x. (x.0, lines_of x.1)) result
        (table_in (setting_table (asks asked ex.now) ex.now) (lines_of text.entry)) }
{
    if !text.begins(b"sing") {
        text.done(TextKind::Head)?;
        return Ok((None, text));
    }
    let (score, text) = sung_score(alloc, text, ex, asked)?;
    Ok((Some(score), text))
}
