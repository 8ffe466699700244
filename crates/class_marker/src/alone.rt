//! The cantus firmus alone, as a score.

ghost use Rattle.std.specs.Prelude.{◌≡◌, IfOk};
ghost use Rattle.fux_grid.specs.Exercises.{IsValid};
ghost use Rattle.class_marker.specs.Alone as words;
ghost use Rattle.class_marker.specs.Alone.{lone_line, lone_lines};

use fux_grid::{Cell, Exercise, Score};
use fux_pitch::{List, Memory};
use std::alloc::Global;
use voice_lines::{cantus_cells, score_of};

/// The cells of a voice: those of the cantus, or none.
fn lone_line(alloc: Global, ex: &Exercise, v: u8) -> Result<List<Cell>, Memory>
    ensures { IfOk result (λ line. line ≡ lone_line ex.now v) }
{
    if v == ex.cantus_voice {
        return Ok(List::new(cantus_cells(alloc, ex.cantus.as_slice())?));
    }
    Ok(List::new(Vec::new(alloc)))
}

/// The cells of all voices, from the lowest.
fn lone_lines(alloc: Global, ex: &Exercise) -> Result<Vec<List<Cell>>, Memory>
    ensures { IfOk result (λ lines. lines.items ≡ lone_lines ex.now) }
{
    let mut lines = Vec::new(alloc);
    for v in 0..ex.voices {
        lines.push(lone_line(alloc, ex, v)?)?;
    }
    Ok(lines)
}

/// The score in which no voice but the cantus sounds.
pub fn lone_score(alloc: Global, ex: &Exercise) -> Result<Score, Memory>
    requires { IsValid ex.now }
    ensures { IfOk result (λ score. score ≡ words.lone_score ex.now) }
{
    let lines = lone_lines(alloc, ex)?;
    score_of(alloc, &lines, ex.bars)
}
