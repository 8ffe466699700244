//! Pitches by their names, and scores by the lines of their voices.

ghost use Rattle.std.specs.Prelude.{◌≤◌, IfSome};

use arrayvec::ArrayVec;
use fux_grid::{Cell, Score};
use fux_pitch::{Pitch, parse_pitch};
use std::alloc::Global;

/// The pitch of a name.
pub fn pitch_of(name: &str) -> Option<Pitch> {
    parse_pitch(name.as_bytes())
}

/// The pitches of names with a blank between them.
pub fn pitches_of(alloc: Global, names: &str) -> Option<Vec<Pitch>> {
    let mut pitches = Vec::new(alloc);
    for name in names.split(' ') {
        pitches.push(pitch_of(name)?).ok()?;
    }
    Some(pitches)
}

/// Adds a note or a rest for so many columns, as `D4:8` or `r:4`, or for one, as `D4`.
fn add_note(cells: &mut Vec<Cell>, word: &str) -> Option<()> {
    let (name, columns) = word.split_once(':').unwrap_or((word, "1"));
    let columns = columns.parse::<u8>().ok()?;
    if name == "r" {
        for _ in 0..columns {
            cells.push(Cell::Rest).ok()?;
        }
        return Some(());
    }
    let pitch = pitch_of(name)?;
    for k in 0..columns {
        cells
            .push(if k == 0 {
                Cell::Start(pitch)
            } else {
                Cell::Hold(pitch)
            })
            .ok()?;
    }
    Some(())
}

/// The cells of a line of notes and rests with a blank between them.
fn cells_of(alloc: Global, line: &str) -> Option<Vec<Cell>> {
    let mut cells = Vec::new(alloc);
    for word in line.split(' ') {
        add_note(&mut cells, word)?;
    }
    Some(cells)
}

/// The score of the lines of voices, the lowest first. It is as long as the longest, and the others
/// rest at their ends.
pub fn score_of(alloc: Global, lines: &[&str]) -> Option<Score> {
    let mut voices = Vec::new(alloc);
    let mut columns = 0;
    for line in lines {
        let cells = cells_of(alloc, line)?;
        columns = columns.max(cells.len());
        voices.push(cells).ok()?;
    }
    let count = u8::try_from(lines.len()).ok()?;
    if count < 2 || count > 4 {
        return None;
    }
    let mut score = Score::new(alloc, count).ok()?;
    for i in 0..columns {
        let mut column = ArrayVec::new();
        for line in &voices {
            column
                .try_push(line.get(i).copied().unwrap_or_default())
                .ok()?;
        }
        score.push(column).ok()?;
    }
    Some(score)
}
