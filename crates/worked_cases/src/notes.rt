//! Worked lines, scores and orders.

ghost use Rattle.std.specs.Prelude.{◌≡◌, IfSome, length};

use crate::words::{number, word};
use fux_grid::{
    Cell, Column, GridFault, Note, Score, next_note, note_at, order, prev_note, shape, sounding,
};
use fux_pitch::Pitch;
use short_scores::pitch_of;
use std::alloc::Global;
use std::cmp::Ordering;
use std::fmt::Write;
use std::str;

/// A line in voice 0 of two voices: rests, starts and holds of one pitch.
const LINE: &[u8] = b"RRSHHHHHHHSHRRSSH";

fn column_of(letter: u8, pitch: Pitch) -> Column {
    let mut column = Column::new();
    column.push(match letter {
        b'S' => Cell::Start(pitch),
        b'H' => Cell::Hold(pitch),
        _ => Cell::Rest,
    });
    column.push(Cell::Rest);
    column
}

fn line(alloc: Global) -> Option<Score> {
    let pitch = pitch_of("C4")?;
    let mut score = Score::new(alloc, 2).ok()?;
    for letter in LINE {
        score.push(column_of(*letter, pitch)).ok()?;
    }
    Some(score)
}

/// Columns of that line, with the note that sounds there, the one before it and the one behind it:
/// where each begins, and how many columns it has.
pub const NOTES: &str = "\
column 0 = silent, at none, before none, after 2+8
column 2 = sounds, at 2+8, before none, after 10+2
column 9 = sounds, at 2+8, before none, after 10+2
column 11 = sounds, at 10+2, before 2+8, after 14+1
column 12 = silent, at none, before 10+2, after 14+1
column 14 = sounds, at 14+1, before 10+2, after 15+2
column 16 = sounds, at 15+2, before 14+1, after none";

fn add_note(text: &mut String, word: &str, note: Option<Note>) -> Option<()> {
    match note {
        Some(note) => write!(text, ", {word} {}+{}", note.start, note.len).ok()?,
        None => write!(text, ", {word} none").ok()?,
    }
    Some(())
}

fn notes_text(alloc: Global, score: &Score, i: usize) -> Option<String> {
    if i >= score.len() {
        return None;
    }
    let sounds = sounding(score, 0, i).is_some();
    let mut text = String::from_str(alloc, if sounds { "sounds" } else { "silent" }).ok()?;
    add_note(&mut text, "at", note_at(score, 0, i))?;
    add_note(&mut text, "before", prev_note(score, 0, i))?;
    add_note(&mut text, "after", next_note(score, 0, i))?;
    Some(text)
}

pub fn notes_at(alloc: Global, case: &str) -> Option<String> {
    let i = usize::from(number(case, 1)?);
    let score = line(alloc)?;
    notes_text(alloc, &score, i)
}

/// Bars of that line, and their letters.
pub const SHAPES: &str = "\
bar 1 = RRSHHHHH
bar 2 = HHSHRRSS";

fn shape_text(alloc: Global, score: &Score, bar: u8) -> Option<String> {
    if bar == 0 || score.voices() == 0 || score.len() < 8 * usize::from(bar) {
        return None;
    }
    let letters = shape(score, 0, bar);
    String::from_str(alloc, str::from_utf8(&letters).ok()?).ok()
}

pub fn shape_of(alloc: Global, case: &str) -> Option<String> {
    let bar = number(case, 1)?;
    let score = line(alloc)?;
    shape_text(alloc, &score, bar)
}

/// The cell of a word: `r`, `default`, or a pitch behind `+` where it starts and behind `-` where
/// it is held.
fn cell(word: &str) -> Option<Cell> {
    if let Some(name) = word.strip_prefix('+') {
        return Some(Cell::Start(pitch_of(name)?));
    }
    if let Some(name) = word.strip_prefix('-') {
        return Some(Cell::Hold(pitch_of(name)?));
    }
    Some(if word == "default" {
        Cell::default()
    } else {
        Cell::Rest
    })
}

/// The column of two words.
fn column(case: &str) -> Option<Column>
    ensures { IfSome result (λ column. length column.items ≡ 2) }
{
    let mut column = Column::new();
    column.push(cell(word(case, 0)?)?);
    column.push(cell(word(case, 1)?)?);
    Some(column)
}

/// Columns that are added to a score of two voices, one after another, and what is said of the last
/// one.
pub const PUSHES: &str = "\
r -C4 = hold at start in voice 1
default +C4 = taken
default +C4, -C4 -D4 = hold after rest in voice 0
default +C4, +D4 -D4 = hold moved in voice 1
none = not as many cells";

fn told(alloc: Global, fault: GridFault) -> Option<String> {
    let (words, voice) = match fault {
        GridFault::Full => return String::from_str(alloc, "full").ok(),
        GridFault::Voices => return String::from_str(alloc, "not as many cells").ok(),
        GridFault::HoldAtStart { voice } => ("at start", voice),
        GridFault::HoldAfterRest { voice } => ("after rest", voice),
        GridFault::HoldMoved { voice } => ("moved", voice),
    };
    format!(in alloc; "hold {words} in voice {voice}").ok()
}

pub fn pushed(alloc: Global, case: &str) -> Option<String> {
    let mut score = Score::new(alloc, 2).ok()?;
    let mut answer = Ok(());
    for text in case.split(", ") {
        answer = score.push(if text == "none" {
            Column::new()
        } else {
            column(text)?
        });
    }
    match answer {
        Ok(()) => String::from_str(alloc, "taken").ok(),
        Err(fault) => told(alloc, fault),
    }
}

/// Columns in reading order: by the lowest voice, its kind of cell, its key, its degree, and then
/// by the voice above. Each has a sign for each of them, `<` where that one is later, `=` where it
/// is the same, `>` where it is earlier.
pub const ASCENDING: &str = "\
r +D4 = =<<<<<
-C#4 r = >=<<<<
-C#4 -D4 = >>=<<<
-Db4 r = >>>=<<
-D4 r = >>>>=<
+C#4 r = >>>>>=";

/// The sign of a column beside another one.
fn sign(here: &Column, other: &Column) -> char
    requires { length here.now.items ≡ length other.now.items }
{
    match order(here, other) {
        Ordering::Less => '<',
        Ordering::Equal => '=',
        Ordering::Greater => '>',
    }
}

pub fn orders(alloc: Global, case: &str) -> Option<String> {
    let here = column(case)?;
    let mut signs = String::new(alloc);
    for line in ASCENDING.lines() {
        signs.push(sign(&here, &column(line)?)).ok()?;
    }
    Some(signs)
}
