//! Worked exercises: which are valid, and the menus of two of them.

ghost use Rattle.fux_grid.specs.Exercises.{IsValid};

use crate::words::number;
use fux_grid::{Cell, Column, Exercise, MenuFault, can_start, is_free, menu, range, width};
use short_scores::{any_exercise_of, exercise_of};
use std::alloc::Global;
use std::fmt::Write;

/// D4 E4 D4 below a voice from A4 to D5.
const SMALL: &str = "dorian 1 1 0
cantus D4 E4 D4
range 1 A4 D5";

/// C4 D4 C4 between three other voices, the lowest of which has 32 pitches, and the others 16.
const WIDE: &str = "ionian 1 3 2
cantus C4 D4 C4
range 0 C1 B4
range 1 C3 B4
range 3 C3 B4";

/// The same with 33 pitches of the lowest voice.
const WIDER: &str = "ionian 1 3 2
cantus C4 D4 C4
range 0 C1 C5
range 1 C3 B4
range 3 C3 B4";

/// Adds a column behind a space, as the names of its pitches behind `+` where they start, and
/// behind `-` where they are held.
fn add_column(text: &mut String, column: &Column) -> Option<()> {
    text.push(' ').ok()?;
    for cell in column.as_slice() {
        match cell {
            Cell::Start(pitch) => write!(text, "+{pitch}").ok()?,
            Cell::Hold(pitch) => write!(text, "-{pitch}").ok()?,
            Cell::Rest => text.push('r').ok()?,
        }
    }
    Some(())
}

/// The columns of a menu.
fn shown(alloc: Global, columns: &[Column]) -> Option<String> {
    let mut text = String::new(alloc);
    for column in columns {
        add_column(&mut text, column)?;
    }
    Some(text)
}

/// Numbers of columns of the small exercise, and their menus, each column behind a space. In the
/// last two bars there is C#5 too.
pub const MENUS: &str = "\
column 0 =  +D4+A4 +D4+Bb4 +D4+B4 +D4+C5 +D4+D5
column 1 =  -D4-A4 -D4-Bb4 -D4-B4 -D4-C5 -D4-D5
column 7 =  -D4-A4 -D4-Bb4 -D4-B4 -D4-C5 -D4-D5
column 8 =  +E4+A4 +E4+Bb4 +E4+B4 +E4+C5 +E4+C#5 +E4+D5";

/// The menu of a column.
fn menu_text(alloc: Global, ex: &Exercise, i: usize) -> Option<String>
    requires { IsValid ex.now }
{
    if i >= 8 * usize::from(ex.bars) {
        return None;
    }
    let columns = menu(alloc, ex, i).ok()?;
    shown(alloc, &columns)
}

pub fn menu_at(alloc: Global, case: &str) -> Option<String> {
    let i = usize::from(number(case, 1)?);
    let ex = exercise_of(alloc, SMALL, 2)?;
    menu_text(alloc, &ex, i)
}

/// How many columns a menu has, with the first and the last of them.
fn ends(alloc: Global, columns: &[Column]) -> Option<String> {
    let mut text = format!(in alloc; "{} columns", columns.len()).ok()?;
    if let Some(first) = columns.first() {
        add_column(&mut text, first)?;
    }
    if let Some(last) = columns.last() {
        add_column(&mut text, last)?;
    }
    Some(text)
}

/// What is said of the first menu of an exercise.
fn first_menu(alloc: Global, ex: &Exercise) -> Option<String>
    requires { IsValid ex.now }
{
    match menu(alloc, ex, 0) {
        Ok(columns) => ends(alloc, &columns),
        Err(MenuFault::TooWide { count }) => format!(in alloc; "too wide, {count}").ok(),
        Err(MenuFault::Memory) => String::from_str(alloc, "out of memory").ok(),
    }
}

/// How wide the first menu of an exercise would be, and what is said of it.
pub const WIDTHS: &str = "\
whole = width 8192, 8192 columns +C1+C3+C4+C3 +B4+B4+C4+B4
wider = width 8448, too wide, 8448
sharp = width 0, 0 columns";

pub fn width_of(alloc: Global, case: &str) -> Option<String> {
    let text = match case {
        "whole" => WIDE,
        "wider" => WIDER,
        _ => SHARP,
    };
    let ex = exercise_of(alloc, text, 4)?;
    let menu = first_menu(alloc, &ex)?;
    format!(in alloc; "width {}, {menu}", width(&ex, 0)).ok()
}

/// The wide exercise in second species, and with one key alone, D#3, which no gamut has.
const SECOND: &str = "ionian 2 3 2
cantus C4 D4 C4
range 0 C1 B4
range 1 C3 B4
range 3 C3 B4";

const SHARP: &str = "ionian 2 3 2
cantus C4 D4 C4
range 0 D#3 D#3
range 1 D#3 D#3
range 3 D#3 D#3";

/// Voices of that exercise and columns, and whether all voices from that one on can start there.
pub const STARTS: &str = "\
voice 3 at column 0 = true
voice 3 at column 4 = true
voice 3 at column 1 = false
voice 0 at column 0 = true
voice 0 at column 4 = false
voice 2 at column 8 = true
voice 2 at column 9 = false
voice 2 at column 0 with D#3 = false";

/// Whether they can, where there are such a voice and such a column.
fn start_at(ex: &Exercise, voice: u8, column: u8) -> bool
    requires { IsValid ex.now }
{
    let i = usize::from(column);
    voice < ex.voices && i < 8 * usize::from(ex.bars) && can_start(ex, voice, i)
}

pub fn starts(alloc: Global, case: &str) -> Option<String> {
    let (voice, column) = (number(case, 1)?, number(case, 4)?);
    let text = if case.ends_with("D#3") { SHARP } else { SECOND };
    let ex = exercise_of(alloc, text, 4)?;
    let can = if start_at(&ex, voice, column) {
        "true"
    } else {
        "false"
    };
    String::from_str(alloc, can).ok()
}

/// Ranges of bars, of which the last one that covers a bar counts.
const RANGES: &str = "dorian 1 1 0
cantus D4 E4 D4
range 1 A4 D5
range 1 A4 C5 2 3
range 1 B4 C5 2 2";

/// Bars of that exercise, and the range of voice 1 in each.
pub const BARS: &str = "\
bar 1 = from A4 to D5
bar 2 = from B4 to C5
bar 3 = from A4 to C5";

fn range_text(alloc: Global, ex: &Exercise, bar: u8) -> Option<String>
    requires { IsValid ex.now }
{
    if !is_free(ex, 1) {
        return None;
    }
    let (low, high) = range(ex, 1, bar);
    format!(in alloc; "from {low} to {high}").ok()
}

pub fn range_in(alloc: Global, case: &str) -> Option<String> {
    let bar = number(case, 1)?;
    let ex = exercise_of(alloc, RANGES, 2)?;
    range_text(alloc, &ex, bar)
}

/// A line in second species above D4 E4 F4 E4 D4, of which some cells are given.
const GIVEN: &str = "dorian 2 1 0
cantus D4 E4 F4 E4 D4
range 1 A4 C5
given 1 1 r ? ? ? +A4 -A4 -A4 -A4
given 1 2 ? ? ? ? ? ? ? ?
given 1 3 ? ? ? ? r r r r
given 1 4 _ ? ? ? +B4 ? ? ?";

/// Columns of that exercise, and their menus. Nothing is given of the second bar; a rest in the
/// third bar and a tie from it are given, for which second species has no cell; the note that
/// begins within the fourth bar may go on in any way.
pub const GIVEN_MENUS: &str = "\
column 0 =  +D4r
column 1 =  -D4r -D4-A4 -D4-Bb4 -D4-B4 -D4-C5
column 4 =  -D4+A4
column 5 =  -D4-A4
column 8 =  +E4+A4 +E4+Bb4 +E4+B4 +E4+C5
column 9 =  -E4-A4 -E4-Bb4 -E4-B4 -E4-C5
column 20 = none
column 24 = none
column 28 =  -E4+B4
column 29 =  -E4-A4 -E4-Bb4 -E4-B4 -E4-C5
column 32 =  +D4+A4 +D4+Bb4 +D4+B4 +D4+C5";

pub fn given_menu(alloc: Global, case: &str) -> Option<String> {
    let ex = exercise_of(alloc, GIVEN, 2)?;
    let menu = menu_text(alloc, &ex, usize::from(number(case, 1)?))?;
    if menu.is_empty() {
        return String::from_str(alloc, "none").ok();
    }
    Some(menu)
}

/// Given bars that fit no exercise of that cantus firmus, and one that does: of the cantus, of no
/// bar, twice the same bar, a held pitch behind a blank, a tie within the bar, a tie at its
/// beginning.
pub const GIVEN_BARS: &str = "\
0 1 ? ? ? ? ? ? ? ? = refused
1 6 ? ? ? ? ? ? ? ? = refused
1 0 ? ? ? ? ? ? ? ? = refused
1 3 ? ? ? ? ? ? ? ? = refused
1 4 ? -A4 ? ? ? ? ? ? = refused
1 4 ? ? _ ? ? ? ? ? = refused
1 4 +A4 -B4 ? ? ? ? ? ? = refused
1 4 _ _ _ _ +A4 -A4 ? ? = taken";

pub fn given_line(alloc: Global, case: &str) -> Option<String> {
    let text = format!(in alloc;
        "dorian 2 1 0
cantus D4 E4 F4 E4 D4
range 1 A4 C5
given 1 3 r r r r ? ? ? ?
given {case}"
    )
    .ok()?;
    let exercise = any_exercise_of(alloc, &text, 2)?;
    let answer = if exercise.is_valid() {
        "taken"
    } else {
        "refused"
    };
    String::from_str(alloc, answer).ok()
}
