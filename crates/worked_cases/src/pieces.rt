//! The tables of a small exercise, cut into pieces: their floors, and two threads that meet in a row.

ghost use Rattle.std.specs.Prelude.{◌≡◌, IfSome};
ghost use Rattle.fux_grid.specs.Exercises.{IsValid};

use crate::agree::holds;
use crate::floors::floor;
use crate::meeting::Meeting;
use floor_tables::{Tables, tables_cut};
use fux_grid::Exercise;
use penalty_sheet::{Sheet, default_sheet};
use short_scores::exercise_of;
use std::alloc::Global;
use std::thread::Threads;

/// Its menus have five columns and six.
const TEXT: &str = "dorian 1 1 0
cantus D4 E4 D4
range 1 A4 D5";

/// The floors of its live prefixes, by the notes of voice 1 so far, from one length to another.
const FLOORS: [(&str, usize, usize, u64); 9] = [
    ("A4", 1, 8, 3),
    ("D5", 1, 8, 0),
    ("A4 C5", 9, 16, 5),
    ("A4 C#5", 9, 16, 5),
    ("D5 B4", 9, 16, 6),
    ("D5 C5", 9, 16, 0),
    ("D5 C#5", 9, 16, 0),
    ("A4 C#5 D5", 17, 24, 8),
    ("D5 C#5 D5", 17, 24, 7),
];

/// Its tables, whose rows are worked in two pieces each.
fn cut<'a, R: Threads + Sync>(
    rt: &R,
    alloc: Global,
    exercise: &'a Exercise<'a>,
    sheet: &'a Sheet,
    gate: &Meeting,
) -> Option<Tables<'a>>
    requires valid { IsValid exercise.now }
    ensures { IfSome result (λ t. t.exercise ≡ exercise.entry.now) }
{
    match tables_cut(rt, alloc, exercise, sheet, 3, gate) {
        Ok(tables) => Some(tables),
        Err(_) => None,
    }
}

/// Whether the floors are those of the table.
fn has_floors(exercise: &Exercise, sheet: &Sheet, tables: &Tables<'_>) -> Option<bool>
    requires valid { IsValid exercise.now }
    requires same { tables.now.exercise ≡ exercise.now }
{
    if tables.start() != Some(0) {
        return Some(false);
    }
    for (notes, from, to, wanted) in &FLOORS {
        for length in *from..=*to {
            if floor(exercise, sheet, tables, notes, length)? != *wanted {
                return Some(false);
            }
        }
    }
    Some(true)
}

/// Whether the pieces of each row met, and the floors are those of the table.
fn floors_stand<R: Threads + Sync>(rt: &R, alloc: Global) -> Option<bool> {
    let exercise = exercise_of(alloc, TEXT, 2)?;
    let sheet = default_sheet();
    let meeting = Meeting::new(alloc, 24).ok()?;
    let tables = cut(rt, alloc, &exercise, &sheet, &meeting)?;
    Some(has_floors(&exercise, &sheet, &tables)? && meeting.met() > 0)
}

#[test]
fn two_pieces_of_a_row_meet(rt: HostRuntime) {
    holds(&rt, TEXT, floors_stand(&rt, rt.alloc()).unwrap_or(false));
}
