//! The tables, read by one loop.

ghost use Rattle.std.specs.Prelude.{◌≡◌, ◌≤◌, length};
ghost use Rattle.fux_grid.specs.Exercises.{IsValid, columns_in};

use crate::agree::agree;
use crate::found::add_found;
use crate::parts::wanted;
use crate::{chords, lines, mixed_rows, spans};
use fux_grid::{Exercise, Score};
use short_scores::case_of;
use std::alloc::Global;

/// What stands of what is asked of a score, behind the word `last` at its last column alone.
fn found_of(alloc: Global, asked: &str, ex: &Exercise, score: &Score) -> Option<String>
    requires valid { IsValid ex.now }
    requires voices { score.now.voices ≡ ex.now.voices }
    requires few { length score.now.columns ≤ columns_in ex.now }
{
    let (asked, from) = match asked.strip_prefix("last ") {
        Some(asked) => (asked, score.len().saturating_sub(1)),
        None => (asked, 0),
    };
    let mut found = String::new(alloc);
    add_found(&mut found, asked, ex, score, from)?;
    Some(found)
}

/// What stands in a case.
fn found_in(alloc: Global, text: &str) -> Option<String> {
    let (asked, text) = text.split_once('\n')?;
    let (text, _) = text.split_once('=')?;
    let case = case_of(alloc, text)?;
    found_of(alloc, asked, &case.exercise, &case.score)
}

#[test]
fn cases_stand(rt: HostRuntime) {
    for table in [chords::CASES, lines::CASES, mixed_rows::CASES, spans::CASES] {
        for text in table.split("\n\n") {
            let found = found_in(rt.alloc(), text);
            agree(&rt, text, found.as_deref(), wanted(text));
        }
    }
}
