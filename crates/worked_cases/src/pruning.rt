//! Columns in four voices that the lowest of them prune, worked by hand.

ghost use Rattle.std.specs.Prelude.{◌≡◌, ◌<◌, ◌≤◌, length};
ghost use Rattle.fux_grid.specs.Exercises.{IsValid, columns_in};

use crate::agree::agree;
use crate::parts::{parts, wanted};
use crate::tables::COLUMNS;
use fux_grid::{Column, Exercise, Score};
use fux_judge::{State, is_always_dead, pruned_within, step};
use penalty_sheet::default_sheet;
use short_scores::case_of;
use std::alloc::Global;

/// The state after the first columns of a score. What is held prunes no column, whatever the limit.
fn after(ex: &Exercise, score: &Score, columns: usize) -> Option<State>
    requires valid { IsValid ex.now }
    requires voices { score.now.voices ≡ ex.now.voices }
    requires within { columns ≤ length score.now.columns }
{
    let sheet = default_sheet();
    let mut state = State::start(ex);
    for i in 0..columns {
        let column = score.column(i);
        if state.newest.len >= 8 * usize::from(ex.bars) {
            return None;
        }
        if i % 8 > 0 {
            let broken = pruned_within(ex, &sheet, &state, column, 0, None);
            let costly = pruned_within(ex, &sheet, &state, column, 4, Some(0));
            if broken.is_some() || costly.is_some() {
                return None;
            }
        }
        state = step(ex, &sheet, &state, column).state;
    }
    Some(state)
}

/// How many of the lowest voices prune the column of a number by what they break, and whether it is
/// dead by its sound alone; a step has to say so too.
fn broken_text(
    alloc: Global,
    ex: &Exercise,
    state: &State,
    column: &Column,
    i: usize,
) -> Option<String>
    requires valid { IsValid ex.now }
    requires room { state.now.newest.len < columns_in ex.now }
    requires full { length column.now.items ≡ ex.now.voices }
    requires place { i < columns_in ex.now }
{
    let sheet = default_sheet();
    let broken = pruned_within(ex, &sheet, state, column, 0, None);
    let dead = is_always_dead(ex, i, column);
    if step(ex, &sheet, state, column).breaks() != (dead || broken.is_some()) {
        return None;
    }
    format!(in alloc; "\nbroken within {broken:?}, always dead {dead}").ok()
}

/// How many of the lowest voices prune a column by what they cost within a limit.
fn costly_text(
    alloc: Global,
    ex: &Exercise,
    state: &State,
    column: &Column,
    limit: &str,
) -> Option<String>
    requires valid { IsValid ex.now }
    requires room { state.now.newest.len < columns_in ex.now }
    requires full { length column.now.items ≡ ex.now.voices }
{
    let sheet = default_sheet();
    let costly = pruned_within(ex, &sheet, state, column, 4, limit.parse::<u64>().ok());
    format!(in alloc; "\nlimit {limit}, costly within {costly:?}").ok()
}

/// What prunes the last column of a score: what it breaks, or what it costs where a limit is
/// wanted.
fn pruned_text(alloc: Global, ex: &Exercise, score: &Score, wanted: &str) -> Option<String>
    requires valid { IsValid ex.now }
    requires voices { score.now.voices ≡ ex.now.voices }
{
    if score.is_empty() {
        return None;
    }
    let last = score.len() - 1;
    let state = after(ex, score, last)?;
    let columns = 8 * usize::from(ex.bars);
    if state.newest.len >= columns || last >= columns {
        return None;
    }
    let column = score.column(last);
    match wanted.split_once("limit ") {
        None => broken_text(alloc, ex, &state, column, last),
        Some((_, limit)) => {
            let (limit, _) = limit.split_once(',')?;
            costly_text(alloc, ex, &state, column, limit)
        }
    }
}

/// What prunes the last column of a case.
fn pruned_in(alloc: Global, text: &str) -> Option<String> {
    let (text, wanted) = parts(text)?;
    let case = case_of(alloc, text)?;
    pruned_text(alloc, &case.exercise, &case.score, wanted)
}

#[test]
fn the_lowest_voices_prune_columns(rt: HostRuntime) {
    for text in COLUMNS.split("\n\n") {
        let found = pruned_in(rt.alloc(), text);
        agree(&rt, text, found.as_deref(), wanted(text));
    }
}
