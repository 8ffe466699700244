//! What stands on the sheet of an exercise that is printed.

ghost use Rattle.std.specs.Prelude.{◌≡◌, ◌<◌, ◌≤◌, ◌*◌, ◌+◌, if◌then◌else◌};
ghost use Rattle.fux_grid.specs.Exercises.{IsValid};
ghost use Rattle.score_print.specs.Shown.{bar_goes_on as bar_on, cantus_at, column_goes_on as column_on, goes_on as goes_on_in, handed_out_at, is_undivided as undivided_in, set_cell, shown_at as shown_in, slots_shown as slots_of};

use fux_grid::{Cell, Exercise, Given, given_at};

/// A cell of a setting, as what is given.
fn set_cell(cell: Cell) -> Given
    ensures { result ≡ set_cell cell }
{
    match cell {
        Cell::Rest => Given::Rest,
        Cell::Hold(p) => Given::Hold(p),
        Cell::Start(p) => Given::Start(p),
    }
}

/// What stands of the cantus at a column of a sheet to hand out.
fn cantus_at(ex: &Exercise, i: usize) -> Given
    ensures { result ≡ cantus_at ex.now i }
{
    match ex.cantus.as_slice().get(i / 8) {
        Some(p) if i % 8 == 0 => Given::Start(*p),
        Some(p) => Given::Hold(*p),
        None => Given::Blank,
    }
}

/// What stands at a voice's cell of a column of a sheet to hand out: the cantus, what is given, and
/// nothing else.
fn handed_out_at(ex: &Exercise, v: u8, i: usize) -> Given
    requires { i < 8 * ex.now.bars }
    ensures { result ≡ handed_out_at ex.now i v }
{
    if v == ex.cantus_voice {
        cantus_at(ex, i)
    } else {
        given_at(ex, v, i)
    }
}

/// What stands at a voice's cell of a column: that of the setting, or without one that of the sheet
/// to hand out.
#[tactic(auto, unfolding(crate::specs::Shown::shown_at))]
pub fn shown_at(ex: &Exercise, v: u8, i: usize) -> Given
    requires valid { IsValid ex.now }
    requires there { i < 8 * ex.now.bars }
    ensures { result ≡ shown_in ex.now i v }
{
    match &ex.setting {
        Some(score) => set_cell(score.cell(v as usize, i)),
        None => handed_out_at(ex, v, i),
    }
}

/// Whether what stands in a cell goes on with what stands before it.
fn goes_on(before: Given, next: Given) -> bool
    ensures { result ≡ goes_on_in before next }
{
    match next {
        Given::Blank => matches!(before, Given::Blank),
        Given::Rest => matches!(before, Given::Rest),
        Given::Tied | Given::Hold(_) => true,
        Given::Start(_) => false,
    }
}

/// Whether all voices go on at a column.
fn column_goes_on(ex: &Exercise, i: usize) -> bool
    requires valid { IsValid ex.now }
    requires there { i < 8 * ex.now.bars }
    ensures { result ≡ column_on ex.now i ex.now.voices }
{
    let mut all = true;
    for v in 0..ex.voices {
        all = all && goes_on(shown_at(ex, v, i.saturating_sub(1)), shown_at(ex, v, i));
    }
    all
}

/// Whether all voices go on at each column of a bar, counted from 0, but for the first.
fn bar_goes_on(ex: &Exercise, bar: u8) -> bool
    requires valid { IsValid ex.now }
    requires there { bar < ex.now.bars }
    ensures { result ≡ bar_on ex.now bar 7 }
{
    let first = 8 * usize::from(bar);
    let mut all = true;
    for slot in 0..7 {
        all = all && column_goes_on(ex, first + slot + 1);
    }
    all
}

/// Whether in no bar anything begins behind its first column.
fn is_undivided(ex: &Exercise) -> bool
    requires { IsValid ex.now }
    ensures { result ≡ undivided_in ex.now ex.now.bars }
{
    let mut all = true;
    for bar in 0..ex.bars {
        all = all && bar_goes_on(ex, bar);
    }
    all
}

/// How many columns of each bar are shown in systems.
#[tactic(auto, unfolding(crate::specs::Shown::slots_shown))]
pub fn slots_shown(ex: &Exercise) -> usize
    requires { IsValid ex.now }
    ensures value { result ≡ slots_of ex.now }
    ensures most { result ≤ 8 }
{
    if ex.species == 1 && is_undivided(ex) {
        1
    } else {
        8
    }
}
