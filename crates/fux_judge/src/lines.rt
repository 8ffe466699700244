//! What the gauges cost at least in each setting that a prefix begins.

ghost use Rattle.std.specs.Prelude.{◌≡◌, ◌≤◌, ◌<◌};
ghost use Rattle.fux_grid.specs.Exercises.{IsFree, IsValid, columns_in};
ghost use Rattle.melody_rules.specs.Gauges.{climax_least};
ghost use Rattle.fux_judge.specs.Gauges as words;
ghost use Rattle.fux_judge.specs.GaugeStates.{TellsOfLine};
ghost use Rattle.fux_judge.specs.Verdicts.{AtPrefix};

use crate::ahead::{LineAhead, is_final};
use crate::gauges::{LineGauges, weighed};
use crate::state::State;
use fux_grid::Exercise;
use melody_rules::{is_narrow, leap_excess};
use penalty_sheet::Sheet;
use rule_law::is_free;

/// The notes at a line's climax, less one, where no note above it can come; else 0.
#[inline(always)]
fn climax_repeats(ex: &Exercise, v: u8, i: usize, kept: &LineGauges, ahead: &LineAhead) -> u8
    requires valid { IsValid ex.now }
    requires free { IsFree ex.now v }
    requires place { i ≤ columns_in ex.now }
    ensures { TellsOfLine ex.now v i kept.now ahead.now (climax_least ex.now v) result }
{
    if kept.climax.count < 2 {
        return 0;
    }
    if !is_final(ex, v, i, ahead, kept.climax.greatest) {
        return 0;
    }
    kept.climax.count - 1
}

/// What a line of a free voice costs at least that begins with these `i` cells.
#[inline(always)]
fn least_of_line(
    ex: &Exercise,
    sheet: &Sheet,
    v: u8,
    i: usize,
    kept: &LineGauges,
    ahead: &LineAhead,
) -> u64
    requires valid { IsValid ex.now }
    requires free { IsFree ex.now v }
    requires place { i ≤ columns_in ex.now }
    ensures value { TellsOfLine ex.now v i kept.now ahead.now (words.least_of_line ex.now sheet.now
        v) result }
    ensures bound { result ≤ 83622660 }
{
    let climax = climax_repeats(ex, v, i, kept, ahead);
    let compass = ahead.starts == 0 && is_narrow(kept.compass);
    let leaps = leap_excess(kept.leaps).saturating_sub(ahead.starts);
    weighed(sheet, climax, compass, leaps, kept.strikes.beyond)
}

/// What the line of a voice of a state costs at least, nothing where the voice isn't free.
#[inline(always)]
fn least_of_voice(ex: &Exercise, sheet: &Sheet, v: u8, state: &State) -> u64
    requires valid { IsValid ex.now }
    requires voice { v < ex.now.voices }
    requires room { state.now.newest.len ≤ columns_in ex.now }
    ensures value { AtPrefix ex.now state.now (λ p. result ≡ words.least_of_voice ex.now sheet.now v
        p) }
    ensures bound { result ≤ 83622660 }
{
    if !is_free(ex, v) {
        return 0;
    }
    let line = v as usize;
    least_of_line(
        ex,
        sheet,
        v,
        state.newest.len,
        &state.gauges[line],
        &state.ahead[line],
    )
}

/// What the lines of the free voices cost at least, by the gauges' weights, in each setting that
/// the state's prefix begins.
#[inline(always)]
pub fn least(ex: &Exercise, sheet: &Sheet, state: &State) -> u64
    requires valid { IsValid ex.now }
    requires room { state.now.newest.len ≤ columns_in ex.now }
    ensures value { AtPrefix ex.now state.now (λ p. result ≡ words.least_of ex.now sheet.now p) }
    ensures bound { result ≤ 334490640 }
{
    let mut sum = 0u64;
    for v in 0..ex.voices {
        sum += least_of_voice(ex, sheet, v, state);
    }
    sum
}
