//! The rules of one free voice but for its shapes, all at once: a voice mostly breaks none of them.

ghost use Rattle.std.specs.Prelude.{◌≡◌, ◌<◌, not};
ghost use Rattle.fux_grid.specs.Exercises.{IsValid, columns_in};
ghost use Rattle.rhythm_cadence.specs.InPlace as place;

use crate::rows::{leaves_gamut, leaves_range, opens_badly};
use fux_grid::{Cell, Exercise, cell_of};
use rule_law::{Latest, is_free};

/// Whether a free voice of a column breaks one of S1, S2 and S12.
#[inline]
fn is_out_of_place(ex: &Exercise, i: usize, latest: &Latest, now: &[Cell], v: u8) -> bool
    requires valid { IsValid ex.now }
    requires place { i < columns_in ex.now }
    ensures { result ≡ place.is_out_of_place_at ex.now i latest.now.pitches now.now v }
{
    if v >= ex.voices || !is_free(ex, v) {
        return false;
    }
    let cell = cell_of(now, v as usize);
    leaves_range(ex, v, i, cell)
        || leaves_gamut(ex, i, cell)
        || opens_badly(ex, latest.of(v as usize), now, v)
}

/// Whether a column breaks none of S1, S2 and S12 in any voice, from the pitch of each voice's
/// latest note before it.
pub fn are_in_place(ex: &Exercise, i: usize, latest: &Latest, now: &[Cell]) -> bool
    requires valid { IsValid ex.now }
    requires place { i < columns_in ex.now }
    ensures { result ≡ not (place.some_out_of_place ex.now i latest.now.pitches now.now) }
{
    for v in 0..4 {
        if is_out_of_place(ex, i, latest, now, v) {
            return false;
        }
    }
    true
}
