//! Late rules of which a column settles no break at a place, whatever it is.

ghost use Rattle.std.specs.Prelude.{◌≡◌, ◌<◌, IsTrue};
ghost use Rattle.fux_grid.specs.Exercises.{IsValid, bar_of, columns_in, slot_of};
ghost use Rattle.fux_grid.specs.Orderly.{voice_shapes};
ghost use Rattle.rhythm_cadence.specs.Parts as parts;
ghost use Rattle.fux_judge.specs.Idle.{AreShapesAlike, DoShapesHold, EndNoQuaver, EndsNoQuaver};
ghost use Rattle.fux_judge.specs.Late.{SettleNothing};

use crate::late::without_place;
use fux_grid::{Exercise, HOLD, bar_of, shapes_of, slot_of, species_of};
use rhythm_cadence::{all_have, are_alike};
use rule_law::{RuleSet, menu_starts};

/// The shapes of a voice in the bar of column `i`.
fn shapes_at(ex: &Exercise, v: u8, i: usize) -> &'static [[u8; 8]]
    requires valid { IsValid ex.now }
    requires place { i < columns_in ex.now }
    ensures { result.now ≡ voice_shapes ex.now v (bar_of i) }
{
    shapes_of(species_of(ex, v), bar_of(i), ex.bars)
}

/// Whether all shapes of a voice have one letter at a place.
fn has_one_letter(ex: &Exercise, v: u8, i: usize) -> bool
    requires valid { IsValid ex.now }
    requires place { i < columns_in ex.now }
    ensures { result ≡ parts.are_alike (slot_of i) (voice_shapes ex.now v (bar_of i)) }
{
    are_alike(shapes_at(ex, v, i), slot_of(i))
}

/// Whether a voice holds a note there in each of its shapes.
fn holds_there(ex: &Exercise, v: u8, i: usize) -> bool
    requires valid { IsValid ex.now }
    requires place { i < columns_in ex.now }
    ensures { result ≡ parts.all_have (slot_of i) 72 (voice_shapes ex.now v (bar_of i)) }
{
    all_have(shapes_at(ex, v, i), slot_of(i), HOLD)
}

/// Whether all shapes of each voice have one letter at a place: then each cell of its menu goes on
/// with the shapes that were begun.
fn are_shapes_alike(ex: &Exercise, i: usize) -> bool
    requires valid { IsValid ex.now }
    requires place { i < columns_in ex.now }
    ensures { IsTrue result → AreShapesAlike ex.now i }
{
    for v in 0..ex.voices {
        if !has_one_letter(ex, v, i) {
            return false;
        }
    }
    true
}

/// Whether each shape of each voice holds a note at a place.
pub fn do_shapes_hold(ex: &Exercise, i: usize) -> bool
    requires valid { IsValid ex.now }
    requires place { i < columns_in ex.now }
    ensures { IsTrue result → DoShapesHold ex.now i }
{
    for v in 0..ex.voices {
        if !holds_there(ex, v, i) {
            return false;
        }
    }
    true
}

/// Whether a voice holds a note there in each of its shapes, or can't have started one in the
/// column before, and columns are to come.
fn ends_no_quaver(ex: &Exercise, v: u8, i: usize) -> bool
    requires valid { IsValid ex.now }
    requires voice { v < ex.now.voices }
    requires place { i < columns_in ex.now }
    ensures { IsTrue result → EndsNoQuaver ex.now i v }
{
    if holds_there(ex, v, i) {
        return true;
    }
    if i == 0 {
        return false;
    }
    let next = i + 1;
    let end = 8 * (ex.bars as usize);
    if next >= end {
        return false;
    }
    !menu_starts(ex, v, i - 1)
}

/// Whether that is so of each voice: then no note of one slot ends there.
fn end_no_quaver(ex: &Exercise, i: usize) -> bool
    requires valid { IsValid ex.now }
    requires place { i < columns_in ex.now }
    ensures { IsTrue result → EndNoQuaver ex.now i }
{
    for v in 0..ex.voices {
        if !ends_no_quaver(ex, v, i) {
            return false;
        }
    }
    true
}

/// Late rules of which no column that comes as column `i` settles a strict break: those without a
/// place there, S3 where each voice's shapes have one letter there, and S25 where no note of one
/// slot can end.
pub fn idle_rules(ex: &Exercise, i: usize) -> RuleSet
    requires valid { IsValid ex.now }
    requires place { i < columns_in ex.now }
    ensures { SettleNothing ex.now i result.bits }
{
    let placeless = without_place(ex, i);
    let more = placeless.with(3, are_shapes_alike(ex, i));
    more.with(25, end_no_quaver(ex, i))
}
