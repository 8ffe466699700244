//! Rules that a column keeps, as can be told for many of them at once.

ghost use Rattle.std.specs.Prelude.{◌≡◌, ◌&&◌, [], false, is_none, not, nat_lt, ℕ, IsTrue};
ghost use Rattle.std.specs.Bool.{OnTrue};
ghost use Rattle.std.specs.List.{list_all};
ghost use Rattle.fux_grid.specs.Columns.{Columns};
ghost use Rattle.fux_judge.specs.Rules.{all_sets, is_late, rules_at_once};
ghost use Rattle.fux_judge.specs.Moments.{IsReadable, IsAfter, breaks_one_of, is_strictly_broken_then};
ghost use Rattle.fux_judge.specs.Kept.{begins_line, some_begins};
ghost use Rattle.fux_judge.specs.Pruning.{IsToldAt};

use crate::moment::Moment;
use crate::numbers::{all_at_once, left_at_a_bar, left_at_the_end, left_within_bars};
use crate::reading::is_strictly_broken_now;
use dissonance_rules::are_apart;
use fux_grid::cell_of;
use melody_rules::are_smooth;
use motion_rules::are_clear;
use rhythm_cadence::{are_in_place, begins_last_bar};
use rule_law::{begins_bar, starts};

/// Whether a voice's first note starts in the column.
#[inline]
fn begins_line(m: &Moment<'_>, v: usize) -> bool
    ensures { result ≡ begins_line m.now.latest.pitches m.now.column.now v }
{
    starts(cell_of(m.column, v)) && m.latest.of(v).is_none()
}

/// Whether no voice's first note starts in the column.
#[inline]
fn begins_no_line(m: &Moment<'_>) -> bool
    ensures { OnTrue result (some_begins m.now.latest.pitches m.now.column.now ≡ false) }
{
    if begins_line(m, 0) {
        return false;
    }
    if begins_line(m, 1) {
        return false;
    }
    if begins_line(m, 2) {
        return false;
    }
    if begins_line(m, 3) {
        return false;
    }
    true
}

/// Whether the column breaks S12 strictly. It stays a call, since few columns begin a line.
#[inline(never)]
fn breaks_opening(m: &Moment<'_>) -> bool
    requires { IsReadable m.now }
    ensures { (p : Columns) → IsAfter p m.now → result
        ≡ is_strictly_broken_then all_sets 12 p m.now }
{
    is_strictly_broken_now(12, m)
}

/// Whether the column keeps S12: where no voice's first note starts in it, nothing has to fit.
#[inline(always)]
pub(crate) fn opens_well(m: &Moment<'_>) -> bool
    requires { IsReadable m.now }
    ensures { (p : Columns) → IsAfter p m.now → result
        ≡ not (is_strictly_broken_then all_sets 12 p m.now) }
{
    if begins_no_line(m) {
        return true;
    }
    !breaks_opening(m)
}

/// The rules that are left to read of a column of which all but S12 is told: none, or all.
fn left_of_told(m: &Moment<'_>) -> &'static [u8]
    requires readable { IsReadable m.now }
    requires nothing { m.now.exercise.now.relax ≡ [] }
    requires told { IsToldAt m.now }
    ensures numbers { IsTrue (list_all (λ rule. nat_lt rule 32 && not (is_late rule)) result.now) }
    ensures kept { (p : Columns) → IsAfter p m.now → (r : ℕ) → breaks_one_of result.now p m.now r
        ≡ breaks_one_of rules_at_once p m.now r }
{
    if opens_well(m) {
        return left_within_bars();
    }
    all_at_once()
}

/// The rules that are left to read by what tests tell. A column mostly passes them, and then few
/// are left, or none.
fn left_by_tests(m: &Moment<'_>) -> &'static [u8]
    requires { IsReadable m.now }
    ensures numbers { IsTrue (list_all (λ rule. nat_lt rule 32 && not (is_late rule)) result.now) }
    ensures kept { (p : Columns) → IsAfter p m.now → (r : ℕ) → breaks_one_of result.now p m.now r
        ≡ breaks_one_of rules_at_once p m.now r }
{
    if !are_smooth(m.exercise, &m.state.past.parts.first, m.column) {
        return all_at_once();
    }
    if !are_clear(m.exercise, m.before, m.column) {
        return all_at_once();
    }
    if !are_in_place(m.exercise, m.state.newest.len, &m.latest, m.column) {
        return all_at_once();
    }
    if !begins_bar(m.state.newest.len) {
        return left_within_bars();
    }
    if begins_last_bar(m.exercise, m.state.newest.len) {
        return left_at_the_end();
    }
    if are_apart(m.exercise, m.column) {
        return left_within_bars();
    }
    left_at_a_bar()
}

/// The rules that are left to read: the column keeps all others. What is told where nothing is
/// relaxed isn't asked.
pub(crate) fn rules_left(m: &Moment<'_>, told: bool) -> &'static [u8]
    requires readable { IsReadable m.now }
    requires told { IsTrue told → IsToldAt m.now }
    ensures numbers { IsTrue (list_all (λ rule. nat_lt rule 32 && not (is_late rule)) result.now) }
    ensures kept { (p : Columns) → IsAfter p m.now → (r : ℕ) → breaks_one_of result.now p m.now r
        ≡ breaks_one_of rules_at_once p m.now r }
{
    if !told {
        return left_by_tests(m);
    }
    if !m.exercise.relax.as_slice().is_empty() {
        return left_by_tests(m);
    }
    left_of_told(m)
}
