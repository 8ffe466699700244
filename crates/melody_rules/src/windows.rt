//! Rules and a toll that look back over the notes of a voice: S6 to S9 and Q13. A move without
//! semitones goes no way.

ghost use Rattle.std.specs.Prelude.{◌≡◌, ◌&&◌, ◌-ℤ◌, pos, int_lt};
ghost use Rattle.fux_pitch.specs.Size.{IsShort};
ghost use Rattle.rule_law.specs.Terms as terms;
ghost use Rattle.melody_rules.specs.Rows as rows;

use fux_grid::Cell;
use fux_pitch::{Interval, Pitch, interval_of, is_imperfect, is_perfect, reduce};
use rule_law::{is_leap, is_step, opposite_ways, same_way};

/// Whether two leaps the same way may go so from end to end: by an octave at most, and by a
/// consonance or a fourth.
#[inline(never)]
fn is_fair_outline(whole: Interval) -> bool
    requires { IsShort whole }
    ensures { result ≡ rows.is_fair_outline whole }
{
    if whole.semitones.unsigned_abs() > 12 {
        return false;
    }
    if is_perfect(whole) || is_imperfect(whole) {
        return true;
    }
    let size = reduce(whole);
    size.degrees == 3 && size.semitones == 5
}

/// Whether two moves are leaps the same way.
#[inline]
fn leaps_on(first: Interval, second: Interval) -> bool
    ensures { result ≡ (terms.is_leap first && terms.is_leap second && terms.same_way first
        second) }
{
    is_leap(first) && is_leap(second) && same_way(first, second)
}

/// S6: a note starts by the second of two leaps the same way, which from end to end go by more than
/// an octave or by neither a consonance nor a fourth.
#[inline(always)]
pub(crate) fn outlines_badly(before: Option<Pitch>, last: Option<Pitch>, now: Cell) -> bool
    ensures { result ≡ rows.outlines_badly before last now }
{
    match (before, last, now) {
        (Some(a), Some(b), Cell::Start(c)) => {
            leaps_on(interval_of(a, b), interval_of(b, c)) && !is_fair_outline(interval_of(a, c))
        }
        _ => false,
    }
}

/// S7: a note starts after a move of a sixth or more, and not the other way.
#[inline]
pub(crate) fn goes_on_after_leap(before: Option<Pitch>, last: Option<Pitch>, now: Cell) -> bool
    ensures { result ≡ rows.goes_on_after_leap before last now }
{
    match (before, last, now) {
        (Some(a), Some(b), Cell::Start(c)) => {
            let first = interval_of(a, b);
            first.degrees.unsigned_abs() >= 5 && !opposite_ways(first, interval_of(b, c))
        }
        _ => false,
    }
}

/// Whether the latest note becomes a turning note by the note that starts.
#[inline]
pub(crate) fn turns(before: Option<Pitch>, last: Option<Pitch>, now: Cell) -> bool
    ensures { result ≡ rows.turns before last now }
{
    match (before, last, now) {
        (Some(a), Some(b), Cell::Start(c)) => opposite_ways(interval_of(a, b), interval_of(b, c)),
        _ => false,
    }
}

/// S8: a note starts by which the latest note becomes a turning note, six semitones from the
/// turning note before it.
#[inline]
pub(crate) fn turns_at_tritone(
    turning: Option<Pitch>,
    before: Option<Pitch>,
    last: Option<Pitch>,
    now: Cell,
) -> bool
    ensures { result ≡ rows.turns_at_tritone turning before last now }
{
    if !turns(before, last, now) {
        return false;
    }
    match (turning, last) {
        (Some(earlier), Some(later)) => {
            interval_of(earlier, later).semitones.unsigned_abs() == 6
        }
        _ => false,
    }
}

/// Q13: a note starts after a move of a fourth or more, and not by a step the other way.
#[inline]
pub(crate) fn leaves_leap_open(before: Option<Pitch>, last: Option<Pitch>, now: Cell) -> bool
    ensures { result ≡ rows.leaves_leap_open before last now }
{
    match (before, last, now) {
        (Some(a), Some(b), Cell::Start(c)) => {
            let first = interval_of(a, b);
            if first.degrees.unsigned_abs() < 3 {
                return false;
            }
            let second = interval_of(b, c);
            !(is_step(second) && opposite_ways(first, second))
        }
        _ => false,
    }
}

/// Whether one key is more than so many semitones above another.
#[inline]
pub(crate) fn spans_over(semitones: u8, greatest: u8, least: u8) -> bool
    ensures { result ≡ int_lt (pos semitones) (pos greatest -ℤ pos least) }
{
    i16::from(greatest) - i16::from(least) > i16::from(semitones)
}
