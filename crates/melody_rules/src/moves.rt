//! Rules on the move to a note: S4, S5 and S26.

ghost use Rattle.std.specs.Prelude.{◌≡◌, ◌==◌, ◌||◌, nat_lt};
ghost use Rattle.fux_pitch.specs.Size.{interval_between};
ghost use Rattle.melody_rules.specs.Rows as rows;

use fux_grid::Cell;
use fux_pitch::{Interval, Pitch, interval_of};
use rule_law::{is_repetition, move_from, rises};

/// Whether a line may move so: by a second, a third, a fourth, a fifth, an octave, or a minor sixth
/// up.
#[inline]
fn is_melodic(i: Interval) -> bool
    ensures { result ≡ rows.is_melodic i }
{
    if i.degrees.signum() != i.semitones.signum() {
        return false;
    }
    match (i.degrees.unsigned_abs(), i.semitones.unsigned_abs()) {
        (0, 0) | (1, 1) | (1, 2) | (2, 3) | (2, 4) | (3, 5) | (4, 7) | (7, 12) => true,
        (5, 8) => rises(i),
        _ => false,
    }
}

/// Whether a move of so many degrees is a seventh, or wider than an octave.
#[inline]
fn goes_far(degrees: u16) -> bool
    ensures { result ≡ ((degrees == 6) || nat_lt 7 degrees) }
{
    degrees == 6 || degrees > 7
}

/// Whether a line may move from one pitch to another. Most moves that it may not make go too far,
/// which degrees alone tell.
#[inline]
fn leads_to(p: Pitch, q: Pitch) -> bool
    ensures { result ≡ rows.is_melodic (interval_between p q) }
{
    let degrees = (i16::from(q.degree()) - i16::from(p.degree())).unsigned_abs();
    if goes_far(degrees) {
        return false;
    }
    is_melodic(interval_of(p, q))
}

/// S4: a note starts by a move that a line may not make. A first note is never a break.
#[inline]
pub fn moves_unmelodically(previous: Option<Pitch>, now: Cell) -> bool
    ensures { result ≡ rows.moves_unmelodically previous now }
{
    match (previous, now) {
        (Some(p), Cell::Start(q)) => !leads_to(p, q),
        _ => false,
    }
}

/// S5: in species 2, 3 and 5 a note starts by a repetition.
#[inline]
pub fn repeats(species: u8, previous: Option<Pitch>, now: Cell) -> bool
    ensures { result ≡ rows.repeats species previous now }
{
    if species != 2 && species != 3 && species != 5 {
        return false;
    }
    match move_from(previous, now) {
        Some(step) => is_repetition(step),
        None => false,
    }
}

/// S26: a note starts after a sharpened one, and not one degree above it.
#[inline]
pub fn leaves_sharp(previous: Option<Pitch>, now: Cell) -> bool
    ensures { result ≡ rows.leaves_sharp previous now }
{
    match (previous, now) {
        (Some(p), Cell::Start(q)) => p.alter() == 1 && q.degree() != p.degree() + 1,
        _ => false,
    }
}
