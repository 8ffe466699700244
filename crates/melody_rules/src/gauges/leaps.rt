//! Q19: too many leaps.

ghost use Rattle.std.specs.Prelude.{◌≡◌, ◌-◌, ◌*◌, ◌<◌, ◌≤◌, ◌∷◌, List, Some, length};
ghost use Rattle.fux_pitch.specs.declared.pitch.Pitch.{Pitch as APitch};
ghost use Rattle.rule_law.specs.Terms as terms;
ghost use Rattle.melody_rules.specs.Gauges as words;
ghost use Rattle.melody_rules.specs.GaugeLaws.{leaps_keeps};
ghost use Rattle.melody_rules.specs.GaugeParts.{IsLeapsOf};
ghost use Rattle.melody_rules.specs.Rows.{pitches};

use fux_grid::{Cell, Exercise};
use fux_pitch::{Pitch, interval_of};
use rule_law::{Gauge, is_leap, starts_ahead};

/// The pitch of a line's latest note, how many notes it has, and how many of them are entered by a
/// leap.
#[derive(Clone, Copy, Debug, PartialEq, Eq)]
pub struct Leaps {
    pub last: Option<Pitch>,
    pub notes: u8,
    pub leaps: u8,
}

/// Too many leaps: three times the leaps, less the moves.
#[derive(Clone, Copy, Debug, PartialEq, Eq)]
pub struct Q19;

/// Whether a note is entered by a leap from the one before it, where there is one.
pub fn is_leap_to(last: Option<Pitch>, pitch: Pitch) -> bool
    ensures { result ≡ terms.holds_of terms.is_leap (terms.interval_of_pitches last (Some pitch)) }
{
    match last {
        Some(p) => is_leap(interval_of(p, pitch)),
        None => false,
    }
}

/// What is kept of the leaps with one note more.
pub fn leaps_with(kept: Leaps, pitch: Pitch) -> Leaps
    ensures { (ps : List APitch) → length ps < 192 → IsLeapsOf ps kept →
        IsLeapsOf (pitch ∷ ps) result }
{
    Leaps {
        last: Some(pitch),
        notes: kept.notes.saturating_add(1),
        leaps: kept
            .leaps
            .saturating_add(u8::from(is_leap_to(kept.last, pitch))),
    }
}

/// Three times the leaps, less the moves.
pub fn leap_excess(kept: Leaps) -> u32
    ensures value { (ps : List APitch) → IsLeapsOf ps kept →
        result ≡ 3 * words.leaps_in ps - words.moves_in ps }
    ensures bound { result ≤ 765 }
{
    (3 * u32::from(kept.leaps)).saturating_sub(u32::from(kept.notes).saturating_sub(1))
}

impl Gauge for Q19 {
    type State = Leaps;

    ghost row = { words.leaps_gauge };

    ghost keeps = { leaps_keeps };

    ghost is_of = { λ cells kept. IsLeapsOf (pitches cells) kept };

    fn start(&self) -> Leaps {
        Leaps {
            last: None,
            notes: 0,
            leaps: 0,
        }
    }

    #[inline]
    fn step(&self, _ex: &Exercise, _v: u8, _i: usize, s: &mut Leaps, c: Cell) {
        match c {
            Cell::Start(pitch) => *s = leaps_with(*s, pitch),
            Cell::Hold(_) => {}
            Cell::Rest => {}
        }
    }
}
