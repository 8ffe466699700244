//! Q18: a narrow compass.

ghost use Rattle.std.specs.Prelude.{◌≡◌, ◌∷◌, List};
ghost use Rattle.fux_pitch.specs.declared.pitch.Pitch.{Pitch as APitch};
ghost use Rattle.melody_rules.specs.Gauges as words;
ghost use Rattle.melody_rules.specs.GaugeLaws.{compass_keeps};
ghost use Rattle.melody_rules.specs.GaugeParts.{IsCompassOf};
ghost use Rattle.melody_rules.specs.Rows.{pitches};

use crate::notes::{higher, lower};
use crate::windows::spans_over;
use fux_grid::{Cell, Exercise};
use fux_pitch::{Pitch, semitone};
use rule_law::{Gauge, starts_ahead};

/// Whether a line has notes, and their greatest and least key, 0 and 127 without notes.
#[derive(Clone, Copy, Debug, PartialEq, Eq)]
pub struct Compass {
    pub any: bool,
    pub greatest: u8,
    pub least: u8,
}

/// A narrow compass: the greatest key is 6 semitones above the least at most.
#[derive(Clone, Copy, Debug, PartialEq, Eq)]
pub struct Q18;

/// With one note more.
fn with_note(kept: Compass, pitch: Pitch) -> Compass
    ensures { (ps : List APitch) → IsCompassOf ps kept → IsCompassOf (pitch ∷ ps) result }
{
    let key = semitone(pitch);
    Compass {
        any: true,
        greatest: higher(key, kept.greatest),
        least: lower(key, kept.least),
    }
}

/// Whether the compass is narrow.
#[tactic(auto, using(crate::proofs::GaugeLemmas::narrow_is))]
pub fn is_narrow(kept: Compass) -> bool
    ensures { (ps : List APitch) → IsCompassOf ps kept → result ≡ words.is_narrow ps }
{
    kept.any && !spans_over(6, kept.greatest, kept.least)
}

impl Gauge for Q18 {
    type State = Compass;

    ghost row = { words.compass_gauge };

    ghost keeps = { compass_keeps };

    ghost is_of = { λ cells kept. IsCompassOf (pitches cells) kept };

    fn start(&self) -> Compass {
        Compass {
            any: false,
            greatest: 0,
            least: 127,
        }
    }

    #[inline]
    fn step(&self, _ex: &Exercise, _v: u8, _i: usize, s: &mut Compass, c: Cell) {
        match c {
            Cell::Start(pitch) => *s = with_note(*s, pitch),
            Cell::Hold(_) => {}
            Cell::Rest => {}
        }
    }
}
