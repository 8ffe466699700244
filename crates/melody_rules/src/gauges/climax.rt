//! Q17: the climax struck again.

ghost use Rattle.std.specs.Prelude.{◌≡◌, ◌<◌, ◌≤◌, ◌∷◌, ℕ, List, length, pos};
ghost use Rattle.fux_pitch.specs.declared.pitch.Pitch.{Pitch as APitch};
ghost use Rattle.fux_grid.specs.Exercises.{IsFree, IsValid, columns_in};
ghost use Rattle.fux_grid.specs.Menus.{range_of};
ghost use Rattle.melody_rules.specs.Gauges as words;
ghost use Rattle.melody_rules.specs.GaugeLaws.{climax_keeps};
ghost use Rattle.melody_rules.specs.GaugeParts.{IsClimaxOf};
ghost use Rattle.melody_rules.specs.Rows.{pitches};

use fux_grid::{Cell, Exercise, bar_of, range};
use fux_pitch::{Pitch, semitone};
use rule_law::{Gauge, menu_starts};

/// The greatest key of a line's notes, 0 without notes, and how many notes have it.
#[derive(Clone, Copy, Debug, PartialEq, Eq)]
pub struct Climax {
    pub greatest: u8,
    pub count: u8,
}

/// The climax struck again: the notes at the greatest key, less one.
#[derive(Clone, Copy, Debug, PartialEq, Eq)]
pub struct Q17;

/// What is kept of the climax with one note more.
pub fn climax_with(kept: Climax, pitch: Pitch) -> Climax
    ensures { (ps : List APitch) → length ps < 192 → IsClimaxOf ps kept →
        IsClimaxOf (pitch ∷ ps) result }
{
    let key = semitone(pitch);
    if key > kept.greatest {
        return Climax {
            greatest: key,
            count: 1,
        };
    }
    if key < kept.greatest {
        return kept;
    }
    Climax {
        greatest: key,
        count: kept.count.saturating_add(1),
    }
}

/// Whether column `j` is no place for a note above the key.
fn is_topped(ex: &Exercise, v: u8, key: u8, j: usize) -> bool
    requires valid { IsValid ex.now }
    requires free { IsFree ex.now v }
    requires place { j < columns_in ex.now }
    ensures { result ≡ words.is_topped ex.now v (pos key) j }
{
    if !menu_starts(ex, v, j) {
        return true;
    }
    let (_, high) = range(ex, v, bar_of(j));
    semitone(high) <= key
}

/// Whether no column from column `i` on is a place for a note above the key.
pub fn is_final_climax(ex: &Exercise, v: u8, i: usize, key: u8) -> bool
    requires valid { IsValid ex.now }
    requires free { IsFree ex.now v }
    requires place { i ≤ columns_in ex.now }
    ensures { result ≡ words.is_final_climax ex.now v i (pos key) }
{
    let bars = usize::from(ex.bars);
    for j in i..8 * bars {
        if !is_topped(ex, v, key, j) {
            return false;
        }
    }
    true
}

impl Gauge for Q17 {
    type State = Climax;

    ghost row = { words.climax_gauge };

    ghost keeps = { climax_keeps };

    ghost is_of = { λ cells kept. IsClimaxOf (pitches cells) kept };

    fn start(&self) -> Climax {
        Climax {
            greatest: 0,
            count: 0,
        }
    }

    #[inline]
    fn step(&self, _ex: &Exercise, _v: u8, _i: usize, s: &mut Climax, c: Cell) {
        match c {
            Cell::Start(pitch) => *s = climax_with(*s, pitch),
            Cell::Hold(_) => {}
            Cell::Rest => {}
        }
    }
}
