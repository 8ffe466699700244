//! Q20: one pitch struck often.

ghost use Rattle.std.specs.Prelude.{◌≡◌, ◌<◌, ◌∷◌, ◌%◌, ◌==◌, List, length};
ghost use Rattle.fux_pitch.specs.declared.pitch.Pitch.{Pitch as APitch};
ghost use Rattle.melody_rules.specs.Gauges as words;
ghost use Rattle.melody_rules.specs.GaugeLaws.{strikes_keeps};
ghost use Rattle.melody_rules.specs.GaugeParts.{IsStrikesOf, half, place_in, unit};
ghost use Rattle.melody_rules.specs.Rows.{pitches};

use fux_grid::{Cell, Exercise};
use fux_pitch::Pitch;
use rule_law::Gauge;

/// How often each pitch was struck, by degree and alteration, and how many notes were beyond the
/// fourth of their pitch. A count goes up to four, and two share a number: that of an even place is
/// what 16 leaves of it, and that of the odd place behind how often 16 goes into it.
#[derive(Clone, Copy, Debug, PartialEq, Eq)]
pub struct Strikes {
    pub counts: [u8; 74],
    pub beyond: u8,
}

/// One pitch struck often: the notes of a pitch beyond its fourth.
#[derive(Clone, Copy, Debug, PartialEq, Eq)]
pub struct Q20;

/// The place of a pitch among all of them, by degree and alteration.
pub fn place_of(p: Pitch) -> usize
    ensures value { result ≡ place_in p }
    ensures bound { result < 147 }
{
    let alter = match p.alter() {
        -1 => 0,
        0 => 1,
        _ => 2,
    };
    3 * (usize::from(p.degree()) - 7) + alter
}

/// The count of a place, of the two that share its number.
#[inline]
fn count_of(place: usize, number: u8) -> u8
    ensures { result ≡ half (place % 2 == 0) number }
{
    if place % 2 == 0 {
        number % 16
    } else {
        number / 16
    }
}

/// By how much the number of a place grows with one more.
#[inline]
fn unit_of(place: usize) -> u8
    ensures { result ≡ unit (place % 2 == 0) }
{
    if place % 2 == 0 { 1 } else { 16 }
}

/// Takes in one note more.
#[inline]
fn strike(kept: &mut Strikes, pitch: Pitch)
    ensures { (ps : List APitch) → length ps < 192 → IsStrikesOf ps kept.old →
        IsStrikesOf (pitch ∷ ps) kept.new }
{
    let place = place_of(pitch);
    let number = kept.counts[place / 2];
    let count = count_of(place, number);
    if count >= 4 {
        kept.beyond = kept.beyond.saturating_add(1);
        return;
    }
    let more = number + unit_of(place);
    kept.counts[place / 2] = more;
}

impl Gauge for Q20 {
    type State = Strikes;

    ghost row = { words.strikes_gauge };

    ghost keeps = { strikes_keeps };

    ghost is_of = { λ cells kept. IsStrikesOf (pitches cells) kept };

    fn start(&self) -> Strikes {
        Strikes {
            counts: [0; 74],
            beyond: 0,
        }
    }

    #[inline]
    fn step(&self, _ex: &Exercise, _v: u8, _i: usize, s: &mut Strikes, c: Cell) {
        match c {
            Cell::Start(pitch) => strike(s, pitch),
            Cell::Hold(_) => {}
            Cell::Rest => {}
        }
    }
}
