//! Clashes within a bar that wait for the next note of their voice.

ghost use Rattle.std.specs.Prelude.{◌≡◌};
ghost use Rattle.open_ends.specs.Passing as words;

use crate::asked::is_asked;
use crate::keeps::Keeps;
use crate::keys::{key_of, mixed};
use crate::part::OpenPart;
use dissonance_rules::{falls_by_step, is_neighbor, is_passing};
use fux_grid::{Cell, Exercise, cell_of, is_mixed, species_of};
use fux_pitch::Pitch;
use rhythm_cadence::is_step_apart;
use rule_law::{begins_bar, is_clean, lies_above, starts};

/// A clash of the species voice that waits for the voice's next note.
#[derive(Clone, Copy, Debug, PartialEq, Eq)]
pub struct OpenPassing {
    /// The pitch before the newest note, where that note began within a bar in a clash, and no note
    /// came after it.
    pub origin: Option<Pitch>,
}

/// Whether a note of the voice starts within a bar, and clashes with another voice.
fn begins_in_clash(i: usize, now: &[Cell], v: usize) -> bool
    ensures { result ≡ words.begins_in_clash i now.now v }
{
    !begins_bar(i) && starts(cell_of(now, v)) && !is_clean(now, v)
}

/// The pitch before the newest note that began within a bar in a clash, where this one waited
/// before the column.
fn passing_after(
    i: usize,
    waiting: Option<Pitch>,
    before: &[Cell],
    now: &[Cell],
    v: usize,
) -> Option<Pitch>
    ensures { result ≡ words.passing_after i waiting before.now now.now v }
{
    if !starts(cell_of(now, v)) {
        return waiting;
    }
    if begins_in_clash(i, now, v) {
        cell_of(before, v).pitch()
    } else {
        None
    }
}

/// Whether these are the first three notes of a cambiata, the last of which is clean or not.
fn begins_cambiata(
    previous: Option<Pitch>,
    here: Option<Pitch>,
    next: Option<Pitch>,
    clean: bool,
) -> bool
    ensures { result ≡ words.begins_cambiata previous here next clean }
{
    falls_by_step(previous, here) && lies_above(2, here, next) && clean
}

/// Whether a note is good as far as the next one tells.
fn may_be_good(
    species: u8,
    previous: Option<Pitch>,
    here: Option<Pitch>,
    next: Option<Pitch>,
    clean: bool,
) -> bool
    ensures { result ≡ words.may_be_good species previous here next clean }
{
    if is_passing(previous, here, next) {
        return true;
    }
    if species != 3 && species != 5 {
        return false;
    }
    is_neighbor(previous, here, next) || begins_cambiata(previous, here, next, clean)
}

/// Whether the voice leaves a note that waits, and so it isn't good.
fn is_left_badly(
    species: u8,
    waiting: Option<Pitch>,
    before: &[Cell],
    now: &[Cell],
    v: usize,
) -> bool
    ensures { result ≡ words.is_left_badly species waiting before.now now.now v }
{
    if waiting.is_none() || !starts(cell_of(now, v)) {
        return false;
    }
    let (here, next) = (cell_of(before, v).pitch(), cell_of(now, v).pitch());
    !may_be_good(species, waiting, here, next, is_clean(now, v))
}

/// Whether the voice comes to a clash within a bar by no step.
fn is_reached_badly(i: usize, before: &[Cell], now: &[Cell], v: usize) -> bool
    ensures { result ≡ words.is_reached_badly i before.now now.now v }
{
    begins_in_clash(i, now, v)
        && !is_step_apart(cell_of(before, v).pitch(), cell_of(now, v).pitch())
}

/// Whether S15 is strictly broken in every setting that goes on so.
fn breaks_passing(
    ex: &Exercise,
    i: usize,
    waiting: &OpenPassing,
    before: &[Cell],
    now: &[Cell],
) -> bool
    ensures { result ≡ words.breaks_passing ex.now i waiting.now before.now now.now }
{
    let v = ex.species_voice as usize;
    let species = species_of(ex, ex.species_voice);
    is_left_badly(species, waiting.origin, before, now, v) || is_reached_badly(i, before, now, v)
}

/// Whether S15 is read: of one species alone, where no line relaxes it.
fn is_read(ex: &Exercise) -> bool
    ensures { result ≡ words.is_read ex.now }
{
    !is_mixed(ex) && is_asked(ex, 15)
}

impl OpenPart for OpenPassing {
    ghost nothing = { words.nothing };

    ghost open_in = { words.open_in };

    ghost open_after = { words.open_after };

    fn none() -> OpenPassing {
        OpenPassing { origin: None }
    }

    fn is_same(&self, other: &OpenPassing) -> bool {
        self.origin == other.origin
    }

    fn key(&self, before: u64) -> u64 {
        mixed(before, key_of(self.origin))
    }

    fn after(
        ex: &Exercise,
        _keeps: Keeps,
        i: usize,
        kept: &OpenPassing,
        before: &[Cell],
        now: &[Cell],
    ) -> Option<OpenPassing> {
        if !is_read(ex) {
            return Some(OpenPassing::none());
        }
        if breaks_passing(ex, i, kept, before, now) {
            return None;
        }
        let v = ex.species_voice as usize;
        Some(OpenPassing {
            origin: passing_after(i, kept.origin, before, now, v),
        })
    }

    fn lawful_steps_go_on() {}
}
