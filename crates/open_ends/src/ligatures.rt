//! Ligatures that clash at the beginning of a bar, and wait for the middle of it.

ghost use Rattle.std.specs.Prelude.{◌≡◌};
ghost use Rattle.open_ends.specs.Ligatures as words;

use crate::asked::is_asked;
use crate::keeps::Keeps;
use crate::keys::{key_of, mixed};
use crate::part::OpenPart;
use fux_grid::{Cell, Exercise, cell_of, slot_of};
use fux_pitch::Pitch;
use rule_law::{begins_bar, is_clean, lies_above, starts};

/// A ligature of the species voice that waits for the middle of its bar.
#[derive(Clone, Copy, Debug, PartialEq, Eq)]
pub struct OpenLigature {
    /// The pitch of a ligature that clashed at the beginning of its bar, until the column in which
    /// it has to resolve.
    pub pitch: Option<Pitch>,
}

/// The pitch that the voice holds in a column, if it clashes there with another voice.
fn held_in_clash(now: &[Cell], v: usize) -> Option<Pitch>
    ensures { result ≡ words.held_in_clash now.now v }
{
    let cell = cell_of(now, v);
    if cell.is_hold() && !is_clean(now, v) {
        cell.pitch()
    } else {
        None
    }
}

/// The pitch of a ligature that waits behind a column, where this one waited before it.
fn ligature_after(i: usize, waiting: Option<Pitch>, now: &[Cell], v: usize) -> Option<Pitch>
    ensures { result ≡ words.ligature_after i waiting now.now v }
{
    if begins_bar(i) {
        return held_in_clash(now, v);
    }
    if slot_of(i) < 4 { waiting } else { None }
}

/// Whether a note starts one degree below the pitch that waits, where the voice is clean.
fn is_resolution(waiting: Option<Pitch>, now: &[Cell], v: usize) -> bool
    ensures { result ≡ words.is_resolution waiting now.now v }
{
    let cell = cell_of(now, v);
    starts(cell) && lies_above(1, waiting, cell.pitch()) && is_clean(now, v)
}

/// Whether a ligature that waits is let go at once, or doesn't resolve in the middle of the bar.
fn is_unresolved(i: usize, waiting: Option<Pitch>, now: &[Cell], v: usize) -> bool
    ensures { result ≡ words.is_unresolved i waiting now.now v }
{
    if waiting.is_none() {
        return false;
    }
    match slot_of(i) {
        1 => !cell_of(now, v).is_hold(),
        4 => !is_resolution(waiting, now, v),
        _ => false,
    }
}

impl OpenPart for OpenLigature {
    ghost nothing = { words.nothing };

    ghost open_in = { words.open_in };

    ghost open_after = { words.open_after };

    fn none() -> OpenLigature {
        OpenLigature { pitch: None }
    }

    fn is_same(&self, other: &OpenLigature) -> bool {
        self.pitch == other.pitch
    }

    fn key(&self, before: u64) -> u64 {
        mixed(before, key_of(self.pitch))
    }

    fn after(
        ex: &Exercise,
        _keeps: Keeps,
        i: usize,
        kept: &OpenLigature,
        _before: &[Cell],
        now: &[Cell],
    ) -> Option<OpenLigature> {
        if !is_asked(ex, 20) {
            return Some(OpenLigature::none());
        }
        let v = ex.species_voice as usize;
        if is_unresolved(i, kept.pitch, now, v) {
            return None;
        }
        Some(OpenLigature {
            pitch: ligature_after(i, kept.pitch, now, v),
        })
    }

    fn lawful_steps_go_on() {}
}
