//! The crate of rules, and its rules of one voice.

ghost use Rattle.std.specs.Prelude.{◌≡◌, ◌<◌, length};
ghost use Rattle.rule_law.specs.Places.{reading_of};
ghost use Rattle.melody_rules.specs.Rows as rows;

use crate::moves::{leaves_sharp, moves_unmelodically, repeats};
use crate::notes::{breaks_after, notes_before};
use fux_grid::{Cell, Exercise, Score, VoiceSet, cell_of, species_of};
use fux_pitch::Pitch;
use rule_law::{Latest, is_free, starts, voice_of};

/// A rule of neighbors for one voice.
#[inline(always)]
fn breaks_in_voice(rule: u8, species: u8, previous: Option<Pitch>, now: Cell) -> bool
    ensures { result ≡ rows.voice_rule rule species previous now }
{
    match rule {
        4 => moves_unmelodically(previous, now),
        5 => repeats(species, previous, now),
        _ => leaves_sharp(previous, now),
    }
}

/// Whether S4, S5 or S26 is broken in a column, from the pitch of each voice's latest note before
/// it.
#[inline(always)]
pub fn breaks(
    rule: u8,
    ex: &Exercise,
    voices: VoiceSet,
    i: usize,
    before: &[Cell],
    latest: &Latest,
    now: &[Cell],
) -> bool
    ensures { result ≡ rows.near_rows rule ex.now voices.bits i before.now latest.now.pitches
        now.now }
{
    match voice_of(voices) {
        Some(v) => {
            if v >= ex.voices || !is_free(ex, v) {
                return false;
            }
            breaks_in_voice(
                rule,
                species_of(ex, v),
                latest.of(v as usize),
                cell_of(now, v as usize),
            )
        }
        None => false,
    }
}

/// Whether a rule looks back over the notes of a voice.
#[inline]
pub(crate) fn looks_back(rule: u8) -> bool
    ensures { result ≡ rows.looks_back rule }
{
    rule == 6 || rule == 7 || rule == 8 || rule == 9
}

/// Whether S6, S7, S8 or S9 is broken at a place of a score.
pub(crate) fn breaks_in_score(
    rule: u8,
    ex: &Exercise,
    score: &Score,
    i: usize,
    voices: VoiceSet,
) -> bool
    requires { i < length score.now.columns }
    ensures { result ≡ reading_of (rows.window_rows rule ex.now voices.bits) score.now.columns i }
{
    match voice_of(voices) {
        Some(v) => {
            if v >= ex.voices || !is_free(ex, v) {
                return false;
            }
            let now = score.cell(v as usize, i);
            if !starts(now) {
                return false;
            }
            breaks_after(rule, &notes_before(score, v, i), now)
        }
        None => false,
    }
}

/// The rules S4 to S9 and S26, and the tolls Q7 to Q10 and Q13.
#[derive(Clone, Copy, Debug, PartialEq, Eq)]
pub struct Melody;
