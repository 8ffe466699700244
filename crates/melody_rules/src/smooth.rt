//! All rules of melody at once: a note mostly breaks none of them.

ghost use Rattle.std.specs.Prelude.{◌≡◌, ◌<◌, not, List};
ghost use Rattle.fux_grid.specs.declared.cell.Cell.{Cell};
ghost use Rattle.fux_grid.specs.Cells.{cell_in};
ghost use Rattle.melody_rules.specs.Notes.{AreNotesOf, IsNotesOf};
ghost use Rattle.melody_rules.specs.Rows as rows;
ghost use Rattle.melody_rules.specs.Smooth as smooth;

use crate::moves::{leaves_sharp, moves_unmelodically, repeats};
use crate::notes::{VoiceNotes, widens};
use crate::windows::{goes_on_after_leap, outlines_badly, turns_at_tritone};
use fux_grid::{Cell, Exercise, cell_of, species_of};
use fux_pitch::Pitch;
use rule_law::{is_free, starts};

/// Whether S4, S5 or S26 is broken by a cell after a note.
#[inline]
fn is_rough_move(species: u8, previous: Option<Pitch>, now: Cell) -> bool
    ensures { result ≡ smooth.is_rough_move species previous now }
{
    moves_unmelodically(previous, now)
        || repeats(species, previous, now)
        || leaves_sharp(previous, now)
}

/// Whether S6, S7, S8 or S9 is broken by a cell of a voice with these notes.
#[inline]
fn is_rough_line(notes: &VoiceNotes, now: Cell) -> bool
    ensures { (cells : List Cell) → IsNotesOf cells notes.now → result ≡ smooth.is_rough_line
        (rows.pitches cells) now }
{
    outlines_badly(notes.before, notes.last, now)
        || goes_on_after_leap(notes.before, notes.last, now)
        || turns_at_tritone(notes.turning, notes.before, notes.last, now)
        || widens(notes, now)
}

/// Whether a cell of a voice with these notes breaks no rule of melody: none of S4 to S9 and S26.
#[inline]
fn is_smooth(species: u8, notes: &VoiceNotes, now: Cell) -> bool
    ensures { (cells : List Cell) → IsNotesOf cells notes.now → result
        ≡ not (smooth.is_rough species (rows.pitches cells) now) }
{
    if !starts(now) {
        return true;
    }
    !is_rough_move(species, notes.last, now) && !is_rough_line(notes, now)
}

/// Whether a voice of a column is the cantus, or isn't there, or breaks no rule of melody.
#[inline]
fn is_smooth_at(ex: &Exercise, notes: &VoiceNotes, now: &[Cell], v: u8) -> bool
    ensures { (cells : List Cell) → IsNotesOf cells notes.now → result
        ≡ not (smooth.is_rough_in ex.now v cells (cell_in now.now v)) }
{
    if v >= ex.voices || !is_free(ex, v) {
        return true;
    }
    is_smooth(species_of(ex, v), notes, cell_of(now, v as usize))
}

/// Whether a voice of a column that comes after these notes breaks no rule of melody, or is the
/// cantus or isn't there.
#[inline]
pub fn is_smooth_in(ex: &Exercise, voices: &[VoiceNotes; 4], now: &[Cell], v: u8) -> bool
    requires { v < 4 }
    ensures { (behind : List (List Cell)) → AreNotesOf behind voices.now → result
        ≡ not (smooth.is_rough_at ex.now behind now.now v) }
{
    is_smooth_at(ex, &voices[v as usize], now, v)
}

/// Whether a column that comes after these notes breaks no rule of melody in any voice.
pub fn are_smooth(ex: &Exercise, voices: &[VoiceNotes; 4], now: &[Cell]) -> bool
    ensures { (behind : List (List Cell)) → AreNotesOf behind voices.now → result
        ≡ not (smooth.some_rough ex.now behind now.now) }
{
    for v in 0..4 {
        if !is_smooth_in(ex, voices, now, v) {
            return false;
        }
    }
    true
}
