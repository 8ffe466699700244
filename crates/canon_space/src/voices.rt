//! The rules of one voice.

ghost use Rattle.std.specs.Prelude.{◌≡◌, List};
ghost use Rattle.std.specs.List.{list_any};
ghost use Rattle.fux_grid.specs.declared.cell.Cell.{Cell as ACell};
ghost use Rattle.melody_rules.specs.Notes.{IsNotesOf};
ghost use Rattle.melody_rules.specs.Rows.{pitches};
ghost use Rattle.canon_space.specs.Rules as rules;

use fux_grid::Cell;
use melody_rules::{VoiceNotes, breaks_after, leaves_sharp, moves_unmelodically};

/// Whether a rule is broken by what a voice with these notes does in the next bar.
pub fn breaks_voice(notes: &VoiceNotes, now: Cell) -> bool
    ensures { (cells : List ACell) → IsNotesOf cells notes.now →
        result ≡ list_any (rules.breaks_voice (pitches cells) now) rules.voice_rules }
{
    moves_unmelodically(notes.last, now)
        || breaks_after(6, notes, now)
        || breaks_after(7, notes, now)
        || breaks_after(8, notes, now)
        || breaks_after(9, notes, now)
        || leaves_sharp(notes.last, now)
}
