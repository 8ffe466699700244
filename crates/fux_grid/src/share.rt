//! Types that threads may share and pass on.

use crate::cell::{Cell, Column, Note, Onset};
use crate::exercise::{Exercise, Head, Place, RangeLine, Relax, VoiceSet};
use crate::menus::{MenuFault, VoiceCells};
use crate::score::{GridFault, Score};

/// Compiles only for types that threads may share and pass on.
fn is_shared<T: Send + Sync>(_: &T) {}

fn are_parts_shared(cell: &Cell, column: &Column, note: &Note, onset: &Onset, cells: &VoiceCells) {
    is_shared(cell);
    is_shared(column);
    is_shared(note);
    is_shared(onset);
    is_shared(cells);
}

fn are_lines_shared(
    head: &Head,
    place: &Place,
    range: &RangeLine,
    relax: &Relax,
    voices: &VoiceSet,
) {
    is_shared(head);
    is_shared(place);
    is_shared(range);
    is_shared(relax);
    is_shared(voices);
}

fn are_shared(exercise: &Exercise, score: &Score, menu_fault: &MenuFault, fault: &GridFault) {
    is_shared(exercise);
    is_shared(score);
    is_shared(menu_fault);
    is_shared(fault);
}
