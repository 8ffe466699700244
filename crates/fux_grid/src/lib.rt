//! Cells, columns, scores and exercises.
#![tactic(auto)]

mod cell;
mod exercise;
mod given;
mod letters;
mod menus;
mod notes;
mod places;
mod reading_order;
mod score;
mod shapes;
mod share;

pub use cell::{Cell, Column, Note, Onset};
pub use exercise::{
    Exercise, GREATEST_MIXED_RULE, GREATEST_RULE, Head, Place, RangeLine, Relax, VoiceSet, is_free,
    is_mixed, mixed_as, range, species_of,
};
pub use given::{Given, GivenBar, given_at};
pub use letters::{letters_from, shape};
pub use menus::{MenuFault, VoiceCells, WIDEST, can_start, menu, voice_cells, width};
pub use notes::{next_note, note_at, note_behind, onset_ahead, prev_note, sounding};
pub use places::{bar_of, place_of, slot_of};
pub use reading_order::{order, pitch_order};
pub use score::{GridFault, Score, cell_of, cells_follow, follows};
pub use shapes::{HOLD, REST, START, allows, shapes_of};
