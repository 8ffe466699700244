//! Rules and tolls of ranges, bar shapes, beginnings, endings, and what lies within a bar.
#![tactic(auto)]

mod bar_cells;
mod book;
mod cadence;
mod in_place;
mod inflections;
mod late;
mod letter_sets;
mod part;
mod patterns;
mod quavers;
mod rhythm;
mod rows;

pub use book::book_is_lawful;
pub use cadence::{breaks_cadence, has_suspension, is_suspended, leading_slot, shows_cadence};
pub use in_place::are_in_place;
pub use inflections::inflection_cost;
pub use letter_sets::{LetterSets, all_have, are_alike, fitting_shapes};
pub use part::{BarShapes, leaves_by_cell, leaves_last_shape, note, unbegun};
pub use patterns::{is_pattern_settled, missing_ligatures, pattern_cost};
pub use quavers::{breaks_quaver, is_quaver_settled, is_step_apart};
pub use rhythm::{Rhythm, breaks};
pub use rows::{
    begins_last_bar, ends_badly, is_final, is_final_in, lacks_final, leaves_gamut, leaves_range,
    may_end, opens_badly,
};
